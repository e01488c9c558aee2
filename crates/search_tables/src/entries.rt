// The nets of a direction as entries: a net and a node that has pins on it, with the greatest and the least place of those pins.
// Parts of 128 numbers: 0 on the nodes, 128 on the greatest places, 256 on the least, 384 on the nets of the entries. At 512 + j the
// entries of net j begin, at 576 + j stands its weight; at 896, 897, 898 the counts of nets, macros and entries.
ghost use Rattle.std.specs.Prelude.{◌≡◌, ◌+◌, ◌*◌, ◌≤◌, ◌<◌};
ghost use Rattle.chip_text.specs.Valid.{pins_before};
ghost use Rattle.half_arrays.specs.Arrays.{entry_count};
ghost use Rattle.search_tables.specs.Entries.{up_on, pin_on, pins_on, start_of, Spans, with_entry, Entered, NetsIn, NetPut};

use crate::TAB;
use crate::limits::narrow;
use axis_bounds::AxisPin;
use fit_slots::Direction;
use model::{Net, Pin};
use search_numbers::{Span, joined};

fn pin_up(p: Pin, d: Direction) -> u64
    ensures { result ≡ up_on d p }
{
    match d {
        Direction::Horizontal => p.xup,
        Direction::Vertical => p.yup,
    }
}

fn pin_on(p: Pin, d: Direction) -> AxisPin
    ensures { result ≡ pin_on d p }
{
    AxisPin {
        node: p.m % 9,
        up: pin_up(p, d) % 65536,
    }
}

// The places of the pins on a node, of those from `from` to before `to`.
fn node_span(pins: [Pin; Pin::COUNT], d: Direction, from: usize, to: usize, node: usize) -> Span
    requires from_le_to { from ≤ to }
    requires to_bound { to ≤ 128 }
    ensures { Spans (pins_on d pins) from to node result }
{
    let mut s = Span {
        some: false,
        most: 0,
        least: 0,
    };
    for i in from..to {
        let p = pin_on(pins[i], d);
        if p.node == node {
            s = joined(s, p.up);
        }
    }
    s
}

fn put_entry(tab: &mut [u32; TAB], e: usize, node: usize, most: u64, least: u64, net: usize)
    ensures { tab.new ≡ with_entry tab.old e node most least net }
{
    tab[e % 128] = narrow(node as u64);
    tab[128 + e % 128] = narrow(most);
    tab[256 + e % 128] = narrow(least);
    tab[384 + e % 128] = narrow(net as u64);
}

// The entries of net j from entry e on, one for each node with pins; the next free entry.
fn put_net(
    nets: [Net; Net::COUNT],
    pins: [Pin; Pin::COUNT],
    d: Direction,
    j: usize,
    from: usize,
    e: usize,
    tab: &mut [u32; TAB],
) -> usize
    requires j_bound { j < 32 }
    requires from_value { from ≡ pins_before j nets }
    requires nets_bound { pins_before (j + 1) nets ≤ 128 }
    requires e_le_from { e ≤ from }
    requires entered { Entered (pins_on d pins) (start_of nets) tab.old e (9 * j) }
    ensures { NetPut d nets pins j result tab.old tab.new }
{
    let mut next = e;
    for node in 0..9 {
        let s = node_span(pins, d, from, from + nets[j].pins, node);
        if s.some {
            put_entry(tab, next, node, s.most, s.least, j);
            next += 1;
        }
    }
    next
}

// The entries and the weights of t nets; how many entries there are.
fn put_nets(
    nets: [Net; Net::COUNT],
    t: usize,
    pins: [Pin; Pin::COUNT],
    d: Direction,
    tab: &mut [u32; TAB],
) -> usize
    requires t_bound { t ≤ 32 }
    requires nets_bound { pins_before t nets ≤ 128 }
    requires nets_in { NetsIn d nets pins tab.old 0 0 }
    ensures { NetsIn d nets pins tab.new result t }
{
    let mut from: usize = 0;
    let mut e: usize = 0;
    for j in 0..t {
        let net = nets[j];
        tab[512 + j] = narrow(e as u64);
        tab[576 + j] = narrow(net.weight);
        e = put_net(nets, pins, d, j, from, e, tab);
        from += net.pins;
    }
    e
}

// The whole array, for t nets and n macros.
pub(crate) fn net_table(
    nets: [Net; Net::COUNT],
    t: usize,
    pins: [Pin; Pin::COUNT],
    n: usize,
    d: Direction,
) -> [u32; TAB]
    requires t_bound { t ≤ 32 }
    requires nets_bound { pins_before t nets ≤ 128 }
    ensures { NetsIn d nets pins result (entry_count result) t }
{
    let mut tab = [0u32; TAB];
    let e = put_nets(nets, t, pins, d, &mut tab);
    tab[512 + t] = narrow(e as u64);
    tab[896] = narrow(t as u64);
    tab[897] = narrow(n as u64);
    tab[898] = narrow(e as u64);
    tab
}
