// An axis as the fast fit reads it. Every index is taken modulo its range and sums modulo 2^32, since nothing is promised of a proposal.
//
// tab: the nets as entries, one for each net and node with pins on it. Parts of 128 numbers: node, greatest and least place and net of
// each entry; at 512 where the entries of each net begin, at 576 the nets' weights; at 896 the counts of nets, macros and entries.
// picks: the pin at the greatest place of each entry, and at 128 on the one at the least. ends: node of each pin, at 128 on its place.
// arcs: the greatest bound from u to v at place 9 u + v, held higher by 2^24. by: the slot that has it.
use axis_bounds::{Axis, AxisNet, AxisPin, Slot};
use half_fit::{ARCS, TAB};
use std::num::{wrapping_add_u32, wrapping_sub_u32};

pub(crate) const PICKS: usize = 256;

// The die corner and the macros.
pub(crate) const CORNERS: usize = Axis::MACROS + 1;

// Bounds are held higher by this.
pub(crate) const BIAS: u32 = 16777216;

// No bound.
pub(crate) const LOW: u32 = 15777216;

// A place above all others.
pub(crate) const FAR: u32 = 1000000;

pub(crate) fn wide(x: u32) -> usize {
    x as usize
}

fn narrow(x: u64) -> u32 {
    (x % 65536) as u32
}

// Number k of part p.
pub(crate) fn part(tab: &[u32; TAB], p: usize, k: usize) -> u32 {
    tab[p % 8 * 128 + k % 128]
}

fn set_part(tab: &mut [u32; TAB], p: usize, k: usize, v: u32) {
    tab[p % 8 * 128 + k % 128] = v;
}

// ---- bounds

pub(crate) fn cell(u: usize, v: usize) -> usize {
    (u % 16 * CORNERS + v % 16) % ARCS
}

// The bound plus - minus from u to v of slot s, if it is above the one that stands.
fn offer(
    arcs: &mut [u32; ARCS],
    by: &mut [usize; ARCS],
    u: usize,
    v: usize,
    plus: u64,
    minus: u64,
    s: usize,
) {
    let c = cell(u, v) % ARCS;
    let b = wrapping_sub_u32(wrapping_add_u32(BIAS, narrow(plus)), narrow(minus));
    if arcs[c] < b {
        arcs[c] = b;
        by[c] = s;
    }
}

// The bounds of the die: from the corner for every node, back to it for n macros.
pub(crate) fn put_die(
    arcs: &mut [u32; ARCS],
    by: &mut [usize; ARCS],
    side: u64,
    sizes: [u64; Axis::MACROS],
    n: usize,
) {
    for (i, w) in sizes.iter().enumerate() {
        offer(arcs, by, 0, i + 1, 0, 0, 2 * i);
        if i < n {
            offer(arcs, by, i + 1, 0, *w, side, 2 * i + 1);
        }
    }
}

// The bounds of p pairs, whose slots begin at `from`.
pub(crate) fn put_letters(
    arcs: &mut [u32; ARCS],
    by: &mut [usize; ARCS],
    pairs: [Slot; Axis::PAIRS],
    p: usize,
    from: usize,
) {
    for (j, s) in pairs[..p.min(Axis::PAIRS)].iter().enumerate() {
        offer(arcs, by, s.tail, s.head, s.plus, s.minus, from % 1024 + j);
    }
}

// ---- nets

// The nodes and the places of the pins.
fn put_pins(pins: [AxisPin; Axis::PINS], ends: &mut [u32; PICKS]) {
    for (i, q) in pins.iter().enumerate() {
        ends[i] = narrow(q.node as u64);
        ends[128 + i] = narrow(q.up);
    }
}

fn put_entry(
    tab: &mut [u32; TAB],
    picks: &mut [u32; PICKS],
    e: usize,
    node: usize,
    net: usize,
    most: u32,
    least: u32,
    top: usize,
    bottom: usize,
) {
    set_part(tab, 0, e, narrow(node as u64));
    set_part(tab, 1, e, most);
    set_part(tab, 2, e, least);
    set_part(tab, 3, e, narrow(net as u64));
    picks[e % 128] = narrow(top as u64);
    picks[128 + e % 128] = narrow(bottom as u64);
}

// The entry of a node on a net whose pins stand from q up to `to`, if it has pins on it; the next free entry.
fn put_node(
    tab: &mut [u32; TAB],
    picks: &mut [u32; PICKS],
    ends: &[u32; PICKS],
    q: usize,
    to: usize,
    net: usize,
    node: usize,
    e: usize,
) -> usize {
    let mut most: u32 = 0;
    let mut least = FAR;
    let mut top = q;
    let mut bottom = q;
    for i in q..to {
        if wide(ends[i % 128]) == node {
            let y = ends[128 + i % 128];
            if most <= y {
                most = y;
                top = i;
            }
            if y < least {
                least = y;
                bottom = i;
            }
        }
    }
    if most < least {
        return e;
    }
    put_entry(tab, picks, e, node, net, most, least, top, bottom);
    e % 128 + 1
}

// The entries of a net; the next free entry.
fn put_net(
    tab: &mut [u32; TAB],
    picks: &mut [u32; PICKS],
    ends: &[u32; PICKS],
    q: usize,
    to: usize,
    net: usize,
    first: usize,
) -> usize {
    let mut e = first;
    for node in 0..CORNERS {
        e = put_node(tab, picks, ends, q, to, net, node, e);
    }
    e
}

// The entries and the weights of t nets; how many entries there are.
fn put_nets(
    tab: &mut [u32; TAB],
    picks: &mut [u32; PICKS],
    ends: &[u32; PICKS],
    nets: [AxisNet; Axis::NETS],
    t: usize,
) -> usize {
    let mut q: usize = 0;
    let mut e: usize = 0;
    for (j, k) in nets[..t.min(Axis::NETS)].iter().enumerate() {
        let to = q % 1024 + k.pins % 1024;
        set_part(tab, 4, j, narrow(e as u64));
        set_part(tab, 4, 64 + j, narrow(k.weight));
        e = put_net(tab, picks, ends, q, to, j, e);
        q = to;
    }
    e
}

// The tables of t nets and n macros.
pub(crate) fn put_tables(
    tab: &mut [u32; TAB],
    picks: &mut [u32; PICKS],
    nets: [AxisNet; Axis::NETS],
    pins: [AxisPin; Axis::PINS],
    t: usize,
    n: usize,
) {
    let mut ends = [0u32; PICKS];
    put_pins(pins, &mut ends);
    let e = narrow(put_nets(tab, picks, &ends, nets, t) as u64);
    set_part(tab, 4, t % 64, e);
    set_part(tab, 7, 0, narrow(t as u64));
    set_part(tab, 7, 1, narrow(n as u64));
    set_part(tab, 7, 2, e);
}
