// The slots and the nets of an axis, written into the arrays of a graph.
ghost use Rattle.std.specs.Prelude.{◌≡◌, ◌+◌, ◌*◌, ◌≤◌, take};
ghost use Rattle.std.proofs.lemmas.List.Edits.{sets};
ghost use Rattle.axis_bounds.specs.Axis.{nets_of};
ghost use Rattle.axis_bounds.specs.Listed.{slot, die_slots, net_slots};
ghost use Rattle.axis_bounds.specs.Held.{pins_before};
ghost use Rattle.axis_graph.specs.Limits.{slot_room};
ghost use Rattle.axis_held.specs.Ends.{ends_of};
ghost use Rattle.axis_graph.specs.Build.{SpansTo};

use axis_bounds::{Axis, AxisNet, AxisPin, Slot};
use axis_graph::{SLOT_ROOM, Span};

// How far hi may lie above the die corner, and lo below it.
const FAR: u64 = 32768;

// The span of no net.
pub(crate) const NO_SPAN: Span = Span {
    lo: 0,
    hi: 0,
    weight: 0,
};

// The bound of a slot.
fn bound(tail: usize, head: usize, plus: u64, minus: u64) -> Slot
    ensures { result ≡ slot tail head plus minus }
{
    Slot {
        tail,
        head,
        plus,
        minus,
    }
}

// The two slots of each macro, at the front.
pub(crate) fn put_sizes(
    mut ss: [Slot; SLOT_ROOM],
    side: u64,
    sizes: [u64; Axis::MACROS],
    n: usize,
) -> [Slot; SLOT_ROOM]
    requires { n ≤ 8 }
    ensures { result ≡ sets ss 0 (die_slots side 1 (take n sizes)) }
{
    for i in 0..n {
        ss[2 * i] = bound(0, i + 1, 0, 0);
        ss[2 * i + 1] = bound(i + 1, 0, sizes[i], side);
    }
    ss
}

// The slot of each pair, from `at` on.
pub(crate) fn put_pairs(
    mut ss: [Slot; SLOT_ROOM],
    at: usize,
    pairs: [Slot; Axis::PAIRS],
    p: usize,
) -> [Slot; SLOT_ROOM]
    requires p_bound { p ≤ 120 }
    requires p_bound_2 { at + p ≤ slot_room }
    ensures { result ≡ sets ss at (take p pairs) }
{
    ss[at..at + p].copy_from_slice(&pairs[..p]);
    ss
}

// The slots of the pins of t nets, from `at` on; the first net has node h as its hi. Each pin has two slots: to hi, and from lo,
// which is the node after hi.
pub(crate) fn put_nets(
    mut ss: [Slot; SLOT_ROOM],
    at: usize,
    base: u64,
    h: usize,
    nets: [AxisNet; Axis::NETS],
    pins: [AxisPin; Axis::PINS],
    t: usize,
) -> [Slot; SLOT_ROOM]
    requires t_bound { t ≤ 32 }
    requires nets_bound { pins_before t nets ≤ 128 }
    requires nets_bound_2 { at + 2 * pins_before t nets ≤ slot_room }
    requires h_bound { h ≤ 9 }
    ensures { result ≡ sets ss at (net_slots base h (nets_of (take t nets) pins)) }
{
    let mut from: usize = 0;
    for j in 0..t {
        let c = nets[j].pins;
        let hi = h + 2 * j;
        let start = at + 2 * from;
        for i in 0..c {
            let q = pins[from + i];
            let o = start + 2 * i;
            ss[o] = bound(q.node, hi, q.up, base);
            ss[o + 1] = bound(hi + 1, q.node, base, q.up);
        }
        from += c;
    }
    ss
}

// The two end slots of each of t nets, from `at` on.
pub(crate) fn put_ends(
    mut ss: [Slot; SLOT_ROOM],
    at: usize,
    h: usize,
    t: usize,
) -> [Slot; SLOT_ROOM]
    requires t_bound { t ≤ 32 }
    requires t_bound_2 { at + 2 * t ≤ slot_room }
    requires h_bound { h ≤ 9 }
    ensures { result ≡ sets ss at (ends_of h t) }
{
    for j in 0..t {
        let o = at + 2 * j;
        let hi = h + 2 * j;
        ss[o] = bound(hi, 0, 0, FAR);
        ss[o + 1] = bound(0, hi + 1, 0, FAR);
    }
    ss
}

// How many pins t nets have.
pub(crate) fn count_pins(nets: [AxisNet; Axis::NETS], t: usize) -> usize
    requires t_bound { t ≤ 32 }
    requires nets_bound { pins_before t nets ≤ 128 }
    ensures { result ≡ pins_before t nets }
{
    let mut c: usize = 0;
    for k in &nets[..t] {
        c += k.pins;
    }
    c
}

// The ends and the weights of t nets, of n macros.
pub(crate) fn spans(n: usize, nets: [AxisNet; Axis::NETS], t: usize) -> [Span; Axis::NETS]
    requires n_bound { n ≤ 8 }
    requires t_bound { t ≤ 32 }
    ensures { SpansTo n nets t result }
{
    let mut r = [NO_SPAN; Axis::NETS];
    for j in 0..t {
        let hi = n + 1 + 2 * j;
        r[j] = Span {
            lo: hi + 1,
            hi,
            weight: nets[j].weight,
        };
    }
    r
}
