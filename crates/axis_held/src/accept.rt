// Whether an axis is within the limits of the solver.
ghost use Rattle.std.specs.Prelude.{◌≤◌};
ghost use Rattle.axis_bounds.specs.Axis.{WellFormedPair, WellFormedPin};
ghost use Rattle.axis_bounds.specs.Held.{Held};
ghost use Rattle.axis_graph.specs.Above.{NoneAbove};
ghost use Rattle.axis_graph.specs.Graph.{Decides};
ghost use Rattle.axis_held.specs.Accept.{PairsTo, PinsTo, NetCounts, NetsTo, FrameTo};

use axis_bounds::{Axis, AxisNet, AxisPin, Slot};

const SIDE_MOST: u64 = 8192;

const SHIFT_MOST: u64 = 16384;

const WEIGHT_MOST: u64 = 1000;

// A pair's slot between nodes of n macros.
fn pair_fine(s: Slot, n: usize) -> bool
    ensures { Decides result (WellFormedPair n s) }
{
    s.tail <= n && s.head <= n && s.plus <= SHIFT_MOST && s.minus <= SHIFT_MOST
}

// The first p pairs.
fn pairs_fine(pairs: &[Slot; Axis::PAIRS], p: usize, n: usize) -> bool
    requires { p ≤ 120 }
    ensures { Decides result (PairsTo n pairs.now p) }
{
    pairs.iter().take(p).all(|s| pair_fine(*s, n))
}

// A pin of one of n macros, or a pad.
fn pin_fine(q: AxisPin, n: usize) -> bool
    ensures { Decides result (WellFormedPin n q) }
{
    q.node <= n && q.up <= SHIFT_MOST
}

// The pins between two places.
fn pins_fine(pins: &[AxisPin; Axis::PINS], from: usize, to: usize, n: usize) -> bool
    requires from_le_to { from ≤ to }
    requires to_bound { to ≤ 128 }
    ensures { Decides result (PinsTo n pins.now from to) }
{
    pins[from..to].iter().all(|q| pin_fine(*q, n))
}

// The counts of a net that comes after `from` pins.
fn counts_fine(t: AxisNet, from: usize) -> bool
    requires { from ≤ 128 }
    ensures { Decides result (NetCounts t from) }
{
    1 <= t.weight && t.weight <= WEIGHT_MOST && 1 <= t.pins && t.pins <= Axis::PINS - from
}

// The first t nets, with their pins.
fn nets_fine(nets: &[AxisNet; Axis::NETS], pins: &[AxisPin; Axis::PINS], t: usize, n: usize) -> bool
    requires { t ≤ 32 }
    ensures { Decides result (NetsTo n nets.now pins.now t) }
{
    let mut from: usize = 0;
    for k in &nets[..t] {
        if !counts_fine(*k, from) || !pins_fine(pins, from, from + k.pins, n) {
            return false;
        }
        from += k.pins;
    }
    true
}

// The counts and the numbers that stand alone.
fn frame_fine(a: Axis) -> bool
    ensures { Decides result (FrameTo a) }
{
    a.n <= Axis::MACROS
        && a.p <= Axis::PAIRS
        && a.t <= Axis::NETS
        && a.side <= SIDE_MOST
        && a.base <= SHIFT_MOST
}

// The first n sides.
fn sizes_fine(sizes: &[u64; Axis::MACROS], n: usize) -> bool
    ensures { Decides result (NoneAbove 8192 sizes.now n) }
{
    sizes.iter().take(n).all(|w| *w <= SIDE_MOST)
}

// Whether the solver takes the axis.
pub fn is_held(a: Axis) -> bool
    ensures { Decides result (Held a) }
{
    frame_fine(a)
        && sizes_fine(&a.sizes, a.n)
        && pairs_fine(&a.pairs, a.p, a.n)
        && nets_fine(&a.nets, &a.pins, a.t, a.n)
}
