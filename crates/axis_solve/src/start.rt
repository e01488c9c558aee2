// The values that the whole graph starts from.
ghost use Rattle.std.specs.Prelude.{◌+◌, ◌≤◌};
ghost use Rattle.axis_bounds.specs.Held.{pins_before};
ghost use Rattle.axis_solve.specs.Start.{PinsIn, NetsIn, Around, Resting, Started};

use crate::growth::FARTHEST;
use axis_bounds::{Axis, AxisNet, AxisPin};
use axis_graph::NODE_ROOM;

// The highest place of a pin at the start; the lowest is FARTHEST, where node 0 lies.
const TOPMOST: u64 = 274576;

// The least and the greatest place of a net's pins.
#[derive(Clone, Copy)]
struct Ends {
    lo: u64,
    hi: u64,
}

// The least and the greatest place of c pins.
fn net_ends(x: [u64; NODE_ROOM], pins: [AxisPin; Axis::PINS], from: usize, c: usize) -> Ends
    requires c_bound { from + c ≤ 128 }
    requires pins_in { PinsIn x pins from (from + c) }
    ensures { Around x pins from (from + c) result.lo result.hi }
{
    let mut lo = TOPMOST;
    let mut hi = FARTHEST;
    for q in &pins[from..from + c] {
        let y = x[q.node] + q.up;
        lo = y.min(lo);
        hi = y.max(hi);
    }
    Ends { lo, hi }
}

// The values x of the macros, and for each net the greatest and the least place of its pins, less the base.
pub(crate) fn start_values(
    x: [u64; NODE_ROOM],
    n: usize,
    base: u64,
    nets: [AxisNet; Axis::NETS],
    pins: [AxisPin; Axis::PINS],
    t: usize,
) -> [u64; NODE_ROOM]
    requires n_bound { n ≤ 8 }
    requires base_bound { base ≤ 16384 }
    requires t_bound { t ≤ 32 }
    requires nets_bound { pins_before t nets ≤ 128 }
    requires resting { Resting x }
    requires nets_in { NetsIn x nets pins t }
    ensures { Started n base nets pins x result t }
{
    let mut y = x;
    let mut from: usize = 0;
    for j in 0..t {
        let c = nets[j].pins;
        let e = net_ends(x, pins, from, c);
        let hi = n + 1 + 2 * j;
        y[hi] = e.hi - base;
        y[hi + 1] = e.lo - base;
        from += c;
    }
    y
}
