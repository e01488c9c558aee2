// The test that coordinates keep all bounds.
ghost use Rattle.half_arrays.specs.Says.{Says};
ghost use Rattle.half_arrays.specs.Arrays.{KeepsTo};
ghost use Rattle.half_arrays.specs.State.{limited};

use crate::values::values_of;
use axis_bounds::Axis;
use half_arrays::{ARCS, NODES, PAIRS, RAISED, bound};

pub fn keeps_bounds(arcs: &[u32; ARCS], at: [u64; Axis::MACROS]) -> bool
    ensures { Says result (KeepsTo arcs.now (limited at) 81) }
{
    let x = values_of(at);
    for c in 0..PAIRS {
        if x[c % NODES] + RAISED < x[c / NODES] + bound(arcs, c) {
            return false;
        }
    }
    true
}
