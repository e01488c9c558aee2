// The coordinates of the macros, from the values of the nodes.
ghost use Rattle.axis_held.specs.Graphs.{Offsets};

use axis_bounds::Axis;
use axis_graph::NODE_ROOM;

// How far each of n macros lies from node 0.
pub fn coordinates(x: [u64; NODE_ROOM], n: usize) -> [u64; Axis::MACROS]
    ensures { Offsets x result n }
{
    let mut r = [0u64; Axis::MACROS];
    for k in 0..n.min(Axis::MACROS) {
        r[k] = x[k + 1].saturating_sub(x[0]);
    }
    r
}
