// Whether a graph is within the limits: its counts within the arrays, and the ends of its slots among its nodes.
ghost use Rattle.axis_graph.specs.Graph.{Decides, EndsWithin, GraphWithin};

use crate::{Graph, NODE_ROOM, SLOT_ROOM};
use axis_bounds::Slot;

// The most that a side of a bound adds to a value.
const SIDE_MOST: u64 = 32768;

// A slot between two of n nodes.
fn fine_slot(s: Slot, n: usize) -> bool
    ensures { Decides result (EndsWithin n s) }
{
    s.tail < n && s.head < n && s.plus <= SIDE_MOST && s.minus <= SIDE_MOST
}

// Whether the graph is within the limits.
pub fn is_fine(g: Graph) -> bool
    ensures { Decides result (GraphWithin g) }
{
    g.n <= NODE_ROOM && g.m <= SLOT_ROOM && g.slots.iter().take(g.m).all(|s| fine_slot(*s, g.n))
}
