// The push of an amount along an augmenting path.
ghost use Rattle.axis_graph.specs.Graph.{GraphWithin};
ghost use Rattle.axis_solve.specs.Push.{Pushable, Pushed};

use crate::growth::Growth;
use axis_graph::{Graph, SLOT_ROOM};

// q more from the start of the growth to the goal: along the parents a slot walked forwards gains q, one walked backwards
// loses q.
pub(crate) fn push(
    g: Graph,
    mut f: [u64; SLOT_ROOM],
    w: Growth,
    goal: usize,
    q: u64,
) -> [u64; SLOT_ROOM]
    requires graph_within { GraphWithin g }
    requires pushable { Pushable g f w goal q }
    ensures { Pushed g f w goal q result }
{
    let mut c = goal;
    while c != w.start {
        let p = w.parent[c];
        let s = g.slots[p];
        if s.head == c {
            f[p] += q;
            c = s.tail;
        } else {
            f[p] -= q;
            c = s.head;
        }
    }
    f
}
