// Tests of proposed values. What passes is shown, whoever proposed it.
//
// The values keep all bounds, every slot that carries is tight, and every node has a parent before it in some order from node 0: by a
// tight slot forwards, or by one that carries backwards. Where the amounts are a flow too (axis_amounts), the values are the smallest of
// the least.
#![tactic(auto)]

ghost use Rattle.std.specs.Prelude.{◌<◌};
ghost use Rattle.axis_graph.specs.Graph.{GraphWithin, SlotWithin, ValuesWithin, Holds, TightAt, Tights, Decides, Shows};
ghost use Rattle.axis_values.specs.Values.{Kept, Parent, Rooted, Rests};

use axis_bounds::Slot;
use axis_graph::fine::is_fine;
use axis_graph::{Graph, NODE_ROOM, NODES, PARENTS, SLOT_ROOM};
use axis_tie::is_tied;

// The highest value of a proposal.
const HIGHEST: u64 = 500000;

// Whether the values keep every bound.
fn bounds_hold(g: Graph, x: [u64; NODE_ROOM]) -> bool
    requires graph_within { GraphWithin g }
    requires values_within { ValuesWithin x }
    ensures { Shows result (Holds g.slots g.m x) }
{
    for s in &g.slots[..g.m] {
        if x[s.head] + s.minus < x[s.tail] + s.plus {
            return false;
        }
    }
    true
}

// Whether the values are within the limit and keep every bound.
fn keeps_all(g: Graph, x: [u64; NODE_ROOM]) -> bool
    requires { GraphWithin g }
    ensures { Shows result (Kept g x) }
{
    x.iter().all(|v| *v <= HIGHEST) && bounds_hold(g, x)
}

// Whether the bound of s is an equation at the values x.
fn is_tight(s: Slot, x: &[u64; NODE_ROOM]) -> bool
    requires slot_within { SlotWithin s }
    requires values_within { ValuesWithin x.now }
    ensures { Decides result (TightAt s x.now) }
{
    x[s.tail] + s.plus == x[s.head] + s.minus
}

// Whether every slot that carries something is tight.
fn tight_slots(g: Graph, f: [u64; SLOT_ROOM], x: [u64; NODE_ROOM]) -> bool
    requires graph_within { GraphWithin g }
    requires values_within { ValuesWithin x }
    ensures { Shows result (Tights g.slots g.m f x) }
{
    (0..g.m).all(|i| f[i] == 0 || is_tight(g.slots[i], &x))
}

// Whether node k has a parent.
fn has_parent(
    g: &Graph,
    f: &[u64; SLOT_ROOM],
    x: &[u64; NODE_ROOM],
    parents: &[usize; PARENTS],
    k: usize,
) -> bool
    requires graph_within { GraphWithin g.now }
    requires values_within { ValuesWithin x.now }
    requires k_in { k < 128 }
    ensures { Shows result (Parent g.now.slots g.now.m f.now x.now parents.now k) }
{
    let p = parents[k];
    if g.m <= p {
        return false;
    }
    let s = g.slots[p];
    is_tight(s, x)
        && is_tied(
            s,
            k,
            f[p],
            parents[NODES + s.tail],
            parents[NODES + s.head],
            parents[NODES + k],
        )
}

// Whether every node but 0 has a parent.
fn is_rooted(g: Graph, f: [u64; SLOT_ROOM], x: [u64; NODE_ROOM], parents: [usize; PARENTS]) -> bool
    requires graph_within { GraphWithin g }
    requires values_within { ValuesWithin x }
    ensures { Shows result (Rooted g.slots g.m f x parents g.n) }
{
    (1..g.n).all(|k| has_parent(&g, &f, &x, &parents, k))
}

// Whether the values keep all bounds, are tight where something is carried, and `parents` has parents and ranks that lead to node 0.
pub fn is_rest(
    g: Graph,
    f: [u64; SLOT_ROOM],
    x: [u64; NODE_ROOM],
    parents: [usize; PARENTS],
) -> bool
    ensures { Shows result (Rests g f x parents) }
{
    is_fine(g) && keeps_all(g, x) && tight_slots(g, f, x) && is_rooted(g, f, x, parents)
}
