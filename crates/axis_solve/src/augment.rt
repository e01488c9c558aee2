// The flow of one net: its weight goes from its lower node to its upper node.
ghost use Rattle.std.specs.Prelude.{◌<◌};
ghost use Rattle.axis_graph.specs.Limits.{node_room};
ghost use Rattle.axis_graph.specs.Graph.{GraphWithin, Leads, Net};
ghost use Rattle.axis_solve.specs.Growth.{Growing};
ghost use Rattle.axis_solve.specs.Augment.{ReachOk, Sound, Spare, TurnOk, Augmented};

use crate::growth::{Growth, grow_step, rebase, seed};
use crate::push::push;
use axis_graph::{Graph, NODE_ROOM, SLOT_ROOM};

// The values and amounts after one push, and the amount q of that push.
#[derive(Clone, Copy)]
struct Turn {
    x: [u64; NODE_ROOM],
    f: [u64; SLOT_ROOM],
    q: u64,
}

// Values and amounts.
#[derive(Clone, Copy)]
pub struct Flowed {
    pub x: [u64; NODE_ROOM],
    pub f: [u64; SLOT_ROOM],
}

// Grows until the goal joins.
fn reach(g: Graph, f: [u64; SLOT_ROOM], mut w: Growth, goal: usize) -> Growth
    requires graph_within { GraphWithin g }
    requires growing { Growing g f w }
    requires goal_lt_node_room { goal < node_room }
    requires leads { Leads g w.start goal }
    ensures { ReachOk g f w.start goal result }
{
    while w.rank[goal] == 0 {
        let Some(next) = grow_step(g, f, w) else {
            return w;
        };
        w = next;
    }
    w
}

// One growth from lo until hi joins, and one push of at most r.
fn one_turn(
    g: Graph,
    f: [u64; SLOT_ROOM],
    x: [u64; NODE_ROOM],
    lo: usize,
    hi: usize,
    r: u64,
) -> Turn
    requires graph_within { GraphWithin g }
    requires sound { Sound g f x }
    requires spare { Spare f r }
    requires net { Net g lo hi }
    requires r_nonzero { 0 < r }
    ensures { TurnOk g f lo hi r result.x result.f result.q }
{
    let w = reach(g, f, seed(x, lo, r), hi);
    let q = w.room[hi].min(r);
    Turn {
        x: rebase(w.x, g.n),
        f: push(g, f, w, hi, q),
        q,
    }
}

// The whole weight of a net, by turns.
pub(crate) fn augment(
    g: Graph,
    mut f: [u64; SLOT_ROOM],
    mut x: [u64; NODE_ROOM],
    lo: usize,
    hi: usize,
    mut weight: u64,
) -> Flowed
    requires graph_within { GraphWithin g }
    requires sound { Sound g f x }
    requires spare { Spare f weight }
    requires net { Net g lo hi }
    ensures { Augmented g f lo hi weight result.x result.f }
{
    while 0 < weight {
        let t = one_turn(g, f, x, lo, hi, weight);
        f = t.f;
        x = t.x;
        weight -= t.q;
    }
    Flowed { x, f }
}
