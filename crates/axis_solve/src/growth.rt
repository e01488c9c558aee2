// The growth of a set of nodes along tight slots. One step raises the values of the set by the least slack of a slot that
// leaves it, and the node at the other end of that slot joins.
ghost use Rattle.std.specs.Prelude.{◌≡◌, ◌<◌, ◌≤◌, get_or, IsTrue, MatchOption};
ghost use Rattle.axis_graph.specs.Limits.{no_slack, node_room, slot_room};
ghost use Rattle.axis_bounds.specs.Listed.{slot_at};
ghost use Rattle.axis_graph.specs.Graph.{SlotWithin, GraphWithin, ValuesWithin, Holds, Leaving, Closed, Decides};
ghost use Rattle.axis_solve.specs.Growth.{seed_of, join_of, Least, Raised, Spread, Shifted, Growing, Ready, Joined, StepOk};

use axis_graph::{Graph, NODE_ROOM, SLOT_ROOM};

// The most that two values under all bounds differ.
pub(crate) const FARTHEST: u64 = 250000;

// A slot that leaves the set, and its slack.
#[derive(Clone, Copy)]
struct Leave {
    slot: usize,
    by: u64,
}

// x: the values of the nodes. rank: the place of a node in the order of joining, 0 outside the set. parent: the slot by which
// a node joined. room: what can be pushed to it from the start. count: the number of nodes in the set. start: the first.
#[derive(Clone, Copy)]
pub(crate) struct Growth {
    pub x: [u64; NODE_ROOM],
    pub rank: [usize; NODE_ROOM],
    pub parent: [usize; NODE_ROOM],
    pub room: [u64; NODE_ROOM],
    pub count: usize,
    pub start: usize,
}

// The set of one node, with room r.
pub(crate) fn seed(x: [u64; NODE_ROOM], start: usize, r: u64) -> Growth
    requires { start < node_room }
    ensures { result ≡ seed_of x start r }
{
    let mut rank = [0usize; NODE_ROOM];
    rank[start] = 1;
    let mut room = [0u64; NODE_ROOM];
    room[start] = r;
    Growth {
        x,
        rank,
        parent: [0usize; NODE_ROOM],
        room,
        count: 1,
        start,
    }
}

// Whether a slot leaves the set, by the ranks t and h of its ends and its amount: forwards, or backwards where it carries.
fn leaves(t: usize, h: usize, amount: u64) -> bool
    ensures { Decides result (Leaving t h amount) }
{
    if 0 < t { h == 0 } else { 0 < h && 0 < amount }
}

// Whether a slack is below the least so far.
fn is_less(by: u64, best: Option<Leave>) -> bool
    ensures { MatchOption best (IsTrue result) (λ l. Decides result (by < l.by)) }
{
    best.is_none_or(|l| by < l.by)
}

// Looks through all slots for the one of least slack; a slack of 0 ends the scan.
fn least_leaving(
    g: Graph,
    f: [u64; SLOT_ROOM],
    x: [u64; NODE_ROOM],
    rank: [usize; NODE_ROOM],
) -> Option<Leave>
    requires graph_within { GraphWithin g }
    requires values_within { ValuesWithin x }
    requires holds { Holds g.slots g.m x }
    ensures { MatchOption result (Closed g f rank) (λ l. (l.by < no_slack) × Least g.slots g.m f x rank g.m l.slot l.by) }
{
    let mut best: Option<Leave> = None;
    for i in 0..g.m {
        let s = g.slots[i];
        if leaves(rank[s.tail], rank[s.head], f[i]) {
            let by = x[s.head] + s.minus - (x[s.tail] + s.plus);
            if by == 0 {
                return Some(Leave { slot: i, by: 0 });
            }
            if is_less(by, best) {
                best = Some(Leave { slot: i, by });
            }
        }
    }
    best
}

// The values of the set raised by d.
fn raise(x: [u64; NODE_ROOM], rank: [usize; NODE_ROOM], d: u64) -> [u64; NODE_ROOM]
    requires values_within { ValuesWithin x }
    requires d_lt_no_slack { d < no_slack }
    ensures { Raised rank d x result node_room }
{
    let mut y = x;
    for k in 0..NODE_ROOM {
        if 0 < rank[k] {
            y[k] = x[k] + d;
        }
    }
    y
}

// Node v joins by slot p with room q, and the values are y.
fn join(mut w: Growth, y: [u64; NODE_ROOM], v: usize, p: usize, q: u64) -> Growth
    requires v_lt_node_room { v < node_room }
    requires count_lt_node_room { w.count < node_room }
    ensures { result ≡ join_of w y v p q }
{
    w.count += 1;
    w.x = y;
    w.rank[v] = w.count;
    w.parent[v] = p;
    w.room[v] = q;
    w
}

// The node at the outer end of slot p joins.
fn attach(g: Graph, f: [u64; SLOT_ROOM], w: Growth, y: [u64; NODE_ROOM], p: usize) -> Growth
    requires p_lt_slot_room { p < slot_room }
    requires slot_within { SlotWithin (slot_at g.slots p) }
    requires ready { Ready g f w y p }
    ensures { Joined g f w result }
{
    let s = g.slots[p];
    if 0 < w.rank[s.tail] {
        join(w, y, s.head, p, w.room[s.tail])
    } else {
        join(w, y, s.tail, p, f[p].min(w.room[s.head]))
    }
}

// One step of the growth, if a slot leaves the set.
pub(crate) fn grow_step(g: Graph, f: [u64; SLOT_ROOM], w: Growth) -> Option<Growth>
    requires graph_within { GraphWithin g }
    requires growing { Growing g f w }
    ensures { StepOk g f w result }
{
    let l = least_leaving(g, f, w.x, w.rank)?;
    Some(attach(g, f, w, raise(w.x, w.rank, l.by), l.slot))
}

// The values moved together, so that node 0 has FARTHEST.
pub(crate) fn rebase(x: [u64; NODE_ROOM], n: usize) -> [u64; NODE_ROOM]
    requires n_le_node_room { n ≤ node_room }
    requires values_within { ValuesWithin x }
    requires spread { Spread x n }
    ensures { Shifted (get_or x 0 0) x result n }
{
    let mut y = x;
    for k in 0..n {
        y[k] = x[k] + FARTHEST - x[0];
    }
    y
}
