// Bounds added one after the other: values that keep them all, or a circulation that shows there are none.
ghost use Rattle.std.specs.Prelude.{◌≤◌};
ghost use Rattle.axis_graph.specs.Limits.{slot_room};
ghost use Rattle.axis_graph.specs.Graph.{SlotWithin, GraphWithin, Leads, Net};
ghost use Rattle.axis_solve.specs.Growth.{Growing};
ghost use Rattle.axis_solve.specs.Admit.{with_slot, target, Feasible, Fresh, Approached, Wanted, AdmitOk};

use crate::growth::{Growth, grow_step, rebase, seed};
use crate::keeps::is_kept;
use crate::push::push;
use axis_bounds::Slot;
use axis_graph::{Graph, NODE_ROOM, SLOT_ROOM};

// Grows until the bound of s holds, or its tail joins.
fn approach(g: Graph, f: [u64; SLOT_ROOM], mut w: Growth, s: Slot) -> Growth
    requires graph_within { GraphWithin g }
    requires growing { Growing g f w }
    requires slot_within { SlotWithin s }
    requires leads { Leads g w.start s.tail }
    ensures { Approached g f w.start s result }
{
    while w.rank[s.tail] == 0 && !is_kept(s, &w.x) {
        let Some(next) = grow_step(g, f, w) else {
            return w;
        };
        w = next;
    }
    w
}

// One bound more, at the unused slot j: values that keep all bounds, or amounts that refute them.
fn admit_slot(
    g: Graph,
    x: [u64; NODE_ROOM],
    j: usize,
    s: Slot,
) -> Result<[u64; NODE_ROOM], [u64; SLOT_ROOM]>
    requires graph_within { GraphWithin g }
    requires feasible { Feasible g x }
    requires fresh { Fresh g j }
    requires slot_within { SlotWithin s }
    requires net { Net g s.head s.tail }
    ensures { AdmitOk (with_slot g j s) result }
{
    let f = [0u64; SLOT_ROOM];
    let w = approach(g, f, seed(x, s.head, 1), s);
    if is_kept(s, &w.x) {
        Ok(rebase(w.x, g.n))
    } else {
        let mut h = push(g, f, w, s.tail, 1);
        h[j] = 1;
        Err(h)
    }
}

// Every bound of `full` between the two places, one after the other.
pub(crate) fn admit_all(
    mut g: Graph,
    mut x: [u64; NODE_ROOM],
    full: [Slot; SLOT_ROOM],
    from: usize,
    to: usize,
) -> Result<[u64; NODE_ROOM], [u64; SLOT_ROOM]>
    requires graph_within { GraphWithin g }
    requires feasible { Feasible g x }
    requires from_le_to { from ≤ to }
    requires to_le_slot_room { to ≤ slot_room }
    requires wanted { Wanted g full from to }
    ensures { AdmitOk (target g full) result }
{
    for j in from..to {
        x = admit_slot(g, x, j, full[j])?;
        g.slots[j] = full[j];
    }
    Ok(x)
}
