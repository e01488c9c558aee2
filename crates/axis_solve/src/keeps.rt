// The bound of one slot.
ghost use Rattle.axis_graph.specs.Graph.{SlotWithin, ValuesWithin, HoldsAt, Decides};

use axis_bounds::Slot;
use axis_graph::NODE_ROOM;

// Whether the values x keep the bound of s.
pub(crate) fn is_kept(s: Slot, x: &[u64; NODE_ROOM]) -> bool
    requires slot_within { SlotWithin s }
    requires values_within { ValuesWithin x.now }
    ensures { Decides result (HoldsAt s x.now) }
{
    x[s.tail] + s.plus <= x[s.head] + s.minus
}
