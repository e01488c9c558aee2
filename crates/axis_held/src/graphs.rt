// The graphs of an axis, and its nets: the macros alone, with the pairs, and the whole.
ghost use Rattle.std.specs.Prelude.{◌≡◌, ◌+◌, ◌*◌, take, replicate};
ghost use Rattle.std.proofs.lemmas.List.Edits.{sets};
ghost use Rattle.axis_bounds.specs.Axis.{axis_of, no_slot};
ghost use Rattle.axis_bounds.specs.Listed.{die_slots};
ghost use Rattle.axis_bounds.specs.Graph.{macro_slots};
ghost use Rattle.axis_bounds.specs.Held.{Held};
ghost use Rattle.axis_graph.specs.Limits.{slot_room};
ghost use Rattle.axis_graph.specs.Build.{slots_from, die_graph, macro_graph, whole_graph};
ghost use Rattle.axis_held.specs.Graphs.{blank_graph, GraphOf, SpansOfAxis};

use crate::accept::is_held;
use crate::build::{NO_SPAN, count_pins, put_ends, put_nets, put_pairs, put_sizes, spans};
use axis_bounds::{Axis, Slot};
use axis_graph::{Graph, SLOT_ROOM, Span};

// A slot that asks nothing.
const NO_SLOT: Slot = Slot {
    tail: 0,
    head: 0,
    plus: 0,
    minus: 0,
};

// The graph without nodes.
fn blank() -> Graph
    ensures { result ≡ blank_graph }
{
    Graph {
        n: 0,
        m: 0,
        slots: [NO_SLOT; SLOT_ROOM],
    }
}

// The slots of the macros.
fn die_slots(a: Axis) -> [Slot; SLOT_ROOM]
    requires { Held a }
    ensures { result ≡ sets (replicate slot_room no_slot) 0 (die_slots a.side 1 (take a.n a.sizes)) }
{
    put_sizes([NO_SLOT; SLOT_ROOM], a.side, a.sizes, a.n)
}

// The slots of the macros and the pairs.
fn macro_slots(a: Axis) -> [Slot; SLOT_ROOM]
    requires { Held a }
    ensures { result ≡ slots_from (macro_slots (axis_of a)) }
{
    put_pairs(die_slots(a), 2 * a.n, a.pairs, a.p)
}

// The graph of the macros that has these slots, of an axis within the limits.
fn small(a: Axis, slots: [Slot; SLOT_ROOM]) -> Graph
    requires { Held a }
    ensures { result ≡ record { n = a.n + 1; m = 2 * a.n + a.p; slots = slots } }
{
    Graph {
        n: a.n + 1,
        m: 2 * a.n + a.p,
        slots,
    }
}

// The whole graph of an axis within the limits.
fn whole(a: Axis) -> Graph
    requires { Held a }
    ensures { result ≡ whole_graph (axis_of a) }
{
    let at = 2 * a.n + a.p;
    let end = at + 2 * count_pins(a.nets, a.t);
    let h = a.n + 1;
    let listed = put_nets(macro_slots(a), at, a.base, h, a.nets, a.pins, a.t);
    Graph {
        n: h + 2 * a.t,
        m: end + 2 * a.t,
        slots: put_ends(listed, end, h, a.t),
    }
}

// The graph of the macros' slots, with room for those of the pairs.
pub fn die_graph(a: Axis) -> Graph
    ensures { GraphOf a (die_graph (axis_of a)) result }
{
    if is_held(a) {
        small(a, die_slots(a))
    } else {
        blank()
    }
}

// The graph of the macros and the pairs.
pub fn macro_graph(a: Axis) -> Graph
    ensures { GraphOf a (macro_graph (axis_of a)) result }
{
    if is_held(a) {
        small(a, macro_slots(a))
    } else {
        blank()
    }
}

// The graph of the macros, the pairs and the nets.
pub fn whole_graph(a: Axis) -> Graph
    ensures { GraphOf a (whole_graph (axis_of a)) result }
{
    if is_held(a) { whole(a) } else { blank() }
}

// The ends and the weights of the nets.
pub fn net_spans(a: Axis) -> [Span; Axis::NETS]
    ensures { SpansOfAxis a result }
{
    if is_held(a) {
        spans(a.n, a.nets, a.t)
    } else {
        [NO_SPAN; Axis::NETS]
    }
}
