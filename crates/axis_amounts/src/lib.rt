// Tests of proposed amounts. What passes is shown, whoever proposed it.
//
// Amounts are a flow where what enters a node and what leaves it is the same, the nets' weights included. A closed chain whose pluses
// outweigh its minuses shows that no values keep the bounds.
#![tactic(auto)]

ghost use Rattle.std.specs.Prelude.{◌≡◌, ◌≤◌};
ghost use Rattle.num_laws.specs.Sum.{sum};
ghost use Rattle.axis_graph.specs.Limits.{net_room, amount_most};
ghost use Rattle.axis_bounds.specs.Listed.{tails, heads};
ghost use Rattle.axis_graph.specs.Graph.{at, GraphWithin, Shows};
ghost use Rattle.axis_graph.specs.Solved.{los, his, weights, Refuted};
ghost use Rattle.axis_amounts.specs.Amounts.{Within, Idle, Outweighs, no_sums, added_at, RoomFor, Summed, Modest, SpanWithin, SpansWithin, Spanned, Closed, Balanced, Flow};

use axis_bounds::Axis;
use axis_graph::fine::is_fine;
use axis_graph::{Graph, NODE_ROOM, SLOT_ROOM, Span};
use axis_tie::{is_even, is_gain};

// The most that a net weighs.
const WEIGHT_MOST: u64 = 1000;

// What enters and what leaves each node.
#[derive(Clone, Copy)]
struct Sums {
    into: [u64; NODE_ROOM],
    out: [u64; NODE_ROOM],
}

// Whether no slot carries more than q.
fn within(f: [u64; SLOT_ROOM], q: u64) -> bool
    ensures { Shows result (Within f q) }
{
    f.iter().all(|a| *a <= q)
}

// Whether nothing is carried past the last slot, nor by a slot from a node to itself that asks nothing.
fn idle_slots(g: Graph, f: [u64; SLOT_ROOM]) -> bool
    ensures { Shows result (Idle g f) }
{
    for (i, s) in g.slots.iter().enumerate() {
        if 0 < f[i] && (g.m <= i || (s.tail == s.head && s.plus == s.minus)) {
            return false;
        }
    }
    true
}

// A net between two of n nodes.
fn fine_span(p: Span, n: usize) -> bool
    ensures { Shows result (SpanWithin n p) }
{
    p.lo < n && p.hi < n && p.weight <= WEIGHT_MOST
}

// The first nets, between n nodes.
fn fine_spans(nets: [Span; Axis::NETS], count: usize, n: usize) -> bool
    requires { count ≤ net_room }
    ensures { Shows result (SpansWithin n nets count) }
{
    nets.iter().take(count).all(|p| fine_span(*p, n))
}

// An amount more, which leaves one node and enters another.
fn carry(into: &mut [u64; NODE_ROOM], out: &mut [u64; NODE_ROOM], from: usize, to: usize, a: u64)
    requires { RoomFor into.old out.old from to a }
    ensures into_after { into.new ≡ added_at into.old to a }
    ensures out_after { out.new ≡ added_at out.old from a }
{
    into[to] += a;
    out[from] += a;
}

// What the slots carry into each node, and out of it.
fn slot_sums(g: Graph, f: [u64; SLOT_ROOM]) -> Sums
    requires graph_within { GraphWithin g }
    requires within { Within f amount_most }
    ensures { Summed no_sums no_sums (heads g.slots) (tails g.slots) (at f) g.m result.into result.out }
{
    let mut into = [0u64; NODE_ROOM];
    let mut out = [0u64; NODE_ROOM];
    for i in 0..g.m {
        carry(&mut into, &mut out, g.slots[i].tail, g.slots[i].head, f[i]);
    }
    Sums { into, out }
}

// The same with the nets' weights, which enter at lo and leave at hi.
fn net_sums(b: Sums, nets: [Span; Axis::NETS], count: usize) -> Sums
    requires modest { Modest b.into b.out }
    requires count_le_net_room { count ≤ net_room }
    requires spanned { Spanned nets count }
    ensures { Summed b.into b.out (los nets) (his nets) (weights nets) count result.into result.out }
{
    let Sums { mut into, mut out } = b;
    for p in &nets[..count] {
        carry(&mut into, &mut out, p.hi, p.lo, p.weight);
    }
    Sums { into, out }
}

// Whether the pluses of the slots that carry 1 outweigh their minuses.
fn outweighs(g: Graph, f: [u64; SLOT_ROOM]) -> bool
    requires graph_within { GraphWithin g }
    requires within { Within f 1 }
    ensures { Shows result (Outweighs g f) }
{
    let mut p: u64 = 0;
    let mut q: u64 = 0;
    for i in 0..g.m {
        if 0 < f[i] {
            p += g.slots[i].plus;
            q += g.slots[i].minus;
        }
    }
    is_gain(p, q)
}

// Whether as much enters as leaves, at each node of a graph.
fn is_closed(g: Graph, f: [u64; SLOT_ROOM]) -> bool
    requires graph_within { GraphWithin g }
    requires within { Within f amount_most }
    ensures { Shows result (Closed g f) }
{
    let b = slot_sums(g, f);
    is_even(b.into, b.out, g.n)
}

// Whether the amounts of a graph within the limits are a closed chain that no values keep.
fn refutes(g: Graph, f: [u64; SLOT_ROOM]) -> bool
    requires { GraphWithin g }
    ensures { Shows result (Refuted g f) }
{
    within(f, 1) && idle_slots(g, f) && is_closed(g, f) && outweighs(g, f)
}

// Whether the amounts are a closed chain that no values keep.
pub fn is_chain(g: Graph, f: [u64; SLOT_ROOM]) -> bool
    ensures { Shows result (Refuted g f) }
{
    is_fine(g) && refutes(g, f)
}

// The weights of all nets.
fn total(nets: [Span; Axis::NETS], count: usize) -> u64
    requires count_le_net_room { count ≤ net_room }
    requires spanned { Spanned nets count }
    ensures { result ≡ sum (weights nets) count }
{
    let mut w: u64 = 0;
    for p in &nets[..count] {
        w += p.weight;
    }
    w
}

// Whether as much enters as leaves, at each node of a graph, with the weights of its nets.
fn is_balanced(g: Graph, nets: [Span; Axis::NETS], count: usize, f: [u64; SLOT_ROOM]) -> bool
    requires graph_within { GraphWithin g }
    requires within { Within f amount_most }
    requires count_le_net_room { count ≤ net_room }
    requires spans_within { SpansWithin g.n nets count }
    ensures { Shows result (Balanced g nets count f) }
{
    let b = net_sums(slot_sums(g, f), nets, count);
    is_even(b.into, b.out, g.n)
}

// Whether the amounts of a graph within the limits carry the weights of its nets from lo to hi.
fn carries(g: Graph, nets: [Span; Axis::NETS], count: usize, f: [u64; SLOT_ROOM]) -> bool
    requires graph_within { GraphWithin g }
    requires count_le_net_room { count ≤ net_room }
    requires spans_within { SpansWithin g.n nets count }
    ensures { Shows result (Flow g nets count f) }
{
    within(f, total(nets, count)) && idle_slots(g, f) && is_balanced(g, nets, count, f)
}

// Whether the amounts are a flow of the nets' weights.
pub fn is_flow(g: Graph, nets: [Span; Axis::NETS], count: usize, f: [u64; SLOT_ROOM]) -> bool
    ensures { Shows result (Flow g nets count f) }
{
    is_fine(g) && count <= Axis::NETS && fine_spans(nets, count, g.n) && carries(g, nets, count, f)
}
