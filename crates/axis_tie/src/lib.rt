// The tests of a proposal at one slot, at each node, and of a chain: a slot leads to a node from one before it; as much enters as leaves; more is gained than lost.
#![tactic(auto)]

ghost use Rattle.std.specs.Prelude.{◌≡◌, ltb};
ghost use Rattle.axis_graph.specs.Graph.{Shows};
ghost use Rattle.axis_tie.specs.Tied.{Tied};
ghost use Rattle.axis_tie.specs.Even.{Even};

use axis_bounds::Slot;
use axis_graph::NODE_ROOM;

// Whether slot s is the parent of node k; a: what it carries; t, h and r: the ranks of its tail, its head and of k.
pub fn is_tied(s: Slot, k: usize, a: u64, t: usize, h: usize, r: usize) -> bool
    ensures { Shows result (Tied s k a t h r) }
{
    (s.head == k && t < r) || (s.tail == k && h < r && 0 < a)
}

// Whether as much enters as leaves, at each of the first n nodes.
pub fn is_even(into: [u64; NODE_ROOM], out: [u64; NODE_ROOM], n: usize) -> bool
    ensures { Shows result (Even into out n) }
{
    n <= NODE_ROOM && into[..n] == out[..n]
}

// Whether a chain's pluses, p in all, outweigh its minuses.
pub fn is_gain(p: u64, q: u64) -> bool
    ensures { result ≡ ltb q p }
{
    q < p
}
