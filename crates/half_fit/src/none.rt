// The test that no coordinates keep the bounds: a closed chain of bounds whose sum is above 0.
ghost use Rattle.std.specs.Prelude.{◌<◌};
ghost use Rattle.half_arrays.specs.Says.{Says};
ghost use Rattle.half_fit.specs.Chain.{Empty};

use crate::{ARCS, POOL};
use half_arrays::{NODES, RAISED, bound, parent};

// A node on a closed chain of parents: the ninth parent of node a.
fn on_chain(s: &[u32; POOL], o: usize, a: usize) -> usize
    requires { a < 9 }
    ensures { result < 9 }
{
    let mut w = a;
    for _ in 0..NODES {
        w = parent(s, o, w);
    }
    w
}

// Whether the parents from node a back to it are a chain whose sum is above 0.
fn closes(arcs: &[u32; ARCS], s: &[u32; POOL], o: usize, a: usize) -> bool
    requires { a < 9 }
    ensures { Says result (Empty arcs.now) }
{
    let mut w = a;
    let mut sum: u64 = 0;
    for turn in 0..9u64 {
        let p = parent(s, o, w);
        sum += bound(arcs, p * NODES + w);
        if p == a {
            return (turn + 1) * RAISED < sum;
        }
        w = p;
    }
    false
}

// Whether the parents of state o show that no coordinates keep the bounds.
pub(crate) fn shows_none(arcs: &[u32; ARCS], s: &[u32; POOL], o: usize) -> bool
    ensures { Says result (Empty arcs.now) }
{
    for a in 0..NODES {
        if closes(arcs, s, o, on_chain(s, o, a)) {
            return true;
        }
    }
    false
}
