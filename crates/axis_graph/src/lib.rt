// The graph of an axis and what solving it answers: the types that the parts of the solver share, with their definitions and laws.
//
// Nodes have values, and slots have bounds. Node 0 is the die corner, then come the macros, then hi and lo of each net.
#![tactic(auto)]

ghost use Rattle.std.specs.Prelude.{◌≡◌, replicate};
ghost use Rattle.axis_graph.specs.Limits.{slot_room};

use axis_bounds::{Axis, Slot};

pub mod above;
pub mod fine;

// The nodes and the slots that a graph has room for; its nets are those of an axis.
pub const NODE_ROOM: usize = 80;

pub const SLOT_ROOM: usize = 456;

// The numbers of a proposed tree: the parent slot of each node, and from NODES on its rank.
pub const NODES: usize = 128;

pub const PARENTS: usize = 256;

// The first n nodes and the first m slots are in use.
#[derive(Clone, Copy)]
pub struct Graph {
    pub n: usize,
    pub m: usize,
    pub slots: [Slot; SLOT_ROOM],
}

// The lower and the upper node of a net, and its weight.
#[derive(Clone, Copy)]
pub struct Span {
    pub lo: usize,
    pub hi: usize,
    pub weight: u64,
}

// Malformed: beyond a limit. Unsolvable: no coordinates keep the bounds. Solved: the best coordinates are found.
#[derive(Clone, Copy)]
pub enum Verdict {
    Malformed,
    Unsolvable,
    Solved,
}

// at: the macros' coordinates. amounts: what each listed slot carries, a flow where solved, a closed chain where unsolvable.
#[derive(Clone, Copy)]
pub struct Solution {
    pub verdict: Verdict,
    pub at: [u64; Axis::MACROS],
    pub amounts: [u64; SLOT_ROOM],
}

impl Solution {
    // Beyond a limit, nothing is answered.
    pub fn malformed() -> Solution
        ensures { result ≡ record { verdict = Verdict.Malformed; at = replicate 8 0; amounts = replicate slot_room 0 } }
    {
        Solution {
            verdict: Verdict::Malformed,
            at: [0u64; Axis::MACROS],
            amounts: [0u64; SLOT_ROOM],
        }
    }

    // No coordinates, and amounts that are a closed chain.
    pub fn unsolvable(amounts: [u64; SLOT_ROOM]) -> Solution
        ensures { result ≡ record { verdict = Verdict.Unsolvable; at = replicate 8 0; amounts = amounts } }
    {
        Solution {
            verdict: Verdict::Unsolvable,
            at: [0u64; Axis::MACROS],
            amounts,
        }
    }
}
