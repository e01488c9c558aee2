// The solver of an axis that is sure to find the answer.
//
// `admit` adds bounds to a graph, or shows that no values keep them all; `augment` sends a net's weight from its lower to its upper node
// along slots that are tight; `solve` does so for every net and makes the values the smallest. All of them grow a set of nodes along
// tight slots (`growth`) and push amounts along it (`push`). `start` gives the values that the whole graph starts from.
#![tactic(auto)]

mod admit;
mod augment;
mod growth;
mod keeps;
mod push;
mod solve;
mod start;

ghost use Rattle.std.specs.Prelude.{◌<◌};
ghost use Rattle.axis_bounds.specs.Axis.{axis_of};
ghost use Rattle.axis_bounds.specs.Held.{Held};
ghost use Rattle.axis_graph.specs.Above.{NoneAbove, FirstAbove};
ghost use Rattle.axis_graph.specs.Build.{macro_graph};
ghost use Rattle.axis_graph.specs.Service.{SolutionOk};
ghost use Rattle.axis_solve.specs.Admit.{Feasible};

use crate::admit::admit_all;
use crate::augment::Flowed;
use crate::growth::{FARTHEST, rebase};
use crate::solve::solve_axis;
use crate::start::start_values;
use axis_bounds::Axis;
use axis_graph::above::first_above;
use axis_graph::{NODE_ROOM, SLOT_ROOM, Solution, Verdict};
use axis_held::accept::is_held;
use axis_held::coordinates::coordinates;
use axis_held::graphs::{die_graph, macro_graph, net_spans, whole_graph};

// The nets, from values that keep the slots of macros and pairs.
fn augment_nets(a: Axis, x: [u64; NODE_ROOM]) -> Solution
    requires held { Held a }
    requires feasible { Feasible (macro_graph (axis_of a)) x }
    ensures { SolutionOk a result.verdict result.at result.amounts }
{
    let g = whole_graph(a);
    let e = net_spans(a);
    let y = rebase(x, a.n + 1);
    let z = start_values(y, a.n, a.base, a.nets, a.pins, a.t);
    let Flowed { x, f } = solve_axis(g, z, e, a.t);
    Solution {
        verdict: Verdict::Solved,
        at: coordinates(x, a.n),
        amounts: f,
    }
}

// The bounds of the pairs added one after the other, then the nets.
fn add_pairs(a: Axis) -> Solution
    requires held { Held a }
    requires none_above { NoneAbove a.side a.sizes a.n }
    ensures { SolutionOk a result.verdict result.at result.amounts }
{
    let from = 2 * a.n;
    let g = die_graph(a);
    let full = macro_graph(a);
    match admit_all(g, [FARTHEST; NODE_ROOM], full.slots, from, from + a.p) {
        Ok(x) => augment_nets(a, x),
        Err(f) => Solution::unsolvable(f),
    }
}

// Macro i is larger than the die: its two slots are a chain.
fn too_large(a: Axis, i: usize) -> Solution
    requires held { Held a }
    requires i_lt_n { i < a.n }
    requires first_above { FirstAbove a.side a.sizes a.n i }
    ensures { SolutionOk a result.verdict result.at result.amounts }
{
    let mut f = [0u64; SLOT_ROOM];
    let o = 2 * i;
    f[o] = 1;
    f[o + 1] = 1;
    Solution::unsolvable(f)
}

// The least length of the axis's nets under its bounds, and of the coordinates with that length the smallest.
pub fn solve_by_growth(a: Axis) -> Solution
    ensures { SolutionOk a result.verdict result.at result.amounts }
{
    if !is_held(a) {
        return Solution::malformed();
    }
    match first_above(&a.sizes, a.side, a.n) {
        Some(i) => too_large(a, i),
        None => add_pairs(a),
    }
}
