// Solving one axis of a fit: the least values under the bounds, and of those the smallest; a flow, or a closed chain.
//
// An axis beyond the limits is malformed. A macro larger than the die has no place. Then an answer is proposed (`propose`) and tested,
// as a flow with the smallest values (axis_values, axis_amounts), or as a closed chain. What does not pass its test is done again by the
// solver that is sure but slow (axis_solve).
#![tactic(auto)]

mod propose;
mod tables;

ghost use Rattle.axis_bounds.specs.Held.{Held};
ghost use Rattle.axis_graph.specs.Graph.{Shows};
ghost use Rattle.axis_graph.specs.Service.{SolutionOk};
ghost use Rattle.axis.specs.Shown.{ShownFit};

use crate::propose::{Proposal, propose};
use axis_amounts::{is_chain, is_flow};
use axis_bounds::Axis;
use axis_graph::above::first_above;
use axis_graph::{NODE_ROOM, PARENTS, SLOT_ROOM, Solution, Verdict};
use axis_held::accept::is_held;
use axis_held::coordinates::coordinates;
use axis_held::graphs::{macro_graph, net_spans, whole_graph};
use axis_solve::solve_by_growth;
use axis_values::is_rest;

// Whether the values are the smallest of the least, the amounts prove it, and `parents` has parents and ranks.
fn shows_fit(a: Axis, x: [u64; NODE_ROOM], f: [u64; SLOT_ROOM], parents: [usize; PARENTS]) -> bool
    requires { Held a }
    ensures { Shows result (ShownFit a x f) }
{
    let g = whole_graph(a);
    is_flow(g, net_spans(a), a.t, f) && is_rest(g, f, x, parents)
}

// A proposed answer, if it passes the test, or else the sure one.
fn judge_fit(a: Axis, c: Proposal) -> Solution
    requires { Held a }
    ensures { SolutionOk a result.verdict result.at result.amounts }
{
    let Proposal { x, f, parents } = c;
    if shows_fit(a, x, f, parents) {
        Solution {
            verdict: Verdict::Solved,
            at: coordinates(x, a.n),
            amounts: f,
        }
    } else {
        solve_by_growth(a)
    }
}

// A proposed chain that refutes the bounds of macros and pairs, if it passes the test, or else the sure answer.
fn judge_none(a: Axis, f: [u64; SLOT_ROOM]) -> Solution
    requires { Held a }
    ensures { SolutionOk a result.verdict result.at result.amounts }
{
    if is_chain(macro_graph(a), f) {
        Solution::unsolvable(f)
    } else {
        solve_by_growth(a)
    }
}

// The least length of the axis's nets under its bounds, and of the coordinates with that length the smallest.
pub fn solve(a: Axis) -> Solution
    ensures { SolutionOk a result.verdict result.at result.amounts }
{
    if !is_held(a) {
        return Solution::malformed();
    }
    if first_above(&a.sizes, a.side, a.n).is_some() {
        return solve_by_growth(a);
    }
    match propose(a) {
        Ok(c) => judge_fit(a, c),
        Err(f) => judge_none(a, f),
    }
}
