// A branch is closed, or the pair of it that is decided next is chosen.
#![tactic(auto)]

ghost use Rattle.search_choose.specs.Choice.{ChosenOf};
ghost use Rattle.search_close.specs.Step.{StepOk};

use model::{Outcome, Record};
use search_best::{replaced, replaces_best};
use search_choose::{Choice, choose};
use search_node::{Node, Parts};
use std::ops::ControlFlow;

// Whether a record holds a placement.
fn is_found(best: Record) -> bool {
    matches!(best.outcome, Outcome::Least(_, _))
}

// The pair that is chosen at a node; best is the best so far.
fn chosen(parts: Parts, p: usize, node: Node, best: Record) -> Choice
    ensures { ChosenOf parts.blocks node.here.spots p result.s result.at }
{
    choose(
        parts.blocks,
        p,
        parts.weights,
        &node.kx,
        &node.ky,
        is_found(best),
        node.here.spots,
    )
}

// The step of a branch: closed with an answer, or the pair that is decided next. A branch whose fit is not before the best is closed; where no two boxes of its fit overlap, the fit is its answer; else a pair that overlaps is decided.
pub fn next_step(parts: Parts, p: usize, node: Node, best: Record) -> ControlFlow<Record, Choice>
    ensures { StepOk parts p node best result }
{
    let here = node.here;
    if !replaces_best(best, here) {
        return ControlFlow::Break(best);
    }
    let pair = chosen(parts, p, node, best);
    if pair.s == p {
        ControlFlow::Break(replaced(best, here))
    } else {
        ControlFlow::Continue(pair)
    }
}
