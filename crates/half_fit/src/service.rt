// The fit of one direction, and what it promises.
ghost use Rattle.std.specs.Prelude.{◌≡◌};
ghost use Rattle.half_fit.specs.Answer.{Answers};

use crate::cold::cold;
use crate::insert::insert;
use crate::lists::put_lists;
use crate::none::shows_none;
use crate::proposal::{Proposal, test_fit};
use crate::state::copy;
use crate::tables::Given;
use crate::{ARCS, HELP, POOL, TAB};
use axis_bounds::Axis;
use half_values::values::coordinates_of;
use half_worth::shows_beyond;

// The fit of the direction has this length, which is within the room; it is longer than the room, or there is none; or nothing is shown.
#[derive(Clone, Copy)]
pub enum HalfOutcome {
    Fit(u64),
    Beyond,
    Unshown,
}

// With the macros' coordinates, where it is a fit.
#[derive(Clone, Copy)]
pub struct HalfFit {
    pub outcome: HalfOutcome,
    pub at: [u64; Axis::MACROS],
}

// An outcome without a fit.
fn no_fit(outcome: HalfOutcome) -> HalfFit
    ensures { result.outcome ≡ outcome }
{
    HalfFit {
        outcome,
        at: [0; Axis::MACROS],
    }
}

// The proposal of a fit in state o, tested.
fn judge_fit(tab: &[u32; TAB], arcs: &[u32; ARCS], st: &[u32; POOL], o: usize, room: u64) -> HalfFit
    ensures { Answers tab.now arcs.now room result.outcome result.at }
{
    match test_fit(tab, arcs, st, o) {
        None => no_fit(HalfOutcome::Unshown),
        Some(l) if room < l => no_fit(HalfOutcome::Beyond),
        Some(l) => HalfFit {
            outcome: HalfOutcome::Fit(l),
            at: coordinates_of(st, o),
        },
    }
}

// What is shown of a proposal in state o.
#[tactic(auto, using(crate::proofs::Answering::none_beyond))]
fn judge(
    tab: &[u32; TAB],
    arcs: &[u32; ARCS],
    st: &[u32; POOL],
    o: usize,
    room: u64,
    proposal: Proposal,
) -> HalfFit
    ensures { Answers tab.now arcs.now room result.outcome result.at }
{
    match proposal {
        Proposal::Fit => judge_fit(tab, arcs, st, o, room),
        Proposal::Nothing if shows_none(arcs, st, o) => no_fit(HalfOutcome::Beyond),
        Proposal::Longer if shows_beyond(tab, arcs, st, o, room) => no_fit(HalfOutcome::Beyond),
        _ => no_fit(HalfOutcome::Unshown),
    }
}

// The fit from nothing, into state o. The help is made here.
pub fn first_half(
    tab: &[u32; TAB],
    help: &mut [u32; HELP],
    arcs: &[u32; ARCS],
    st: &mut [u32; POOL],
    o: usize,
    room: u64,
) -> HalfFit
    ensures { Answers tab.now arcs.now room result.outcome result.at }
{
    put_lists(tab, help);
    let proposal = cold(Given { tab, help, arcs }, st, o);
    judge(tab, arcs, st, o, room, proposal)
}

// The fit into state o, from state j of another pool, which is that of the same nets with a lower bound from u to v.
pub fn half_fit(
    tab: &[u32; TAB],
    help: &[u32; HELP],
    arcs: &[u32; ARCS],
    from: &[u32; POOL],
    j: usize,
    st: &mut [u32; POOL],
    o: usize,
    u: usize,
    v: usize,
    room: u64,
) -> HalfFit
    ensures { Answers tab.now arcs.now room result.outcome result.at }
{
    copy(from, j, st, o);
    let proposal = insert(Given { tab, help, arcs }, st, o, u, v, room);
    judge(tab, arcs, st, o, room, proposal)
}
