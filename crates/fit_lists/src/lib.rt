// What a fit puts into its lists: the amounts of both directions into the lent one, and the corners.
#![tactic(auto)]

ghost use Rattle.std.specs.Prelude.{◌≡◌, map, ◌+◌, ◌≤◌, length, take};
ghost use Rattle.std.proofs.lemmas.List.Edits.{sets};
ghost use Rattle.model.specs.Corners.{spots_of};
ghost use Rattle.fit_lists.specs.Lists.{low16, is_solved, shows_across, shown, both_lists, slots_put};

use axis_graph::{SLOT_ROOM, Solution, Verdict};
use model::{Mac, Spot};

// Whether a direction has coordinates.
pub fn is_solved(v: Verdict) -> bool
    ensures { result ≡ is_solved v }
{
    matches!(v, Verdict::Solved)
}

// Whether the horizontal amounts are put, v and w being the verdicts of the directions: not beside a chain of the vertical one.
fn shows_across(v: Verdict, w: Verdict) -> bool
    ensures { result ≡ shows_across v w }
{
    !is_solved(v) || is_solved(w)
}

// The amounts, or amounts of 0.
fn amounts_if(yes: bool, amounts: [u64; SLOT_ROOM]) -> [u64; SLOT_ROOM]
    ensures { result ≡ shown yes amounts }
{
    if yes { amounts } else { [0; SLOT_ROOM] }
}

// The first m amounts into the list from place `at` on.
fn put_amounts(flow: &mut [u16], at: usize, amounts: [u64; SLOT_ROOM], m: usize)
    requires m_bound { m ≤ 456 }
    requires m_in_bounds { at + m ≤ length flow.old }
    ensures { flow.new ≡ sets flow.old at (take m (map low16 amounts)) }
{
    for i in 0..m {
        flow[at + i] = (amounts[i] % 65536) as u16;
    }
}

// The amounts of both directions, m slots each.
fn put_both(flow: &mut [u16], across: [u64; SLOT_ROOM], up: [u64; SLOT_ROOM], m: usize)
    requires m_bound { m ≤ 456 }
    requires m_in_bounds { m + m ≤ length flow.old }
    ensures { flow.new ≡ both_lists m across up flow.old }
{
    put_amounts(flow, 0, across, m);
    put_amounts(flow, m, up, m);
}

// Both flows where both directions are solved; else the chain of the first direction that is not, and 0 in the slots of the other.
// A list that is too short for m slots of each direction is left as it is.
pub fn put_slots(flow: &mut [u16], a: Solution, b: Solution, m: usize)
    ensures { flow.new ≡ slots_put m a.verdict a.amounts b.verdict b.amounts flow.old }
{
    if m <= SLOT_ROOM && m + m <= flow.len() {
        let across = amounts_if(shows_across(a.verdict, b.verdict), a.amounts);
        let up = amounts_if(is_solved(a.verdict), b.amounts);
        put_both(flow, across, up, m);
    }
}

// The corners from their coordinates.
pub fn spots_at(xs: [u64; Mac::COUNT], ys: [u64; Mac::COUNT]) -> [Spot; Mac::COUNT]
    ensures { result ≡ spots_of xs ys }
{
    let mut spots = [Spot { x: 0, y: 0 }; Mac::COUNT];
    for i in 0..Mac::COUNT {
        spots[i] = Spot { x: xs[i], y: ys[i] };
    }
    spots
}
