// The fit, sold by itself (document 01, "The fit"): a chip and one letter for each pair give a placement with its length and a flow, or no fit with a closed chain.
#![tactic(auto)]

ghost use Rattle.std.specs.Prelude.{◌+◌, ◌≤◌, ◌≡◌, [], length};
ghost use Rattle.model.specs.Meaning.{chip_of, blank_spot};
ghost use Rattle.model.specs.Limits.{most_macs};
ghost use Rattle.model.specs.Held.{filled};
ghost use Rattle.fit_slots.specs.Fit.{string_for, fit_letters, Filled};
ghost use Rattle.fit_axes.specs.Axes.{SolvedBy, Directed};
ghost use Rattle.fit_tests.specs.Entry.{Asking, fitting, Ready};
ghost use Rattle.fit.specs.Answer.{answer_for};
ghost use Rattle.fit.specs.Results.{Second, Answered};

use axis_graph::Solution;
use fit_axes::solve_on;
use fit_lists::{is_solved, put_slots, spots_at};
use fit_pairs::{all_dots, letter_count};
use fit_slots::Direction;
use model::{Chip, Mac, Refusal, Spot};

// The wirelength of the placement, and the number of slots that its flow takes.
#[derive(Clone, Copy)]
pub struct Fitted {
    pub length: u64,
    pub slots: usize,
}

// What a fit answers: a placement with its length, no fit, or the refusal; the positions beside it are 0,0 past the macros, and 0,0 everywhere without a
// placement.
#[derive(Clone, Copy)]
pub struct FitAnswer {
    pub outcome: Result<Option<Fitted>, Refusal>,
    pub spots: [Spot; Mac::COUNT],
}

// An answer without positions.
fn bare(outcome: Result<Option<Fitted>, Refusal>) -> FitAnswer
    ensures { result ≡ record { outcome = outcome; spots = filled most_macs blank_spot [] } }
{
    FitAnswer {
        outcome,
        spots: [Spot { x: 0, y: 0 }; Mac::COUNT],
    }
}

// The placement of two solved directions, with its length.
fn placed(c: Chip, letters: &[u8], a: Solution, b: Solution, m: usize) -> FitAnswer
    requires asking { Asking c letters.now m }
    requires solved_by { SolvedBy c letters.now Direction.Horizontal a.at a.amounts }
    requires solved_by_2 { SolvedBy c letters.now Direction.Vertical b.at b.amounts }
    ensures { result ≡ answer_for (fitting c letters.now) }
{
    let xs = a.at;
    let ys = b.at;
    let spots = spots_at(xs, ys);
    let length = measure::length_at(c, spots);
    FitAnswer {
        outcome: Ok(Some(Fitted {
            length,
            slots: m + m,
        })),
        spots,
    }
}

// The answer from both directions: without coordinates in one of them there is no fit.
fn answer_of(c: Chip, letters: &[u8], a: Solution, b: Solution, m: usize) -> FitAnswer
    requires asking { Asking c letters.now m }
    requires directed { Directed c letters.now Direction.Horizontal a.verdict a.at a.amounts }
    requires second { Second c letters.now a.verdict b.verdict b.at b.amounts }
    ensures { result ≡ answer_for (fitting c letters.now) }
{
    if !is_solved(a.verdict) {
        return bare(Ok(None));
    }
    if !is_solved(b.verdict) {
        return bare(Ok(None));
    }
    placed(c, letters, a, b, m)
}

// The vertical direction, where the horizontal one, a, has coordinates; else a, since there is no fit whatever the vertical one says.
fn second(c: Chip, letters: &[u8], a: Solution) -> Solution
    ensures { Second c letters.now a.verdict result.verdict result.at result.amounts }
{
    if !is_solved(a.verdict) {
        return a;
    }
    solve_on(c, letters, Direction::Vertical)
}

// A chip and one letter for each pair, and room for m slots of each direction.
fn fit_each(c: Chip, letters: &[u8], m: usize, flow: &mut [u16]) -> FitAnswer
    requires asking { Asking c letters.now m }
    requires m_in_bounds { m + m ≤ length flow.old }
    ensures { Answered c letters.now (fitting c letters.now) result flow.old flow.new }
{
    let a = solve_on(c, letters, Direction::Horizontal);
    let b = second(c, letters, a);
    put_slots(flow, a, b, m);
    answer_of(c, letters, a, b, m)
}

// A chip and a string that pass every test: the fit of the letters that the string stands for.
fn fit_ready(c: Chip, letters: &[u8], m: usize, flow: &mut [u16]) -> FitAnswer
    requires { Ready c letters.now (length flow.old) m }
    ensures { Answered c (string_for (chip_of c) letters.now) (fitting c (string_for (chip_of c) letters.now)) result flow.old flow.new }
{
    if letters.len() != 0 {
        return fit_each(c, letters, m, flow);
    }
    let dots = all_dots();
    let p = letter_count(c.n, c.k);
    fit_each(c, &dots[..p], m, flow)
}

// The fit of a chip and a letter string; the flow or the chain goes into the lent list.
pub fn fit_letters(c: Chip, letters: &[u8], flow: &mut [u16]) -> FitAnswer
    ensures value { result ≡ answer_for (fit_letters (chip_of c) letters.now (length flow.old)) }
    ensures filled { Filled (chip_of c) (string_for (chip_of c) letters.now) (fit_letters (chip_of c) letters.now (length flow.old)) flow.old flow.new }
{
    match fit_tests::test_letters(c, letters, flow.len()) {
        Ok(m) => fit_ready(c, letters, m, flow),
        Err(f) => bare(Err(f)),
    }
}
