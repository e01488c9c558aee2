// The tests of a record beside a chip (document 02, Card 1), both held as values.
#![tactic(auto)]

ghost use Rattle.std.specs.Prelude.{◌≡◌};
ghost use Rattle.model.specs.declared.Outcome.TheVariants as outcome;
ghost use Rattle.refusals.specs.Tests.{first_failed};
ghost use Rattle.beside_tests.specs.Held.{outcome_tests, held_tests};

use model::{Chip, Mac, Outcome, Record, Spot};

// The number of the first test that a placement and its wl fail, or 0: the count, the legality, the length.
fn placement_fault(c: Chip, wl: u64, count: usize, spots: [Spot; Mac::COUNT]) -> usize
    ensures { result ≡ first_failed (outcome_tests c (outcome.Least wl count) spots) }
{
    if count != c.n {
        return 13;
    }
    if !legal::is_legal(c, spots) {
        return 16;
    }
    if wl != measure_held::length_of(c, spots) {
        return 17;
    }
    0
}

// The same of a record; `none` passes.
pub fn record_fault(c: Chip, r: Record) -> usize
    ensures { result ≡ first_failed (held_tests c r) }
{
    match r.outcome {
        Outcome::None => 0,
        Outcome::Least(wl, count) => placement_fault(c, wl, count, r.spots),
    }
}
