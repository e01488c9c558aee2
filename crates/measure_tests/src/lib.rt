// The tests of positions before they are measured (document 01, "Refusal table"): the chip as its text would be, then the list.
#![tactic(auto)]

ghost use Rattle.std.specs.Prelude.{◌≡◌, ◌≤◌, take};
ghost use Rattle.model.specs.Meaning.{first_of, blank_spot, chip_of};
ghost use Rattle.refusals.specs.Tests.{first_failed};
ghost use Rattle.text_grammar.specs.Reading.{accepted};
ghost use Rattle.chip_text.specs.Text.{read_chip, chip_text};
ghost use Rattle.chip_text.specs.Passed.{Passed};
ghost use Rattle.measure_tests.specs.Positions.{in_range, measure_tests};
ghost use Rattle.measure_tests.specs.Tested.{tested_by};

use model::{Chip, Mac, Refusal, Spot};

// Whether each of the first count positions is within 0..1,024.
#[tactic(auto, unfolding(num_text::specs::Number::all_of))]
fn in_range(spots: [Spot; Mac::COUNT], count: usize) -> bool
    requires { count ≤ 8 }
    ensures { result ≡ in_range (take count spots) }
{
    spots
        .iter()
        .take(count)
        .all(|p| p.x <= Spot::MOST && p.y <= Spot::MOST)
}

// The number of the first test that the positions fail, or 0.
fn positions_fault(c: Chip, count: usize, spots: [Spot; Mac::COUNT]) -> usize
    requires { Passed c }
    ensures { result ≡ first_failed (measure_tests (chip_of c) (first_of blank_spot count spots)) }
{
    if count != c.n {
        return 13;
    }
    if !in_range(spots, c.n) {
        return 14;
    }
    0
}

// A chip whose test is passed.
fn test_passed(c: Chip, count: usize, spots: [Spot; Mac::COUNT]) -> Result<(), Refusal>
    requires { Passed c }
    ensures { result ≡ tested_by (accepted (chip_of c)) (first_failed (measure_tests (chip_of c) (first_of blank_spot count spots))) }
{
    let no = positions_fault(c, count, spots);
    if no != 0 {
        return Err(Refusal { no, line: 0 });
    }
    Ok(())
}

// Tests a chip and the first count positions; a count above 8 stands for a list that is too long.
pub fn test_positions(c: Chip, count: usize, spots: [Spot; Mac::COUNT]) -> Result<(), Refusal>
    ensures { result ≡ tested_by (read_chip (chip_text (chip_of c))) (first_failed (measure_tests (chip_of c) (first_of blank_spot count spots))) }
{
    chip_test::test_chip(c)?;
    test_passed(c, count, spots)
}
