// Measuring a placement: whether positions are legal for a chip, and their wirelength (document 01, "Legal, and how long").
// The chip and the positions are tested first.
#![tactic(auto)]

ghost use Rattle.std.specs.Prelude.{◌≡◌};
ghost use Rattle.model.specs.Meaning.{first_of, blank_spot, chip_of};
ghost use Rattle.measure_held.specs.Answer.{measured_as};
ghost use Rattle.measure_held.specs.Held.{length_in};
ghost use Rattle.measure.specs.Measuring.{measure_positions};

use measure_held::Measurement;
use model::{Chip, Mac, Refusal, Spot};

// Measures the first count positions; a count above 8 stands for a list that is too long.
pub fn measure_array(
    c: Chip,
    count: usize,
    spots: [Spot; Mac::COUNT],
) -> Result<Measurement, Refusal>
    ensures { measured_as result ≡ measure_positions (chip_of c) (first_of blank_spot count spots) }
{
    measure_tests::test_positions(c, count, spots)?;
    Ok(measure_held::measured(c, spots))
}

// The wirelength of the first positions, one for each macro; 0 where measuring refuses them.
pub fn length_at(c: Chip, spots: [Spot; Mac::COUNT]) -> u64
    ensures { result ≡ length_in (measure_positions (chip_of c) (first_of blank_spot c.n spots)) }
{
    measure_held::length_in(measure_array(c, c.n, spots))
}
