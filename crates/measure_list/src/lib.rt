// Measuring over a lent list of positions: thin functions above the core on arrays.
#![tactic(auto)]

ghost use Rattle.std.specs.Prelude.{◌≡◌, [], ◌∷◌, get_or, take, ◌≤◌};
ghost use Rattle.model.specs.Meaning.{first_of, blank_spot, chip_of};
ghost use Rattle.measure_held.specs.Answer.{measured_as};
ghost use Rattle.measure.specs.Measuring.{measure_positions};

use measure_held::Measurement;
use model::{Chip, Mac, Refusal, Spot};

// Position i of the list, or 0,0 past its end.
fn spot_or(s: &[Spot], i: usize) -> Spot
    ensures { result ≡ get_or s.now i blank_spot }
{
    s.get(i).copied().unwrap_or(Spot { x: 0, y: 0 })
}

// The first count of eight positions, as values.
fn measure_eight(
    c: Chip,
    count: usize,
    p0: Spot,
    p1: Spot,
    p2: Spot,
    p3: Spot,
    p4: Spot,
    p5: Spot,
    p6: Spot,
    p7: Spot,
) -> Result<Measurement, Refusal>
    ensures { measured_as result ≡ measure_positions (chip_of c) (first_of blank_spot count (p0 ∷ p1 ∷ p2 ∷ p3 ∷ p4 ∷ p5 ∷ p6 ∷ p7 ∷ [])) }
{
    measure::measure_array(c, count, [p0, p1, p2, p3, p4, p5, p6, p7])
}

// Measures a list of positions of any length: a list that is not as long as the chip has macros is refused with 13.
pub fn measure_list(c: Chip, spots: &[Spot]) -> Result<Measurement, Refusal>
    ensures { measured_as result ≡ measure_positions (chip_of c) spots.now }
{
    measure_eight(
        c,
        spots.len(),
        spot_or(spots, 0),
        spot_or(spots, 1),
        spot_or(spots, 2),
        spot_or(spots, 3),
        spot_or(spots, 4),
        spot_or(spots, 5),
        spot_or(spots, 6),
        spot_or(spots, 7),
    )
}

// Lends the first count of eight positions as a list.
fn measure_first(c: Chip, count: usize, spots: [Spot; Mac::COUNT]) -> Result<Measurement, Refusal>
    requires { count ≤ 8 }
    ensures { measured_as result ≡ measure_positions (chip_of c) (take count spots) }
{
    measure_list(c, &spots[..count])
}

// Measures the first count of eight positions, lent as a list; a count above 8 stands for a list that is too long.
pub fn measure_spots(
    c: Chip,
    count: usize,
    spots: [Spot; Mac::COUNT],
) -> Result<Measurement, Refusal>
    ensures { measured_as result ≡ measure_positions (chip_of c) (first_of blank_spot count spots) }
{
    if Mac::COUNT < count {
        return measure::measure_array(c, count, spots);
    }
    measure_first(c, count, spots)
}
