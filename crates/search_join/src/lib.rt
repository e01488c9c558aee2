// The fit of letters as a record: from the fit that is sold, or joined from a half fit of one direction and the half of a fit in the other.
#![tactic(auto)]

ghost use Rattle.std.specs.Prelude.{◌≡◌};
ghost use Rattle.chip_array.specs.Array.{chip_in};
ghost use Rattle.search_join.specs.Joined.{FitFor, spot_with, spots_with, JoinedFrom};

use chip_array::{chip_in, macro_count};
use fit_pairs::LETTERS;
use fit_slots::Direction;
use half_fit::service::{HalfFit, HalfOutcome};
use model::{Chip, Mac, Outcome, Record, Spot};
use num_limits::sum;
use search_node::no_record;

// The fit of letters as a record; none where there is no fit.
fn fit_record(c: Chip, letters: [u8; LETTERS], p: usize) -> Record
    ensures { FitFor c letters p result }
{
    if LETTERS < p {
        return no_record();
    }
    let mut flow = [0u16; 784];
    let a = fit::fit_letters(c, &letters[..p], &mut flow);
    let spots = a.spots;
    match a.outcome {
        Ok(Some(f)) => Record {
            outcome: Outcome::Least(f.length, c.n),
            spots,
        },
        Ok(None) => no_record(),
        Err(_) => no_record(),
    }
}

// The same of a chip that is lent as an array.
pub fn fit_again(cs: &[u64; chip_array::CELLS], letters: [u8; LETTERS], p: usize) -> Record
    ensures { FitFor (chip_in cs.now) letters p result }
{
    fit_record(chip_in(cs), letters, p)
}

// A corner with another coordinate in a direction.
fn spot_with(d: Direction, v: u64, p: Spot) -> Spot
    ensures { result ≡ spot_with d v p }
{
    match d {
        Direction::Horizontal => Spot { x: v, y: p.y },
        Direction::Vertical => Spot { x: p.x, y: v },
    }
}

// The corners with other coordinates in a direction.
pub fn spots_with(
    d: Direction,
    at: [u64; Mac::COUNT],
    spots: [Spot; Mac::COUNT],
) -> [Spot; Mac::COUNT]
    ensures { result ≡ spots_with d at spots }
{
    let mut r = spots;
    for i in 0..Mac::COUNT {
        r[i] = spot_with(d, at[i], spots[i]);
    }
    r
}

// The fit of the letters: one half is f, the other that of the fit before, of length other.
pub fn joined(
    cs: &[u64; chip_array::CELLS],
    p: usize,
    letters: [u8; LETTERS],
    here: Record,
    best: Record,
    d: Direction,
    f: HalfFit,
    other: u64,
) -> Record
    ensures { JoinedFrom (chip_in cs.now) letters p here best d f other result }
{
    match f.outcome {
        HalfOutcome::Fit(l) => Record {
            outcome: Outcome::Least(sum(l, other), macro_count(cs)),
            spots: spots_with(d, f.at, here.spots),
        },
        HalfOutcome::Beyond => no_record(),
        HalfOutcome::Unshown => fit_again(cs, letters, p),
    }
}
