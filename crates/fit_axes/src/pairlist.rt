// The slots of the pairs, in the order of their letters.
ghost use Rattle.fit_axes.specs.Axes.{PairsMade};

use axis_bounds::{Axis, Slot};
use fit_pair_slots::{asked_by, no_slot, slot_at};
use fit_pairs::{first_pair, next_pair};
use fit_slots::Direction;
use model::Chip;

pub(crate) fn pair_slots(c: Chip, letters: &[u8], d: Direction) -> [Slot; Axis::PAIRS]
    ensures { PairsMade c letters.now d result }
{
    let blocks = model::blocks_of(c);
    let mut pairs = [no_slot(); Axis::PAIRS];
    let mut at = first_pair(c.n);
    for s in 0..letters.len().min(Axis::PAIRS) {
        pairs[s] = slot_at(blocks, at, asked_by(letters[s], d), d);
        at = next_pair(at, c.n, c.k);
    }
    pairs
}
