// Which macros of a chip are alike: of one size, and their exchange leaves the nets the same.
#![tactic(auto)]

mod mates;
mod pins;

ghost use Rattle.std.specs.Prelude.{◌≤◌, ◌<◌};
ghost use Rattle.model.specs.Meaning.{chip_of};
ghost use Rattle.search_halves.specs.Exchange.{Alike};
ghost use Rattle.search_equal.specs.Answer.{Yes};
ghost use Rattle.search_equal.specs.Held.{NetsAlike};

use crate::mates::{mated, mates_of};
use chip_pins::pins_before;
use model::{Chip, Mac, Net, Pin};
use search_numbers::same_size;

// Whether mates were found for t nets; false where their pins are more than a chip holds.
fn nets_alike(
    nets: [Net; Net::COUNT],
    t: usize,
    pins: [Pin; Pin::COUNT],
    i: usize,
    j: usize,
) -> bool
    requires t_bound { t ≤ 32 }
    requires i_bound { i < 8 }
    requires j_bound { j < 8 }
    ensures { Yes result (NetsAlike nets pins t i j) }
{
    pins_before(nets, t) <= Pin::COUNT
        && match mates_of(nets, t, pins, i, j) {
            Some(mates) => mated(nets, t, pins, i, j, mates),
            None => false,
        }
}

// Whether macros i and j, counted from 0, are alike; false where the counts are more than a chip holds.
pub fn alike(c: Chip, i: usize, j: usize) -> bool
    ensures { Yes result (Alike (chip_of c) i j) }
{
    c.n <= Mac::COUNT
        && c.t <= Net::COUNT
        && i < c.n
        && j < c.n
        && same_size(c.macs[i], c.macs[j])
        && nets_alike(c.nets, c.t, c.pins, i, j)
}
