// The pins of a chip's nets, counted.
#![tactic(auto)]

ghost use Rattle.std.specs.Prelude.{◌≡◌, min};
ghost use Rattle.chip_text.specs.Valid.{pins_before};

use model::{Net, Pin};

// One more than a chip holds.
const MORE: usize = Pin::COUNT + 1;

// How many pins the first j nets have, of any nets; one more than a chip holds for all that are more.
pub fn pins_before(nets: [Net; Net::COUNT], j: usize) -> usize
    ensures { result ≡ min 129 (pins_before j nets) }
{
    let mut q: usize = 0;
    for k in 0..j.min(Net::COUNT) {
        q = q.saturating_add(nets[k].pins).min(MORE);
    }
    q
}
