// Equal macros: the earlier one does not lie further right, kept as differences.
#![tactic(auto)]

ghost use Rattle.std.specs.Prelude.{◌<◌};
ghost use Rattle.model.specs.Meaning.{chip_of};
ghost use Rattle.search_order.specs.Order.{OrderKept};

use axis_bounds::Slot;
use model::{Chip, Mac};
use search_kept::CELLS;

// The differences with that of macros i and j, counted from 0, if they are equal: the earlier one, i, does not lie further right.
fn with_order(c: Chip, e: [u32; CELLS], i: usize, j: usize) -> [u32; CELLS]
    requires { (i < j) × (j < 8) }
    ensures { OrderKept (chip_of c) e result }
{
    if search_equal::alike(c, i, j) {
        search_kept::keep(
            e,
            Slot {
                tail: i + 1,
                head: j + 1,
                plus: 0,
                minus: 0,
            },
        )
    } else {
        e
    }
}

// The differences with those of all equal macros.
pub fn ordered(c: Chip, e: [u32; CELLS]) -> [u32; CELLS]
    ensures { OrderKept (chip_of c) e result }
{
    let n = c.n.min(Mac::COUNT);
    let mut r = e;
    for i in 0..n {
        for j in i + 1..n {
            let next = with_order(c, r, i, j);
            r = next;
        }
    }
    r
}
