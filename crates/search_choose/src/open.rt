// The letters of a pair that the differences leave open. They guide the choice of the pair and nothing else, so nothing is promised of them.
ghost use Rattle.std.specs.Prelude.{◌≤◌};

use axis_bounds::Slot;
use fit_pair_slots::slot_at;
use fit_pairs::Cursor;
use fit_slots::{Asked, Direction};
use model::Blocks;
use search_kept::CELLS;

#[derive(Clone, Copy)]
pub(crate) struct Open {
    pub left: bool,
    pub right: bool,
    pub below: bool,
    pub above: bool,
}

// Whether the differences leave the letter of a slot open.
fn is_open(k: &[u32; CELLS], s: Slot) -> bool {
    !search_kept::excludes(k, s)
}

pub(crate) fn open_letters(
    blocks: Blocks,
    kx: &[u32; CELLS],
    ky: &[u32; CELLS],
    at: Cursor,
) -> Open {
    let x = Direction::Horizontal;
    let y = Direction::Vertical;
    Open {
        left: is_open(kx, slot_at(blocks, at, Asked::Before, x)),
        right: is_open(kx, slot_at(blocks, at, Asked::After, x)),
        below: is_open(ky, slot_at(blocks, at, Asked::Before, y)),
        above: is_open(ky, slot_at(blocks, at, Asked::After, y)),
    }
}

// 1 for a letter that is not open.
fn closed(open: bool) -> u64
    ensures { result ≤ 1 }
{
    if open { 0 } else { 1 }
}

// How urgent a pair is: while no placement is found, pairs with at most two open letters come first, those with fewer earlier.
pub(crate) fn urgency(found: bool, open: Open) -> u64
    ensures { result ≤ 3 }
{
    let count = closed(open.left) + closed(open.right) + closed(open.below) + closed(open.above);
    if found { 0 } else { count.saturating_sub(1) }
}
