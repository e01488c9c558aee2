// The score of a pair. It guides the choice: nothing is promised of it but that it is above 0 exactly where the two overlap.
ghost use Rattle.std.specs.Prelude.{◌≡◌, ◌≤◌, ◌<◌, ltb, not};
ghost use Rattle.geometry.specs.Box.{apart as areApart};
ghost use Rattle.search_boxes.specs.Boxes.{mac_box, second_of};

use crate::open::{Open, open_letters, urgency};
use fit_pairs::Cursor;
use geometry::{Box, apart};
use model::{Blocks, Die, Mac, Spot};
use search_boxes::{mac_box, second_box};
use search_kept::CELLS;

// A distance counts up to this, and a letter that is not open is this far.
const FAR: u64 = 2048;

// A weight counts up to this: 32 nets of 1,000.
const HEAVY: u64 = 32000;

// The product of the two least of four distances.
fn two_least(left: u64, right: u64, down: u64, up: u64) -> u64
    requires { (left ≤ 2048) × (right ≤ 2048) × (down ≤ 2048) × (up ≤ 2048) }
    ensures { result ≤ 4194304 }
{
    let x = left.min(right);
    let y = down.min(up);
    let far = left.max(right).min(down.max(up));
    x.min(y) * x.max(y).min(far)
}

// How far a side that begins at a has to move so that it ends by b; where its letter is not open, 2,048.
fn way(open: bool, a: u64, side: u64, b: u64) -> u64
    ensures { result ≤ 2048 }
{
    if open {
        (a.min(Die::SIDE_MOST) + side.min(Die::SIDE_MOST)).saturating_sub(b)
    } else {
        FAR
    }
}

// How far a has to move to stand left of, right of, below or above b, in the two shortest ways.
fn push(a: Box, b: Box, open: Open) -> u64
    ensures { result ≤ 4194304 }
{
    let left = way(open.left, a.x, a.w, b.x);
    let right = way(open.right, b.x, b.w, a.x);
    let down = way(open.below, a.y, a.h, b.y);
    let up = way(open.above, b.y, b.h, a.y);
    two_least(left, right, down, up)
}

// First the urgency of two that overlap, then their score with a weight, then how early they are.
fn score(a: Box, b: Box, open: Open, urgent: u64, weight: u64, early: u64) -> u64
    requires { (urgent ≤ 3) × (weight ≤ 32000) × (early ≤ 1023) }
    ensures { 0 < result }
{
    urgent * 1125899906842624 + push(a, b, open) * weight * 1024 + early + 1
}

// How early a pair is decided among equal scores: the pairs of a macro come after those of the macros before it, its fixes first.
fn earliness(fix: bool, i: usize, j: usize) -> u64
    ensures { result ≤ 1023 }
{
    let late = if fix {
        i % 8 * 64 + j % 8
    } else {
        j % 8 * 64 + 32 + i % 8
    };
    1023 - late as u64
}

// The weight of the nets of a pair: the lesser of its macros' weights.
fn pair_weight(weights: [u64; Mac::COUNT], fix: bool, i: usize, j: usize) -> u64
    ensures { result ≤ 32000 }
{
    let w = weights[i % Mac::COUNT].min(HEAVY);
    if fix {
        w
    } else {
        w.min(weights[j % Mac::COUNT])
    }
}

// The score of the pair at hand.
pub(crate) fn pair_score(
    blocks: Blocks,
    spots: [Spot; Mac::COUNT],
    weights: [u64; Mac::COUNT],
    kx: &[u32; CELLS],
    ky: &[u32; CELLS],
    found: bool,
    at: Cursor,
) -> u64
    ensures { ltb 0 result ≡ not (areApart 0 (mac_box blocks spots at.i) (second_of blocks spots at.fix at.j)) }
{
    let Cursor { fix, i, j } = at;
    let a = mac_box(blocks, spots, i);
    let b = second_box(blocks, spots, fix, j);
    if apart(a, b, 0) {
        0
    } else {
        let open = open_letters(blocks, kx, ky, at);
        score(
            a,
            b,
            open,
            urgency(found, open),
            pair_weight(weights, fix, i, j),
            earliness(fix, i, j),
        )
    }
}
