// The pair to branch on: an overlapping one; while no placement is found, one with at most two open letters first; of those the one with the greatest score. The score is what moving the two apart would cost, in the two cheapest ways, times the weight of their nets; among equal scores the pair of the first macros.
#![tactic(auto)]

mod open;
mod score;

ghost use Rattle.std.specs.Prelude.{take};
ghost use Rattle.model.specs.Blocks.{bare_of};
ghost use Rattle.search_choose.specs.Choice.{Laid, LaidBy, Chosen, PlaceOf, ChosenOf};

use crate::score::pair_score;
use fit_pairs::{Cursor, first_pair, letter_count, next_pair};
use model::{Blocks, Fix, Mac, Spot};
use search_kept::CELLS;

// A pair by its place in the order of letters, with the cursor there.
#[derive(Clone, Copy)]
pub struct Choice {
    pub s: usize,
    pub at: Cursor,
}

// Whether p is the number of pairs of n macros and k fixes.
fn is_laid(n: usize, k: usize, p: usize) -> bool
    ensures { LaidBy result n k p }
{
    n <= Mac::COUNT && k <= Fix::COUNT && p == letter_count(n, k)
}

// The place of an overlapping pair of the p pairs of blocks, or p where each two are apart.
fn choose_pair(
    blocks: Blocks,
    p: usize,
    weights: [u64; Mac::COUNT],
    kx: &[u32; CELLS],
    ky: &[u32; CELLS],
    found: bool,
    spots: [Spot; Mac::COUNT],
) -> Choice
    requires { Laid blocks.n blocks.k p }
    ensures chosen { Chosen (bare_of blocks) (take blocks.n spots) p result.s }
    ensures place_of { PlaceOf blocks p result.s result.at }
{
    let mut best = p;
    let mut most: u64 = 0;
    let mut at = first_pair(blocks.n);
    let mut best_at = at;
    for s in 0..p {
        let v = pair_score(blocks, spots, weights, kx, ky, found, at);
        if most < v {
            best = s;
            best_at = at;
            most = v;
        }
        at = next_pair(at, blocks.n, blocks.k);
    }
    Choice {
        s: best,
        at: best_at,
    }
}

// The same for any blocks and any number of pairs; kx, ky are the differences kept, and found says whether a placement is found.
pub fn choose(
    blocks: Blocks,
    p: usize,
    weights: [u64; Mac::COUNT],
    kx: &[u32; CELLS],
    ky: &[u32; CELLS],
    found: bool,
    spots: [Spot; Mac::COUNT],
) -> Choice
    ensures { ChosenOf blocks spots p result.s result.at }
{
    if is_laid(blocks.n, blocks.k, p) {
        choose_pair(blocks, p, weights, kx, ky, found, spots)
    } else {
        Choice {
            s: p,
            at: first_pair(blocks.n),
        }
    }
}
