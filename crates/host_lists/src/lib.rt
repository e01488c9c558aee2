// Positions as a lent list of numbers x1, y1, x2, y2 ..: whether it has the right length, and corners put into it.
#![tactic(auto)]

ghost use Rattle.std.specs.Prelude.{◌≡◌, [], ◌∷◌, ◌*◌, ltb, eqb, take, set};
ghost use Rattle.std.proofs.lemmas.List.Edits.{sets};
ghost use Rattle.refusals.specs.Tests.{test, first_failed};
ghost use Rattle.placement.specs.Order.{keys};

use model::{Mac, Spot};

// Whether a list of that length is too short for n corners.
pub fn is_short(length: usize, n: usize) -> bool
    ensures { result ≡ ltb length (2 * n) }
{
    length / 2 < n
}

// 13 where a list of that length does not have two numbers for each of n corners, else 0.
pub fn count_fault(length: usize, n: usize) -> usize
    ensures { result ≡ first_failed (test 13 (eqb length (2 * n)) ∷ []) }
{
    if length / 2 == n {
        if length % 2 == 0 {
            return 0;
        }
    }
    13
}

// A number at a place of the list; past its end nothing is put.
fn put(list: &mut [u64], at: usize, v: u64)
    ensures { list.new ≡ set list.old at v }
{
    if at < list.len() {
        list[at] = v;
    }
}

// The first n corners at the front of the list, as far as it goes.
pub fn put_corners(list: &mut [u64], spots: [Spot; Mac::COUNT], n: usize)
    ensures { list.new ≡ sets list.old 0 (keys (take n spots)) }
{
    for i in 0..Mac::COUNT {
        if n <= i {
            return;
        }
        let p = spots[i];
        put(list, i + i, p.x);
        put(list, i + i + 1, p.y);
    }
}
