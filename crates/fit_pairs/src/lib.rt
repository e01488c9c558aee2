// The pairs of a chip, in the order of their letters: how many there are, a cursor through them, and a dot for each.
#![tactic(auto)]

ghost use Rattle.std.specs.Prelude.{◌≡◌};
ghost use Rattle.fit_slots.specs.Fit.{dots};
ghost use Rattle.fit_pairs.specs.Order.{First, first_pair, is_on, next_of};
ghost use Rattle.fit_pairs.specs.Count.{letter_total};

use model::{Fix, Mac};

// Room for the letters of a chip: at most 92 today, and 120 with 12 more fixes.
pub const LETTERS: usize = 120;

// A pair in the order of letters: macros i and j, or macro i and fix j, counted from 0.
#[derive(Clone, Copy)]
pub struct Cursor {
    pub fix: bool,
    pub i: usize,
    pub j: usize,
}

// The first pair of n macros; no fix is needed to name it.
pub fn first_pair(n: usize) -> Cursor
    ensures value { result ≡ first_pair n }
    ensures first { First n result }
{
    if 2 <= n {
        Cursor {
            fix: false,
            i: 0,
            j: 1,
        }
    } else {
        Cursor {
            fix: true,
            i: 0,
            j: 0,
        }
    }
}

// Whether n macros and k fixes have the pair.
fn on_pair(at: Cursor, n: usize, k: usize) -> bool
    ensures { result ≡ is_on n k at.fix at.i at.j }
{
    let Cursor { fix, i, j } = at;
    if fix { i < n && j < k } else { i < j && j < n }
}

// The pair after the one at hand, with n macros and k fixes. A cursor that is on no pair stays as it is.
pub fn next_pair(at: Cursor, n: usize, k: usize) -> Cursor
    ensures { result ≡ next_of at n k }
{
    let Cursor { fix, i, j } = at;
    if !on_pair(at, n, k) {
        at
    } else if fix {
        if j + 1 < k {
            Cursor { fix, i, j: j + 1 }
        } else {
            Cursor {
                fix: true,
                i: i + 1,
                j: 0,
            }
        }
    } else if j + 1 < n {
        Cursor { fix, i, j: j + 1 }
    } else if i + 2 < n {
        Cursor {
            fix: false,
            i: i + 1,
            j: i + 2,
        }
    } else {
        Cursor {
            fix: true,
            i: 0,
            j: 0,
        }
    }
}

// With n macros, k fixes there are n(n-1)/2 + n·k letters; 0 past 8 macros or 8 fixes, which no chip has.
#[tactic(auto, unfolding(crate::specs::Count::letter_total))]
pub fn letter_count(n: usize, k: usize) -> usize
    ensures { result ≡ letter_total n k }
{
    if n <= Mac::COUNT && k <= Fix::COUNT {
        n * n.saturating_sub(1) / 2 + n * k
    } else {
        0
    }
}

// A dot for each pair.
pub fn all_dots() -> [u8; LETTERS]
    ensures { result ≡ dots 120 }
{
    [b'.'; LETTERS]
}
