// What is left of a branch once some letters of a pair are closed: the fits of the others, and the differences kept.
#![tactic(auto)]

ghost use Rattle.std.specs.Prelude.{◌≡◌, set};
ghost use Rattle.search_left.specs.Left.{child_list, child_at, NextChild, Over, ExcludedBy, OppositeKept, SameKept, NextOrOver, Visited};

use axis_bounds::Slot;
use fit_slots::Direction;
use model::Record;
use search_best::replaces_best;
use search_kept::CELLS;
use search_node::{no_record, way};

// How many letters a pair has: L, R, B and A, in this order.
pub const FOUR: usize = 4;

// The fits of the four letters; none where there is no fit, or nothing of it is left. The differences kept.
#[derive(Clone, Copy)]
pub struct Left {
    pub fits: [Record; FOUR],
    pub kx: [u32; CELLS],
    pub ky: [u32; CELLS],
}

// Child i; none past the four.
pub fn child_at(left: Left, i: usize) -> Record
    ensures { result ≡ child_at (child_list left) i }
{
    if i < FOUR { left.fits[i] } else { no_record() }
}

// The record f as child i.
pub fn put_child(left: Left, i: usize, f: Record) -> Left
    ensures { SameKept left result (set (child_list left) i f) }
{
    let mut t = left;
    if i < FOUR {
        t.fits[i] = f;
    }
    t
}

// The child whose fit is the best, where one is left.
fn first_child(left: Left) -> Option<usize>
    ensures { NextChild (child_list left) result }
{
    let mut best = no_record();
    let mut at = None;
    for i in 0..FOUR {
        let k = child_at(left, i);
        if replaces_best(best, k) {
            best = k;
            at = Some(i);
        }
    }
    at
}

// Whether the differences contradict each other.
fn is_over(left: Left) -> bool
    ensures { Over result left.kx left.ky }
{
    search_kept::is_shut(&left.kx) || search_kept::is_shut(&left.ky)
}

// The child to visit next, where something is left.
pub fn next_child(left: Left) -> Option<usize>
    ensures { NextOrOver left result }
{
    if is_over(left) {
        None
    } else {
        first_child(left)
    }
}

// Whether nothing that keeps the differences keeps letter i, whose slot is s.
pub fn is_excluded(left: Left, i: usize, s: Slot) -> bool
    ensures { ExcludedBy result i s left.kx left.ky }
{
    is_over(left)
        || match way(i) {
            Direction::Horizontal => search_kept::excludes(&left.kx, s),
            Direction::Vertical => search_kept::excludes(&left.ky, s),
        }
}

// The opposite of letter i is kept.
pub fn keep_opposite(left: Left, i: usize, s: Slot) -> Left
    ensures { OppositeKept left i s result }
{
    let mut t = left;
    match way(i) {
        Direction::Horizontal => t.kx = search_kept::keep_opposite(left.kx, s),
        Direction::Vertical => t.ky = search_kept::keep_opposite(left.ky, s),
    }
    t
}

// Child i is visited: it goes, and its opposite is kept.
pub fn visited(left: Left, i: usize, t: Slot) -> Left
    ensures { Visited left i t result }
{
    keep_opposite(put_child(left, i, no_record()), i, t)
}
