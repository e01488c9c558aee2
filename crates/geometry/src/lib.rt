// Boxes: fixes, and macros at their corners; whether they lie in the die, and are apart by a gap.
#![tactic(auto)]

ghost use Rattle.std.specs.Prelude.{◌≡◌, map, ◌+◌, leb, take};
ghost use Rattle.geometry.specs.Box.{box_at, box_of, in_die, left_of, below as isBelow, apart as areApart, clear_of};

use model::{Die, Fix, Mac, Spot};

// A rectangle: its lower left corner at x,y, its width and its height.
#[derive(Clone, Copy)]
pub struct Box {
    pub x: u64,
    pub y: u64,
    pub w: u64,
    pub h: u64,
}

impl Box {
    // How many boxes stand in one array: all fixes, or all macros.
    pub const COUNT: usize = 8;
}

// A macro at a corner.
pub fn box_at(m: Mac, p: Spot) -> Box
    ensures { result ≡ box_at m p }
{
    Box {
        x: p.x,
        y: p.y,
        w: m.w,
        h: m.h,
    }
}

// A fix.
pub fn box_of(f: Fix) -> Box
    ensures { result ≡ box_of f }
{
    Box {
        x: f.x,
        y: f.y,
        w: f.w,
        h: f.h,
    }
}

// The fixes.
pub fn boxes_of(fixes: [Fix; Fix::COUNT]) -> [Box; Box::COUNT]
    ensures { result ≡ map box_of fixes }
{
    fixes.map(box_of)
}

// Whether a + size is at most end, also where that sum is too large to be held.
fn ends_by(a: u64, size: u64, end: u64) -> bool
    ensures { result ≡ leb (a + size) end }
{
    a <= end && size <= end - a
}

// Whether a + size + gap is at most end.
fn ends_before(a: u64, size: u64, gap: u64, end: u64) -> bool
    ensures { result ≡ leb (a + size + gap) end }
{
    gap <= end && ends_by(a, size, end - gap)
}

// Whether a box lies in the die.
pub fn in_die(d: Die, a: Box) -> bool
    ensures { result ≡ in_die d a }
{
    ends_by(a.x, a.w, d.w) && ends_by(a.y, a.h, d.h)
}

// Whether a is left of b, with a gap between them.
pub fn left_of(a: Box, b: Box, gap: u64) -> bool
    ensures { result ≡ left_of gap a b }
{
    ends_before(a.x, a.w, gap, b.x)
}

// Whether a is below b, with a gap between them.
pub fn below(a: Box, b: Box, gap: u64) -> bool
    ensures { result ≡ isBelow gap a b }
{
    ends_before(a.y, a.h, gap, b.y)
}

// Whether one box is left of, right of, below or above the other.
pub fn apart(a: Box, b: Box, gap: u64) -> bool
    ensures { result ≡ areApart gap a b }
{
    left_of(a, b, gap) || left_of(b, a, gap) || below(a, b, gap) || below(b, a, gap)
}

// Whether a is apart from each of the first k boxes.
#[tactic(auto, unfolding(crate::specs::Box::clear_of))]
pub fn clear_of(a: Box, bs: [Box; Box::COUNT], k: usize, gap: u64) -> bool
    ensures { result ≡ clear_of gap a (take k bs) }
{
    bs.iter().take(k).all(|b| apart(a, *b, gap))
}
