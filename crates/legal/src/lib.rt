// Macros at their corners: whether all lie in the die, and are apart from the fixes and from each other.
#![tactic(auto)]

ghost use Rattle.std.specs.Prelude.{◌≡◌, [], map, ◌≤◌, ◌<◌, get_or, take};
ghost use Rattle.geometry.specs.Box.{box_of, blank_box};
ghost use Rattle.placement.specs.Legal.{boxes};
ghost use Rattle.legal.specs.Turn.{legal_box, legal_after, legal_held};

use geometry::Box;
use model::{Chip, Die, Fix, Mac, Spot};

// The gap between two macros, and between a macro and a fix.
const GAP: u64 = 0;

// The macros at their positions, as boxes.
fn boxes_at(macs: [Mac; Mac::COUNT], spots: [Spot; Mac::COUNT]) -> [Box; Box::COUNT]
    ensures { result ≡ boxes macs spots }
{
    let mut bs = [Box {
        x: 0,
        y: 0,
        w: 0,
        h: 0,
    }; Box::COUNT];
    for i in 0..Mac::COUNT {
        bs[i] = geometry::box_at(macs[i], spots[i]);
    }
    bs
}

// Whether box i lies in the die, and is apart from the k boxes fs and from the boxes before it.
fn legal_box(die: Die, fs: [Box; Box::COUNT], k: usize, bs: [Box; Box::COUNT], i: usize) -> bool
    requires { i < 8 }
    ensures { result ≡ legal_box 0 die (take k fs) (take i bs) (get_or bs i blank_box) }
{
    let b = bs[i];
    geometry::in_die(die, b)
        && geometry::clear_of(b, fs, k, GAP)
        && geometry::clear_of(b, bs, i, GAP)
}

// Whether each of the first n boxes is legal.
fn legal_first(die: Die, fs: [Box; Box::COUNT], k: usize, bs: [Box; Box::COUNT], n: usize) -> bool
    requires { n ≤ 8 }
    ensures { result ≡ legal_after 0 die (take k fs) [] (take n bs) }
{
    for i in 0..n {
        if !legal_box(die, fs, k, bs, i) {
            return false;
        }
    }
    true
}

// Whether each of n boxes is legal beside k fixes; all of them, where n is above their number.
fn legal_boxes(
    die: Die,
    fixes: [Fix; Fix::COUNT],
    k: usize,
    bs: [Box; Box::COUNT],
    n: usize,
) -> bool
    ensures { result ≡ legal_after 0 die (map box_of (take k fixes)) [] (take n bs) }
{
    let fs = geometry::boxes_of(fixes);
    if Mac::COUNT < n {
        return legal_first(die, fs, k, bs, Mac::COUNT);
    }
    legal_first(die, fs, k, bs, n)
}

// Whether each macro at its position lies in the die, and is apart from the fixes and from the macros before it; of any chip value, without a test.
pub fn is_legal(c: Chip, spots: [Spot; Mac::COUNT]) -> bool
    ensures { result ≡ legal_held c spots }
{
    legal_boxes(c.die, c.fixes, c.k, boxes_at(c.macs, spots), c.n)
}
