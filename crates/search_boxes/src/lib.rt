// The two boxes of a pair.
#![tactic(auto)]

ghost use Rattle.std.specs.Prelude.{◌≡◌};
ghost use Rattle.geometry.specs.Box.{blank_box};
ghost use Rattle.search_boxes.specs.Boxes.{mac_box, second_of};

use geometry::Box;
use model::{Blocks, Fix, Mac, Spot};

fn empty_box() -> Box
    ensures { result ≡ blank_box }
{
    Box {
        x: 0,
        y: 0,
        w: 0,
        h: 0,
    }
}

// Macro i at its corner, counted from 0; past the arrays an empty box.
pub fn mac_box(blocks: Blocks, spots: [Spot; Mac::COUNT], i: usize) -> Box
    ensures { result ≡ mac_box blocks spots i }
{
    if i < Mac::COUNT {
        geometry::box_at(blocks.macs[i], spots[i])
    } else {
        empty_box()
    }
}

// The second of a pair: fix j, or macro j at its corner; past the arrays an empty box.
pub fn second_box(blocks: Blocks, spots: [Spot; Mac::COUNT], fix: bool, j: usize) -> Box
    ensures { result ≡ second_of blocks spots fix j }
{
    if !fix {
        mac_box(blocks, spots, j)
    } else if j < Fix::COUNT {
        geometry::box_of(blocks.fixes[j])
    } else {
        empty_box()
    }
}
