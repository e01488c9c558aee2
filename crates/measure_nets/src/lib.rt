// The box of a net, for any pins and positions (document 02, Card 2), and how long a net with a box is (document 01, "Legal, and how long").
// Numbers count up to a limit that those of a tested chip do not reach.
#![tactic(auto)]

ghost use Rattle.std.specs.Prelude.{◌≡◌, ◌+◌, ◌-◌, min};
ghost use Rattle.std.proofs.Math.Seq.{slice};
ghost use Rattle.placement.specs.Length.{origin};
ghost use Rattle.measure_nets.specs.Held.{limited, held_x, held_y, with_pin, box_held, box_length_held};

use model::{Mac, Pin, Spot};

// Coordinates and weights count up to this, and the sides of a box.
const MOST: u64 = 2147483648;

// No pin lies farther: its macro's corner and its place there count up to MOST each.
const FARTHEST: u64 = 4294967296;

// The corner that a pin's x and y are added to: the macro's, or 0,0 for a pad and for a macro that there is not.
fn origin_of(spots: [Spot; Mac::COUNT], m: usize) -> Spot
    ensures { result ≡ origin spots m }
{
    if m == 0 || Mac::COUNT < m {
        return Spot { x: 0, y: 0 };
    }
    spots[m - 1]
}

// Where a pin lies, 4,096 higher.
fn place_of(spots: [Spot; Mac::COUNT], p: Pin) -> Spot
    ensures { result ≡ record { x = held_x spots p; y = held_y spots p } }
{
    let o = origin_of(spots, p.m);
    let x = o.x.min(MOST) + p.xup.min(MOST);
    let y = o.y.min(MOST) + p.yup.min(MOST);
    Spot { x, y }
}

// The box of a net: its least and greatest x and y, each held higher by Pin::UP.
#[derive(Clone, Copy)]
pub struct NetBox {
    pub left: u64,
    pub right: u64,
    pub bottom: u64,
    pub top: u64,
}

// The same with one pin more.
fn with_pin(b: NetBox, p: Spot) -> NetBox
    ensures { result ≡ with_pin b p }
{
    let left = b.left.min(p.x);
    let right = b.right.max(p.x);
    let bottom = b.bottom.min(p.y);
    let top = b.top.max(p.y);
    NetBox {
        left,
        right,
        bottom,
        top,
    }
}

// Where as many pins from `from` on end, in the array.
pub fn end_of(from: usize, count: usize) -> usize
    ensures { result ≡ min (from + count) 128 }
{
    from.saturating_add(count).min(Pin::COUNT)
}

// The box of a net with as many pins from `from` on; of none, all ends are held as 0.
// One pass (document 02, Card 4): the loop's one index goes up by one, and each pin is read once, by the loop's one read.
pub fn net_box(
    spots: [Spot; Mac::COUNT],
    pins: [Pin; Pin::COUNT],
    from: usize,
    count: usize,
) -> NetBox
    ensures { result ≡ box_held spots (slice from (from + count) pins) }
{
    let to = end_of(from, count);
    if to <= from {
        return NetBox {
            left: 0,
            right: 0,
            bottom: 0,
            top: 0,
        };
    }
    let mut b = NetBox {
        left: FARTHEST,
        right: 0,
        bottom: FARTHEST,
        top: 0,
    };
    for i in from..to {
        let p = place_of(spots, pins[i]);
        b = with_pin(b, p);
    }
    b
}

// A side of a box: from its least place to its greatest.
fn side(least: u64, greatest: u64) -> u64
    ensures { result ≡ limited (greatest - least) }
{
    greatest.saturating_sub(least).min(MOST)
}

// The length of a net of that weight with that box: the weight times its width plus its height.
pub fn net_length(weight: u64, b: NetBox) -> u64
    ensures { result ≡ box_length_held weight b }
{
    let width = side(b.left, b.right);
    let height = side(b.bottom, b.top);
    weight.min(MOST) * (width + height)
}
