// A chip solved by trying every position of every macro, in document 01's order.
use crate::count::{product, sum};
use geometry::Box;
use model::{Chip, Die, Fix, Mac, Net, Pin, Spot};

// The first of the least placements, and how many are as short.
#[derive(Clone, Copy)]
pub(crate) struct Least {
    pub length: u64,
    pub spots: [Spot; Mac::COUNT],
    pub count: u64,
}

// What trying found; `whole` says that all positions were tried.
#[derive(Clone, Copy)]
pub(crate) struct Found {
    pub least: Option<Least>,
    pub whole: bool,
}

// Of two boxes one is left of, right of, below or above the other.
fn apart(a: Box, b: Box) -> bool {
    sum(a.x, a.w) <= b.x || sum(b.x, b.w) <= a.x || sum(a.y, a.h) <= b.y || sum(b.y, b.h) <= a.y
}

fn in_die(die: Die, b: Box) -> bool {
    sum(b.x, b.w) <= die.w && sum(b.y, b.h) <= die.h
}

fn fix_box(f: Fix) -> Box {
    Box {
        x: f.x,
        y: f.y,
        w: f.w,
        h: f.h,
    }
}

fn mac_box(m: Mac, s: Spot) -> Box {
    Box {
        x: s.x,
        y: s.y,
        w: m.w,
        h: m.h,
    }
}

// Whether a box is apart from each of the first k fixes.
fn clear_of_fixes(b: Box, fixes: [Fix; Fix::COUNT], k: usize) -> bool {
    fixes[..k.min(Fix::COUNT)]
        .iter()
        .all(|f| apart(b, fix_box(*f)))
}

// Whether a fix is apart from each of the first k fixes.
pub(crate) fn clear(f: Fix, fixes: [Fix; Fix::COUNT], k: usize) -> bool {
    clear_of_fixes(fix_box(f), fixes, k)
}

// Whether macro j at its corner is apart from each of the macros before it.
fn clear_of_macs(c: Chip, spots: [Spot; Mac::COUNT], j: usize) -> bool {
    let macs = c.macs;
    if Mac::COUNT <= j {
        return true;
    }
    let b = mac_box(macs[j], spots[j]);
    for i in 0..j {
        if !apart(b, mac_box(macs[i], spots[i])) {
            return false;
        }
    }
    true
}

// Whether macro j lies in the die, and, unless every pair is undecided, is apart from the fixes and from the macros before it.
fn allowed_macro(c: Chip, spots: [Spot; Mac::COUNT], j: usize, undecided: bool) -> bool {
    let macs = c.macs;
    if Mac::COUNT <= j {
        return true;
    }
    let b = mac_box(macs[j], spots[j]);
    in_die(c.die, b) && (undecided || clear_of_fixes(b, c.fixes, c.k) && clear_of_macs(c, spots, j))
}

pub(crate) fn allowed(c: Chip, spots: [Spot; Mac::COUNT], undecided: bool) -> bool {
    for j in 0..c.n.min(Mac::COUNT) {
        if !allowed_macro(c, spots, j, undecided) {
            return false;
        }
    }
    true
}

// Where a pin lies, 4,096 higher.
fn place_of(spots: [Spot; Mac::COUNT], p: Pin) -> Spot {
    let m = p.m;
    if m == 0 {
        return Spot { x: p.xup, y: p.yup };
    }
    if Mac::COUNT < m {
        return Spot { x: p.xup, y: p.yup };
    }
    let s = spots[m - 1];
    Spot {
        x: sum(s.x, p.xup),
        y: sum(s.y, p.yup),
    }
}

// The least and the greatest coordinates of some pins, 4,096 higher.
#[derive(Clone, Copy)]
pub(crate) struct Extent {
    pub least: Spot,
    pub most: Spot,
}

fn wider(e: Extent, p: Spot) -> Extent {
    let least = e.least;
    let most = e.most;
    Extent {
        least: Spot {
            x: least.x.min(p.x),
            y: least.y.min(p.y),
        },
        most: Spot {
            x: most.x.max(p.x),
            y: most.y.max(p.y),
        },
    }
}

// The least and the greatest coordinates of count pins from `from` on.
pub(crate) fn extent_of(
    spots: [Spot; Mac::COUNT],
    pins: [Pin; Pin::COUNT],
    from: usize,
    count: usize,
) -> Extent {
    let mut e = Extent {
        least: Spot { x: 65535, y: 65535 },
        most: Spot { x: 0, y: 0 },
    };
    for i in 0..Pin::COUNT {
        if from <= i {
            if i - from < count {
                e = wider(e, place_of(spots, pins[i]));
            }
        }
    }
    e
}

// Greatest less least x, plus greatest less least y.
fn half_perimeter(e: Extent) -> u64 {
    let least = e.least;
    let most = e.most;
    sum(
        most.x.saturating_sub(least.x),
        most.y.saturating_sub(least.y),
    )
}

// The place after a net's pins.
pub(crate) fn after(from: usize, net: Net) -> usize {
    if from <= Pin::COUNT {
        if net.pins <= Pin::COUNT {
            return from + net.pins;
        }
    }
    Pin::COUNT
}

pub(crate) fn length_of(c: Chip, spots: [Spot; Mac::COUNT]) -> u64 {
    let nets = c.nets;
    let pins = c.pins;
    let t = c.t;
    let mut total: u64 = 0;
    let mut from: usize = 0;
    for j in 0..Net::COUNT {
        if t <= j {
            return total;
        }
        let net = nets[j];
        let half = half_perimeter(extent_of(spots, pins, from, net.pins));
        total = sum(total, product(net.weight, half));
        from = after(from, net);
    }
    total
}

// The positions that come next: the last macro's y first, up to the die's sides.
pub(crate) fn next(
    mut spots: [Spot; Mac::COUNT],
    n: usize,
    die: Die,
) -> Option<[Spot; Mac::COUNT]> {
    for i in (0..n.min(Mac::COUNT)).rev() {
        let s = spots[i];
        if s.y < die.h {
            spots[i] = Spot { x: s.x, y: s.y + 1 };
            return Some(spots);
        }
        if s.x < die.w {
            spots[i] = Spot { x: s.x + 1, y: 0 };
            return Some(spots);
        }
        spots[i] = Spot { x: 0, y: 0 };
    }
    None
}

pub(crate) fn nothing() -> Found {
    Found {
        least: None,
        whole: true,
    }
}

pub(crate) fn first(spots: [Spot; Mac::COUNT], length: u64) -> Found {
    Found {
        least: Some(Least {
            length,
            spots,
            count: 1,
        }),
        whole: true,
    }
}

// With one placement more, which comes later.
fn with_later(found: Found, spots: [Spot; Mac::COUNT], length: u64) -> Found {
    let Some(mut least) = found.least else {
        return first(spots, length);
    };
    if length < least.length {
        return first(spots, length);
    }
    if length == least.length {
        least.count = sum(least.count, 1);
    }
    Found {
        least: Some(least),
        whole: found.whole,
    }
}

fn tried(c: Chip, spots: [Spot; Mac::COUNT], undecided: bool, found: Found) -> Found {
    if !allowed(c, spots, undecided) {
        return found;
    }
    with_later(found, spots, length_of(c, spots))
}

// Tries every position of every macro, up to a million placements: the legal ones, or, where every pair is undecided, all in the die.
pub(crate) fn try_every(c: Chip, undecided: bool) -> Found {
    let die = c.die;
    let mut found = nothing();
    let mut spots = [Spot { x: 0, y: 0 }; Mac::COUNT];
    for i in 0..1000000 {
        found = tried(c, spots, undecided, found);
        let Some(later) = next(spots, c.n, die) else {
            return found;
        };
        spots = later;
    }
    found.whole = false;
    found
}
