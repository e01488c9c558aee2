// Small chips made by a rule from a case's number.
ghost use Rattle.std.specs.Prelude.{◌≤◌};

use crate::every::clear;
use crate::fields::number_at;
use model::{Chip, Die, Fix, Mac, Net, Pin};

// A block of chips: how many macros, at most so many fixes, how many nets (at most 4), and the greatest sides of the die and of a macro.
#[derive(Clone, Copy)]
pub(crate) struct Block {
    pub n: usize,
    pub k: usize,
    pub t: usize,
    pub die_w: u64,
    pub die_h: u64,
    pub side: u64,
}

// The block of a line, from field 2 on.
pub(crate) fn block_at(s: &[u8]) -> Block {
    Block {
        n: number_at(s, 2) as usize,
        k: number_at(s, 3) as usize,
        t: number_at(s, 4) as usize,
        die_w: number_at(s, 5),
        die_h: number_at(s, 6),
        side: number_at(s, 7),
    }
}

// A step of a linear congruential generator, with the upper bits added.
fn step(s: u64) -> u64 {
    let r = s % 2147483648;
    (r * 1103515245 + r / 65536 + 12345) % 2147483648
}

// A number below count, for a place of a case.
fn draw(case: u64, place: u64, count: u64) -> u64 {
    if count == 0 {
        return 0;
    }
    let s = (case % 65536) * 7919 + (place % 65536) * 104729;
    step(step(step(s))) / 256 % count
}

// One of count numbers from least on; both are small.
fn from(least: u64, case: u64, place: u64, count: u64) -> u64
    ensures { result ≤ 65536 }
{
    let d = draw(case, place, count);
    if least < 32768 {
        if d < 32768 {
            return least + d;
        }
    }
    0
}

// A number from 1 to most.
fn side(case: u64, place: u64, most: u64) -> u64
    ensures { result ≤ 65536 }
{
    from(1, case, place, most)
}

// What a is above b, at least 1.
fn above(a: u64, b: u64) -> u64 {
    if b < a {
        return a - b;
    }
    1
}

// Each side is the greatest, or one or two less.
fn die_of(case: u64, b: Block) -> Die {
    Die {
        w: above(b.die_w, draw(case, 0, 3)),
        h: above(b.die_h, draw(case, 1, 3)),
    }
}

// A number from 1 to most, the smaller ones more often.
fn small_side(case: u64, place: u64, most: u64) -> u64 {
    if place < 65536 {
        return side(case, place, most).min(side(case, place + 1, most));
    }
    1
}

// A macro may be larger than the die.
fn macs_of(case: u64, most: u64) -> [Mac; Mac::COUNT] {
    let mut macs = [Mac { w: 1, h: 1 }; Mac::COUNT];
    for i in 0..Mac::COUNT {
        let at = 200 + 4 * i as u64;
        macs[i] = Mac {
            w: small_side(case, at, most),
            h: small_side(case, at + 2, most),
        };
    }
    macs
}

// The rest of a side from x on, at most 2.
fn rest(whole: u64, x: u64) -> u64 {
    if x < whole {
        return (whole - x).min(2);
    }
    0
}

// A fix within the die, with sides of at most 2.
fn fix_of(case: u64, place: u64, die: Die) -> Fix {
    if 65536 < place {
        return Fix {
            x: 0,
            y: 0,
            w: 1,
            h: 1,
        };
    }
    let x = draw(case, place, die.w);
    let y = draw(case, place + 1, die.h);
    Fix {
        x,
        y,
        w: side(case, place + 2, rest(die.w, x)),
        h: side(case, place + 3, rest(die.h, y)),
    }
}

// The chip with one fix more, where it is apart from the earlier ones.
fn with_fix(c: Chip, f: Fix) -> Chip {
    let mut c = c;
    let mut fixes = c.fixes;
    let k = c.k;
    if Fix::COUNT <= k {
        return c;
    }
    if clear(f, fixes, k) {
        fixes[k] = f;
        c.fixes = fixes;
        c.k = k + 1;
    }
    c
}

// A pin of a macro lies in it or outside it; a pad may lie off the die.
fn pin_of(case: u64, place: u64, n: usize) -> Pin {
    if 65536 < place {
        return Pin {
            m: 0,
            xup: 4096,
            yup: 4096,
        };
    }
    let macros = n as u64;
    if (Mac::COUNT as u64) < macros {
        return Pin {
            m: 0,
            xup: 4096,
            yup: 4096,
        };
    }
    let m = draw(case, place, macros + 1) as usize;
    if m == 0 {
        return Pin {
            m,
            xup: from(4092, case, place + 1, 13),
            yup: from(4092, case, place + 2, 13),
        };
    }
    Pin {
        m,
        xup: from(4094, case, place + 1, 6),
        yup: from(4094, case, place + 2, 6),
    }
}

fn pins_of(case: u64, n: usize) -> [Pin; Pin::COUNT] {
    let mut pins = [Pin {
        m: 0,
        xup: 4096,
        yup: 4096,
    }; Pin::COUNT];
    for i in 0..16 {
        pins[i] = pin_of(case, 100 + 3 * i as u64, n);
    }
    pins
}

// Weights 1 to 4. One net in seven has one pin, the others have two, three or four.
fn nets_of(case: u64) -> [Net; Net::COUNT] {
    let mut nets = [Net { weight: 1, pins: 1 }; Net::COUNT];
    for j in 0..4 {
        let at = 50 + 2 * j as u64;
        nets[j] = Net {
            weight: side(case, at, 4),
            pins: 1 + (side(case, at + 1, 7) / 2) as usize,
        };
    }
    nets
}

pub(crate) fn blank_chip(die: Die) -> Chip {
    Chip {
        die,
        k: 0,
        fixes: [Fix {
            x: 0,
            y: 0,
            w: 0,
            h: 0,
        }; Fix::COUNT],
        n: 0,
        macs: [Mac { w: 0, h: 0 }; Mac::COUNT],
        t: 0,
        nets: [Net { weight: 0, pins: 0 }; Net::COUNT],
        pins: [Pin {
            m: 0,
            xup: 0,
            yup: 0,
        }; Pin::COUNT],
    }
}

fn with_fixes(c: Chip, case: u64, k: usize) -> Chip {
    let die = c.die;
    if k == 0 {
        return c;
    }
    let one = with_fix(c, fix_of(case, 30, die));
    if k == 1 {
        return one;
    }
    with_fix(one, fix_of(case, 40, die))
}

// The chip of a case in a block.
pub(crate) fn chip_of(case: u64, b: Block) -> Chip {
    let die = die_of(case, b);
    let mut c = with_fixes(blank_chip(die), case, b.k);
    let macs = macs_of(case, b.side);
    let nets = nets_of(case);
    let pins = pins_of(case, b.n);
    c.n = b.n;
    c.macs = macs;
    c.t = b.t;
    c.nets = nets;
    c.pins = pins;
    c
}
