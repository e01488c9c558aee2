// The slot that a letter asks of a pair, in a direction.
#![tactic(auto)]

ghost use Rattle.std.specs.Prelude.{◌≡◌, ◌<◌};
ghost use Rattle.axis_bounds.specs.Axis.{no_slot};
ghost use Rattle.fit_slots.specs.Slots.{die_side, mac_side, fix_side, fix_corner, asked};
ghost use Rattle.fit_slots.specs.Fit.{letter_of};
ghost use Rattle.fit_slots.specs.Axes.{mac_pair, fix_pair};
ghost use Rattle.fit_pair_slots.specs.Letters.{slot_read};

use axis_bounds::Slot;
use fit_pairs::Cursor;
use fit_slots::{Asked, Direction};
use model::{Blocks, Die, Fix, Mac};

// The side of the die, of a macro, of a fix, and the corner of a fix, in a direction.
pub fn die_side(die: Die, d: Direction) -> u64
    ensures { result ≡ die_side d die }
{
    match d {
        Direction::Horizontal => die.w,
        Direction::Vertical => die.h,
    }
}

pub fn mac_side(m: Mac, d: Direction) -> u64
    ensures { result ≡ mac_side d m }
{
    match d {
        Direction::Horizontal => m.w,
        Direction::Vertical => m.h,
    }
}

pub fn fix_side(f: Fix, d: Direction) -> u64
    ensures { result ≡ fix_side d f }
{
    match d {
        Direction::Horizontal => f.w,
        Direction::Vertical => f.h,
    }
}

pub fn fix_corner(f: Fix, d: Direction) -> u64
    ensures { result ≡ fix_corner d f }
{
    match d {
        Direction::Horizontal => f.x,
        Direction::Vertical => f.y,
    }
}

// What a letter asks in a direction: L and B the first of a pair before the second, R and A after it.
pub fn asked_by(letter: u8, d: Direction) -> Asked
    ensures { result ≡ asked d (letter_of letter) }
{
    match (d, letter) {
        (Direction::Horizontal, b'L') | (Direction::Vertical, b'B') => Asked::Before,
        (Direction::Horizontal, b'R') | (Direction::Vertical, b'A') => Asked::After,
        _ => Asked::Nothing,
    }
}

// The slot of a pair of which nothing is asked.
pub fn no_slot() -> Slot
    ensures { result ≡ no_slot }
{
    Slot {
        tail: 0,
        head: 0,
        plus: 0,
        minus: 0,
    }
}

// Macros i and j with sizes w and v.
fn mac_pair(k: Asked, i: usize, w: u64, j: usize, v: u64) -> Slot
    ensures { result ≡ mac_pair k i w j v }
{
    match k {
        Asked::Before => Slot {
            tail: i,
            head: j,
            plus: w,
            minus: 0,
        },
        Asked::After => Slot {
            tail: j,
            head: i,
            plus: v,
            minus: 0,
        },
        Asked::Nothing => no_slot(),
    }
}

// Macro i with size w and a fix at x with size v.
fn fix_pair(k: Asked, i: usize, w: u64, x: u64, v: u64) -> Slot
    requires { (x < 65536) × (v < 65536) }
    ensures { result ≡ fix_pair k i w x v }
{
    match k {
        Asked::Before => Slot {
            tail: i,
            head: 0,
            plus: w,
            minus: x,
        },
        Asked::After => Slot {
            tail: 0,
            head: i,
            plus: x + v,
            minus: 0,
        },
        Asked::Nothing => no_slot(),
    }
}

// The slot of a pair in a direction. A cursor past the arrays and a fix past its ranges are read modulo 8 and 65,536.
pub fn slot_at(blocks: Blocks, at: Cursor, k: Asked, d: Direction) -> Slot
    ensures { result ≡ slot_read d k blocks at.fix at.i at.j }
{
    let i = at.i % Mac::COUNT;
    let w = mac_side(blocks.macs[i], d);
    if at.fix {
        let f = blocks.fixes[at.j % Fix::COUNT];
        fix_pair(
            k,
            i + 1,
            w,
            fix_corner(f, d) % 65536,
            fix_side(f, d) % 65536,
        )
    } else {
        let j = at.j % Mac::COUNT;
        mac_pair(k, i + 1, w, j + 1, mac_side(blocks.macs[j], d))
    }
}
