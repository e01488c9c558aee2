// A branch of the search: its letters, bounds, differences and fit; the four letters of a pair and the slots that they ask.
#![tactic(auto)]

ghost use Rattle.std.specs.Prelude.{◌≡◌, ◌-◌, set};
ghost use Rattle.search_node.specs.Letters.{byte_of, way_at, asked_at, slot_asked};
ghost use Rattle.search_node.specs.Node.{no_record, length_of, room_of};

use axis_bounds::Slot;
use fit_pair_slots::slot_at;
use fit_pairs::{Cursor, LETTERS};
use fit_slots::{Asked, Direction};
use model::{Blocks, Mac, Outcome, Record, Spot};
use search_kept::CELLS;
use search_tables::ARCS;

// What the search reads of a chip: its blocks, and the weight of each macro's nets.
#[derive(Clone, Copy)]
pub struct Parts {
    pub blocks: Blocks,
    pub weights: [u64; Mac::COUNT],
}

// The letters; in each direction the greatest bounds between nodes, the differences kept and the length of the half fit; the fit.
#[derive(Clone, Copy)]
pub struct Node {
    pub letters: [u8; LETTERS],
    pub ax: [u32; ARCS],
    pub ay: [u32; ARCS],
    pub kx: [u32; CELLS],
    pub ky: [u32; CELLS],
    pub lx: u64,
    pub ly: u64,
    pub here: Record,
}

// The record that holds no placement.
pub fn no_record() -> Record
    ensures { result ≡ no_record }
{
    Record {
        outcome: Outcome::None,
        spots: [Spot { x: 0, y: 0 }; Mac::COUNT],
    }
}

// The length of the placement that a record holds.
pub fn length_of(r: Record) -> u64
    ensures { result ≡ length_of r.outcome }
{
    match r.outcome {
        Outcome::Least(l, _) => l,
        Outcome::None => 0,
    }
}

// How long a half may be beside the other half's length so that the whole is not longer than the best.
pub fn room(best: Record, other: u64) -> u64
    ensures { result ≡ room_of best.outcome other }
{
    match best.outcome {
        Outcome::None => 4000000000,
        Outcome::Least(m, _) => m.saturating_sub(other),
    }
}

// The byte of letter i; 0 past the four.
fn letter(i: usize) -> u8
    ensures { result ≡ byte_of i }
{
    match i {
        0 => b'L',
        1 => b'R',
        2 => b'B',
        3 => b'A',
        _ => 0,
    }
}

// The letters with letter i for pair s.
pub fn decided(letters: [u8; LETTERS], s: usize, i: usize) -> [u8; LETTERS]
    ensures { result ≡ set letters s (byte_of i) }
{
    let mut ls = letters;
    if s < LETTERS {
        ls[s] = letter(i);
    }
    ls
}

// The direction of letter i.
pub fn way(i: usize) -> Direction
    ensures { result ≡ way_at i }
{
    if i < 2 {
        Direction::Horizontal
    } else {
        Direction::Vertical
    }
}

// What letter i asks of a pair in its direction.
fn asked(i: usize) -> Asked
    ensures { result ≡ asked_at i }
{
    match i {
        1 | 3 => Asked::After,
        _ => Asked::Before,
    }
}

// The slot that letter i asks of the pair at hand.
pub fn letter_slot(parts: Parts, at: Cursor, i: usize) -> Slot
    ensures { result ≡ slot_asked parts.blocks at i }
{
    slot_at(parts.blocks, at, asked(i), way(i))
}
