// The arrays of a direction of a chip that a half fit works on: its nets in the one, its bounds in the other.
#![tactic(auto)]

mod dots;
mod entries;
mod limits;

ghost use Rattle.std.specs.Prelude.{◌≡◌, ◌≤◌};
ghost use Rattle.chip_text.specs.Valid.{pins_before};
ghost use Rattle.search_tables.specs.Tables.{with_bound};
ghost use Rattle.search_tables.specs.Made.{NetsFit, ArraysFor};

use crate::dots::dot_arcs;
use crate::entries::net_table;
use axis_bounds::Slot;
use chip_pins::pins_before;
use fit_slots::Direction;
use model::{Chip, Mac, Net, Pin};
use search_numbers::{bound_of, greater};

// The lengths of the arrays, which are those of half_arrays.
pub const TAB: usize = half_arrays::TAB;

pub const ARCS: usize = half_arrays::ARCS;

// The nets of a direction as entries, and the bounds between its nodes, held higher by 2^24.
#[derive(Clone, Copy)]
pub struct Arrays {
    pub tab: [u32; TAB],
    pub arcs: [u32; ARCS],
}

// The bounds with the slot's bound among them. Its nodes are read modulo 9, and its numbers count up to 1,000,000.
pub fn with_bound(arcs: [u32; ARCS], s: Slot) -> [u32; ARCS]
    ensures { result ≡ with_bound arcs s }
{
    let mut with = arcs;
    let place = s.tail % 9 * 9 + s.head % 9;
    with[place] = greater(arcs[place] % 33554432, bound_of(s.plus, s.minus));
    with
}

// Whether t nets stand within the arrays, and so do their pins.
fn nets_fit(nets: [Net; Net::COUNT], t: usize) -> bool
    ensures { NetsFit result nets t }
{
    t <= Net::COUNT && pins_before(nets, t) <= Pin::COUNT
}

// The arrays of a chip whose macros, nets and pins stand within its own arrays.
fn held_arrays(c: Chip, d: Direction) -> Arrays
    requires { (c.n ≤ 8) × (c.t ≤ 32) × (pins_before c.t c.nets ≤ 128) }
    ensures { ArraysFor c d result.tab result.arcs }
{
    Arrays {
        tab: net_table(c.nets, c.t, c.pins, c.n, d),
        arcs: dot_arcs(c.die, c.macs, c.n, d),
    }
}

fn blank_arrays() -> Arrays {
    Arrays {
        tab: [0; TAB],
        arcs: [0; ARCS],
    }
}

// The arrays of a direction of a chip without letters; of a chip that leaves its own arrays, arrays of 0.
pub fn arrays_of(c: Chip, d: Direction) -> Arrays
    ensures { ArraysFor c d result.tab result.arcs }
{
    if c.n <= Mac::COUNT && nets_fit(c.nets, c.t) {
        held_arrays(c, d)
    } else {
        blank_arrays()
    }
}
