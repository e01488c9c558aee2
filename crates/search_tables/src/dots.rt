// The bounds of a chip without letters.
ghost use Rattle.std.specs.Prelude.{◌≡◌, map, ◌≤◌};
ghost use Rattle.fit_slots.specs.Slots.{die_side, mac_side};
ghost use Rattle.search_tables.specs.Dots.{dot_bound, Dotted};

use crate::ARCS;
use fit_pair_slots::{die_side, mac_side};
use fit_slots::Direction;
use model::{Die, Mac};
use search_numbers::bound_of;

// A bound of 0, and no bound: a bound is held higher by 2^24.
const RAISED: u32 = 16777216;

const UNBOUND: u32 = 15777216;

// The bound from node u to node v.
fn dot_bound(side: u64, macs: [Mac; Mac::COUNT], n: usize, d: Direction, u: usize, v: usize) -> u32
    requires { n ≤ 8 }
    ensures { result ≡ dot_bound side n (map (mac_side d) macs) u v }
{
    if u == 0 && v != 0 {
        RAISED
    } else if u != 0 && u <= n && v == 0 {
        bound_of(mac_side(macs[u - 1], d), side)
    } else {
        UNBOUND
    }
}

// x_i at least 0 and at most the side less the size, for each of the n macros.
pub(crate) fn dot_arcs(die: Die, macs: [Mac; Mac::COUNT], n: usize, d: Direction) -> [u32; ARCS]
    requires { n ≤ 8 }
    ensures { Dotted (die_side d die) n (map (mac_side d) macs) result 81 }
{
    let side = die_side(die, d);
    let mut arcs = [0u32; ARCS];
    for c in 0..81 {
        arcs[c] = dot_bound(side, macs, n, d, c / 9, c % 9);
    }
    arcs
}
