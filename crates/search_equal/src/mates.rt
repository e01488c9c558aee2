// The mate of each net: the net that the exchange of two macros makes of it.
ghost use Rattle.std.specs.Prelude.{◌+◌, ◌≤◌, ◌<◌, IfSome};
ghost use Rattle.chip_text.specs.Valid.{pins_before};
ghost use Rattle.search_equal.specs.Answer.{Yes};
ghost use Rattle.search_equal.specs.Held.{Turns, MatesTo};

use crate::pins::covers;
use chip_pins::pins_before;
use model::{Net, Pin};
use search_numbers::same_weight;

// Whether net b has the weight of net a, and each of its pins with macros i and j exchanged.
fn turns(
    nets: [Net; Net::COUNT],
    pins: [Pin; Pin::COUNT],
    i: usize,
    j: usize,
    a: usize,
    b: usize,
) -> bool
    requires i_bound { i < 8 }
    requires j_bound { j < 8 }
    requires a_bound { a < 32 }
    requires b_bound { b < 32 }
    requires nets_bound { pins_before (a + 1) nets ≤ 128 }
    requires nets_bound_2 { pins_before (b + 1) nets ≤ 128 }
    ensures { Yes result (Turns nets pins i j a b) }
{
    same_weight(nets[a], nets[b])
        && {
            let from = pins_before(nets, a);
            let low = pins_before(nets, b);
            covers(
                pins,
                i,
                j,
                from,
                from + nets[a].pins,
                low,
                low + nets[b].pins,
            )
        }
}

// A likely mate of net a, from net a on and without a mate: each is the other one exchanged.
fn mate_of(
    nets: [Net; Net::COUNT],
    t: usize,
    pins: [Pin; Pin::COUNT],
    i: usize,
    j: usize,
    mates: [usize; Net::COUNT],
    a: usize,
) -> Option<usize>
    requires t_bound { t ≤ 32 }
    requires nets_bound { pins_before t nets ≤ 128 }
    requires i_bound { i < 8 }
    requires j_bound { j < 8 }
    requires a_lt_t { a < t }
    ensures { IfSome result (λ b. b < t) }
{
    for b in a..t {
        if mates[b] == Net::COUNT
            && turns(nets, pins, i, j, a, b)
            && turns(nets, pins, i, j, b, a)
        {
            return Some(b);
        }
    }
    None
}

// Likely mates of t nets, in pairs, where each net has one.
pub(crate) fn mates_of(
    nets: [Net; Net::COUNT],
    t: usize,
    pins: [Pin; Pin::COUNT],
    i: usize,
    j: usize,
) -> Option<[usize; Net::COUNT]>
    requires t_bound { t ≤ 32 }
    requires nets_bound { pins_before t nets ≤ 128 }
    requires i_bound { i < 8 }
    requires j_bound { j < 8 }
{
    let mut mates = [Net::COUNT; Net::COUNT];
    for a in 0..t {
        if mates[a] == Net::COUNT {
            let b = mate_of(nets, t, pins, i, j, mates, a)?;
            mates[a] = b;
            mates[b] = a;
        }
    }
    Some(mates)
}

// Whether the mates are those of t nets: each the other's mate, and the other one exchanged.
pub(crate) fn mated(
    nets: [Net; Net::COUNT],
    t: usize,
    pins: [Pin; Pin::COUNT],
    i: usize,
    j: usize,
    mates: [usize; Net::COUNT],
) -> bool
    requires t_bound { t ≤ 32 }
    requires nets_bound { pins_before t nets ≤ 128 }
    requires i_bound { i < 8 }
    requires j_bound { j < 8 }
    ensures { Yes result (MatesTo nets pins t i j mates t) }
{
    for a in 0..t {
        let b = mates[a];
        if t <= b || mates[b] != a || !turns(nets, pins, i, j, a, b) {
            return false;
        }
    }
    true
}
