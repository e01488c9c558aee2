// Pins with two macros exchanged.
ghost use Rattle.std.specs.Prelude.{◌≡◌, ◌≤◌, ◌<◌};
ghost use Rattle.search_halves.specs.Exchange.{renumbered};
ghost use Rattle.search_equal.specs.Answer.{Yes};
ghost use Rattle.search_equal.specs.Held.{other_held, Within, Covers};

use model::Pin;
use search_numbers::same_pin;

// The number of a pin's macro, macros i and j exchanged; 0 for a pad.
fn other_macro(m: usize, i: usize, j: usize) -> usize
    requires i_bound { i < 8 }
    requires j_bound { j < 8 }
    ensures { result ≡ renumbered i j m }
{
    if m == i + 1 {
        j + 1
    } else if m == j + 1 {
        i + 1
    } else {
        m
    }
}

fn other_pin(p: Pin, i: usize, j: usize) -> Pin
    requires i_bound { i < 8 }
    requires j_bound { j < 8 }
    ensures { result ≡ other_held i j p }
{
    Pin {
        m: other_macro(p.m, i, j),
        xup: p.xup,
        yup: p.yup,
    }
}

// Whether p is one of the pins from `from` to before `to`.
fn has_pin(pins: [Pin; Pin::COUNT], from: usize, to: usize, p: Pin) -> bool
    requires { to ≤ 128 }
    ensures { Yes result (Within pins from to p) }
{
    for k in from..to {
        if same_pin(pins[k], p) {
            return true;
        }
    }
    false
}

// Whether each pin from `from` to before `to`, macros i and j exchanged, is one of those from `low` to before `high`.
pub(crate) fn covers(
    pins: [Pin; Pin::COUNT],
    i: usize,
    j: usize,
    from: usize,
    to: usize,
    low: usize,
    high: usize,
) -> bool
    requires i_bound { i < 8 }
    requires j_bound { j < 8 }
    requires to_bound { to ≤ 128 }
    requires high_bound { high ≤ 128 }
    ensures { Yes result (Covers pins i j from to low high) }
{
    for k in from..to {
        if !has_pin(pins, low, high, other_pin(pins[k], i, j)) {
            return false;
        }
    }
    true
}
