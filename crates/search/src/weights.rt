// The weight of each macro's nets. It guides the choice of the pair and nothing else, so nothing is promised of it.
ghost use Rattle.std.specs.Prelude.{◌≤◌};

use model::{Chip, Mac, Net, Pin};

// For each macro whether one of the pins is on it.
fn on_net(pins: &[Pin]) -> [bool; Mac::COUNT] {
    let mut on = [false; Mac::COUNT];
    for p in pins {
        if p.m != 0 {
            on[(p.m - 1) % Mac::COUNT] = true;
        }
    }
    on
}

// The place after a net's pins, which begin at q.
fn net_end(q: usize, count: usize) -> usize
    requires { q ≤ 128 }
    ensures at_least { q ≤ result }
    ensures at_most { result ≤ 128 }
{
    q.saturating_add(count).min(Pin::COUNT)
}

// The weights with that of a net for the macros on it; those of an accepted chip are far below the limits.
fn with_net(
    mut weights: [u64; Mac::COUNT],
    on: [bool; Mac::COUNT],
    weight: u64,
) -> [u64; Mac::COUNT] {
    for (w, on) in weights.iter_mut().zip(on) {
        if on {
            *w = *w % 1000000 + weight % 1001;
        }
    }
    weights
}

// The summed weight of each macro's nets.
pub(crate) fn all_weights(c: Chip) -> [u64; Mac::COUNT] {
    let mut weights = [0; Mac::COUNT];
    let mut q: usize = 0;
    for net in &c.nets[..c.t.min(Net::COUNT)] {
        let end = net_end(q, net.pins);
        let next = with_net(weights, on_net(&c.pins[q..end]), net.weight);
        weights = next;
        q = end;
    }
    weights
}
