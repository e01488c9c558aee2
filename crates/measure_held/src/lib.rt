// A chip held as a value and positions, measured without a test (document 01, "Legal, and how long").
#![tactic(auto)]

ghost use Rattle.std.specs.Prelude.{◌≡◌, Ok};
ghost use Rattle.legal.specs.Turn.{legal_held};
ghost use Rattle.measure_held.specs.Answer.{measured as measured_at, measured_as};
ghost use Rattle.measure_held.specs.Held.{length_held, length_in};

use model::{Chip, Mac, Net, Refusal, Spot};
use num_limits::sum;

// What measuring tells of positions: legal or not, and the wirelength.
#[derive(Clone, Copy)]
pub struct Measurement {
    pub legal: bool,
    pub length: u64,
}

// The sum of the lengths of the chip's nets.
pub fn length_of(c: Chip, spots: [Spot; Mac::COUNT]) -> u64
    ensures { result ≡ length_held c spots }
{
    let nets = c.nets;
    let pins = c.pins;
    let mut total: u64 = 0;
    let mut from: usize = 0;
    for j in 0..Net::COUNT {
        if c.t <= j {
            return total;
        }
        let net = nets[j];
        let b = measure_nets::net_box(spots, pins, from, net.pins);
        total = sum(total, measure_nets::net_length(net.weight, b));
        from = measure_nets::end_of(from, net.pins);
    }
    total
}

// The measure of the first positions, one for each macro.
pub fn measured(c: Chip, spots: [Spot; Mac::COUNT]) -> Measurement
    ensures { measured_as (Ok result) ≡ measured_at (legal_held c spots) (length_held c spots) }
{
    Measurement {
        legal: legal::is_legal(c, spots),
        length: length_of(c, spots),
    }
}

// The wirelength in an answer; 0 where it is a refusal.
pub fn length_in(answer: Result<Measurement, Refusal>) -> u64
    ensures { result ≡ length_in (measured_as answer) }
{
    match answer {
        Ok(m) => m.length,
        Err(_) => 0,
    }
}
