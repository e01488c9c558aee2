// Positions as a list of numbers, measured.
#![tactic(auto)]

ghost use Rattle.std.specs.Prelude.{◌≡◌, ◌+◌, ◌≤◌, length, take};
ghost use Rattle.model.specs.Meaning.{chip_of};
ghost use Rattle.text_grammar.specs.Reading.{accepted};
ghost use Rattle.chip_text.specs.Passed.{Passed};
ghost use Rattle.measure_held.specs.Answer.{measured_as};
ghost use Rattle.host_codes.specs.Code.{code, of_measure};
ghost use Rattle.host_measure.specs.MeasureText.{corners_of, measure_read, measure_text};

use host_codes::{Code, measure_code, refusal_code};
use host_lists::count_fault;
use measure_held::Measurement;
use model::{Chip, Mac, Refusal, Spot};

// The n corners of the numbers x1, y1, x2, y2 ..
fn corners(list: &[u64], n: usize) -> [Spot; Mac::COUNT]
    requires n_bound { n ≤ 8 }
    requires list_len { length list.now ≡ n + n }
    ensures { take n result ≡ corners_of list.now }
{
    let mut spots = [Spot { x: 0, y: 0 }; Mac::COUNT];
    for i in 0..n {
        spots[i] = Spot {
            x: list[i + i],
            y: list[i + i + 1],
        };
    }
    spots
}

// A chip that was read: 13 where there are not two numbers for each macro, else as measuring answers.
fn measure_chip(c: Chip, list: &[u64]) -> Result<Measurement, Refusal>
    requires { Passed c }
    ensures { measured_as result ≡ measure_read (accepted (chip_of c)) list.now }
{
    let n = c.n;
    let no = count_fault(list.len(), n);
    if no != 0 {
        return Err(Refusal { no, line: 0 });
    }
    measure_list::measure_spots(c, n, corners(list, n))
}

pub fn measure_text(text: &[u8], list: &[u64]) -> Code
    ensures { result ≡ code (of_measure (measure_text text.now list.now)) }
{
    match chip_read::read_chip(text) {
        Ok(c) => measure_code(measure_chip(c, list)),
        Err(f) => refusal_code(f),
    }
}
