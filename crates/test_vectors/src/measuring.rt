// Positions measured, from an array and from a lent list.
use crate::fields::{number_at, spots_at};
use crate::report::print_numbers;
use measure_held::Measurement;
use model::{Chip, Refusal};

fn print_measured(answer: Result<Measurement, Refusal>) {
    match answer {
        Ok(m) => {
            if m.legal {
                io::write_all(1, b"legal ");
            } else {
                io::write_all(1, b"illegal ");
            }
            io::print_decimal(1, m.length);
        }
        Err(f) => print_numbers(f),
    }
}

// measure NAME COUNT POSITIONS: the answer for the array, then for the list.
pub(crate) fn measure(s: &[u8], c: Chip) {
    let count = number_at(s, 2) as usize;
    let spots = spots_at(s, 3);
    print_measured(measure::measure_array(c, count, spots));
    io::write_all(1, b"; list: ");
    print_measured(measure_list::measure_spots(c, count, spots));
    io::write_all(1, b"\n");
}
