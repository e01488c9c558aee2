// Records read beside their chips (document 02, Card 1): cases, and records of every placement of small chips.
use crate::blocks::{Tally, compared, more};
use crate::every::{allowed, first, length_of, next};
use crate::report::{FILL, print_numbers};
use crate::unfold::text_at;
use crate::written::put_record;
use beside_check::{AtFault, BesideRefusal};
use model::{Chip, Mac, Spot};

fn print_at_fault(text: AtFault) {
    match text {
        AtFault::Neither => {
            io::write_all(1, b" neither\n");
        }
        AtFault::Chip => {
            io::write_all(1, b" chip\n");
        }
        AtFault::Record => {
            io::write_all(1, b" record\n");
        }
    }
}

fn print_answer(answer: Result<(), BesideRefusal>) {
    match answer {
        Ok(()) => {
            io::write_all(1, b"passed\n");
        }
        Err(f) => {
            print_numbers(f.refusal);
            print_at_fault(f.text);
        }
    }
}

// The answer for the first n bytes of a text, which has as many, as a record beside a chip.
fn beside_first(chip: &[u8], text: &[u8], n: usize) -> Result<(), BesideRefusal> {
    if text.len() < n {
        return Ok(());
    }
    beside_check::check_beside(chip, &text[0..n])
}

// beside NAME TEXT
pub(crate) fn beside(s: &[u8], chip: &[u8]) {
    let mut text = io::large_buffer();
    let n = text_at(s, 2, &mut text);
    print_answer(beside_first(chip, &text, n));
}

// The number of a refusal after all reading, 0 where the record passes, or 99.
fn number_in(answer: Result<(), BesideRefusal>) -> usize {
    match answer {
        Ok(()) => 0,
        Err(f) => match f.text {
            AtFault::Neither if f.refusal.line == 0 => f.refusal.no,
            _ => 99,
        },
    }
}

// With the record of n macros at their corners and that length, which is to get that number.
fn with_record(
    t: Tally,
    chip: &[u8],
    spots: [Spot; Mac::COUNT],
    n: usize,
    length: u64,
    no: usize,
    case: u64,
) -> Tally {
    let mut out = [FILL; 256];
    let bytes = put_record(&mut out, first(spots, length), n);
    let found = number_in(beside_first(chip, &out, bytes));
    let mut t = compared(t, case, found == no);
    if found == 0 {
        t.passed = more(t.passed);
    }
    t
}

// no where the placement is legal, else 16.
fn if_legal(legal: bool, no: usize) -> usize {
    if legal {
        return no;
    }
    16
}

// With the records of a placement: its own length and one more or less, a macro less and a macro more.
fn with_placement(t: Tally, c: Chip, chip: &[u8], spots: [Spot; Mac::COUNT], case: u64) -> Tally {
    let n = c.n;
    let length = length_of(c, spots);
    let legal = allowed(c, spots, false);
    let mut t = with_record(t, chip, spots, n, length, if_legal(legal, 0), case);
    t = with_record(t, chip, spots, n, more(length), if_legal(legal, 17), case);
    if 0 < length {
        t = with_record(t, chip, spots, n, length - 1, if_legal(legal, 17), case);
    }
    if 0 < n {
        t = with_record(t, chip, spots, n - 1, length, 13, case);
    }
    if n < Mac::COUNT {
        t = with_record(t, chip, spots, n + 1, length, 13, case);
    }
    t
}

// With every placement of a chip up to the die's sides, up to a million.
fn with_chip(t: Tally, c: Chip, chip: &[u8], case: u64) -> Tally {
    let die = c.die;
    let mut t = t;
    let mut spots = [Spot { x: 0, y: 0 }; Mac::COUNT];
    for i in 0..1000000 {
        t = with_placement(t, c, chip, spots, case);
        let Some(later) = next(spots, c.n, die) else {
            return t;
        };
        spots = later;
    }
    t
}

fn with_text(t: Tally, c: Chip, text: &[u8], n: usize, case: u64) -> Tally {
    if text.len() < n {
        return t;
    }
    with_chip(t, c, &text[0..n], case)
}

// With the records of every placement of a chip.
pub(crate) fn with_records(t: Tally, case: u64, c: Chip) -> Tally {
    let mut text = [FILL; 4096];
    match chip_write::write_chip(c, &mut text) {
        Err(_) => compared(t, case, false),
        Ok(n) => with_text(t, c, &text, n, case),
    }
}
