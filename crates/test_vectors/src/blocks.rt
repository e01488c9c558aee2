// Blocks of small chips: the search's record, the fit of the empty string, the quoting page's record, or the record with the box of each net, and what is found
// by trying every position, compared; or the records of every placement beside the chip.
use crate::besides;
use crate::count::{pin_count, sum};
use crate::every::{Found, first, nothing, try_every};
use crate::fields::number_at;
use crate::report::{FILL, untouched};
use crate::rule::{Block, block_at, chip_of};
use crate::searching::{Service, answer_to};
use crate::written::{put_boxed, put_record};
use fit::FitAnswer;
use model::{Chip, Refusal};

// What is asked of each chip: its record, the fit of the empty string, its record from the quoting page, its record with boxes, or records beside it.
#[derive(Clone, Copy)]
pub(crate) enum Asked {
    Record,
    Undecided,
    Quote,
    Boxes,
    Beside,
}

// How many bytes the lent buffers have: more than the record of a small chip needs, with the boxes of a dozen nets.
const ROOM: usize = 512;

// What a block of chips came to; `differs` is one more than the first case that differs.
#[derive(Clone, Copy)]
pub(crate) struct Tally {
    pub compared: u64,
    pub none: u64,
    pub several: u64,
    pub boxes: u64,
    pub beyond: u64,
    pub passed: u64,
    pub differs: u64,
}

// Whether the text given was written, into a buffer of the same length.
fn is_written(
    answer: Result<usize, Refusal>,
    out: &[u8; ROOM],
    expected: &[u8; ROOM],
    length: usize,
) -> bool {
    match answer {
        Err(_) => false,
        Ok(n) => { n == length && check::same(out, expected) }
    }
}

fn search_gives(c: Chip, expected: &[u8; ROOM], length: usize) -> bool {
    let mut out = [FILL; ROOM];
    let answer = search::service::search_chip(c, &mut out);
    is_written(answer, &out, expected, length)
}

// The answer to the first n bytes of a text.
fn answer_first(text: &[u8], n: usize, service: Service, out: &mut [u8]) -> Result<usize, Refusal> {
    if text.len() < n {
        return Ok(0);
    }
    answer_to(&text[0..n], service, out)
}

// The answer to a chip's text.
fn answered(c: Chip, service: Service, out: &mut [u8]) -> Result<usize, Refusal> {
    let mut text = [FILL; 4096];
    let n = chip_write::write_chip(c, &mut text)?;
    answer_first(&text, n, service, out)
}

fn service_gives(c: Chip, service: Service, expected: &[u8; ROOM], length: usize) -> bool {
    let mut out = [FILL; ROOM];
    let answer = answered(c, service, &mut out);
    is_written(answer, &out, expected, length)
}

// Whether the page refuses a chip by 22, line 0, and writes nothing.
fn quote_refuses(c: Chip) -> bool {
    let mut out = [FILL; ROOM];
    match answered(c, Service::Quote, &mut out) {
        Ok(_) => false,
        Err(f) => f.no == 22 && f.line == 0 && untouched(&out, 0),
    }
}

// More than 4 macros, 2 fixes or 16 pins.
fn is_beyond(c: Chip) -> bool {
    4 < c.n || 2 < c.k || 16 < pin_count(c)
}

// What a fit placed, as it is found by trying; a refusal is not whole.
fn placed(answer: FitAnswer) -> Found {
    let spots = answer.spots;
    match answer.outcome {
        Ok(Some(f)) => first(spots, f.length),
        Ok(None) => nothing(),
        Err(_) => Found {
            least: None,
            whole: false,
        },
    }
}

// The same of the fit of the empty string, written as a record.
fn fit_gives(c: Chip, expected: &[u8; ROOM], length: usize) -> bool {
    let mut flow = [0u16; 800];
    let found = placed(fit::fit_letters(c, b"", &mut flow));
    let mut out = [FILL; ROOM];
    let n = put_record(&mut out, found, c.n);
    found.whole && n == length && check::same(&out, expected)
}

// What belongs to what was found: its record, with the boxes where they are asked; the answer is its length.
fn put_asked(out: &mut [u8], c: Chip, asked: Asked, found: Found) -> usize {
    if let Asked::Boxes = asked {
        return put_boxed(out, found, c);
    }
    put_record(out, found, c.n)
}

// All positions were tried, and the answers are the same.
fn agrees(c: Chip, asked: Asked, found: Found) -> bool {
    let mut expected = [FILL; ROOM];
    let length = put_asked(&mut expected, c, asked, found);
    found.whole
        && match asked {
            Asked::Record => search_gives(c, &expected, length),
            Asked::Undecided => fit_gives(c, &expected, length),
            Asked::Quote => service_gives(c, Service::Quote, &expected, length),
            Asked::Boxes => service_gives(c, Service::Boxes, &expected, length),
            Asked::Beside => false,
        }
}

fn is_undecided(asked: Asked) -> bool {
    match asked {
        Asked::Record => false,
        Asked::Undecided => true,
        Asked::Quote => false,
        Asked::Boxes => false,
        Asked::Beside => false,
    }
}

// No count comes near the limit.
pub(crate) fn more(a: u64) -> u64 {
    if a < 65536 {
        return a + 1;
    }
    a
}

// With one case more that agrees or not.
pub(crate) fn compared(t: Tally, case: u64, agrees: bool) -> Tally {
    let mut t = t;
    t.compared = more(t.compared);
    if t.differs == 0 {
        if !agrees {
            t.differs = more(case);
        }
    }
    t
}

// A chip beyond the page's limits: no position is tried.
fn with_beyond(t: Tally, case: u64, c: Chip) -> Tally {
    let mut t = compared(t, case, quote_refuses(c));
    t.beyond = more(t.beyond);
    t
}

// With what was found: no placement, or so many boxes, and whether several placements are least.
fn with_found(t: Tally, found: Found, boxes: u64) -> Tally {
    let mut t = t;
    let Some(least) = found.least else {
        t.none = more(t.none);
        return t;
    };
    t.boxes = sum(t.boxes, boxes);
    if 1 < least.count {
        t.several = more(t.several);
    }
    t
}

fn with_tried(t: Tally, case: u64, c: Chip, asked: Asked) -> Tally {
    let found = try_every(c, is_undecided(asked));
    let t = compared(t, case, agrees(c, asked, found));
    if let Asked::Boxes = asked {
        return with_found(t, found, c.t as u64);
    }
    with_found(t, found, 0)
}

fn with_quoted(t: Tally, case: u64, c: Chip) -> Tally {
    if is_beyond(c) {
        return with_beyond(t, case, c);
    }
    with_tried(t, case, c, Asked::Quote)
}

fn with_case(t: Tally, case: u64, b: Block, asked: Asked) -> Tally {
    let c = chip_of(case, b);
    match asked {
        Asked::Record => with_tried(t, case, c, asked),
        Asked::Undecided => with_tried(t, case, c, asked),
        Asked::Quote => with_quoted(t, case, c),
        Asked::Boxes => with_tried(t, case, c, asked),
        Asked::Beside => besides::with_records(t, case, c),
    }
}

// The cases from `from` up to `to`.
fn compare(b: Block, from: u64, to: u64, asked: Asked) -> Tally {
    let mut t = Tally {
        compared: 0,
        none: 0,
        several: 0,
        boxes: 0,
        beyond: 0,
        passed: 0,
        differs: 0,
    };
    for case in from..to {
        t = with_case(t, case, b, asked);
    }
    t
}

// Prints that all cases are the same, or the first that differs; `differs` is one more than it.
fn print_difference(differs: u64) {
    if differs == 0 {
        io::write_all(1, b"same\n");
    } else {
        io::write_all(1, b"first that differs: ");
        io::print_decimal(1, differs - 1);
        io::write_all(1, b"\n");
    }
}

// Prints what was found of the chips.
fn print_found(t: Tally) {
    io::print_decimal(1, t.none);
    io::write_all(1, b" none, ");
    io::print_decimal(1, t.several);
    io::write_all(1, b" with several least, ");
    if 0 < t.boxes {
        io::print_decimal(1, t.boxes);
        io::write_all(1, b" boxes, ");
    }
    if 0 < t.beyond {
        io::print_decimal(1, t.beyond);
        io::write_all(1, b" beyond the page, ");
    }
}

fn print_tally(t: Tally) {
    io::print_decimal(1, t.compared);
    io::write_all(1, b" compared, ");
    if 0 < t.passed {
        io::print_decimal(1, t.passed);
        io::write_all(1, b" passed, ");
    } else {
        print_found(t);
    }
    print_difference(t.differs);
}

// every NAME N K T W H SIDE FROM TO; undecided, quoted, boxed and besides the same
pub(crate) fn every(s: &[u8], asked: Asked) {
    print_tally(compare(block_at(s), number_at(s, 8), number_at(s, 9), asked));
}
