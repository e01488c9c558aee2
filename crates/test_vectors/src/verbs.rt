// The lines of standard input, each by its verb.
ghost use Rattle.std.specs.Prelude.{◌≤◌, length};

use crate::blocks::Asked;
use crate::fields::{index_of, is_at, number_at, print_at};
use crate::rule::blank_chip;
use crate::searching::Service;
use crate::unfold::text_at;
use crate::{besides, blocks, chips, fitting, measuring, reading, searching, values};
use model::{Chip, Die};

// What the next lines are about: a chip, and the length of the text in the buffer beside it.
#[derive(Clone, Copy)]
pub(crate) struct State {
    pub chip: Chip,
    pub n: usize,
}

// n, or 0 where a text has fewer bytes.
fn bytes_of(text: &[u8], n: usize) -> usize
    ensures { result ≤ length text.now }
{
    if text.len() < n {
        return 0;
    }
    n
}

// The chip that the first n bytes of a text mean, or one that holds nothing.
fn chip_in(text: &[u8], n: usize) -> Chip {
    let e = bytes_of(text, n);
    match chip_read::read_chip(&text[0..e]) {
        Ok(c) => c,
        Err(_) => blank_chip(Die { w: 0, h: 0 }),
    }
}

fn read_first(s: &[u8], text: &[u8], n: usize) {
    if text.len() < n {
        return;
    }
    if is_at(s, 0, b"chip") {
        reading::chip(&text[0..n]);
    } else {
        reading::record(&text[0..n]);
    }
}

// chip TEXT, record TEXT
fn read_back(s: &[u8]) {
    let mut text = io::large_buffer();
    let n = text_at(s, 1, &mut text);
    read_first(s, &text, n);
}

// on TEXT
fn chip_on(s: &[u8], text: &mut [u8]) -> State {
    let n = text_at(s, 1, text);
    let chip = chip_in(text, n);
    State { chip, n }
}

// Verbs about values and positions; whether s has one of them.
fn about_values(s: &[u8], c: Chip) -> bool {
    if is_at(s, 0, b"write") {
        values::chip(s, c);
    } else if is_at(s, 0, b"least") {
        values::least(s);
    } else if is_at(s, 0, b"none") {
        values::none(s);
    } else if is_at(s, 0, b"make") {
        values::make(s);
    } else if is_at(s, 0, b"measure") {
        measuring::measure(s, c);
    } else {
        return false;
    }
    true
}

// Verbs about fits; whether s has one of them.
fn about_fits(s: &[u8], c: Chip) -> bool {
    if is_at(s, 0, b"fit") {
        fitting::fit(s, c);
    } else if is_at(s, 0, b"spoil") {
        fitting::spoil(s, c);
    } else if is_at(s, 0, b"amounts") {
        fitting::amounts(s, c);
    } else if is_at(s, 0, b"strings") {
        fitting::strings(s, c);
    } else {
        return false;
    }
    true
}

// Verbs about the text of a chip; whether s has one of them.
fn about_texts(s: &[u8], text: &[u8]) -> bool {
    if is_at(s, 0, b"print") {
        searching::ask(s, text, Service::Print);
    } else if is_at(s, 0, b"print-boxes") {
        searching::ask(s, text, Service::PrintBoxes);
    } else if is_at(s, 0, b"place") {
        searching::ask(s, text, Service::Place);
    } else if is_at(s, 0, b"quote") {
        searching::ask(s, text, Service::Quote);
    } else if is_at(s, 0, b"boxes") {
        searching::ask(s, text, Service::Boxes);
    } else if is_at(s, 0, b"beside") {
        besides::beside(s, text);
    } else {
        return false;
    }
    true
}

// Verbs about records.
fn about_records(s: &[u8], c: Chip) {
    if is_at(s, 0, b"search") {
        searching::search(s, c);
        return;
    }
    if is_at(s, 0, b"besides") {
        blocks::every(s, Asked::Beside);
        return;
    }
    if is_at(s, 0, b"every") {
        blocks::every(s, Asked::Record);
        return;
    }
    if is_at(s, 0, b"undecided") {
        blocks::every(s, Asked::Undecided);
        return;
    }
    if is_at(s, 0, b"quoted") {
        blocks::every(s, Asked::Quote);
        return;
    }
    if is_at(s, 0, b"boxed") {
        blocks::every(s, Asked::Boxes);
        return;
    }
    io::write_all(1, b"unknown verb\n");
}

// A line with a name: the name, then the answer.
fn named(s: &[u8], text: &[u8], n: usize, c: Chip) {
    if text.len() < n {
        return;
    }
    print_at(s, 1);
    io::write_all(1, b": ");
    if about_values(s, c) {
        return;
    }
    if about_fits(s, c) {
        return;
    }
    if about_texts(s, &text[0..n]) {
        return;
    }
    about_records(s, c);
}

// Whether s is a case that is read and written back.
fn is_text(s: &[u8]) -> bool {
    is_at(s, 0, b"chip") || is_at(s, 0, b"record")
}

// One line: what the next lines are about after it.
fn line(s: &[u8], text: &mut [u8], state: State) -> State {
    let n = state.n;
    let chip = state.chip;
    if is_text(s) {
        read_back(s);
        return state;
    }
    if is_at(s, 0, b"on") {
        return chip_on(s, text);
    }
    if is_at(s, 0, b"set") {
        let other = chips::changed(s, chip, number_at(s, 2));
        return State { chip: other, n };
    }
    named(s, text, n, chip);
    state
}

// A line that is not passed over: empty lines and lines that begin with # are.
fn is_case(s: &[u8]) -> bool {
    s.len() != 0 && s[0] != b'#'
}

fn case(s: &[u8], text: &mut [u8], state: State) -> State {
    if is_case(s) {
        return line(s, text, state);
    }
    state
}

pub(crate) fn run(s: &[u8]) {
    let mut text = io::large_buffer();
    let chip = chip_in(&text, 0);
    let mut state = State { chip, n: 0 };
    let mut i: usize = 0;
    while i < s.len() {
        let e = index_of(s, i, 10);
        state = case(&s[i..e], &mut text, state);
        i = e + 1;
    }
}
