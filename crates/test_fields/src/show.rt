// The lines of a text, each read, shown and written back.
use crate::sample;
use model::Refusal;
use text_grammar::{ABSENT, WORDS};

// Prints the values of a line, as held.
fn show_values(v: [u64; 4]) {
    for i in 0..4 {
        if v[i] == ABSENT {
            io::write_all(1, b"absent ");
        } else {
            io::print_decimal(1, v[i]);
            io::write_all(1, b" ");
        }
    }
}

// Prints the line of word i with the values v, which were read from the bytes after the word.
fn write_back(i: usize, rest: &[u8], v: [u64; 4]) {
    if WORDS <= i {
        return;
    }
    let spellings = sample::spellings();
    let word = spellings[i];
    let mut out = [0u8; 128];
    let n = text_put::put_line(&mut out, 0, word, sample::layout_at(i), rest, v);
    if n <= 128 {
        io::write_all(1, &out[0..n]);
    }
}

// Prints number,line.
fn show_refusal(f: Refusal) {
    io::print_decimal(1, f.no as u64);
    io::write_all(1, b",");
    io::print_decimal(1, f.line as u64);
    io::write_all(1, b"\n");
}

// The fields of a line with word i, which has the first `size` of its bytes.
fn show_fields(bytes: &[u8], i: usize, size: usize, line: usize) {
    if bytes.len() < size {
        return;
    }
    match text_line::read_fields(&bytes[size..], sample::layout_at(i), line) {
        Ok(values) => {
            show_values(values);
            write_back(i, &bytes[size..], values);
        }
        Err(f) => show_refusal(f),
    }
}

// The line from a to `end`.
fn show_line(text: &[u8], a: usize, end: usize, line: usize) {
    let spellings = sample::spellings();
    let tests = sample::tests();
    match text_walk::next_word(text, a, end, spellings, sample::COUNT, tests, line) {
        Ok(walked) => {
            if a <= end && end <= text.len() {
                show_fields(&text[a..end], walked.word, walked.size, line);
            }
        }
        Err(f) => show_refusal(f),
    }
}

// All lines of a text.
pub(crate) fn run(text: &[u8]) {
    let mut a: usize = 0;
    let mut line: usize = 1;
    while a < text.len() {
        let end = text_line::line_end(text, a);
        show_line(text, a, end, line);
        a = end + 1;
        line += 1;
    }
}
