// Texts read, and written back.
use crate::report::print_refusal;
use model::Refusal;

// Prints whether what was written is the text.
fn print_written(answer: Result<usize, Refusal>, written: &[u8], text: &[u8]) {
    match answer {
        Err(f) => {
            io::write_all(1, b"not written ");
            print_refusal(f);
        }
        Ok(n) => {
            if is_text(written, n, text) {
                io::write_all(1, b"ok\n");
            } else {
                io::write_all(1, b"another text\n");
            }
        }
    }
}

// Whether the first n bytes are the text.
fn is_text(written: &[u8], n: usize, text: &[u8]) -> bool {
    n <= written.len() && check::same(&written[0..n], text)
}

pub(crate) fn chip(text: &[u8]) {
    match chip_read::read_chip(text) {
        Err(f) => print_refusal(f),
        Ok(chip) => {
            let mut out = io::buffer();
            let written = chip_write::write_chip(chip, &mut out);
            print_written(written, &out, text);
        }
    }
}

pub(crate) fn record(text: &[u8]) {
    match record_read::read_record(text) {
        Err(f) => print_refusal(f),
        Ok(record) => {
            let mut out = io::buffer();
            let written = record_write::write_record(record, &mut out);
            print_written(written, &out, text);
        }
    }
}
