// Answers as they are printed.
use model::Refusal;

// What lent buffers hold before a call.
pub(crate) const FILL: u8 = 35;

// Whether the bytes from `from` on are as they were.
pub(crate) fn untouched(out: &[u8], from: usize) -> bool {
    out.iter().skip(from).all(|b| *b == FILL)
}

// Prints number,line.
pub(crate) fn print_numbers(f: Refusal) {
    io::print_decimal(1, f.no as u64);
    io::write_all(1, b",");
    io::print_decimal(1, f.line as u64);
}

// Prints number,line as a line.
pub(crate) fn print_refusal(f: Refusal) {
    print_numbers(f);
    io::write_all(1, b"\n");
}

fn print_unless_untouched(out: &[u8], from: usize) {
    if !untouched(out, from) {
        io::write_all(1, b"buffer changed\n");
    }
}

// Prints the length of a text that was written, or the refusal; and where bytes changed that should not have.
pub(crate) fn print_length(answer: Result<usize, Refusal>, out: &[u8]) {
    match answer {
        Ok(n) => {
            io::print_decimal(1, n as u64);
            io::write_all(1, b" bytes\n");
            print_unless_untouched(out, n);
        }
        Err(f) => {
            print_refusal(f);
            print_unless_untouched(out, 0);
        }
    }
}

// The first n bytes of a text, where it has as many.
fn print_first(text: &[u8], n: usize) {
    if n <= text.len() {
        io::write_all(1, &text[0..n]);
    }
}

// Prints a text that was written, or the refusal; and where bytes changed that should not have.
pub(crate) fn print_text(answer: Result<usize, Refusal>, out: &[u8]) {
    match answer {
        Ok(n) => {
            print_first(out, n);
            print_unless_untouched(out, n);
        }
        Err(f) => {
            print_refusal(f);
            print_unless_untouched(out, 0);
        }
    }
}
