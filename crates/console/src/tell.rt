// What is told on standard error: what failed and why, or how a program is used.
use std::io::{Error, Write};
use std::{fmt, str};

// It failed, and standard error says what.
#[derive(Clone, Copy)]
pub(crate) struct Told;

// Tells on standard error what failed, and why. Nothing is told where standard error is closed.
pub(crate) fn tell(rt: &impl Eprint, program: &str, what: &[u8], error: Error) -> Told {
    let _ = eprintln!(rt; "{program}: {}: {}", Name(what), Reason(error));
    Told
}

// Tells on standard error how the program is used.
pub(crate) fn tell_use(rt: &impl Eprint, program: &str, arguments: &str) -> Told {
    let _ = eprintln!(rt; "{program}: wrong arguments. Use: {program}{arguments}");
    Told
}

// A file's name, with U+FFFD for what is no text in it.
#[derive(Drop)]
struct Name<'a>(&'a [u8]);

impl fmt::Display for Name<'_> {
    fn fmt<W: fmt::Write>(&self, f: &mut fmt::Formatter<W>) -> fmt::Result {
        for chunk in self.0.utf8_chunks() {
            f.write_str(chunk.valid())?;
            if !chunk.invalid().is_empty() {
                f.write_str("\u{FFFD}")?;
            }
        }
        Ok(())
    }
}

// An error's reason in the C library's words, without the error's number, which std puts behind them.
#[derive(Drop)]
struct Reason(Error);

impl fmt::Display for Reason {
    fn fmt<W: fmt::Write>(&self, f: &mut fmt::Formatter<W>) -> fmt::Result {
        let mut room = [0u8; 128];
        let mut rest = &mut room[..];
        let _ = write!(rest, "{}", self.0);
        f.write_str(before_number(str::from_utf8(&room).unwrap_or_default()))
    }
}

// The text before the error's number, or before the first NUL where there is no number.
fn before_number(text: &str) -> &str {
    let text = text.trim_end_matches('\0');
    match text.split_once(" (os error ") {
        Some((reason, _)) => reason,
        None => text,
    }
}
