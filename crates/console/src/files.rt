// Arguments, files and standard output, for every program.
ghost use Rattle.std.specs.Prelude.{◌≡◌, ◌+◌, ◌≤◌, ◌<◌, length, take, drop, IfOk, OnOk, IfSome, IsErr};
ghost use Rattle.std.specs.Io.KnownBytes.{Appends, Consumes, IsAtEnd, ReadConsumes};
ghost use Rattle.io.specs.Counts.{IsPrefixLen};
ghost use Rattle.console.specs.Buffer.{InBuffer, text_in};

use crate::tell::{Told, tell, tell_use};
use model::Refusal;
use std::env::FillError;
use std::io::{Error, ErrorKind, Read, Write};
use std::rt::{Env, Files};
use std::{fs, io, str};

// What failed of a program's work on what it reads: a read or a write.
#[derive(Clone, Copy)]
pub(crate) enum Failed {
    Read(Error),
    Write(Error),
}

// Room for an argument that is a file's name. The system takes names of up to 4,095 bytes.
pub(crate) const NAME_MOST: usize = 4096;

// One read.
fn read_once<F: Read>(from: &mut F, buf: &mut [u8]) -> io::Result<usize>
    ensures bound { IfOk result (λ n. n ≤ length buf.old) }
    ensures bytes { ReadConsumes (F.remaining from.old) (F.remaining from.new) result buf.new }
{
    from.read(buf)
}

// One read into the buffer from `at` on.
fn read_from<F: Read>(from: &mut F, buf: &mut [u8], at: usize) -> io::Result<usize>
    requires { at ≤ length buf.old }
    ensures bound { IfOk result (λ n. at + n ≤ length buf.new) }
    ensures before { take at buf.new ≡ take at buf.old }
    ensures bytes { ReadConsumes (F.remaining from.old) (F.remaining from.new) result (drop at buf.new) }
{
    read_once(from, &mut buf[at..])
}

// Reads until the buffer is full, the input ends or a read fails.
pub(crate) fn read_text<F: Read>(from: &mut F, buf: &mut [u8]) -> io::Result<usize>
    ensures count { IfOk result (λ n. IsPrefixLen n buf.new) }
    ensures bytes { IfOk result (λ n. IfSome (F.remaining from.old) (λ text. take n buf.new ≡ take (length buf.new) text)) }
{
    let mut done: usize = 0;
    while done < buf.len() {
        let count = read_from(from, buf, done)?;
        if count == 0 {
            break;
        }
        done += count;
    }
    Ok(done)
}

// What a read that failed comes to: nothing, and it is told.
fn nothing_came(rt: &impl Eprint, program: &str, what: &[u8], error: Error) -> Result<usize, Told>
    ensures { IsErr result }
{
    Err(tell(rt, program, what, error))
}

// Opens the file of that name. To std a file's name is text.
pub(crate) fn open<R: Files>(rt: &R, path: &[u8]) -> io::Result<R::File> {
    match str::from_utf8(path) {
        Ok(path) => fs::open(rt, path),
        Err(_) => Err(Error::new(ErrorKind::InvalidFilename, "not a text in UTF-8")),
    }
}

// Opens the file of that name and reads it, as far as the buffer goes.
fn read_path<R: Files>(rt: &R, path: &[u8], buf: &mut [u8]) -> io::Result<usize>
    ensures { IfOk result (λ n. IsPrefixLen n buf.new) }
{
    let mut file = open(rt, path)?;
    read_text(&mut file, buf)
}

// The same, and where that fails, it is told.
pub(crate) fn read_file<R: Files + Eprint>(
    rt: &R,
    program: &str,
    path: &[u8],
    buf: &mut [u8],
) -> Result<usize, Told>
    ensures { IfOk result (λ n. IsPrefixLen n buf.new) }
{
    match read_path(rt, path, buf) {
        Ok(count) => Ok(count),
        Err(error) => nothing_came(rt, program, path, error),
    }
}

// Tells which failed: the reading of what has that name, or the writing to standard output.
pub(crate) fn tell_failed(rt: &impl Eprint, program: &str, name: &[u8], failed: Failed) -> Told {
    match failed {
        Failed::Read(error) => tell(rt, program, name, error),
        Failed::Write(error) => tell(rt, program, b"standard output", error),
    }
}

// Writes a text.
fn write_out<W: Write>(to: &mut W, text: &[u8]) -> io::Result<()>
    ensures { OnOk result (Appends (W.contents to.old) (W.contents to.new) text.now) }
{
    to.write_all(text)
}

// Writes the text that stands in a buffer.
pub(crate) fn write_answer<W: Write>(
    to: &mut W,
    answer: Result<usize, Refusal>,
    out: &[u8],
) -> io::Result<()>
    requires { InBuffer answer out.now }
    ensures { OnOk result (Appends (W.contents to.old) (W.contents to.new) (text_in answer out.now)) }
{
    match answer {
        Ok(n) => write_out(to, &out[..n]),
        Err(_) => unreachable!(),
    }
}

// Ends the writing to standard output; where that fails, it is told.
pub(crate) fn close_out<R: Print + Eprint>(rt: &R, program: &str) -> Result<(), Told> {
    match io::writer(rt).flush() {
        Ok(()) => Ok(()),
        Err(error) => Err(tell(rt, program, b"standard output", error)),
    }
}

// A file's name does not begin with `-` here; `./-name` is such a file.
fn is_option(arg: &[u8]) -> bool {
    arg.first() == Some(&b'-')
}

// Whether there is an argument i. Argument 0 is the program.
pub(crate) fn has_argument(rt: &impl Env, i: usize) -> bool {
    !matches!(rt.arg(i, &mut []), Err(FillError::NotPresent))
}

// Argument i, the name of a file; where it is none, that is told.
pub(crate) fn file_name<R: Env + Eprint>(
    rt: &R,
    program: &str,
    arguments: &str,
    i: usize,
    buf: &mut [u8],
) -> Result<usize, Told>
    ensures { IfOk result (λ n. IsPrefixLen n buf.new) }
{
    match rt.arg(i, buf) {
        Ok(count) if is_option(&buf[..count]) => Err(tell_use(rt, program, arguments)),
        Ok(count) => Ok(count),
        Err(error) => nothing_came(rt, program, b"argument", error_of(error)),
    }
}

// Why an argument was not read, in the C library's words.
fn error_of(error: FillError) -> Error {
    match error {
        FillError::NotPresent => Error::new(ErrorKind::InvalidInput, "Invalid argument"),
        FillError::TooLong => Error::new(ErrorKind::InvalidFilename, "File name too long"),
    }
}
