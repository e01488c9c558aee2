// What the programs of one text share: standard input or a file, and what is printed for it.
ghost use Rattle.std.specs.Prelude.{IfErr, IfSome, OnOk};
ghost use Rattle.std.specs.Io.KnownBytes.{Appends, Keeps};
ghost use Rattle.place_print.specs.Printed.{printed};
ghost use Rattle.place_boxes.specs.Boxes.{printed_boxes};
ghost use Rattle.console.specs.Printed.{IfUnread, printed_by};

use crate::files::{
    Failed, NAME_MOST, close_out, file_name, has_argument, open, read_text, tell_failed,
    write_answer,
};
use crate::tell::{Told, tell, tell_use};
use std::io;
use std::io::{Read, Write};
use std::rt::{Env, Files};

// Such a program.
#[derive(Clone, Copy)]
pub(crate) enum Program {
    Place,
    Boxes,
}

impl Program {
    fn name(self) -> &'static str {
        match self {
            Program::Place => "place",
            Program::Boxes => "boxes",
        }
    }
}

// Prints the record that belongs to a text, or the refusal. A buffer of 192 bytes is long enough for it.
fn print_record<W: Write>(to: &mut W, text: &[u8]) -> io::Result<()>
    ensures { OnOk result (Appends (W.contents to.old) (W.contents to.new) (printed text.now)) }
{
    let mut out = [0u8; 192];
    let answer = place_print::print_text(text, &mut out);
    write_answer(to, answer, &out)
}

// The same with the box of each net. A buffer of 1,495 bytes is long enough for it.
fn print_boxes<W: Write>(to: &mut W, text: &[u8]) -> io::Result<()>
    ensures { OnOk result (Appends (W.contents to.old) (W.contents to.new) (printed_boxes text.now)) }
{
    let mut out = [0u8; 1495];
    let answer = place_boxes::print_boxes(text, &mut out);
    write_answer(to, answer, &out)
}

// Prints what belongs to a text: the record, with the boxes where they are asked.
fn print<W: Write>(program: Program, to: &mut W, text: &[u8]) -> io::Result<()>
    ensures { OnOk result (Appends (W.contents to.old) (W.contents to.new) (printed_by program text.now)) }
{
    match program {
        Program::Place => print_record(to, text),
        Program::Boxes => print_boxes(to, text),
    }
}

// Reads a text and prints what belongs to it; nothing where a read fails. A text of 16,385 bytes is too long, so more of it is not read.
fn print_read<F: Read, W: Write>(program: Program, from: &mut F, to: &mut W) -> Result<(), Failed>
    ensures printed { OnOk result (IfSome (F.remaining from.old) (λ text.
        Appends (W.contents to.old) (W.contents to.new) (printed_by program text))) }
    ensures unread { IfErr result (λ failed. IfUnread failed (Keeps (W.contents to.old) (W.contents to.new))) }
{
    let mut text = [0u8; model::TEXT_MOST + 1];
    match read_text(from, &mut text) {
        Ok(n) => match print(program, to, &text[..n]) {
            Ok(()) => Ok(()),
            Err(error) => Err(Failed::Write(error)),
        },
        Err(error) => Err(Failed::Read(error)),
    }
}

// Reads what has that name and prints what belongs to it; where that fails, it is told.
fn print_named<R: Print + Eprint, F: Read>(
    rt: &R,
    program: Program,
    name: &[u8],
    from: &mut F,
) -> Result<(), Told> {
    match print_read(program, from, &mut io::writer(rt)) {
        Ok(()) => Ok(()),
        Err(failed) => Err(tell_failed(rt, program.name(), name, failed)),
    }
}

// The same of standard input.
fn print_input<R: Input + Print + Eprint>(rt: &R, program: Program) -> Result<(), Told> {
    print_named(rt, program, b"standard input", &mut rt.reader())
}

// The same of a file.
pub(crate) fn print_file<R: Files + Print + Eprint>(
    rt: &R,
    program: Program,
    path: &[u8],
) -> Result<(), Told> {
    match open(rt, path) {
        Ok(mut file) => print_named(rt, program, path, &mut file),
        Err(error) => Err(tell(rt, program.name(), path, error)),
    }
}

// With one argument, the file of that name; with none, standard input.
fn print_arguments<R: Env + Files + Input + Print + Eprint>(
    rt: &R,
    program: Program,
) -> Result<(), Told> {
    if !has_argument(rt, 1) {
        return print_input(rt, program);
    }
    if has_argument(rt, 2) {
        return Err(tell_use(rt, program.name(), " [FILE]"));
    }
    let mut name = [0u8; NAME_MOST];
    let n = file_name(rt, program.name(), " [FILE]", 1, &mut name)?;
    print_file(rt, program, &name[..n])
}

// What the arguments ask, and standard output closed at the end.
pub(crate) fn run<R: Env + Files + Input + Print + Eprint>(
    rt: &R,
    program: Program,
) -> Result<(), Told> {
    print_arguments(rt, program)?;
    close_out(rt, program.name())
}
