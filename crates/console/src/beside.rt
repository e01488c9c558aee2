// The program `beside`: a chip file and a record file by name.
ghost use Rattle.std.specs.Prelude.{IfErr, IfSome, OnOk};
ghost use Rattle.std.specs.Io.KnownBytes.{Appends, Keeps};
ghost use Rattle.beside_print.specs.Printed.{printed_beside};
ghost use Rattle.console.specs.Printed.{IfUnread};

use crate::files::{
    Failed, NAME_MOST, close_out, file_name, has_argument, open, read_file, read_text, tell_failed,
    write_answer,
};
use crate::tell::{Told, tell, tell_use};
use std::io;
use std::io::{Read, Write};
use std::rt::{Env, Files};

// Prints what belongs to a chip and a record. A buffer of 25 bytes is long enough for it.
fn print<W: Write>(to: &mut W, chip: &[u8], beside: &[u8]) -> io::Result<()>
    ensures { OnOk result (Appends (W.contents to.old) (W.contents to.new) (printed_beside chip.now beside.now)) }
{
    let mut out = [0u8; 25];
    let answer = beside_print::print_beside(chip, beside, &mut out);
    write_answer(to, answer, &out)
}

// Reads the record and prints what belongs to it beside the chip; nothing where a read fails. A text of 16,385 bytes is too long, so more of it is not read.
fn print_read<F: Read, W: Write>(chip: &[u8], from: &mut F, to: &mut W) -> Result<(), Failed>
    ensures printed { OnOk result (IfSome (F.remaining from.old) (λ beside.
        Appends (W.contents to.old) (W.contents to.new) (printed_beside chip.now beside))) }
    ensures unread { IfErr result (λ failed. IfUnread failed (Keeps (W.contents to.old) (W.contents to.new))) }
{
    let mut text = [0u8; model::TEXT_MOST + 1];
    match read_text(from, &mut text) {
        Ok(n) => match print(to, chip, &text[..n]) {
            Ok(()) => Ok(()),
            Err(error) => Err(Failed::Write(error)),
        },
        Err(error) => Err(Failed::Read(error)),
    }
}

// The same of the record's file; where that fails, it is told.
fn beside_chip<R: Files + Print + Eprint>(rt: &R, chip: &[u8], path: &[u8]) -> Result<(), Told> {
    let mut file = match open(rt, path) {
        Ok(file) => file,
        Err(error) => return Err(tell(rt, "beside", path, error)),
    };
    match print_read(chip, &mut file, &mut io::writer(rt)) {
        Ok(()) => Ok(()),
        Err(failed) => Err(tell_failed(rt, "beside", path, failed)),
    }
}

// The same of both files.
fn beside_files<R: Files + Print + Eprint>(rt: &R, chip: &[u8], beside: &[u8]) -> Result<(), Told> {
    let mut text = [0u8; model::TEXT_MOST + 1];
    let n = read_file(rt, "beside", chip, &mut text)?;
    beside_chip(rt, &text[..n], beside)
}

// The record of the second argument beside the chip of that name.
fn beside_named<R: Env + Files + Print + Eprint>(rt: &R, chip: &[u8]) -> Result<(), Told> {
    let mut name = [0u8; NAME_MOST];
    let n = file_name(rt, "beside", " CHIP RECORD", 2, &mut name)?;
    beside_files(rt, chip, &name[..n])
}

// The two arguments: the chip's file, then the record's.
fn beside_arguments<R: Env + Files + Print + Eprint>(rt: &R) -> Result<(), Told> {
    if !has_argument(rt, 2) || has_argument(rt, 3) {
        return Err(tell_use(rt, "beside", " CHIP RECORD"));
    }
    let mut name = [0u8; NAME_MOST];
    let n = file_name(rt, "beside", " CHIP RECORD", 1, &mut name)?;
    beside_named(rt, &name[..n])
}

// What the arguments ask, and standard output closed at the end.
fn beside<R: Env + Files + Print + Eprint>(rt: &R) -> Result<(), Told> {
    beside_arguments(rt)?;
    close_out(rt, "beside")
}

// Prints what belongs to a chip file and a record file, and leaves standard output open for more.
pub fn print_files(rt: &(impl Files + Print + Eprint), chip: &[u8], record: &[u8]) {
    let _ = beside_files(rt, chip, record);
}

// The program: what its arguments ask, and standard output closed at the end.
pub fn run(rt: &(impl Env + Files + Print + Eprint)) {
    let _ = beside(rt);
}
