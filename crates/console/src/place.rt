// The program `place`.
use crate::texts;
use crate::texts::Program;
use std::rt::{Env, Files};

// Prints the record that belongs to the text of a file, and leaves standard output open for more.
pub fn print_file(rt: &(impl Files + Print + Eprint), path: &[u8]) {
    let _ = texts::print_file(rt, Program::Place, path);
}

// The program: what its arguments ask, and standard output closed at the end.
pub fn run(rt: &(impl Env + Files + Input + Print + Eprint)) {
    let _ = texts::run(rt, Program::Place);
}
