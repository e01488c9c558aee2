// The programs on files. `place` where its input is not a chip: a text above 16,384 bytes is 1, although all its lines up to `end` are right; a directory cannot
// be read, and nothing is printed. `boxes` on a chip, on that text, on that directory, and on a file that is missing, for which nothing is printed. `beside` on the
// record of the chip, another chip's, one with a wl that is one more, one with a macro less, and `none`; on the two files in the wrong order, a chip and a record
// that are both at fault, a record above 16,384 bytes; on a file that is missing and a directory, for which nothing is printed. Then `place` on the file that is
// the argument, with a line above 4,096 bytes: a number of 5,000 digits is out of range, 4. Of its first 4,096 bytes the line would have no LF, 2.
#![tactic(auto)]

fn main(rt: HostRuntime) {
    console::place::print_file(&rt, b"large");
    console::place::print_file(&rt, b".");
    console::boxes::print_file(&rt, b"chip");
    console::boxes::print_file(&rt, b"large");
    console::boxes::print_file(&rt, b".");
    console::boxes::print_file(&rt, b"missing");
    console::beside::print_files(&rt, b"chip", b"record");
    console::beside::print_files(&rt, b"chip", b"other");
    console::beside::print_files(&rt, b"chip", b"longer");
    console::beside::print_files(&rt, b"chip", b"fewer");
    console::beside::print_files(&rt, b"chip", b"none");
    console::beside::print_files(&rt, b"record", b"chip");
    console::beside::print_files(&rt, b"faulty", b"large");
    console::beside::print_files(&rt, b"chip", b"large");
    console::beside::print_files(&rt, b"chip", b"missing");
    console::beside::print_files(&rt, b".", b"record");
    console::place::run(&rt);
}
