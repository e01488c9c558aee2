// Values written into lent buffers, and constructors.
use crate::fields::{is_at, number_at, signed_at, spots_at};
use crate::report::{FILL, print_length};
use model::{Chip, Die, Fix, Mac, Net, Outcome, Pin, Record};

fn write_chip(c: Chip, room: usize, out: &mut [u8]) {
    if room <= out.len() {
        let answer = chip_write::write_chip(c, &mut out[0..room]);
        print_length(answer, out);
    }
}

// write NAME ROOM
pub(crate) fn chip(s: &[u8], c: Chip) {
    let mut out = [FILL; 4096];
    write_chip(c, number_at(s, 2) as usize, &mut out);
}

fn write_record(r: Record, room: usize, out: &mut [u8]) {
    if room <= out.len() {
        let answer = record_write::write_record(r, &mut out[0..room]);
        print_length(answer, out);
    }
}

fn record(r: Record, room: usize) {
    let mut out = [FILL; 256];
    write_record(r, room, &mut out);
}

// least NAME WL N ROOM POSITIONS
pub(crate) fn least(s: &[u8]) {
    let spots = spots_at(s, 5);
    let n = number_at(s, 3) as usize;
    let r = Record {
        outcome: Outcome::Least(number_at(s, 2), n),
        spots,
    };
    record(r, number_at(s, 4) as usize);
}

// none NAME ROOM POSITIONS
pub(crate) fn none(s: &[u8]) {
    let spots = spots_at(s, 3);
    let r = Record {
        outcome: Outcome::None,
        spots,
    };
    record(r, number_at(s, 2) as usize);
}

// Whether the thing of a line is made of its numbers.
fn is_made(s: &[u8]) -> bool {
    let a = number_at(s, 3);
    let b = number_at(s, 4);
    if is_at(s, 2, b"die") {
        return Die::new(a, b).is_some();
    }
    if is_at(s, 2, b"fix") {
        return Fix::new(a, b, number_at(s, 5), number_at(s, 6)).is_some();
    }
    if is_at(s, 2, b"mac") {
        return Mac::new(a, b).is_some();
    }
    if is_at(s, 2, b"net") {
        return Net::new(a, b as usize).is_some();
    }
    Pin::new(a as usize, signed_at(s, 4), signed_at(s, 5)).is_some()
}

// make NAME THING NUMBERS
pub(crate) fn make(s: &[u8]) {
    if is_made(s) {
        io::write_all(1, b"made\n");
    } else {
        io::write_all(1, b"4\n");
    }
}
