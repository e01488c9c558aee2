// Changes of a chip that is held as a value, by the key of a line: values that no text has.
use crate::fields::is_at;
use model::Chip;

// The die and the counts: w, h, k, n, t.
fn set_frame(s: &[u8], c: Chip, v: u64) -> Chip {
    let mut c = c;
    if is_at(s, 1, b"w") {
        c.die.w = v;
    }
    if is_at(s, 1, b"h") {
        c.die.h = v;
    }
    if is_at(s, 1, b"k") {
        c.k = v as usize;
    }
    if is_at(s, 1, b"n") {
        c.n = v as usize;
    }
    if is_at(s, 1, b"t") {
        c.t = v as usize;
    }
    c
}

// All fixes, macros or nets like the first: fixes, macs, nets.
fn set_all(s: &[u8], c: Chip) -> Chip {
    let mut c = c;
    if is_at(s, 1, b"fixes") {
        let fixes = [c.fixes[0]; model::Fix::COUNT];
        c.fixes = fixes;
    }
    if is_at(s, 1, b"macs") {
        let macs = [c.macs[0]; model::Mac::COUNT];
        c.macs = macs;
    }
    if is_at(s, 1, b"nets") {
        let nets = [c.nets[0]; model::Net::COUNT];
        c.nets = nets;
    }
    c
}

// The first fix's x, the first net's weight and pins: x, weight, pins.
fn set_first(s: &[u8], c: Chip, v: u64) -> Chip {
    let mut c = c;
    let mut fix = c.fixes[0];
    let mut net = c.nets[0];
    if is_at(s, 1, b"x") {
        fix.x = v;
    }
    if is_at(s, 1, b"weight") {
        net.weight = v;
    }
    if is_at(s, 1, b"pins") {
        net.pins = v as usize;
    }
    c.fixes[0] = fix;
    c.nets[0] = net;
    c
}

// The second pin's macro and its y as held: m, yup.
fn set_second(s: &[u8], c: Chip, v: u64) -> Chip {
    let mut c = c;
    let mut pin = c.pins[1];
    if is_at(s, 1, b"m") {
        pin.m = v as usize;
    }
    if is_at(s, 1, b"yup") {
        pin.yup = v;
    }
    c.pins[1] = pin;
    c
}

// The chip with the change that a line names.
pub(crate) fn changed(s: &[u8], c: Chip, v: u64) -> Chip {
    set_second(s, set_first(s, set_all(s, set_frame(s, c, v)), v), v)
}
