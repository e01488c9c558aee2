// The first fault of each item of a chip that is held as a value.
#![tactic(auto)]

ghost use Rattle.std.specs.Prelude.{◌≡◌};
ghost use Rattle.chip_faults.specs.Faults.{die_fault, fix_fault, mac_fault, bare_before, net_fault, pin_fault, row_fault};

use model::{Chip, Die, Fix, Mac, Net, Pin};

// The fault of the die, or 0: range 4.
pub fn die_fault(d: Die) -> usize
    ensures { result ≡ die_fault d }
{
    match Die::new(d.w, d.h) {
        Some(_) => 0,
        None => 4,
    }
}

// The fault of fix i, or 0: count 6, range 4, leaves the die 9, overlaps an earlier fix 10.
fn fix_fault(d: Die, fixes: [Fix; Fix::COUNT], i: usize) -> usize
    ensures { result ≡ fix_fault d fixes i }
{
    if Fix::COUNT <= i {
        return 6;
    }
    let f = fixes[i];
    if Fix::new(f.x, f.y, f.w, f.h).is_none() {
        return 4;
    }
    chip_text::placed_fault(d, f, fixes, i)
}

// The fault of macro i, or 0: count 6, range 4.
fn mac_fault(macs: [Mac; Mac::COUNT], i: usize) -> usize
    ensures { result ≡ mac_fault macs i }
{
    if Mac::COUNT <= i {
        return 6;
    }
    let m = macs[i];
    match Mac::new(m.w, m.h) {
        Some(_) => 0,
        None => 4,
    }
}

// Whether there is a net before net j and it has no pin; past the end of the array there are nets without pins.
pub fn bare_before(nets: [Net; Net::COUNT], j: usize) -> bool
    ensures { result ≡ bare_before nets j }
{
    if j == 0 {
        return false;
    }
    if Net::COUNT < j {
        return true;
    }
    let before = nets[j - 1];
    before.pins == 0
}

// The fault of net j, or 0: count 6, the net before it without a pin 7, range 4.
pub fn net_fault(nets: [Net; Net::COUNT], j: usize) -> usize
    ensures { result ≡ net_fault nets j }
{
    if Net::COUNT <= j {
        return 6;
    }
    if bare_before(nets, j) {
        return 7;
    }
    let t = nets[j];
    match Net::new(t.weight, t.pins) {
        Some(_) => 0,
        None => 4,
    }
}

// The fault of pin i of a chip with n macros, or 0: count 6, range 4, no such macro 8.
fn pin_fault(pins: [Pin; Pin::COUNT], n: usize, i: usize) -> usize
    ensures { result ≡ pin_fault pins n i }
{
    if Pin::COUNT <= i {
        return 6;
    }
    let p = pins[i];
    if Pin::held(p.m, p.xup, p.yup).is_none() {
        return 4;
    }
    chip_text::macro_fault(n, p.m)
}

// The lists of a chip whose items stand on lines that follow each other.
#[derive(Clone, Copy)]
pub enum Row {
    Fixes,
    Macs,
    Pins,
}

// The fault of item i of a list, or 0.
pub fn row_fault(c: Chip, row: Row, i: usize) -> usize
    ensures { result ≡ row_fault c row i }
{
    match row {
        Row::Fixes => fix_fault(c.die, c.fixes, i),
        Row::Macs => mac_fault(c.macs, i),
        Row::Pins => pin_fault(c.pins, c.n, i),
    }
}
