// Fits: each printed with number and line of a refusal, or no fit, or the length and the positions, and with what counting says of the list.
use crate::count::{FILL, all_are, list_right, pair_count, slot_count};
use crate::fields::{number_at, part};
use crate::report::print_numbers;
use fit::{FitAnswer, Fitted};
use model::{Chip, Mac, Refusal, Spot};

// How many amounts the lent lists have room for: more than any chip needs.
const ROOM: usize = 800;

// Positions from i on that are not 0,0 do not belong to an answer.
fn print_rest(spots: [Spot; Mac::COUNT], from: usize) {
    for i in from..Mac::COUNT {
        let s = spots[i];
        if s.x != 0 {
            io::write_all(1, b", positions wrong");
        }
        if s.y != 0 {
            io::write_all(1, b", positions wrong");
        }
    }
}

fn print_spot(s: Spot) {
    io::print_decimal(1, s.x);
    io::write_all(1, b",");
    io::print_decimal(1, s.y);
}

fn print_spots(spots: [Spot; Mac::COUNT], n: usize) {
    for i in 0..Mac::COUNT {
        if i < n {
            if i == 0 {
                io::write_all(1, b" at ");
            } else {
                io::write_all(1, b" ");
            }
            print_spot(spots[i]);
        }
    }
}

fn print_refused(f: Refusal, flow: &[u16]) {
    print_numbers(f);
    if !all_are(flow, FILL) {
        io::write_all(1, b", list changed");
    }
}

fn print_chain(c: Chip, letters: &[u8], flow: &[u16]) {
    if list_right(c, letters, flow, 0, true) {
        io::write_all(1, b"no fit, chain ok");
    } else {
        io::write_all(1, b"no fit, chain wrong");
    }
}

fn flow_right(c: Chip, letters: &[u8], f: Fitted, flow: &[u16]) -> bool {
    f.slots == 2 * slot_count(c, letters) && list_right(c, letters, flow, f.length, false)
}

fn print_placed(c: Chip, letters: &[u8], f: Fitted, spots: [Spot; Mac::COUNT], flow: &[u16]) {
    io::print_decimal(1, f.length);
    print_spots(spots, c.n);
    if flow_right(c, letters, f, flow) {
        io::write_all(1, b", flow ok");
    } else {
        io::write_all(1, b", flow wrong");
    }
}

fn print_letters(letters: &[u8]) {
    if letters.len() != 0 {
        io::write_all(1, letters);
        io::write_all(1, b": ");
    }
}

fn print_answer(c: Chip, letters: &[u8], answer: FitAnswer, flow: &[u16]) {
    let spots = answer.spots;
    match answer.outcome {
        Ok(Some(f)) => {
            print_placed(c, letters, f, spots, flow);
            print_rest(spots, c.n);
        }
        Ok(None) => {
            print_chain(c, letters, flow);
            print_rest(spots, 0);
        }
        Err(f) => {
            print_refused(f, flow);
            print_rest(spots, 0);
        }
    }
    io::write_all(1, b"\n");
}

// The empty string stands for a dot on each pair: the list is counted for that.
fn print_fit(c: Chip, letters: &[u8], answer: FitAnswer, flow: &[u16]) {
    print_letters(letters);
    if letters.len() != 0 {
        print_answer(c, letters, answer, flow);
        return;
    }
    let dots = [46u8; 128];
    let p = pair_count(c);
    print_answer(c, &dots[0..p], answer, flow);
}

fn lend_first(c: Chip, letters: &[u8], room: usize, flow: &mut [u16]) {
    if room <= flow.len() {
        let answer = fit::fit_letters(c, letters, &mut flow[0..room]);
        print_fit(c, letters, answer, flow);
    }
}

fn fitted(c: Chip, letters: &[u8], room: usize) {
    let mut flow = [FILL; ROOM];
    lend_first(c, letters, room, &mut flow);
}

// fit NAME ROOM LETTERS
pub(crate) fn fit(s: &[u8], c: Chip) {
    let p = part(s, 3);
    let a = p.a;
    let e = p.e;
    fitted(c, &s[a..e], number_at(s, 2) as usize);
}

// The letter of a digit.
fn letter(d: u64) -> u8 {
    if d == 0 {
        return 76;
    }
    if d == 1 {
        return 82;
    }
    if d == 2 {
        return 66;
    }
    if d == 3 {
        return 65;
    }
    46
}

// The letters of a number's digits to the base 5.
fn spell(out: &mut [u8], number: u64) {
    let mut rest = number;
    for i in 0..out.len() {
        out[i] = letter(rest % 5);
        rest = rest / 5;
    }
}

// The string of p letters with that number, at most 8.
fn numbered(c: Chip, p: usize, number: u64) {
    let mut letters = [46u8; 8];
    if p <= 8 {
        spell(&mut letters, number);
        fitted(c, &letters[0..p], ROOM);
    }
}

// strings NAME P COUNT
pub(crate) fn strings(s: &[u8], c: Chip) {
    let p = number_at(s, 2) as usize;
    let count = number_at(s, 3);
    for i in 0..count {
        numbered(c, p, i);
    }
}

fn change(flow: &mut [u16], i: usize, amount: u64) {
    if i < flow.len() {
        flow[i] = (amount % 65536) as u16;
    }
}

// A fit whose list is changed at two places: counting notices.
fn spoiled(c: Chip, letters: &[u8], s: &[u8]) {
    let mut flow = [FILL; ROOM];
    let answer = fit::fit_letters(c, letters, &mut flow);
    change(&mut flow, number_at(s, 3) as usize, number_at(s, 4));
    change(&mut flow, number_at(s, 5) as usize, number_at(s, 6));
    print_fit(c, letters, answer, &flow);
}

// spoil NAME LETTERS I A J B
pub(crate) fn spoil(s: &[u8], c: Chip) {
    let p = part(s, 2);
    let a = p.a;
    let e = p.e;
    spoiled(c, &s[a..e], s);
}

fn print_amount(amount: u16) {
    io::write_all(1, b" ");
    io::print_decimal(1, amount as u64);
}

fn print_amounts(flow: &[u16], n: usize) {
    for i in 0..flow.len() {
        if i < n {
            print_amount(flow[i]);
        }
    }
}

// amounts NAME LETTERS N
pub(crate) fn amounts(s: &[u8], c: Chip) {
    let p = part(s, 2);
    let a = p.a;
    let e = p.e;
    let mut flow = [FILL; ROOM];
    fit::fit_letters(c, &s[a..e], &mut flow);
    print_amounts(&flow, number_at(s, 3) as usize);
    io::write_all(1, b"\n");
}
