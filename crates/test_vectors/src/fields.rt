// The fields of a case: parts of its line between tabs, numbers, positions.
ghost use Rattle.std.specs.Prelude.{◌≡◌, ◌+◌, ◌≤◌, min, length};

use model::{Mac, Spot};

// A part of a line: from a up to e.
#[derive(Clone, Copy)]
pub(crate) struct Range {
    pub a: usize,
    pub e: usize,
}

// The index of the first d from i on, or the end.
pub(crate) fn index_of(s: &[u8], i: usize, d: u8) -> usize
    requires { i ≤ length s.now }
    ensures { (i ≤ result) × (result ≤ length s.now) }
{
    for j in i..s.len() {
        if s[j] == d {
            return j;
        }
    }
    s.len()
}

// The place after e, or the end.
pub(crate) fn after(s: &[u8], e: usize) -> usize
    requires { e ≤ length s.now }
    ensures { result ≡ min (e + 1) (length s.now) }
{
    if e < s.len() { e + 1 } else { e }
}

// Field j of a line, the verb being field 0; empty where there are fewer.
pub(crate) fn part(s: &[u8], j: usize) -> Range
    ensures { (result.a ≤ result.e) × (result.e ≤ length s.now) }
{
    let mut a: usize = 0;
    for i in 0..j {
        a = after(s, index_of(s, a, 9));
    }
    Range {
        a,
        e: index_of(s, a, 9),
    }
}

// A number, `max`, or 0.
pub(crate) fn number(s: &[u8]) -> u64 {
    if check::same(s, b"max") {
        return 18446744073709551615;
    }
    match num_text::read_number(s) {
        Some(n) => n.magnitude,
        None => 0,
    }
}

// Field j of a line as a number.
pub(crate) fn number_at(s: &[u8], j: usize) -> u64 {
    let p = part(s, j);
    let a = p.a;
    let e = p.e;
    number(&s[a..e])
}

// A number that may be one of the two negative ones that cases have.
fn signed(s: &[u8]) -> i64 {
    if check::same(s, b"-4096") {
        return -4096;
    }
    if check::same(s, b"-4097") {
        return -4097;
    }
    as_signed(number(s))
}

fn as_signed(m: u64) -> i64 {
    if 1000000000 < m {
        return 0;
    }
    m as i64
}

// Field j of a line as such a number.
pub(crate) fn signed_at(s: &[u8], j: usize) -> i64 {
    let p = part(s, j);
    let a = p.a;
    let e = p.e;
    signed(&s[a..e])
}

// A position, written x,y.
fn spot(s: &[u8]) -> Spot {
    let comma = index_of(s, 0, 44);
    let from = after(s, comma);
    Spot {
        x: number(&s[0..comma]),
        y: number(&s[from..]),
    }
}

// Positions parted by blanks, the first eight; 0,0 past them.
fn spots(s: &[u8]) -> [Spot; Mac::COUNT] {
    let mut all = [Spot { x: 0, y: 0 }; Mac::COUNT];
    let mut a: usize = 0;
    for i in 0..Mac::COUNT {
        let e = index_of(s, a, 32);
        all[i] = spot(&s[a..e]);
        a = after(s, e);
    }
    all
}

// Field j of a line as positions.
pub(crate) fn spots_at(s: &[u8], j: usize) -> [Spot; Mac::COUNT] {
    let p = part(s, j);
    let a = p.a;
    let e = p.e;
    spots(&s[a..e])
}

// Prints field j of a line.
pub(crate) fn print_at(s: &[u8], j: usize) {
    let p = part(s, j);
    let a = p.a;
    let e = p.e;
    io::write_all(1, &s[a..e]);
}

// Whether field j of a line is the word.
pub(crate) fn is_at(s: &[u8], j: usize, word: &[u8]) -> bool {
    let p = part(s, j);
    let a = p.a;
    let e = p.e;
    check::same(&s[a..e], word)
}
