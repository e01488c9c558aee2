// Texts of cases unfolded: escapes and repetitions.
ghost use Rattle.std.specs.Prelude.{◌+◌, ◌≤◌, ◌<◌, length};

use crate::fields::{after, index_of, part};

// One byte more, where there is room.
fn put(out: &mut [u8], at: usize, b: u8) -> usize {
    if at < out.len() {
        out[at] = b;
        return at + 1;
    }
    at
}

// The value of a hexadecimal digit in lower case.
fn hex_digit(b: u8) -> u8
    ensures { result < 16 }
{
    if b < 97 { b % 16 } else { (b - 87) % 16 }
}

// How many bytes of s from i on stand for one byte.
fn escape_size(s: &[u8], i: usize) -> usize
    requires { i < length s.now }
    ensures { (1 ≤ result) × (i + result ≤ length s.now) }
{
    if s[i] != 92 {
        return 1;
    }
    if s.len() - i < 2 {
        return 1;
    }
    if s[i + 1] == 120 {
        if 4 <= s.len() - i {
            return 4;
        }
    }
    2
}

// The byte that they stand for.
fn escape_byte(s: &[u8], i: usize, size: usize) -> u8
    requires { i + size ≤ length s.now }
{
    if size == 4 {
        let high = hex_digit(s[i + 2]);
        let low = hex_digit(s[i + 3]);
        return high * 16 + low;
    }
    if size == 2 {
        let b = s[i + 1];
        if b == 110 {
            return 10;
        }
        if b == 114 {
            return 13;
        }
        return b;
    }
    if size == 1 {
        return s[i];
    }
    0
}

// The bytes that a part without braces stands for.
fn unescape(s: &[u8], out: &mut [u8], at: usize) -> usize {
    let mut a = at;
    let mut i: usize = 0;
    while i < s.len() {
        let size = escape_size(s, i);
        let b = escape_byte(s, i, size);
        a = put(out, a, b);
        i += size;
    }
    a
}

fn repeat(s: &[u8], times: u64, out: &mut [u8], at: usize) -> usize {
    let mut a = at;
    for i in 0..times {
        a = unescape(s, out, a);
    }
    a
}

// The part {N*s} that begins at j with its brace and ends before e.
fn put_repeated(s: &[u8], j: usize, e: usize, out: &mut [u8], at: usize) -> usize
    requires { (j ≤ e) × (e ≤ length s.now) }
{
    let star = index_of(s, j, 42);
    if e <= star {
        return at;
    }
    if star <= j {
        return at;
    }
    let Some(times) = num_text::read_number(&s[j + 1..star]) else {
        return at;
    };
    repeat(&s[star + 1..e], times.magnitude, out, at)
}

// The text that a vector stands for; the answer is its length.
fn unfold(s: &[u8], out: &mut [u8]) -> usize {
    let mut a: usize = 0;
    let mut i: usize = 0;
    while i < s.len() {
        let j = index_of(s, i, 123);
        a = unescape(&s[i..j], out, a);
        let e = index_of(s, j, 125);
        a = put_repeated(s, j, e, out, a);
        i = after(s, e);
    }
    a
}

// The text of field j of a line; the answer is its length.
pub(crate) fn text_at(s: &[u8], j: usize, text: &mut [u8]) -> usize {
    let p = part(s, j);
    let a = p.a;
    let e = p.e;
    unfold(&s[a..e], text)
}
