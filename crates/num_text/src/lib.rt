// Decimal numbers as text: reading a part of a text, and writing into a lent buffer.
#![tactic(auto)]

ghost use Rattle.std.specs.Prelude.{◌≡◌, [], ◌∷◌, ◌≤◌};
ghost use Rattle.std.proofs.Math.IntN.{sub_ℕ};
ghost use Rattle.num_text.specs.Number.{numeral_of, digits, number_text};
ghost use Rattle.num_text.specs.Held.{cap, held_number, Wrote};
ghost use Rattle.num_text.specs.Steps.{push, held_natural};

// The greatest magnitude that is told apart; a number above it is read as it.
pub const MOST: u64 = 1000000000;

// What a field holds: a sign (true: negative) and a magnitude, at most 1,000,000,000.
#[derive(Clone, Copy)]
pub struct Number {
    pub negative: bool,
    pub magnitude: u64,
}

// The value of digits with the value v and the digit b after them, at most 1,000,000,000.
fn with_digit(v: u64, b: u8) -> u64
    requires { (v ≤ cap) × (48 ≤ b) × (b ≤ 57) }
    ensures { (result ≡ push v b) × (result ≤ cap) }
{
    (v * 10 + u64::from(b - b'0')).min(MOST)
}

// The magnitude in a text that has no sign; none where it is no number.
fn read_natural(s: &[u8]) -> Option<u64>
    ensures { result ≡ held_natural s.now }
{
    if s.is_empty() || s[0] == b'0' && s.len() != 1 {
        return None;
    }
    let mut v = 0;
    for b in s {
        if !b.is_ascii_digit() {
            return None;
        }
        v = with_digit(v, *b);
    }
    Some(v)
}

// The number in a part of a text; none where it is no number.
pub fn read_number(s: &[u8]) -> Option<Number>
    ensures { result ≡ held_number (numeral_of s.now) }
{
    if let [b'-', digits @ ..] = s {
        let magnitude = read_natural(digits)?;
        if magnitude == 0 {
            return None;
        }
        return Some(Number {
            negative: true,
            magnitude,
        });
    }
    let magnitude = read_natural(s)?;
    Some(Number {
        negative: false,
        magnitude,
    })
}

// Writes the byte b at `at`, where the buffer has that place, and answers the place after it.
fn put(out: &mut [u8], at: usize, b: u8) -> usize
    ensures { Wrote out.old out.new (b ∷ []) at result }
{
    if at < out.len() {
        out[at] = b;
    }
    at.saturating_add(1)
}

// Writes the bytes s from `at` on, as far as the buffer goes, and answers the place after them.
pub fn put_bytes(out: &mut [u8], at: usize, s: &[u8]) -> usize
    ensures { Wrote out.old out.new s.now at result }
{
    let mut k = at;
    for b in s {
        k = put(out, k, *b);
    }
    k
}

// Writes the decimal digits of n from `at` on, as far as the buffer goes, and answers the place after them.
pub fn put_natural(out: &mut [u8], at: usize, n: u64) -> usize
    ensures { Wrote out.old out.new (digits n) at result }
{
    if n < 10 {
        return put(out, at, b'0' + n as u8);
    }
    let k = put_natural(out, at, n / 10);
    put(out, k, b'0' + (n % 10) as u8)
}

// Writes the text of the number n - shift from `at` on, as far as the buffer goes, and answers the place after it.
pub fn put_number(out: &mut [u8], at: usize, n: u64, shift: u64) -> usize
    ensures { Wrote out.old out.new (number_text (sub_ℕ n shift)) at result }
{
    if n < shift {
        let k = put(out, at, b'-');
        return put_natural(out, k, shift - n);
    }
    put_natural(out, at, n - shift)
}
