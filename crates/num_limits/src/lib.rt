// The lesser and the greater of two numbers, and the sum of two lengths, which is limited.
#![tactic(auto)]

ghost use Rattle.std.specs.Prelude.{◌≡◌, ◌+◌, min, max};

// Lengths count up to this in a sum; no placement is so long.
const LONGEST: u64 = 4294967296;

pub fn lesser(a: u64, b: u64) -> u64
    ensures { result ≡ min a b }
{
    a.min(b)
}

pub fn greater(a: u64, b: u64) -> u64
    ensures { result ≡ max a b }
{
    a.max(b)
}

// The sum of two lengths.
pub fn sum(a: u64, b: u64) -> u64
    ensures { result ≡ min a 4294967296 + min b 4294967296 }
{
    lesser(a, LONGEST) + lesser(b, LONGEST)
}
