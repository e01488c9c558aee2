// Numbers of the search: bounds that are limited, the opposite of a slot, the span of some places; macros, nets and pins with the same numbers.
#![tactic(auto)]

ghost use Rattle.std.specs.Prelude.{◌≡◌, ◌&&◌, eqb, ◌+◌, ◌-◌, min, max};
ghost use Rattle.axis_bounds.specs.Listed.{slot};
ghost use Rattle.search_numbers.specs.Spans.{joined_to};

use axis_bounds::Slot;
use model::{Mac, Net, Pin};

// The most that a side of a bound counts for, and of a slot whose opposite is asked.
const SIDE_MOST: u64 = 1000000;

const SLOT_MOST: u64 = 2097152;

// A bound is held higher by this.
const RAISED: u64 = 16777216;

// The greater of a bound that stands and one more.
pub fn greater(old: u32, more: u32) -> u32
    ensures { result ≡ max old more }
{
    old.max(more)
}

// A bound, held higher by 2^24.
pub fn bound_of(plus: u64, minus: u64) -> u32
    ensures { result ≡ 16777216 + min plus 1000000 - min minus 1000000 }
{
    (RAISED + plus.min(SIDE_MOST) - minus.min(SIDE_MOST)) as u32
}

// The opposite of a slot with small numbers: one track the other way.
pub fn opposite(s: Slot) -> Slot
    ensures { result ≡ slot s.head s.tail (min s.minus 2097152 + 1) s.plus }
{
    Slot {
        tail: s.head,
        head: s.tail,
        plus: s.minus.min(SLOT_MOST) + 1,
        minus: s.plus,
    }
}

// The greatest and the least place of some pins, if there are any.
#[derive(Clone, Copy)]
pub struct Span {
    pub some: bool,
    pub most: u64,
    pub least: u64,
}

// One place more.
pub fn joined(s: Span, up: u64) -> Span
    ensures { result ≡ joined_to s up }
{
    if s.some {
        Span {
            some: true,
            most: num_limits::greater(s.most, up),
            least: num_limits::lesser(s.least, up),
        }
    } else {
        Span {
            some: true,
            most: up,
            least: up,
        }
    }
}

// Whether two macros have one size.
pub fn same_size(a: Mac, b: Mac) -> bool
    ensures { result ≡ (eqb a.w b.w && eqb a.h b.h) }
{
    a.w == b.w && a.h == b.h
}

// Whether two nets have one weight.
pub fn same_weight(a: Net, b: Net) -> bool
    ensures { result ≡ eqb a.weight b.weight }
{
    a.weight == b.weight
}

// Whether two pins are the same.
pub fn same_pin(p: Pin, q: Pin) -> bool
    ensures { result ≡ (eqb p.m q.m && (eqb p.xup q.xup && eqb p.yup q.yup)) }
{
    p.m == q.m && p.xup == q.xup && p.yup == q.yup
}
