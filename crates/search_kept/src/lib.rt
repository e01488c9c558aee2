// Differences that are kept: a lower bound for each two of nine nodes, held higher by 2^24 at place 9 u + v, and their sums.
#![tactic(auto)]

ghost use Rattle.std.specs.Prelude.{◌≡◌, ◌<◌, set};
ghost use Rattle.search_kept.specs.Differences.{limited, Limited, held_bound, contrary, bound_in, raised_at, Adds, Follows, Starts, excluded, contradicts};

use axis_bounds::Slot;
use search_numbers::opposite;

// How many numbers a table has: one for each two of nine nodes, the rest is not used.
pub const CELLS: usize = 128;

// The nodes: the die corner and the macros.
const NODES: usize = 9;

// A bound is held higher by this, and is read modulo twice that.
const RAISED: u64 = 16777216;

const RANGE: u64 = 2 * RAISED;

// A slot between two of the nine nodes, with small numbers.
fn limit(s: Slot) -> Slot
    ensures value { result ≡ limited s }
    ensures limited { Limited result }
{
    Slot {
        tail: s.tail % NODES,
        head: s.head % NODES,
        plus: s.plus % 2097152,
        minus: s.minus % 2097152,
    }
}

// The bound of a slot, held higher.
fn held(s: Slot) -> u64
    requires { Limited s }
    ensures { result ≡ held_bound s }
{
    RAISED + s.plus - s.minus
}

// The bound at place c, read modulo 2^25.
fn bound(e: &[u32; CELLS], c: usize) -> u64
    requires { c < 81 }
    ensures { result ≡ bound_in e.now c }
{
    e[c] as u64 % RANGE
}

// The bound w less 2^24 at place c, if it is above the one that stands.
#[tactic(auto, unfolding(crate::specs::Differences::raised_at))]
fn raise(e: &mut [u32; CELLS], c: usize, w: u64)
    requires { c < 81 }
    ensures { e.new ≡ raised_at e.old c w }
{
    if RAISED + bound(e, c) < w && w < RAISED + RANGE {
        e[c] = ((w - RAISED) % RANGE) as u32;
    }
}

// The sums of the bound t from p to v and those from v on.
fn raise_row(e: &mut [u32; CELLS], p: usize, v: usize, t: u64)
    requires { (p < 9) × (v < 9) × (t < 4294967296) }
    ensures { Follows e.old p v t e.new }
{
    for q in 0..NODES {
        let w = t + bound(e, v * NODES + q);
        raise(e, p * NODES + q, w);
    }
}

// The sums of the bounds into u with b from u to v, in row p.
fn raise_from(e: &mut [u32; CELLS], p: usize, u: usize, v: usize, b: u64)
    requires { (p < 9) × (u < 9) × (v < 9) × (b < 33554432) }
    ensures { Follows e.old u v b e.new }
{
    let t = bound(e, p * NODES + u) + b;
    if RAISED + bound(e, p * NODES + v) < t {
        raise_row(e, p, v, t - RAISED);
    }
}

// The sums of all ways over the bound b from u to v.
fn raise_all(e: &mut [u32; CELLS], u: usize, v: usize, b: u64)
    requires { (u < 9) × (v < 9) × (b < 33554432) }
    ensures { Follows e.old u v b e.new }
{
    for p in 0..NODES {
        raise_from(e, p, u, v, b);
    }
}

// A table that nothing keeps.
fn shut(mut e: [u32; CELLS]) -> [u32; CELLS]
    ensures { result ≡ set e 0 16777217 }
{
    e[0] = RAISED as u32 + 1;
    e
}

// Whether the bound the other way is too large.
#[tactic(auto, unfolding(crate::specs::Differences::excluded))]
fn against(e: &[u32; CELLS], a: Slot) -> bool
    requires { Limited a }
    ensures { result ≡ excluded e.now a }
{
    RAISED + RAISED < bound(e, a.head * NODES + a.tail) + held(a)
}

// One difference more.
fn add(mut e: [u32; CELLS], a: Slot) -> [u32; CELLS]
    requires { Limited a }
    ensures { Adds e a result }
{
    let b = held(a);
    let c = a.tail * NODES + a.head;
    if b <= bound(&e, c) {
        return e;
    }
    if against(&e, a) {
        return shut(e);
    }
    raise(&mut e, c, b + RAISED);
    raise_row(&mut e, a.tail, a.head, b);
    raise_all(&mut e, a.tail, a.head, b);
    e
}

// Whether nothing can keep the table and the slot's bound, as the bound the other way shows.
pub fn excludes(e: &[u32; CELLS], s: Slot) -> bool
    ensures { result ≡ excluded e.now (limited s) }
{
    against(e, limit(s))
}

// Whether the table is known to contradict itself.
#[tactic(auto, unfolding(crate::specs::Differences::contradicts))]
pub fn is_shut(e: &[u32; CELLS]) -> bool
    ensures { result ≡ contradicts e.now }
{
    RAISED < bound(e, 0)
}

// One difference more.
pub fn keep(e: [u32; CELLS], s: Slot) -> [u32; CELLS]
    ensures { Adds e (limited s) result }
{
    add(e, limit(s))
}

// The opposite of a difference: one track the other way.
pub fn keep_opposite(e: [u32; CELLS], s: Slot) -> [u32; CELLS]
    ensures { Adds e (contrary (limited s)) result }
{
    add(e, opposite(limit(s)))
}

// The bounds of a table with their sums over the die corner, and 0 from each node to itself.
pub fn closed(mut e: [u32; CELLS]) -> [u32; CELLS]
    ensures { Starts e result }
{
    for u in 0..NODES {
        raise(&mut e, u * NODES + u, RAISED + RAISED);
        let t = bound(&e, u * NODES);
        raise_row(&mut e, u, 0, t);
    }
    e
}
