// The list of a fit checked by counting: document 01's slots of a chip and a letter string, and what flows in and out at each node.
//
// The nodes of a direction: 0 is the die corner, m the macro m, 9 + 2j the hi and 10 + 2j the lo of net j, counted from 0.
ghost use Rattle.std.specs.Prelude.{◌≤◌};

use model::{Chip, Fix, Mac, Net, Pin};

// What the lists hold before a fit. No flow has such an amount.
pub(crate) const FILL: u16 = 40000;

// A slot "v - u is at least up - down", or one without a bound.
#[derive(Clone, Copy)]
struct Slot {
    bound: bool,
    u: usize,
    v: usize,
    up: u64,
    down: u64,
}

// Two macros, counted from 0.
#[derive(Clone, Copy)]
struct Pair {
    a: usize,
    b: usize,
}

// No sum comes near the limit.
pub(crate) fn sum(a: u64, b: u64) -> u64 {
    if a < 4611686018427387904 {
        if b < 4611686018427387904 {
            return a + b;
        }
    }
    4611686018427387904
}

// Both factors are below 65,536.
pub(crate) fn product(a: u64, b: u64) -> u64 {
    if a < 65536 {
        if b < 65536 {
            return a * b;
        }
    }
    4611686018427387904
}

// A bound's length times the amount on it.
fn carried(factor: u64, amount: u16) -> u64 {
    product(factor, amount as u64)
}

fn no_bound() -> Slot {
    Slot {
        bound: false,
        u: 0,
        v: 0,
        up: 0,
        down: 0,
    }
}

fn bounded(u: usize, v: usize, up: u64, down: u64) -> Slot {
    Slot {
        bound: true,
        u,
        v,
        up,
        down,
    }
}

// The side of the die, of a macro and of a fix, and the corner of a fix, in a direction.
fn die_side(c: Chip, vertical: bool) -> u64 {
    if vertical { c.die.h } else { c.die.w }
}

fn macro_side(c: Chip, i: usize, vertical: bool) -> u64 {
    let macs = c.macs;
    if Mac::COUNT <= i {
        return 0;
    }
    let m = macs[i];
    if vertical { m.h } else { m.w }
}

fn fix_side(c: Chip, i: usize, vertical: bool) -> u64 {
    let fixes = c.fixes;
    if Fix::COUNT <= i {
        return 0;
    }
    let f = fixes[i];
    if vertical { f.h } else { f.w }
}

fn fix_corner(c: Chip, i: usize, vertical: bool) -> u64 {
    let fixes = c.fixes;
    if Fix::COUNT <= i {
        return 0;
    }
    let f = fixes[i];
    if vertical { f.y } else { f.x }
}

// The letters that say left of or below, and right of or above.
fn before(vertical: bool) -> u8 {
    if vertical { 66 } else { 76 }
}

fn after(vertical: bool) -> u8 {
    if vertical { 65 } else { 82 }
}

// The two slots of a macro.
fn die_slot(c: Chip, s: usize, vertical: bool) -> Slot {
    let i = s / 2;
    if Mac::COUNT <= i {
        return no_bound();
    }
    if s % 2 == 0 {
        return bounded(0, i + 1, 0, 0);
    }
    bounded(i + 1, 0, macro_side(c, i, vertical), die_side(c, vertical))
}

// The pair of macros at place r: 1-2, 1-3 .. 2-3 .. .
fn macro_pair(n: usize, r: usize) -> Pair {
    let mut left = r;
    for a in 0..n {
        let row = n - 1 - a;
        if left < row {
            return Pair { a, b: a + 1 + left };
        }
        left -= row;
    }
    Pair { a: 0, b: 0 }
}

fn macros_slot(c: Chip, pair: Pair, letter: u8, vertical: bool) -> Slot {
    let a = pair.a;
    let b = pair.b;
    if Mac::COUNT <= a {
        return no_bound();
    }
    if Mac::COUNT <= b {
        return no_bound();
    }
    if letter == before(vertical) {
        return bounded(a + 1, b + 1, macro_side(c, a, vertical), 0);
    }
    if letter == after(vertical) {
        return bounded(b + 1, a + 1, macro_side(c, b, vertical), 0);
    }
    no_bound()
}

// The slot of macro a and fix f.
fn fix_slot(c: Chip, a: usize, f: usize, letter: u8, vertical: bool) -> Slot {
    if Mac::COUNT <= a {
        return no_bound();
    }
    if letter == before(vertical) {
        return bounded(
            a + 1,
            0,
            macro_side(c, a, vertical),
            fix_corner(c, f, vertical),
        );
    }
    if letter == after(vertical) {
        return bounded(
            0,
            a + 1,
            sum(fix_corner(c, f, vertical), fix_side(c, f, vertical)),
            0,
        );
    }
    no_bound()
}

fn pair_slot(c: Chip, r: usize, letter: u8, vertical: bool) -> Slot {
    let n = c.n;
    let k = c.k;
    if Mac::COUNT < n {
        return no_bound();
    }
    if n == 0 {
        return no_bound();
    }
    let both = n * (n - 1) / 2;
    if r < both {
        return macros_slot(c, macro_pair(n, r), letter, vertical);
    }
    if k == 0 {
        return no_bound();
    }
    let s = r - both;
    fix_slot(c, s / k, s % k, letter, vertical)
}

// The net of the pin at place i.
fn net_of(c: Chip, i: usize) -> usize
    ensures { result ≤ 32 }
{
    let nets = c.nets;
    let mut left = i;
    for j in 0..Net::COUNT {
        let net = nets[j];
        if left < net.pins {
            return j;
        }
        left -= net.pins;
    }
    Net::COUNT
}

// The two slots of a pin.
fn pin_slot(c: Chip, s: usize, vertical: bool) -> Slot {
    let pins = c.pins;
    let i = s / 2;
    if Pin::COUNT <= i {
        return no_bound();
    }
    let j = net_of(c, i);
    let pin = pins[i];
    let place = if vertical { pin.yup } else { pin.xup };
    if s % 2 == 0 {
        return bounded(pin.m, 9 + 2 * j, place, 4096);
    }
    bounded(10 + 2 * j, pin.m, 4096, place)
}

// The slot at place s of a direction.
fn slot_at(c: Chip, letters: &[u8], s: usize, vertical: bool) -> Slot {
    let n = c.n;
    if Mac::COUNT < n {
        return no_bound();
    }
    if s < 2 * n {
        return die_slot(c, s, vertical);
    }
    let r = s - 2 * n;
    if r < letters.len() {
        return pair_slot(c, r, letters[r], vertical);
    }
    pin_slot(c, r - letters.len(), vertical)
}

// Takes an amount from u to v; says whether the slot may carry it.
fn carry(slot: Slot, amount: u16, most: u16, into: &mut [u64], out: &mut [u64]) -> bool {
    let u = slot.u;
    let v = slot.v;
    if !slot.bound {
        return amount == 0;
    }
    if most < amount || out.len() <= u || into.len() <= v {
        return false;
    }
    out[u] = sum(out[u], amount as u64);
    into[v] = sum(into[v], amount as u64);
    true
}

fn carry_all(
    c: Chip,
    letters: &[u8],
    part: &[u16],
    most: u16,
    vertical: bool,
    into: &mut [u64],
    out: &mut [u64],
) -> bool {
    for s in 0..part.len() {
        if !carry(slot_at(c, letters, s, vertical), part[s], most, into, out) {
            return false;
        }
    }
    true
}

// The weight that stays at a node where it is a net's hi, and that leaves it where it is a net's lo.
fn weight_at(c: Chip, v: usize, end: usize) -> u64 {
    let nets = c.nets;
    if v < end {
        return 0;
    }
    let j = (v - end) / 2;
    if (v - end) % 2 == 1 {
        return 0;
    }
    if Net::COUNT <= j {
        return 0;
    }
    if c.t <= j {
        return 0;
    }
    let net = nets[j];
    net.weight
}

// Whether a node is in balance: with a flow its weights count, with a chain nothing stays or leaves.
fn node_even(c: Chip, v: usize, into: u64, out: u64, chain: bool) -> bool {
    if chain {
        return into == out;
    }
    sum(into, weight_at(c, v, 10)) == sum(out, weight_at(c, v, 9))
}

fn nodes_even(c: Chip, into: &[u64], out: &[u64], chain: bool) -> bool {
    for v in 0..into.len() {
        if v < out.len() && !node_even(c, v, into[v], out[v], chain) {
            return false;
        }
    }
    true
}

// Whether the amounts of a direction are in their range and every node is in balance.
fn part_even(c: Chip, letters: &[u8], part: &[u16], vertical: bool, chain: bool) -> bool {
    let mut into = [0u64; 73];
    let mut out = [0u64; 73];
    let most: u16 = if chain { 1 } else { 32000 };
    carry_all(c, letters, part, most, vertical, &mut into, &mut out)
        && nodes_even(c, &into, &out, chain)
}

// The sum of up x amount, or of down x amount, over a direction.
fn part_sum(c: Chip, letters: &[u8], part: &[u16], vertical: bool, of_up: bool) -> u64 {
    let mut total: u64 = 0;
    for s in 0..part.len() {
        let at = slot_at(c, letters, s, vertical);
        let factor = if of_up { at.up } else { at.down };
        total = sum(total, carried(factor, part[s]));
    }
    total
}

// Whether all amounts are the one given.
pub(crate) fn all_are(part: &[u16], amount: u16) -> bool {
    part.iter().all(|a| *a == amount)
}

// The pins with those of one net more, at most 128.
fn more_pins(q: usize, net: Net) -> usize
    ensures { result ≤ 128 }
{
    if Pin::COUNT < q {
        return Pin::COUNT;
    }
    if Pin::COUNT - q < net.pins {
        return Pin::COUNT;
    }
    q + net.pins
}

// The pins of all nets.
pub(crate) fn pin_count(c: Chip) -> usize
    ensures { result ≤ 128 }
{
    let nets = c.nets;
    let t = c.t;
    let mut q: usize = 0;
    for j in 0..Net::COUNT {
        if t <= j {
            return q;
        }
        q = more_pins(q, nets[j]);
    }
    q
}

// The pairs: macro i has one with each macro before it and one with each fix.
pub(crate) fn pair_count(c: Chip) -> usize
    ensures { result ≤ 128 }
{
    let n = c.n;
    let k = c.k;
    if Fix::COUNT < k {
        return 0;
    }
    let mut p: usize = 0;
    for i in 0..Mac::COUNT {
        if n <= i {
            return p;
        }
        p += i + k;
    }
    p
}

// The slots of a direction: two for each macro, one for each letter, two for each pin.
pub(crate) fn slot_count(c: Chip, letters: &[u8]) -> usize
    ensures { result ≤ 364 }
{
    let n = c.n;
    if Mac::COUNT < n {
        return 0;
    }
    if 92 < letters.len() {
        return 0;
    }
    2 * n + letters.len() + 2 * pin_count(c)
}

// Both directions in balance; only one direction of a chain carries anything.
fn both_even(c: Chip, letters: &[u8], across: &[u16], up: &[u16], chain: bool) -> bool {
    part_even(c, letters, across, false, chain)
        && part_even(c, letters, up, true, chain)
        && (!chain || all_are(across, 0) || all_are(up, 0))
}

// The sum of a x amount is the length of a flow, and above 0 for a chain.
fn reaches(c: Chip, letters: &[u8], across: &[u16], up: &[u16], length: u64, chain: bool) -> bool {
    let plus = sum(
        part_sum(c, letters, across, false, true),
        part_sum(c, letters, up, true, true),
    );
    let minus = sum(
        part_sum(c, letters, across, false, false),
        part_sum(c, letters, up, true, false),
    );
    if chain {
        return minus < plus;
    }
    plus == sum(minus, length)
}

// Whether a list holds a flow of that length, or a chain, and is as it was past the last slot.
pub(crate) fn list_right(c: Chip, letters: &[u8], flow: &[u16], length: u64, chain: bool) -> bool {
    let m = slot_count(c, letters);
    let e = m + m;
    e <= flow.len()
        && all_are(&flow[e..], FILL)
        && both_even(c, letters, &flow[0..m], &flow[m..e], chain)
        && reaches(c, letters, &flow[0..m], &flow[m..e], length, chain)
}
