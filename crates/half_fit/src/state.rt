// The arrays that proposals are made on. Every index is taken modulo its range and sums modulo 2^32, so nothing is asked of a caller.
//
// A pool is four states of 608 numbers, lent whole with the number o of a state. A part of a state is named by where it begins, in units of
// 32 numbers: K residual bounds between two nodes, V how they arise, FLOWS what the bounds carry (96 numbers each, of which the 81 pairs of
// nodes use the first), HIGHS and LOWS what the entries carry to hi and from lo (128 each), X values of the nodes, and behind them the length,
// the parents and the ranks of the smallest values (64).
use crate::POOL;
use half_arrays::{HIGHS, LOWS, RAISED, STATE};

pub(crate) const K: usize = 0;

pub(crate) const V: usize = 3;

pub(crate) const X: usize = 17;

// In part X.
pub(crate) const LEN: usize = 16;

pub(crate) const FLOW: usize = 17;

// Bounds and differences are held higher by this.
pub(crate) const BIAS: u32 = RAISED as u32;

pub(crate) const TWICE: u32 = 2 * BIAS;

// No bound.
pub(crate) const NO_BOUND: u32 = 15777216;

// A distance, and an amount, above all others.
pub(crate) const FAR: u32 = 1000000;

// The ends of a net, hi and lo.
#[derive(Clone, Copy)]
pub(crate) enum End {
    Top,
    Bottom,
}

// One number for each node.
pub(crate) type PerNode = [u32; 16];

pub(crate) fn narrow(x: usize) -> u32 {
    (x % 65536) as u32
}

pub(crate) fn low_half(x: u64) -> u32 {
    (x % 4294967296) as u32
}

#[tactic(auto, using(crate::proofs::Products::product_fits))]
pub(crate) fn times(a: u32, b: u32) -> u64 {
    a as u64 * b as u64
}

pub(crate) fn cell(u: usize, v: usize) -> usize {
    (u % 16 * 9 + v % 16) % 128
}

// Number k of part p of state o.
pub(crate) fn get(s: &[u32; POOL], o: usize, p: usize, k: usize) -> u32 {
    s[o % 4 * STATE + p % 20 * 32 + k % 128]
}

pub(crate) fn put(s: &mut [u32; POOL], o: usize, p: usize, k: usize, v: u32) {
    s[o % 4 * STATE + p % 20 * 32 + k % 128] = v;
}

// The part of what entries carry at an end of their nets.
fn carrying(e: End) -> usize {
    match e {
        End::Top => HIGHS,
        End::Bottom => LOWS,
    }
}

// What entry i carries at end e of its net.
pub(crate) fn carried(s: &[u32; POOL], o: usize, e: End, i: usize) -> u32 {
    get(s, o, carrying(e), i)
}

pub(crate) fn put_carried(s: &mut [u32; POOL], o: usize, e: End, i: usize, v: u32) {
    put(s, o, carrying(e), i, v);
}

// The residual bound from u to v.
pub(crate) fn residual(s: &[u32; POOL], o: usize, u: usize, v: usize) -> u32 {
    s[o % 4 * STATE + u % 16 * 9 + v % 16]
}

pub(crate) fn at(d: &PerNode, k: usize) -> u32 {
    d[k % 16]
}

pub(crate) fn set(d: &mut PerNode, k: usize, v: u32) {
    d[k % 16] = v;
}

pub(crate) fn value(s: &[u32; POOL], o: usize, w: usize) -> u32 {
    get(s, o, X, w % 16)
}

pub(crate) fn set_value(s: &mut [u32; POOL], o: usize, w: usize, v: u32) {
    put(s, o, X, w % 16, v);
}

// The parent and the rank of a node's smallest value.
pub(crate) fn set_tie(s: &mut [u32; POOL], o: usize, w: usize, p: u32, r: u32) {
    put(s, o, X, 32 + w % 16, p);
    put(s, o, X, 48 + w % 16, r);
}

// How much the values lack of the bound b from u to v; 0 where they keep it.
pub(crate) fn lack_of(s: &[u32; POOL], o: usize, u: usize, v: usize, b: u32) -> u32 {
    let need = b.wrapping_add(value(s, o, u));
    let have = BIAS.wrapping_add(value(s, o, v));
    need.saturating_sub(have)
}

// State a of another pool into state o of this one. Place by place: `copy_from_slice` makes the static library call `memmove`.
pub(crate) fn copy(from: &[u32; POOL], a: usize, to: &mut [u32; POOL], o: usize) {
    let left = a % 4 * STATE;
    let right = o % 4 * STATE;
    for i in 0..STATE {
        to[right + i] = from[left + i];
    }
}
