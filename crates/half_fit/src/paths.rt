// Cheapest paths over nine nodes by Dijkstra's method, with the slacks of the residual bounds as lengths.
use crate::POOL;
use crate::state::{BIAS, FAR, PerNode, at, narrow, residual, set, set_tie, set_value, value};
use half_arrays::NODES;

// No node. One struct of the three arrays that paths are written to was tried and is slower, 0.78 s in place of 0.74 s for 380,000 half fits,
// and with an Option for no node too, 0.85 s.
pub(crate) const NOBODY: usize = 15;

pub(crate) const NO_PARENT: u32 = 15;

const GONE: u32 = 2000000;

// The nearest of the first m nodes that is not settled and nearer than stop, or NOBODY.
fn nearest(m: usize, d: &PerNode, gone: &PerNode, stop: u32) -> usize {
    let mut b = NOBODY;
    let mut by = stop;
    for v in 0..m {
        let e = at(d, v).wrapping_add(at(gone, v));
        if e < by {
            by = e;
            b = v;
        }
    }
    b
}

// a where yes, otherwise b; both are read in either case.
fn pick(yes: bool, a: u32, b: u32) -> u32 {
    if yes { a } else { b }
}

// From node b at its distance to the others. Both numbers are written in either case: which of them change can't be foreseen.
fn spread(s: &[u32; POOL], o: usize, b: usize, d: &mut PerNode, par: &mut PerNode) {
    let off = at(d, b).wrapping_add(BIAS).wrapping_sub(value(s, o, b));
    for w in 0..NODES {
        let y = off.wrapping_add(value(s, o, w));
        let q = y.wrapping_sub(residual(s, o, b, w));
        let nearer = q < at(d, w);
        set(d, w, pick(nearer, q, at(d, w)));
        set(par, w, pick(nearer, narrow(b), at(par, w)));
    }
}

// Distances from the nodes that have one, up to the goal or to `stop`; whether the goal is reached.
pub(crate) fn reach(
    m: usize,
    s: &[u32; POOL],
    o: usize,
    goal: usize,
    stop: u32,
    d: &mut PerNode,
    par: &mut PerNode,
    rank: &mut PerNode,
) -> bool {
    let mut gone = [0; 16];
    for turn in 0..NODES {
        let b = nearest(m, d, &gone, stop);
        if b == NOBODY {
            return false;
        }
        set(&mut gone, b, GONE);
        set(rank, b, narrow(turn));
        if b == goal {
            return true;
        }
        spread(s, o, b, d, par);
    }
    false
}

// Distances from a node.
pub(crate) fn distances(
    m: usize,
    s: &[u32; POOL],
    o: usize,
    start: usize,
    goal: usize,
    stop: u32,
    d: &mut PerNode,
    par: &mut PerNode,
    rank: &mut PerNode,
) -> bool {
    *d = [FAR; 16];
    set(d, start, 0);
    reach(m, s, o, goal, stop, d, par, rank)
}

// The nodes nearer than r are raised by what is left, and all are moved so that node 0 stays.
pub(crate) fn lift(m: usize, s: &mut [u32; POOL], o: usize, d: &PerNode, r: u32) {
    let z = r.saturating_sub(at(d, 0));
    for w in 0..m {
        let x = value(s, o, w).wrapping_sub(z);
        set_value(s, o, w, x.wrapping_add(r.saturating_sub(at(d, w))));
    }
}

// The smallest of the least values, with their parents: each node goes down by its distance.
pub(crate) fn settle(m: usize, s: &mut [u32; POOL], o: usize) {
    let mut d = [0; 16];
    let mut par = [0; 16];
    let mut rank = [0; 16];
    distances(m, s, o, 0, NOBODY, FAR, &mut d, &mut par, &mut rank);
    for w in 1..m {
        let x = value(s, o, w);
        set_value(s, o, w, x.wrapping_sub(at(&d, w)));
        set_tie(s, o, w, at(&par, w), at(&rank, w));
    }
    set_tie(s, o, 0, 0, 0);
}
