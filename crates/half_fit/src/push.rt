// The push of an amount along the parents of a path.
use crate::POOL;
use crate::residual::{set_carried, set_flow};
use crate::state::{End, FAR, PerNode, at, carried, cell, get};
use crate::tables::Given;
use half_arrays::{FLOWS, NODES, Origin, way};

// How the residual bound from p to w arises.
fn origin(s: &[u32; POOL], o: usize, p: usize, w: usize) -> Origin {
    way(s, o, cell(p, w))
}

// What the step from p to w can take.
fn spare(s: &[u32; POOL], o: usize, p: usize, w: usize) -> u32 {
    match origin(s, o, p, w) {
        Origin::Bound => FAR,
        Origin::Back => get(s, o, FLOWS, cell(w, p)),
        Origin::High(_, j) => carried(s, o, End::Top, j),
        Origin::Low(i, _) => carried(s, o, End::Bottom, i),
    }
}

// What can be pushed along the parents from u back to v.
pub(crate) fn narrowest(s: &[u32; POOL], o: usize, par: &PerNode, u: usize, v: usize) -> u32 {
    let mut q = FAR;
    let mut w = u;
    for _ in 0..NODES {
        if w == v {
            return q;
        }
        let p = at(par, w) as usize;
        q = q.min(spare(s, o, p, w));
        w = p;
    }
    q
}

// Entry i carries q more at end e, and entry j q less.
fn shift(g: Given, s: &mut [u32; POOL], o: usize, e: End, i: usize, j: usize, q: u32) {
    let a = carried(s, o, e, i);
    set_carried(g, s, o, e, i, a.wrapping_add(q));
    let b = carried(s, o, e, j);
    set_carried(g, s, o, e, j, b.wrapping_sub(q));
}

// q over the step from p to w.
fn step(g: Given, s: &mut [u32; POOL], o: usize, p: usize, w: usize, q: u32) {
    match origin(s, o, p, w) {
        Origin::Bound => {
            let a = get(s, o, FLOWS, cell(p, w));
            set_flow(g, s, o, p, w, a.wrapping_add(q));
        }
        Origin::Back => {
            let a = get(s, o, FLOWS, cell(w, p));
            set_flow(g, s, o, w, p, a.wrapping_sub(q));
        }
        Origin::High(i, j) => shift(g, s, o, End::Top, i, j, q),
        Origin::Low(i, j) => shift(g, s, o, End::Bottom, j, i, q),
    }
}

// q along the parents from u back to v.
pub(crate) fn carry(
    g: Given,
    s: &mut [u32; POOL],
    o: usize,
    par: &PerNode,
    u: usize,
    v: usize,
    q: u32,
) {
    let mut w = u;
    for _ in 0..NODES {
        if w == v {
            return;
        }
        let p = at(par, w) as usize;
        step(g, s, o, p, w, q);
        w = p;
    }
}
