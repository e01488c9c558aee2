// A fit from nothing: the smallest values that keep the bounds, then net by net its weight from its lo to its hi, by cheapest augmenting paths.
use crate::paths::{NO_PARENT, NOBODY, lift, reach, settle};
use crate::proposal::Proposal;
use crate::push::{carry, narrowest};
use crate::residual::set_carried;
use crate::state::{
    End, FAR, K, LEN, PerNode, V, X, at, carried, lack_of, low_half, narrow, put, set, set_tie,
    set_value, times, value,
};
use crate::tables::{Given, arc, net_begin, net_count, net_end, node_of, nodes, weight_of};
use crate::{ARCS, POOL, TAB, tables};
use half_arrays::{BOUND, NODES, PAIRS, STATE};

// No amounts, all values 0.
fn clear(s: &mut [u32; POOL], o: usize) {
    let from = o % 4 * STATE;
    s[from..from + STATE].fill(0);
}

// The bounds as residual bounds.
fn begin_bounds(arcs: &[u32; ARCS], s: &mut [u32; POOL], o: usize) {
    for c in 0..PAIRS {
        put(s, o, K, c, arc(arcs, c));
        put(s, o, V, c, BOUND);
    }
}

// Node 0 is the parent of all others; of the nodes of no macro it stays so.
fn tie_all(s: &mut [u32; POOL], o: usize) {
    for w in 1..NODES {
        set_tie(s, o, w, 0, 1);
    }
}

// The node that the bound at place c leads to is raised by what the values lack of it; whether they lack something.
fn raise_one(arcs: &[u32; ARCS], s: &mut [u32; POOL], o: usize, c: usize) -> bool {
    let u = c / NODES;
    let v = c % NODES;
    let lack = lack_of(s, o, u, v, arc(arcs, c));
    if lack == 0 {
        return false;
    }
    let x = value(s, o, v);
    set_value(s, o, v, x.wrapping_add(lack));
    set_tie(s, o, v, narrow(u), 0);
    true
}

// All bounds once; whether a value was raised.
fn raise_all(arcs: &[u32; ARCS], s: &mut [u32; POOL], o: usize) -> bool {
    let mut raised = false;
    for c in 0..PAIRS {
        raised |= raise_one(arcs, s, o, c);
    }
    raised
}

// The smallest values that keep the bounds; whether there are such. Where there are none, parents of the nodes have a closed chain.
fn keep_bounds(arcs: &[u32; ARCS], s: &mut [u32; POOL], o: usize) -> bool {
    for _ in 0..10 {
        if !raise_all(arcs, s, o) {
            return value(s, o, 0) == 0;
        }
    }
    false
}

// Where entry i is at an end of its net.
fn place(tab: &[u32; TAB], s: &[u32; POOL], o: usize, e: End, i: usize) -> u32 {
    value(s, o, node_of(tab, i)).wrapping_add(tables::place(tab, e, i))
}

// The greatest place on net j.
fn high(tab: &[u32; TAB], s: &[u32; POOL], o: usize, j: usize) -> u32 {
    let entries = net_begin(tab, j)..net_end(tab, j);
    entries.fold(0, |high: u32, e| high.max(place(tab, s, o, End::Top, e)))
}

// The least place on net j.
fn low(tab: &[u32; TAB], s: &[u32; POOL], o: usize, j: usize) -> u32 {
    let entries = net_begin(tab, j)..net_end(tab, j);
    entries.fold(FAR, |low, e| low.min(place(tab, s, o, End::Bottom, e)))
}

// The paths from the lo of net j: of each node how far its least place is above lo, and the entry over which it is reached; no parents.
fn begin(
    tab: &[u32; TAB],
    s: &[u32; POOL],
    o: usize,
    j: usize,
    d: &mut PerNode,
    par: &mut PerNode,
    from: &mut PerNode,
) {
    *d = [FAR; 16];
    *par = [NO_PARENT; 16];
    let lo = low(tab, s, o, j);
    for e in net_begin(tab, j)..net_end(tab, j) {
        let w = node_of(tab, e);
        let y = place(tab, s, o, End::Bottom, e).wrapping_sub(lo);
        if y < at(d, w) {
            set(d, w, y);
            set(from, w, narrow(e));
        }
    }
}

// How far hi is over entry e.
fn over(tab: &[u32; TAB], s: &[u32; POOL], o: usize, e: usize, hi: u32, d: &PerNode) -> u32 {
    at(d, node_of(tab, e)).wrapping_add(hi.wrapping_sub(place(tab, s, o, End::Top, e)))
}

// The entry over which hi is nearest.
fn last(tab: &[u32; TAB], s: &[u32; POOL], o: usize, j: usize, hi: u32, d: &PerNode) -> usize {
    let mut last = net_begin(tab, j);
    let mut by = FAR;
    for e in net_begin(tab, j)..net_end(tab, j) {
        let y = over(tab, s, o, e, hi, d);
        if y < by {
            by = y;
            last = e;
        }
    }
    last
}

// The first node of the path to node u.
fn first(par: &PerNode, u: usize) -> usize {
    let mut w = u;
    for _ in 0..NODES {
        let p = at(par, w);
        if p == NO_PARENT {
            return w;
        }
        w = p as usize;
    }
    w
}

// At most `left` from lo along the path to entry e and over it to hi; how much.
fn push_way(
    g: Given,
    s: &mut [u32; POOL],
    o: usize,
    par: &PerNode,
    from: &PerNode,
    e: usize,
    left: u32,
) -> u32 {
    let u = node_of(g.tab, e);
    let v = first(par, u);
    let q = left.min(narrowest(s, o, par, u, v));
    carry(g, s, o, par, u, v, q);
    let b = at(from, v) as usize;
    let low = carried(s, o, End::Bottom, b);
    set_carried(g, s, o, End::Bottom, b, low.wrapping_add(q));
    let high = carried(s, o, End::Top, e);
    set_carried(g, s, o, End::Top, e, high.wrapping_add(q));
    q
}

// One push of net j: a cheapest path from its lo to its hi, a rise, at most `left` along the path; how much.
fn one_push(g: Given, s: &mut [u32; POOL], o: usize, j: usize, left: u32) -> u32 {
    let mut d = [0; 16];
    let mut par = [0; 16];
    let mut rank = [0; 16];
    let mut from = [0; 16];
    let m = nodes(g.tab);
    let hi = high(g.tab, s, o, j);
    begin(g.tab, s, o, j, &mut d, &mut par, &mut from);
    reach(m, s, o, NOBODY, FAR, &mut d, &mut par, &mut rank);
    let e = last(g.tab, s, o, j, hi, &d);
    let by = over(g.tab, s, o, e, hi, &d);
    lift(m, s, o, &d, by);
    push_way(g, s, o, &par, &from, e, left)
}

// The weight of net j from its lo to its hi.
fn push_net(g: Given, s: &mut [u32; POOL], o: usize, j: usize) {
    let mut left = weight_of(g.tab, j);
    for _ in 0..4000 {
        if left == 0 {
            return;
        }
        left = left.wrapping_sub(one_push(g, s, o, j, left));
    }
}

fn push_nets(g: Given, s: &mut [u32; POOL], o: usize) {
    for j in 0..net_count(g.tab) {
        push_net(g, s, o, j);
    }
}

fn length(tab: &[u32; TAB], s: &[u32; POOL], o: usize) -> u32 {
    let mut sum: u32 = 0;
    for j in 0..net_count(tab) {
        let span = high(tab, s, o, j).wrapping_sub(low(tab, s, o, j));
        sum = sum.wrapping_add(low_half(times(weight_of(tab, j), span)));
    }
    sum
}

// State o anew: the fit, or nothing keeps the bounds.
pub(crate) fn cold(g: Given, s: &mut [u32; POOL], o: usize) -> Proposal {
    clear(s, o);
    begin_bounds(g.arcs, s, o);
    tie_all(s, o);
    if !keep_bounds(g.arcs, s, o) {
        return Proposal::Nothing;
    }
    push_nets(g, s, o);
    put(s, o, X, LEN, length(g.tab, s, o));
    settle(nodes(g.tab), s, o);
    Proposal::Fit
}
