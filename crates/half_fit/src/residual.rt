// Residual bounds between nodes, changed only where an amount becomes 0 or stops being 0.
use crate::lists::{difference, key, list_from, list_to};
use crate::state::{End, K, TWICE, V, carried, cell, get, narrow, put, put_carried};
use crate::tables::{Given, above, arc, net_begin, net_end, net_of, node_of};
use crate::{HELP, POOL, TAB};
use half_arrays::{BACK, BOUND, FLOWS, HIGH, LOW};

// A residual bound d, if it is above the one that stands.
pub(crate) fn offer(s: &mut [u32; POOL], o: usize, c: usize, d: u32, how: u32) {
    if get(s, o, K, c) < d {
        put(s, o, K, c, d);
        put(s, o, V, c, how);
    }
}

// How a residual bound over two entries arises at end e of their net.
fn way_of(e: End, key: u32) -> u32 {
    match e {
        End::Top => HIGH.wrapping_add(key),
        End::Bottom => LOW.wrapping_add(key),
    }
}

// The same for entries i and j.
fn by_entries(e: End, i: usize, j: usize) -> u32 {
    way_of(e, narrow(i % 128 * 256 + j % 128))
}

// Of two entries the one that carries where a residual bound arises over them: the second at hi, the first at lo.
fn carrier(e: End, key: u32) -> usize {
    match e {
        End::Top => key as usize % 128,
        End::Bottom => key as usize / 256 % 128,
    }
}

// The first of a list that carries at end e, of those above best.
fn first_above(
    help: &[u32; HELP],
    s: &[u32; POOL],
    o: usize,
    e: End,
    from: usize,
    to: usize,
    best: u32,
) -> Option<usize> {
    for i in from..to {
        if difference(help, e, i) <= best {
            return None;
        }
        if 0 < carried(s, o, e, carrier(e, key(help, e, i))) {
            return Some(i);
        }
    }
    None
}

// The best of two entries at end e into cell c.
fn refresh_end(help: &[u32; HELP], s: &mut [u32; POOL], o: usize, e: End, c: usize) {
    let best = get(s, o, K, c);
    if let Some(i) = first_above(help, s, o, e, list_from(help, c), list_to(help, c), best) {
        offer(s, o, c, difference(help, e, i), way_of(e, key(help, e, i)));
    }
}

// The residual bound between two nodes anew.
pub(crate) fn refresh(g: Given, s: &mut [u32; POOL], o: usize, u: usize, v: usize) {
    let c = cell(u, v);
    let r = cell(v, u);
    put(s, o, K, c, arc(g.arcs, c));
    put(s, o, V, c, BOUND);
    if 0 < get(s, o, FLOWS, r) {
        offer(s, o, c, TWICE.wrapping_sub(arc(g.arcs, r)), BACK);
    }
    refresh_end(g.help, s, o, End::Top, c);
    refresh_end(g.help, s, o, End::Bottom, c);
}

// The residual bound between two nodes anew, if it arose as said.
fn refresh_if(g: Given, s: &mut [u32; POOL], o: usize, u: usize, v: usize, how: u32) {
    if get(s, o, V, cell(u, v)) == how {
        refresh(g, s, o, u, v);
    }
}

// A residual bound over entries i and j at end e of their net.
fn offer_two(tab: &[u32; TAB], s: &mut [u32; POOL], o: usize, e: End, i: usize, j: usize) {
    let c = cell(node_of(tab, i), node_of(tab, j));
    offer(s, o, c, above(tab, e, i, j), by_entries(e, i, j));
}

// The residual bound over entries i and j anew, if it arose over them at end e.
fn refresh_two(g: Given, s: &mut [u32; POOL], o: usize, e: End, i: usize, j: usize) {
    let u = node_of(g.tab, i);
    let v = node_of(g.tab, j);
    refresh_if(g, s, o, u, v, by_entries(e, i, j));
}

// Entry i begins to carry at end e.
fn begins(tab: &[u32; TAB], s: &mut [u32; POOL], o: usize, e: End, i: usize) {
    let n = net_of(tab, i);
    for j in net_begin(tab, n)..net_end(tab, n) {
        if j != i {
            match e {
                End::Top => offer_two(tab, s, o, e, j, i),
                End::Bottom => offer_two(tab, s, o, e, i, j),
            }
        }
    }
}

// Entry i carries no more at end e.
fn ends(g: Given, s: &mut [u32; POOL], o: usize, e: End, i: usize) {
    let n = net_of(g.tab, i);
    for j in net_begin(g.tab, n)..net_end(g.tab, n) {
        if j != i {
            match e {
                End::Top => refresh_two(g, s, o, e, j, i),
                End::Bottom => refresh_two(g, s, o, e, i, j),
            }
        }
    }
}

// Entry i carries new at end e.
pub(crate) fn set_carried(g: Given, s: &mut [u32; POOL], o: usize, e: End, i: usize, new: u32) {
    let old = carried(s, o, e, i);
    put_carried(s, o, e, i, new);
    if new == 0 {
        ends(g, s, o, e, i);
    } else if old == 0 {
        begins(g.tab, s, o, e, i);
    }
}

// The bound from u to v carries new.
pub(crate) fn set_flow(g: Given, s: &mut [u32; POOL], o: usize, u: usize, v: usize, new: u32) {
    let c = cell(u, v);
    let old = get(s, o, FLOWS, c);
    put(s, o, FLOWS, c, new);
    if new == 0 {
        refresh_if(g, s, o, v, u, BACK);
    } else if old == 0 {
        offer(s, o, cell(v, u), TWICE.wrapping_sub(arc(g.arcs, c)), BACK);
    }
}
