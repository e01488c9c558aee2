// One bound more.
use crate::POOL;
use crate::paths::{distances, lift, settle};
use crate::proposal::Proposal;
use crate::push::{carry, narrowest};
use crate::residual::{offer, refresh};
use crate::state::{
    FAR, FLOW, K, LEN, NO_BOUND, PerNode, V, X, at, cell, get, lack_of, low_half, narrow, put,
    set_tie, times,
};
use crate::tables::{Given, arc, nodes};
use half_arrays::{BACK, BOUND, FLOWS, NODES};

// The length after a rise by d.
fn longer(len: u64, flow: u32, d: u32) -> u64 {
    len.wrapping_add(times(flow, d))
}

// The bound from u to v is taken out of the residual bounds; what it carries.
fn take_out(g: Given, s: &mut [u32; POOL], o: usize, u: usize, v: usize) -> u32 {
    let c = cell(u, v);
    let flow = get(s, o, FLOWS, c);
    put(s, o, FLOWS, c, 0);
    put(s, o, K, c, NO_BOUND);
    if 0 < flow && get(s, o, V, cell(v, u)) == BACK {
        refresh(g, s, o, v, u);
    }
    flow
}

// The parents of the path from v to u into the state, and u as v's: a closed chain.
fn keep_way(s: &mut [u32; POOL], o: usize, par: &PerNode, u: usize, v: usize) {
    set_tie(s, o, v, narrow(u), 0);
    let mut w = u;
    for _ in 0..NODES {
        if w == v {
            return;
        }
        set_tie(s, o, w, at(par, w), 0);
        w = at(par, w) as usize;
    }
}

// One turn: a cheapest path from v to u, a rise, a push. None: a turn more.
fn one_turn(
    g: Given,
    s: &mut [u32; POOL],
    o: usize,
    u: usize,
    v: usize,
    lack: u32,
    room: u64,
    d: &mut PerNode,
    par: &mut PerNode,
    rank: &mut PerNode,
) -> Option<Proposal> {
    let m = nodes(g.tab);
    let flow = get(s, o, X, FLOW);
    let len = get(s, o, X, LEN) as u64;
    if room < longer(len, flow, lack) {
        return Some(Proposal::Longer);
    }
    let joined = distances(m, s, o, v, u, lack, d, par, rank);
    // How far the values can rise: up to the goal where it is reached.
    let by = if joined { at(d, u) } else { lack };
    put(s, o, X, LEN, low_half(longer(len, flow, by)));
    lift(m, s, o, d, by);
    if !joined {
        return Some(Proposal::Fit);
    }
    let q = narrowest(s, o, par, u, v);
    if FAR <= q {
        keep_way(s, o, par, u, v);
        return Some(Proposal::Nothing);
    }
    carry(g, s, o, par, u, v, q);
    put(s, o, X, FLOW, flow.wrapping_add(q));
    None
}

// Turns while the values lack something of the bound b from u to v.
fn augment(
    g: Given,
    s: &mut [u32; POOL],
    o: usize,
    u: usize,
    v: usize,
    b: u32,
    room: u64,
) -> Proposal {
    let mut d = [0; 16];
    let mut par = [0; 16];
    let mut rank = [0; 16];
    for _ in 0..4000 {
        let lack = lack_of(s, o, u, v, b);
        let answer = one_turn(g, s, o, u, v, lack, room, &mut d, &mut par, &mut rank);
        if let Some(answer) = answer {
            return answer;
        }
    }
    Proposal::Fit
}

// State o with the bound from u to v that arcs has, where it was made with a lower one. It is longer than the room only as the amounts show.
pub(crate) fn insert(
    g: Given,
    s: &mut [u32; POOL],
    o: usize,
    u: usize,
    v: usize,
    room: u64,
) -> Proposal {
    let c = cell(u, v);
    let b = arc(g.arcs, c);
    if lack_of(s, o, u, v, b) == 0 {
        offer(s, o, c, b, BOUND);
        return Proposal::Fit;
    }
    let had = take_out(g, s, o, u, v);
    put(s, o, X, FLOW, had);
    let answer = augment(g, s, o, u, v, b, room);
    let flow = get(s, o, X, FLOW);
    put(s, o, FLOWS, c, flow);
    if let Proposal::Fit = answer {
        refresh(g, s, o, u, v);
        refresh(g, s, o, v, u);
        settle(nodes(g.tab), s, o);
    }
    answer
}
