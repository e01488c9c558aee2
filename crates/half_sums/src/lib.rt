// What amounts give, in one pass over the entries and one over the bounds.
#![tactic(auto)]

ghost use Rattle.half_arrays.specs.Arrays.{entry_count};
ghost use Rattle.half_sums.specs.Sums.{EntrySums, FlowSums};

use axis_bounds::Axis;
use half_arrays::{
    ARCS, FLOWS, HIGHS, LOWS, NODES, PAIRS, POOL, TAB, amount, bound, entries, least, most, net,
    node,
};

// What the entries carry to hi and from lo at each node (high, low) and of each net (hi, lo), and that times their greatest and least places.
#[derive(Clone, Copy)]
pub struct OfEntries {
    pub high: [u64; NODES],
    pub low: [u64; NODES],
    pub hi: [u64; Axis::NETS],
    pub lo: [u64; Axis::NETS],
    pub up: u64,
    pub down: u64,
}

// Into each node and out of it what the bounds carry; all of it, and that times the bounds.
#[derive(Clone, Copy)]
pub struct OfBounds {
    pub into: [u64; NODES],
    pub out: [u64; NODES],
    pub all: u64,
    pub by: u64,
}

#[tactic(auto, unfolding(half_arrays::specs::Arrays::node_at, half_arrays::specs::Arrays::net_at))]
pub fn of_entries(tab: &[u32; TAB], st: &[u32; POOL], o: usize) -> OfEntries
    ensures { EntrySums tab.now st.now o (entry_count tab.now) result.high result.low result.hi result.lo result.up result.down }
{
    let mut high = [0u64; NODES];
    let mut low = [0u64; NODES];
    let mut hi = [0u64; Axis::NETS];
    let mut lo = [0u64; Axis::NETS];
    let mut up: u64 = 0;
    let mut down: u64 = 0;
    for e in 0..entries(tab) {
        let k = node(tab, e);
        let j = net(tab, e);
        let p = most(tab, e);
        let q = least(tab, e);
        let a = amount(st, o, HIGHS, e);
        let b = amount(st, o, LOWS, e);
        high[k] += a;
        low[k] += b;
        hi[j] += a;
        lo[j] += b;
        up += p * a;
        down += q * b;
    }
    OfEntries {
        high,
        low,
        hi,
        lo,
        up,
        down,
    }
}

pub fn of_bounds(arcs: &[u32; ARCS], st: &[u32; POOL], o: usize) -> OfBounds
    ensures { FlowSums arcs.now st.now o 81 result.into result.out result.all result.by }
{
    let mut into = [0u64; NODES];
    let mut out = [0u64; NODES];
    let mut all: u64 = 0;
    let mut by: u64 = 0;
    for c in 0..PAIRS {
        let a = amount(st, o, FLOWS, c);
        let b = bound(arcs, c);
        if 0 < a {
            into[c % NODES] += a;
            out[c / NODES] += a;
            all += a;
            by += b * a;
        }
    }
    OfBounds { into, out, all, by }
}
