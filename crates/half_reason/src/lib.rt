// The test that each macro has its value from a node of lower rank, its parent, in the way that the state says.
#![tactic(auto)]

ghost use Rattle.std.specs.Prelude.{◌<◌, ◌≤◌};
ghost use Rattle.half_arrays.specs.Says.{Says};
ghost use Rattle.half_arrays.specs.State.{flow_at, hi_at, lo_at, rank_at, coordinates};
ghost use Rattle.half_values.specs.Values.{Values, macros};
ghost use Rattle.half_reason.specs.Reasons.{Beside, Even, Follows, Reason, Reasons};

use half_arrays::{
    ARCS, FLOWS, HIGHS, LOWS, NODES, Origin, POOL, RAISED, TAB, amount, bound, entries, least,
    most, net, node, parent, rank, way,
};
use half_values::values::state_values;

// Whether b past node p is where c past node k is.
fn even(x: &[u64; NODES], p: usize, k: usize, b: u64, c: u64) -> bool
    requires { Values x.now × (p < 9) × (k < 9) × (b ≤ 33554431) × (c ≤ 33554431) }
    ensures { Says result (Even (macros x.now) p k b c) }
{
    x[p] + b == x[k] + c
}

// Whether entries i on node p and j on node k are on one net.
fn beside(tab: &[u32; TAB], p: usize, k: usize, i: usize, j: usize) -> bool
    ensures { Says result (Beside tab.now p k i j) }
{
    let m = entries(tab);
    i < m && j < m && net(tab, i) == net(tab, j) && node(tab, i) == p && node(tab, j) == k
}

// Whether node k has its value from node p.
#[tactic(auto, unfolding(half_arrays::specs::Arrays::bound_at, half_arrays::specs::Arrays::most_at, half_arrays::specs::Arrays::least_at))]
fn follows(
    tab: &[u32; TAB],
    arcs: &[u32; ARCS],
    st: &[u32; POOL],
    o: usize,
    x: &[u64; NODES],
    p: usize,
    k: usize,
) -> bool
    requires { Values x.now × (p < 9) × (k < 9) }
    ensures { Says result (Follows tab.now arcs.now (flow_at st.now o) (hi_at st.now o) (lo_at st.now o) (macros x.now) p k) }
{
    match way(st, o, p * NODES + k) {
        Origin::Bound => even(x, p, k, bound(arcs, p * NODES + k), RAISED),
        Origin::Back => 0 < amount(st, o, FLOWS, k * NODES + p),
        Origin::High(i, j) => {
            0 < amount(st, o, HIGHS, j)
                && beside(tab, p, k, i, j)
                && even(x, p, k, most(tab, i), most(tab, j))
        }
        Origin::Low(i, j) => {
            0 < amount(st, o, LOWS, i)
                && beside(tab, p, k, i, j)
                && even(x, p, k, least(tab, i), least(tab, j))
        }
    }
}

// Whether node k has its value from its parent, and that a lower rank.
fn has_reason(
    tab: &[u32; TAB],
    arcs: &[u32; ARCS],
    st: &[u32; POOL],
    o: usize,
    x: &[u64; NODES],
    k: usize,
) -> bool
    requires { Values x.now × (k < 9) }
    ensures { Says result (Reason tab.now arcs.now (flow_at st.now o) (hi_at st.now o) (lo_at st.now o) (macros x.now) (rank_at st.now o) k) }
{
    let p = parent(st, o, k);
    rank(st, o, p) < rank(st, o, k) && follows(tab, arcs, st, o, x, p, k)
}

// Whether each macro has a reason in state o.
pub fn reasons(tab: &[u32; TAB], arcs: &[u32; ARCS], st: &[u32; POOL], o: usize) -> bool
    ensures { Says result (Reasons tab.now arcs.now (flow_at st.now o) (hi_at st.now o) (lo_at st.now o) (coordinates st.now o) (rank_at st.now o) 9) }
{
    let x = state_values(st, o);
    for k in 1..NODES {
        if !has_reason(tab, arcs, st, o, &x, k) {
            return false;
        }
    }
    true
}
