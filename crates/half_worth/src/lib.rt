// The tests that amounts balance at every node and give each net its weight, what they are worth, and that a half fit is above a room: by amounts alone,
// no values are read.
#![tactic(auto)]

ghost use Rattle.half_arrays.specs.State.{flow_at, hi_at, lo_at};
ghost use Rattle.half_worth.specs.Amounts.{Passes};
ghost use Rattle.half_worth.specs.Tests.{Level, Given, WorthSums};
ghost use Rattle.half_arrays.specs.Says.{Says};
ghost use Rattle.axis_bounds.specs.Half.{AboveOn};
ghost use Rattle.half_arrays.specs.Arrays.{axis_on};
ghost use Rattle.half_sums.specs.Sums.{SumsWithin};

use axis_bounds::Axis;
use half_arrays::{ARCS, NODES, POOL, RAISED, TAB, weight};
use half_sums::{OfBounds, OfEntries, of_bounds, of_entries};

// Amounts that pass both tests, or may not; their worth is `more` less `less`.
#[derive(Clone, Copy)]
pub struct Worth {
    pub passes: bool,
    pub more: u64,
    pub less: u64,
}

fn balances(e: &OfEntries, b: &OfBounds) -> bool
    requires { SumsWithin b.now.into × SumsWithin b.now.out × SumsWithin e.now.low × SumsWithin e.now.high }
    ensures { Says result (Level b.now.into e.now.low b.now.out e.now.high 9) }
{
    for k in 0..NODES {
        if b.into[k] + e.low[k] != b.out[k] + e.high[k] {
            return false;
        }
    }
    true
}

fn gives_weights(tab: &[u32; TAB], e: &OfEntries) -> bool
    ensures { Says result (Given tab.now e.now.hi e.now.lo 32) }
{
    for j in 0..Axis::NETS {
        let w = weight(tab, j);
        if e.hi[j] != w || e.lo[j] != w {
            return false;
        }
    }
    true
}

// The worth of the amounts of state o, and whether they balance and give each net its weight at hi and at lo.
pub fn worth_of(tab: &[u32; TAB], arcs: &[u32; ARCS], st: &[u32; POOL], o: usize) -> Worth
    ensures worth_sums { WorthSums tab.now arcs.now st.now o result.more result.less }
    ensures says { Says result.passes (Passes tab.now (flow_at st.now o) (hi_at st.now o) (lo_at st.now o)) }
{
    let e = of_entries(tab, st, o);
    let b = of_bounds(arcs, st, o);
    let passes = balances(&e, &b) && gives_weights(tab, &e);
    Worth {
        passes,
        more: e.up + b.by,
        less: e.down + RAISED * b.all,
    }
}

// Whether the amounts of state o show that the half fit is above the room or does not exist.
#[tactic(auto, using(crate::proofs::Above::shows_above))]
pub fn shows_beyond(
    tab: &[u32; TAB],
    arcs: &[u32; ARCS],
    st: &[u32; POOL],
    o: usize,
    room: u64,
) -> bool
    ensures { Says result (AboveOn (axis_on tab.now arcs.now) room) }
{
    let w = worth_of(tab, arcs, st, o);
    w.passes && room < w.more.saturating_sub(w.less)
}
