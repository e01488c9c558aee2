// Proposed answers: values of the nodes, amounts on the slots, and a tree of parents; or a closed chain.
//
// The fast fit of one direction (crate half_fit) makes them, on bounds between nine nodes and on entries in place of pins (`tables`).
// Here its state is written out slot by slot: what a bound carries goes to the slot that has it, what an entry carries to a pin at its
// greatest or least place. Nothing is promised of a proposal but that it is made.
use crate::tables::{
    BIAS, CORNERS, FAR, LOW, PICKS, cell, part, put_die, put_letters, put_tables, wide,
};
use axis_bounds::Axis;
use axis_graph::{NODE_ROOM, NODES, PARENTS, SLOT_ROOM};
use half_fit::service::{HalfOutcome, first_half};
use half_fit::{ARCS, HELP, POOL, TAB};
use std::num::wrapping_add_u32;

// The parts of a state that are read: how residual bounds arise, what bounds carry, what entries carry to hi and from lo, and the
// values, with the parents and the ranks behind them.
const V: usize = 3;

const F: usize = 6;

const H: usize = 9;

const L: usize = 13;

const X: usize = 17;

// How a residual bound arises: the bound, the bound of the other way, two entries with hi, or with lo.
const FWD: u32 = 0;

const REV: u32 = 65536;

const LO: u32 = 196608;

// More than any length.
const ROOM: u64 = 4000000000;

// The value of node 0.
const START: u64 = 250000;

// Values x, amounts f, and `parents`: for each node its parent slot, then its rank.
#[derive(Clone, Copy)]
pub(crate) struct Proposal {
    pub x: [u64; NODE_ROOM],
    pub f: [u64; SLOT_ROOM],
    pub parents: [usize; PARENTS],
}

impl Proposal {
    fn put_amount(&mut self, s: usize, a: u32) {
        self.f[s % SLOT_ROOM] = a as u64;
    }

    fn put_value(&mut self, k: usize, y: u32, down: u64) {
        self.x[k % NODE_ROOM] = START + y as u64 - down % 65536;
    }

    fn put_tie(&mut self, k: usize, s: usize, r: usize) {
        self.parents[k % NODES] = s;
        self.parents[NODES + k % NODES] = r;
    }
}

// The end of a net: hi lies at the greatest place of its entries, lo at the least.
#[derive(Clone, Copy)]
enum Side {
    Hi,
    Lo,
}

impl Side {
    // The part of the table that has the entries' places.
    fn places(self) -> usize {
        match self {
            Side::Hi => 1,
            Side::Lo => 2,
        }
    }

    // Below all places of hi, above all of lo.
    fn before_all(self) -> u32 {
        match self {
            Side::Hi => 0,
            Side::Lo => FAR,
        }
    }

    // Whether b is above a, for hi; below it, for lo.
    fn is_past(self, a: u32, b: u32) -> bool {
        match self {
            Side::Hi => a < b,
            Side::Lo => b < a,
        }
    }
}

// An end of a net: its place, and the entry that it hangs on, with the rank of that entry's node.
#[derive(Clone, Copy)]
struct End {
    y: u32,
    at: usize,
    rank: usize,
}

// A state, and what it was found on: the tables, the slots that have the bounds, and where the pins' slots begin.
#[derive(Clone, Copy)]
struct Found<'a> {
    tab: &'a [u32; TAB],
    picks: &'a [u32; PICKS],
    by: &'a [usize; ARCS],
    st: &'a [u32; POOL],
    lane: usize,
}

impl<'a> Found<'a> {
    // Number k of the part of the state that begins 32 p numbers in.
    fn get(self, p: usize, k: usize) -> u32 {
        self.st[p % 20 * 32 + k % 128]
    }

    fn parent_of(self, v: usize) -> usize {
        wide(self.get(X, 32 + v % 16))
    }

    fn rank_of(self, v: usize) -> usize {
        wide(self.get(X, 48 + v % 16))
    }

    // The node of entry e.
    fn node_of(self, e: usize) -> usize {
        wide(part(self.tab, 0, e))
    }

    // Place p of entry e.
    fn place(self, p: usize, e: usize) -> u32 {
        wrapping_add_u32(self.get(X, self.node_of(e) % 16), part(self.tab, p, e))
    }

    // The slot that has the bound from u to v.
    fn slot_of(self, u: usize, v: usize) -> usize {
        self.by[cell(u, v) % ARCS]
    }

    // The slot to hi of entry e.
    fn hi_slot(self, e: usize) -> usize {
        self.lane % 1024 + 2 * (wide(self.picks[e % 128]) % 128)
    }

    // The slot from lo of entry e.
    fn lo_slot(self, e: usize) -> usize {
        self.lane % 1024 + 2 * (wide(self.picks[128 + e % 128]) % 128) + 1
    }

    // The slot by which macro v hangs on its parent, or on the hi or lo between them.
    fn tie_slot(self, v: usize) -> usize {
        let p = self.parent_of(v);
        match self.get(V, cell(p, v)) {
            FWD => self.slot_of(p, v),
            REV => self.slot_of(v, p),
            how if how < LO => self.hi_slot(wide(how)),
            how => self.lo_slot(wide(how)),
        }
    }

    // Whether an end may hang on entry e: hi on every entry at its place, lo on one that carries.
    fn may_hang(self, side: Side, e: usize) -> bool {
        match side {
            Side::Hi => true,
            Side::Lo => 0 < self.get(L, e),
        }
    }

    // The hi of net j at the greatest place, or its lo at the least, on the entry there whose node has the lowest rank.
    fn net_end(self, side: Side, j: usize) -> End {
        let first = wide(part(self.tab, 4, j));
        let mut end = End {
            y: side.before_all(),
            at: first,
            rank: NODES,
        };
        for e in first..wide(part(self.tab, 4, j % 64 + 1)) {
            let y = self.place(side.places(), e);
            let rank = self.rank_of(self.node_of(e));
            if side.is_past(end.y, y) {
                end.y = y;
                end.rank = NODES;
            }
            if end.y == y && self.may_hang(side, e) && rank < end.rank {
                end.rank = rank;
                end.at = e;
            }
        }
        end
    }

    // The node that is nine parents before a.
    fn far_back(self, a: usize) -> usize {
        let mut w = a;
        for _ in 0..CORNERS {
            w = self.parent_of(w);
        }
        w
    }

    // Whether the parents from node a back to it close a chain above 0.
    fn closes(self, arcs: &[u32; ARCS], a: usize) -> bool {
        let mut sum: u32 = 0;
        let mut zero: u32 = 0;
        let mut w = a;
        for _ in 0..CORNERS {
            let p = self.parent_of(w);
            sum = wrapping_add_u32(sum, arcs[cell(p, w) % ARCS]);
            zero = wrapping_add_u32(zero, BIAS);
            if p == a {
                return zero < sum;
            }
            w = p;
        }
        false
    }

    // A node on a closed chain of parents above 0, or 0 where there is none.
    fn on_chain(self, arcs: &[u32; ARCS]) -> usize {
        (0..CORNERS)
            .map(|a| self.far_back(a))
            .find(|b| self.closes(arcs, *b))
            .unwrap_or(0)
    }

    // The slots of the chain of parents from a back to it carry 1.
    fn chain(self, a: usize) -> [u64; SLOT_ROOM] {
        let mut f = [0u64; SLOT_ROOM];
        let mut w = a;
        for _ in 0..CORNERS {
            let p = self.parent_of(w);
            f[self.slot_of(p, w) % SLOT_ROOM] = 1;
            if p == a {
                return f;
            }
            w = p;
        }
        f
    }

    // ---- amounts

    fn put_flows(self, r: &mut Proposal) {
        for c in 0..CORNERS * CORNERS {
            let a = self.get(F, c);
            if 0 < a {
                r.put_amount(self.by[c], a);
            }
        }
    }

    fn put_entries(self, r: &mut Proposal) {
        for e in 0..wide(part(self.tab, 7, 2)) {
            r.put_amount(self.hi_slot(e), self.get(H, e));
            r.put_amount(self.lo_slot(e), self.get(L, e));
        }
    }

    // ---- values, parents and ranks

    // The die corner and n macros.
    fn put_macros(self, n: usize, r: &mut Proposal) {
        r.put_value(0, 0, 0);
        for i in 0..n {
            let v = i + 1;
            r.put_value(v, self.get(X, v % 16), 0);
            r.put_tie(v, self.tie_slot(v), self.rank_of(v) % 16 * 2);
        }
    }

    // The ends of t nets behind n macros.
    fn put_spans(self, base: u64, n: usize, t: usize, r: &mut Proposal) {
        for j in 0..t.min(Axis::NETS) {
            let hi = n % 16 + 1 + 2 * j;
            let top = self.net_end(Side::Hi, j);
            r.put_value(hi, top.y, base);
            r.put_tie(hi, self.hi_slot(top.at), top.rank % 16 * 2 + 1);
            let low = self.net_end(Side::Lo, j);
            r.put_value(hi + 1, low.y, base);
            r.put_tie(hi + 1, self.lo_slot(low.at), low.rank % 16 * 2 + 1);
        }
    }
}

// ---- the proposal

// Whether the fast fit of the tables and the bounds finds a fit; its state.
fn fit(tab: &[u32; TAB], arcs: &[u32; ARCS], st: &mut [u32; POOL]) -> bool {
    let mut help = [0u32; HELP];
    let r = first_half(tab, &mut help, arcs, st, 0, ROOM);
    matches!(r.outcome, HalfOutcome::Fit(_))
}

// An answer for the whole graph, or amounts that are a chain on the slots of macros and pairs.
pub(crate) fn propose(a: Axis) -> Result<Proposal, [u64; SLOT_ROOM]> {
    let mut arcs = [LOW; ARCS];
    let mut by = [0usize; ARCS];
    let mut tab = [0u32; TAB];
    let mut picks = [0u32; PICKS];
    let mut st = [0u32; POOL];
    let from = 2 * (a.n % 16);
    put_die(&mut arcs, &mut by, a.side, a.sizes, a.n);
    put_letters(&mut arcs, &mut by, a.pairs, a.p, from);
    put_tables(&mut tab, &mut picks, a.nets, a.pins, a.t, a.n);
    let fits = fit(&tab, &arcs, &mut st);
    let found = Found {
        tab: &tab,
        picks: &picks,
        by: &by,
        st: &st,
        lane: from + a.p % 1024,
    };
    if !fits {
        return Err(found.chain(found.on_chain(&arcs)));
    }
    let mut r = Proposal {
        x: [0u64; NODE_ROOM],
        f: [0u64; SLOT_ROOM],
        parents: [0usize; PARENTS],
    };
    found.put_flows(&mut r);
    found.put_entries(&mut r);
    found.put_macros(a.n, &mut r);
    found.put_spans(a.base, a.n, a.t, &mut r);
    Ok(r)
}
