// Lent arrays of half fits, read: every index is taken modulo its range, every number modulo its limit, so nothing is asked of a caller.
#![tactic(auto)]

ghost use Rattle.std.specs.Prelude.{◌<◌, ◌≡◌};
ghost use Rattle.half_arrays.specs.Arrays.{bound_at, entry_count, node_at, most_at, least_at, net_at, weight_at};
ghost use Rattle.half_arrays.specs.State.{amount_at, rank_at};

// The lengths of the lent arrays: the entries and nets of an axis, its arcs, and a pool of states.
pub const TAB: usize = 1024;

pub const ARCS: usize = 128;

pub const POOL: usize = 2560;

// The numbers of a state, and of a unit in which the parts of a state are counted.
pub const STATE: usize = 608;

const UNIT: usize = 32;

// The parts of what bounds carry, and of what entries carry to hi and from lo.
pub const FLOWS: usize = 6;

pub const HIGHS: usize = 9;

pub const LOWS: usize = 13;

// The nodes: the die corner and the macros.
pub const NODES: usize = 9;

// Two nodes, in order: the places of the bounds.
pub const PAIRS: usize = NODES * NODES;

// The die's side.
pub const SIDE: u64 = 8192;

// Bounds are held higher by this.
pub const RAISED: u64 = 16777216;

#[tactic(auto, unfolding(crate::specs::Arrays::bound_at))]
pub fn bound(arcs: &[u32; ARCS], c: usize) -> u64
    ensures { result ≡ bound_at arcs.now c }
{
    (arcs[c % ARCS] % 33554432) as u64
}

#[tactic(auto, unfolding(crate::specs::Arrays::entry_count))]
pub fn entries(tab: &[u32; TAB]) -> usize
    ensures { result ≡ entry_count tab.now }
{
    (tab[898] % 129) as usize
}

#[tactic(auto, unfolding(crate::specs::Arrays::node_at))]
pub fn node(tab: &[u32; TAB], e: usize) -> usize
    ensures { result ≡ node_at tab.now e }
{
    (tab[e % 128] % 9) as usize
}

#[tactic(auto, unfolding(crate::specs::Arrays::most_at))]
pub fn most(tab: &[u32; TAB], e: usize) -> u64
    ensures { result ≡ most_at tab.now e }
{
    (tab[128 + e % 128] % 65536) as u64
}

#[tactic(auto, unfolding(crate::specs::Arrays::least_at))]
pub fn least(tab: &[u32; TAB], e: usize) -> u64
    ensures { result ≡ least_at tab.now e }
{
    (tab[256 + e % 128] % 65536) as u64
}

#[tactic(auto, unfolding(crate::specs::Arrays::net_at))]
pub fn net(tab: &[u32; TAB], e: usize) -> usize
    ensures { result ≡ net_at tab.now e }
{
    (tab[384 + e % 128] % 32) as usize
}

#[tactic(auto, unfolding(crate::specs::Arrays::weight_at))]
pub fn weight(tab: &[u32; TAB], j: usize) -> u64
    ensures { result ≡ weight_at tab.now j }
{
    (tab[576 + j % 64] % 65536) as u64
}

#[tactic(auto, unfolding(crate::specs::State::amount_at))]
pub fn amount(st: &[u32; POOL], o: usize, p: usize, k: usize) -> u64
    ensures { result ≡ amount_at st.now o p k }
{
    (st[o % 4 * STATE + p % 20 * UNIT + k % 128] % 65536) as u64
}

// The parent of node k.
pub fn parent(st: &[u32; POOL], o: usize, k: usize) -> usize
    ensures { result < 9 }
{
    (st[o % 4 * STATE + 576 + k % 16] % 9) as usize
}

#[tactic(auto, unfolding(crate::specs::State::rank_at))]
pub fn rank(st: &[u32; POOL], o: usize, k: usize) -> u32
    ensures { result ≡ rank_at st.now o k }
{
    st[o % 4 * STATE + 592 + k % 16]
}

// How the residual bound between two nodes arises: it is the bound, or the bound the other way carries; or it is over two entries of one net, at the
// net's hi or at its lo.
#[derive(Clone, Copy)]
pub enum Origin {
    Bound,
    Back,
    High(usize, usize),
    Low(usize, usize),
}

// The number that an origin is written as; HIGH and LOW have the two entries added.
pub const BOUND: u32 = 0;

pub const BACK: u32 = 65536;

pub const HIGH: u32 = 131072;

pub const LOW: u32 = 196608;

impl Origin {
    // The origin that is written as `how`.
    fn of(how: u32) -> Origin {
        let i = (how / 256 % 128) as usize;
        let j = (how % 128) as usize;
        match how {
            BOUND => Origin::Bound,
            BACK => Origin::Back,
            _ if how < LOW => Origin::High(i, j),
            _ => Origin::Low(i, j),
        }
    }
}

// How the residual bound at place c arises.
pub fn way(st: &[u32; POOL], o: usize, c: usize) -> Origin {
    Origin::of(st[o % 4 * STATE + 96 + c % 128])
}
