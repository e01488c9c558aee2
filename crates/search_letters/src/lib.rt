// The four letters of a pair, tried: each is excluded by the differences, closed by its fit, or left with it.
#![tactic(auto)]

ghost use Rattle.std.specs.Prelude.{◌≡◌};
ghost use Rattle.chip_array.specs.Array.{chip_in};
ghost use Rattle.search_letters.specs.Turns.{Untried, own_arcs, other_length, ChildOn, ChildOf, TriedOne, Tried};

use axis_bounds::Slot;
use fit_pairs::Cursor;
use half_fit::service::half_fit;
use half_fit::{ARCS, HELP, POOL, TAB};
use model::Record;
use search_best::replaces_best;
use search_join::joined;
use search_left::{FOUR, Left, is_excluded, keep_opposite, put_child};
use search_node::{Node, Parts, decided, letter_slot, no_record, room, way};
use search_tables::with_bound;

// The bounds of a node in the direction of letter i.
fn own_arcs(node: Node, i: usize) -> [u32; ARCS]
    ensures { result ≡ own_arcs node i }
{
    if i < 2 { node.ax } else { node.ay }
}

// The length of the half that letter i leaves as it is.
fn other_length(node: Node, i: usize) -> u64
    ensures { result ≡ other_length node i }
{
    if i < 2 { node.ly } else { node.lx }
}

// The fit of a branch with letter i for pair s, whose slot is t, from the half fit of the letter's direction. The half fit's state goes into the pool.
fn child_on(
    cs: &[u64; chip_array::CELLS],
    p: usize,
    tab: &[u32; TAB],
    help: &[u32; HELP],
    node: Node,
    state: &[u32; POOL],
    k: usize,
    s: usize,
    i: usize,
    t: Slot,
    best: Record,
    pool: &mut [u32; POOL],
) -> Record
    ensures { ChildOn (chip_in cs.now) p tab.now node s i t best result }
{
    let other = other_length(node, i);
    let most = room(best, other);
    let arcs = with_bound(own_arcs(node, i), t);
    let f = half_fit(tab, help, &arcs, state, k, pool, i, t.tail, t.head, most);
    let next = decided(node.letters, s, i);
    joined(cs, p, next, node.here, best, way(i), f, other)
}

// Letter i of pair s, whose slot is t. Its state goes into the pool.
fn child(
    cs: &[u64; chip_array::CELLS],
    p: usize,
    tx: &[u32; TAB],
    hx: &[u32; HELP],
    ty: &[u32; TAB],
    hy: &[u32; HELP],
    node: Node,
    sx: &[u32; POOL],
    ix: usize,
    sy: &[u32; POOL],
    iy: usize,
    s: usize,
    i: usize,
    t: Slot,
    best: Record,
    pool: &mut [u32; POOL],
) -> Record
    ensures { ChildOf (chip_in cs.now) p tx.now ty.now node s i t best result }
{
    if i < 2 {
        child_on(cs, p, tx, hx, node, sx, ix, s, i, t, best, pool)
    } else {
        child_on(cs, p, ty, hy, node, sy, iy, s, i, t, best, pool)
    }
}

// A branch of which no letter of a pair is tried.
fn untried(node: Node) -> Left
    ensures { Untried node result }
{
    let kx = node.kx;
    let ky = node.ky;
    Left {
        fits: [no_record(); FOUR],
        kx,
        ky,
    }
}

// Letter i of pair s is tried, b being the best so far: excluded by the differences, closed, or left with its fit.
fn try_letter(
    cs: &[u64; chip_array::CELLS],
    parts: Parts,
    p: usize,
    tx: &[u32; TAB],
    hx: &[u32; HELP],
    ty: &[u32; TAB],
    hy: &[u32; HELP],
    node: Node,
    sx: &[u32; POOL],
    ix: usize,
    sy: &[u32; POOL],
    iy: usize,
    s: usize,
    at: Cursor,
    i: usize,
    b: Record,
    left: Left,
    out: &mut [u32; POOL],
) -> Left
    ensures { TriedOne (chip_in cs.now) parts p tx.now ty.now node s at i b left result }
{
    let t = letter_slot(parts, at, i);
    if is_excluded(left, i, t) {
        return left;
    }
    let f = child(cs, p, tx, hx, ty, hy, node, sx, ix, sy, iy, s, i, t, b, out);
    if replaces_best(b, f) {
        put_child(left, i, f)
    } else {
        keep_opposite(left, i, t)
    }
}

// The four letters of pair s are tried.
pub fn try_letters(
    cs: &[u64; chip_array::CELLS],
    parts: Parts,
    p: usize,
    tx: &[u32; TAB],
    hx: &[u32; HELP],
    ty: &[u32; TAB],
    hy: &[u32; HELP],
    node: Node,
    sx: &[u32; POOL],
    ix: usize,
    sy: &[u32; POOL],
    iy: usize,
    s: usize,
    at: Cursor,
    best: Record,
    pool: &mut [u32; POOL],
) -> Left
    ensures { Tried (chip_in cs.now) parts p tx.now ty.now node s at 4 best result }
{
    let mut left = untried(node);
    for i in 0..FOUR {
        left = try_letter(
            cs, parts, p, tx, hx, ty, hy, node, sx, ix, sy, iy, s, at, i, best, left, pool,
        );
    }
    left
}
