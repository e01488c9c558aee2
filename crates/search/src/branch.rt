// The search: each call decides one further pair.
ghost use Rattle.chip_array.specs.Array.{chip_in};
ghost use Rattle.search_node.specs.Node.{Given};
ghost use Rattle.search_close.specs.Step.{Searched};
ghost use Rattle.search.specs.Search.{NextX, NextY, NextOf};

use axis_bounds::Slot;
use half_fit::{HELP, POOL, TAB};
use model::Record;
use search_close::next_step;
use search_left::{Left, child_at, next_child, visited};
use search_letters::try_letters;
use search_node::{Node, Parts, decided, length_of, letter_slot};
use search_tables::with_bound;
use std::ops::ControlFlow;

// Child i as a node, of a letter in x: its fit is f, its slot t.
fn next_x(node: Node, left: Left, f: Record, s: usize, i: usize, t: Slot) -> Node
    ensures { NextX node left f s i t result }
{
    let ay = node.ay;
    let ky = left.ky;
    Node {
        letters: decided(node.letters, s, i),
        ax: with_bound(node.ax, t),
        ay,
        kx: search_kept::keep(left.kx, t),
        ky,
        lx: length_of(f).saturating_sub(node.ly),
        ly: node.ly,
        here: f,
    }
}

fn next_y(node: Node, left: Left, f: Record, s: usize, i: usize, t: Slot) -> Node
    ensures { NextY node left f s i t result }
{
    let ax = node.ax;
    let kx = left.kx;
    Node {
        letters: decided(node.letters, s, i),
        ax,
        ay: with_bound(node.ay, t),
        kx,
        ky: search_kept::keep(left.ky, t),
        lx: node.lx,
        ly: length_of(f).saturating_sub(node.lx),
        here: f,
    }
}

// Child i as a node; its slot is t.
fn next_node(node: Node, left: Left, s: usize, i: usize, t: Slot) -> Node
    ensures { NextOf node left s i t result }
{
    let f = child_at(left, i);
    if i < 2 {
        next_x(node, left, f, s, i, t)
    } else {
        next_y(node, left, f, s, i, t)
    }
}

// The best so far or a better one: not after any legal placement under the node's letters that keeps its differences.
pub(crate) fn search(
    cs: &[u64; chip_array::CELLS],
    parts: Parts,
    p: usize,
    tx: &[u32; TAB],
    hx: &[u32; HELP],
    ty: &[u32; TAB],
    hy: &[u32; HELP],
    node: Node,
    sx: &[u32; POOL],
    ix: usize,
    sy: &[u32; POOL],
    iy: usize,
    best: Record,
) -> Record
    requires { Given (chip_in cs.now) parts p tx.now ty.now node best }
    ensures { Searched (chip_in cs.now) node.letters p node.kx node.ky best result }
{
    let pair = match next_step(parts, p, node, best) {
        ControlFlow::Break(answer) => return answer,
        ControlFlow::Continue(pair) => pair,
    };
    let mut pool = [0u32; POOL];
    let mut left = try_letters(
        cs, parts, p, tx, hx, ty, hy, node, sx, ix, sy, iy, pair.s, pair.at, best, &mut pool,
    );
    let mut b = best;
    while let Some(i) = next_child(left) {
        let t = letter_slot(parts, pair.at, i);
        let next = next_node(node, left, pair.s, i, t);
        left = visited(left, i, t);
        if i < 2 {
            b = search(cs, parts, p, tx, hx, ty, hy, next, &pool, i, sy, iy, b);
        } else {
            b = search(cs, parts, p, tx, hx, ty, hy, next, sx, ix, &pool, i, b);
        }
    }
    b
}
