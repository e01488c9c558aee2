// Reading what the fits of one direction are given.
// The nets, tab: parts of 128 numbers. EN, EO, EL, ET node, greatest and least pin place and net of an entry (a net and a node that has pins on
// it); NETS where the entries of a net begin, and at 64 on its weight; ONE the counts of nets, macros and entries.
// The bounds, arcs: from u to v at place 9 u + v.
use crate::state::{BIAS, End, TWICE};
use crate::{ARCS, HELP, TAB};

// What the fits of one direction are given: the nets, the help that is made from them, and the bounds.
#[derive(Clone, Copy)]
pub(crate) struct Given<'a> {
    pub(crate) tab: &'a [u32; TAB],
    pub(crate) help: &'a [u32; HELP],
    pub(crate) arcs: &'a [u32; ARCS],
}

const EN: usize = 0;

const EO: usize = 1;

const EL: usize = 2;

const ET: usize = 3;

const NETS: usize = 4;

const ONE: usize = 7;

fn part(tab: &[u32; TAB], p: usize, k: usize) -> u32 {
    tab[p % 8 * 128 + k % 128]
}

// The bound at place c.
pub(crate) fn arc(arcs: &[u32; ARCS], c: usize) -> u32 {
    arcs[c % ARCS] % TWICE
}

pub(crate) fn net_count(tab: &[u32; TAB]) -> usize {
    part(tab, ONE, 0) as usize % 64
}

// Node 0 and the macros.
pub(crate) fn nodes(tab: &[u32; TAB]) -> usize {
    part(tab, ONE, 1) as usize % 16 + 1
}

pub(crate) fn entry_count(tab: &[u32; TAB]) -> usize {
    part(tab, ONE, 2) as usize % 129
}

pub(crate) fn node_of(tab: &[u32; TAB], e: usize) -> usize {
    part(tab, EN, e) as usize
}

// The place of entry i at an end of its net: its greatest or its least.
pub(crate) fn place(tab: &[u32; TAB], e: End, i: usize) -> u32 {
    match e {
        End::Top => part(tab, EO, i),
        End::Bottom => part(tab, EL, i),
    }
}

// The first entry of net j, and the one behind its last.
pub(crate) fn net_begin(tab: &[u32; TAB], j: usize) -> usize {
    part(tab, NETS, j % 64) as usize
}

pub(crate) fn net_end(tab: &[u32; TAB], j: usize) -> usize {
    part(tab, NETS, (j % 64 + 1) % 64) as usize
}

pub(crate) fn weight_of(tab: &[u32; TAB], j: usize) -> u32 {
    part(tab, NETS, 64 + j % 64)
}

// The net of entry e.
pub(crate) fn net_of(tab: &[u32; TAB], e: usize) -> usize {
    part(tab, ET, e) as usize
}

// By how much the place of entry i at end e is above that of entry j.
pub(crate) fn above(tab: &[u32; TAB], e: End, i: usize, j: usize) -> u32 {
    BIAS.wrapping_add(place(tab, e, i))
        .wrapping_sub(place(tab, e, j))
}
