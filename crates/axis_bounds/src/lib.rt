// One axis of a fit: the die's side, the macros' sizes on that axis, the bounds of the pairs, and the nets with their pins.
#![tactic(auto)]

// The bound x[tail] + plus <= x[head] + minus between the values of two nodes. Node 0 is the die corner, node i macro i.
#[derive(Clone, Copy)]
pub struct Slot {
    pub tail: usize,
    pub head: usize,
    pub plus: u64,
    pub minus: u64,
}

// A pin of a node; its place is held higher by the axis's base.
#[derive(Clone, Copy)]
pub struct AxisPin {
    pub node: usize,
    pub up: u64,
}

// A net's weight and the number of its pins.
#[derive(Clone, Copy)]
pub struct AxisNet {
    pub weight: u64,
    pub pins: usize,
}

// The pins lie net by net. A pair that asks nothing has the slot from 0 to 0 with plus and minus 0.
#[derive(Clone, Copy)]
pub struct Axis {
    pub side: u64,
    pub n: usize,
    pub sizes: [u64; Axis::MACROS],
    pub p: usize,
    pub pairs: [Slot; Axis::PAIRS],
    pub base: u64,
    pub t: usize,
    pub nets: [AxisNet; Axis::NETS],
    pub pins: [AxisPin; Axis::PINS],
}

impl Axis {
    // How many macros, pairs, nets and pins an axis has at most.
    pub const MACROS: usize = 8;

    pub const PAIRS: usize = 120;

    pub const NETS: usize = 32;

    pub const PINS: usize = 128;
}
