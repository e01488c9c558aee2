// The slots of a chip's two axes, and the laws that join them to the axis solver.
#![tactic(auto)]

// Across: x and widths; or up: y and heights.
#[derive(Clone, Copy)]
pub enum Direction {
    Horizontal,
    Vertical,
}

// What a letter asks in a direction: the first of a pair before the second, after it, or nothing.
#[derive(Clone, Copy)]
pub enum Asked {
    Before,
    After,
    Nothing,
}
