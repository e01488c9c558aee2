// Coordinates of a half fit over lent arrays: that they keep all bounds, and the length of all nets.
#![tactic(auto)]

pub mod keeps;
pub mod length;
pub mod values;
