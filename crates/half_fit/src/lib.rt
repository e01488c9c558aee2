// The fit of one direction. Values, amounts and a tree are proposed by fast code on lent arrays, from nothing (cold) or from the state of a fit
// with one bound less (insert). All of that is proved safe and ending, and nothing more. What is proposed is tested (proposal, none), and the
// answer (service) rests on the tests alone.
#![tactic(auto)]

mod cold;
mod insert;
mod lists;
mod none;
mod paths;
mod proposal;
mod push;
mod residual;
pub mod service;
mod state;
mod tables;

// The lengths of the lent arrays: those of half_arrays, and what the first half fit prepares for later ones.
pub const TAB: usize = half_arrays::TAB;

pub const ARCS: usize = half_arrays::ARCS;

pub const POOL: usize = half_arrays::POOL;

pub const HELP: usize = 4352;
