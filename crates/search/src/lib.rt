// The search for the earliest least legal placement of a chip: branches over the letters of pairs, each closed by its fit.
#![tactic(auto)]

mod branch;
mod root;
pub mod service;
mod weights;
