// An axis held as a value: whether it is within the limits, its graphs and its nets as arrays, and coordinates from values.
//
// Every function takes every axis: one beyond the limits has no graph.
#![tactic(auto)]

pub mod accept;
mod build;
pub mod coordinates;
pub mod graphs;
