//! Whether values are given on every route through the blocks of a unit: a flow, and questions on it.
#![tactic(auto)]

pub mod ask;
pub mod flow;
mod group;
mod jumps;
pub mod laws;
pub mod numbers;
mod search;
mod tops;
mod tree;
