//! Which labels of a unit have a block, and which of its values come from a `prb`.
#![tactic(auto)]

pub mod labels;
pub mod probes;
mod turns;
