//! The wishes that are still due, by due instant: what a simulation keeps of its history.
#![tactic(auto)]

mod hints;
pub mod laws;
mod line;
pub mod queue;
pub mod wish;
