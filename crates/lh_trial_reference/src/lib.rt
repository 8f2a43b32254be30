//! The frames of a design as the definition says them, computed bit by bit from all that was ever wished.
#![tactic(auto)]

pub mod frames;
pub mod naive;
mod runner;
mod wished;
