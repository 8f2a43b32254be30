//! The places of a region: what is known at each, what stands above it, and values where they are asked for.
#![tactic(auto)]

pub mod above;
pub mod asking;
pub mod keepers;
pub mod places;
pub mod state;
