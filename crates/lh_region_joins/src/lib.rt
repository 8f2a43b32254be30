//! Where edges join: on which condition control is there, what tells the edges apart, and the value of the edge that is taken.
#![tactic(auto)]

pub mod edge;
pub mod joins;
pub mod laws;
pub mod logic;

pub use crate::edge::Edge;
