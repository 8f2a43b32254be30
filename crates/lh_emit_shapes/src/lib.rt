//! The bodies of the three shapes: the entity of a process by its rows, or that it is too large.
#![tactic(auto)]

pub mod bodies;

pub use crate::bodies::{comb_body, edge_body, once_body};
