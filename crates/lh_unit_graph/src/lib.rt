//! A search of a graph of units, depth first: whether a unit reaches itself, and the measure of a unit with all that it reaches.
#![tactic(auto)]

pub mod fault;
pub mod measured;
pub mod search;

pub use crate::fault::DescentFault;
pub use crate::measured::Measured;
pub use crate::search::UnitSearch;
