//! Which part of an argument each value of a flat text names.
#![tactic(auto)]

pub mod resolve;
pub mod step;
pub mod table;

pub use crate::step::PartStep;
pub use crate::table::PartTable;
