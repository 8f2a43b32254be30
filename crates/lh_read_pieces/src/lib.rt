//! The pieces that a line is read by: each takes tokens from the front and gives what is left.
//!
//! A piece that takes no memory answers `None` where the tokens do not begin so; one that takes some says which of the two
//! it lacks, by a `ScanFault`.
#![tactic(auto)]

pub mod fault;
pub mod list;
pub mod numbers;
pub mod times;
pub mod tokens;
pub mod types;
