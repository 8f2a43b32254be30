//! The design that the program tests itself on, by its length, and the summary that it writes of the two runs.
#![tactic(auto)]

pub mod generator;
pub mod summary;
