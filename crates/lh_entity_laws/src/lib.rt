//! Laws of entities in the place of processes: one that does what the rows of a shape say, as the emitted one does, may stand for the process.
#![tactic(auto)]

pub mod given;
pub mod laws;
