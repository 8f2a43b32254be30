//! The definition of the entity that a process is lowered to, and the law that a pass of it gives the rows of the
//! process.
#![tactic(auto)]

pub mod laws;
