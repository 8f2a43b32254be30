//! Laws of flat texts: what a process does is what its flat text does, and the flat text of a process of a well-formed module is as such a
//! process is.
#![tactic(auto)]

pub mod laws;
