//! The definition of what a process does between its waits, as rows of terms: places, edges, merged values, and the
//! regions of a process.
#![tactic(auto)]

pub mod laws;
