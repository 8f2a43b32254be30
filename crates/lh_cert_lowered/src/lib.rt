//! What lowering makes of a module is certified in its place.
#![tactic(auto)]

pub mod laws;
