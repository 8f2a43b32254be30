//! Laws of lowering: the lowered module of a well-formed module has the same trace, can be printed and read again,
//! and is well formed.
#![tactic(auto)]

pub mod laws;
