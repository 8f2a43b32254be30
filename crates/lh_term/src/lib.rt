//! Shared terms: the conditions and values of a process as expressions of the values of parts, of which equal ones have one id.
#![tactic(auto)]

pub mod conjuncts;
mod forms;
pub mod laws;
mod make;
pub mod part;
mod plain;
pub mod reach;
mod salt;
pub mod subst;
pub mod term;
pub mod terms;
mod types;
