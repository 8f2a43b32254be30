//! What an instruction gives or drives wherever it stands: operations, parts of signals, probes and drives.
#![tactic(auto)]

pub mod begin;
pub mod effects;
pub mod held;
pub mod instance;
pub mod laws;
pub mod operands;
pub mod operate;
mod put;
mod seen;
mod types;

pub use lh_eval_wishes::wishes;
