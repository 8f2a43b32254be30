//! The top call `run`, and the commands `check`, `simulate`, `lower` and `selftest` that it carries out.
#![tactic(auto)]

mod check;
mod command;
mod lowering;
mod selftest;
mod simulate;
pub mod top;

pub use lh_result::status;
