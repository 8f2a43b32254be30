//! When two terms agree: they are one term, or of one bit and the same at every valuation of at most twelve atoms.
#![tactic(auto)]

mod agreement;
mod atoms;
mod gates;
pub mod laws;
mod words;

pub use crate::agreement::agree;
