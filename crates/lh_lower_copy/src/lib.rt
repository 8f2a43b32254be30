//! A copy of a module in which entities stand in the place of some processes.
#![tactic(auto)]

mod adding;
pub mod copying;
mod entities;
mod keeping;
mod names;
mod units;

pub use crate::copying::Copying;
