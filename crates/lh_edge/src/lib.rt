//! Edge-shown conditions: at which rises and falls of which parts a condition over values before and now holds.
#![tactic(auto)]

pub mod atoms;
pub mod laws;
pub mod pasts;
pub mod reach;
mod shown;
mod table;
pub mod triggers;

pub use crate::triggers::{EdgeFault, EdgeRow, EdgeRowList, Trigger, TriggerList, edges};
