//! The regions of a process as rows of terms: what is taken, driven and tested at a place, and how places follow on each other.
#![tactic(auto)]

pub mod ahead;
pub mod beginning;
pub mod branch;
pub mod effects;
pub mod giving;
pub mod head;
pub mod laws;
pub mod leading;
pub mod operand;
pub mod rows;
pub mod start;
pub mod taking;
pub mod target;

pub use crate::rows::{DriveList, DriveRow, EndList, EndRow, RegionFault, Regions, Rows, Way};
