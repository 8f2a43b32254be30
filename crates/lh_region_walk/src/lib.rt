//! The walk that finds the regions of a process: from where it starts, place by place, to where it waits or ends.
#![tactic(auto)]

pub mod leaving;
pub mod lines;
pub mod opening;
pub mod region;
pub mod turns;
pub mod walk;

pub use crate::region::regions;
