//! What elaboration reads of a unit, once for all its instances: its signals and the instances in it.
#![tactic(auto)]

pub mod plan;
pub mod statics;
pub mod width;
