//! Who is woken by what: the instances that sense each signal, and the instants at which instances wake by themselves.
#![tactic(auto)]

pub mod gathered;
pub mod rising;
pub mod sensing;
pub mod wakes;
