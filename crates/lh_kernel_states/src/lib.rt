//! What is kept of an instance between frames, and one run of it: an activation of a process, or a pass of an entity.
#![tactic(auto)]

pub mod laws;
pub mod runs;
pub mod state;
