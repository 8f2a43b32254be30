//! The simulation of a design: its frames, one step after the other.
#![tactic(auto)]

mod machine;
mod moves;
mod noted;
mod plan;
mod puts;
mod run;
mod sim;
mod start;
mod touched;
mod woken;

pub use crate::sim::{Sim, SimStep};
pub use lh_types::frame::{Change, Frame, Outcome};
