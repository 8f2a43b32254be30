//! Elaboration: the design of a top unit, or the first reason why it has none.
#![tactic(auto)]

mod build;
mod elaborate;
mod fault;
mod graph;
mod measure;
mod paths;
mod probes;
mod refusal;

pub use crate::elaborate::elab;
pub use crate::fault::ElabFault;
pub use crate::paths::{label_of, path_of};
pub use crate::probes::probes_of;
pub use crate::refusal::first_refusal;
pub use lh_design::{Design, Signal};
pub use lh_eval::instance::Instance;
