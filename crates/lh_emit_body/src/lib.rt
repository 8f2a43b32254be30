//! The body of an entity: its instructions by ids of values, each of which has a name.
#![tactic(auto)]

pub mod body;
pub mod lines;
pub mod names;

pub use crate::body::Body;
pub use crate::lines::{BodyLine, BodyLineList, EmitFault, Lines};
