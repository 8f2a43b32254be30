//! An entity under construction: each part and each term of it is given once, at its first need.
#![tactic(auto)]

pub mod emitter;
pub mod making;
pub mod operands;
pub mod operations;
pub mod parts;
pub mod steps;
pub mod tasks;
pub mod values;

pub use crate::emitter::Emitter;
pub use lh_emit_body::{Body, BodyLine, BodyLineList, EmitFault};
