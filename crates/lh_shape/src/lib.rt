//! The shape of a process: what it may be lowered to, or the first reason why it stays as it is.
#![tactic(auto)]

mod ends;
mod kinds;
pub mod laws;
pub mod merge;
mod pasts;
mod reason;
mod reasons;
mod shape;

pub use crate::kinds::Shape;
pub use crate::reason::Reason;
pub use crate::shape::shape_of_regions;
