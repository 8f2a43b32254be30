//! Terms as the lines of an entity say them: a `mux` of two values that are known is a choice, and a term is made anew from its leaves.
#![tactic(auto)]

pub mod laws;
mod operation;
mod remade;

pub use crate::operation::read_operation;
pub use crate::remade::{made_at, make_anew};
