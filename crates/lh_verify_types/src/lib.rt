//! Whether the types and the written numbers of an instruction fit its row.
#![tactic(auto)]

mod fits;
mod operands;
mod operations;
mod types;

pub use crate::fits::types_fit;
pub use crate::operands::{has_bit, has_type};
