//! The operations of the language: every row of the table, total and exact.
#![tactic(auto)]

pub mod integers;
pub mod laws;
mod parts;
mod rows;
mod shifts;
mod signs;
pub mod values;
mod words;

pub use integers::apply_int;
pub use lh_types::op::Op;
pub use values::apply;
