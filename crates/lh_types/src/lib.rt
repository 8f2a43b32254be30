//! Types, values and operations of the language, and the lists that every layer uses.
#![tactic(auto)]

pub mod few;
pub mod frame;
pub mod list;
pub mod memory;
pub mod op;
pub mod part;
pub mod tally;
pub mod text;
pub mod ty;
mod type_tests;
pub mod val;
pub mod written;
