//! What stands within a line: its words, operands and operations, and the tree that it is read into.
#![tactic(auto)]

pub mod brackets;
pub mod operands;
pub mod operations;
pub mod syntax;
pub mod words;
