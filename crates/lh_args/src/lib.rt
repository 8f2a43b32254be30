//! What the words of a command line ask for: a command with its options, or nothing.
#![tactic(auto)]

mod choice;
pub mod command;
mod found;
pub mod laws;
mod number;
