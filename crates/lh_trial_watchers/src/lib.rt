//! The watchers that the trials have, beside those that come with the program.
#![tactic(auto)]

pub mod speaker;
