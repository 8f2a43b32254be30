//! What the crates on trial answer to a text, by the words by which it is run. The caller provides what runs the
//! program.
#![tactic(auto)]

pub mod answer;
mod design;
mod faults;
pub mod program;
mod stepped;
mod watched;
