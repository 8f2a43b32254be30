//! What an entity is emitted for: the flat text of a process with its parts, and the steps that lead to each part.
#![tactic(auto)]

pub mod origin;
