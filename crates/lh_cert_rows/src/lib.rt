//! The rows that an entity says: its drives and its registers, as terms of the values of parts.
#![tactic(auto)]

pub mod laws;
