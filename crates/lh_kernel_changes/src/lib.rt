//! Which bits of a design differ between two frames, and to which signals they belong.
#![tactic(auto)]

pub mod changes;
pub mod differ;
pub mod laws;
pub mod signals;
pub mod undo;
