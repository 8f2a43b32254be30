//! What the entities say that are emitted for the three shapes: the rows of the shape, their terms read again from their leaves.
#![tactic(auto)]

pub mod laws;
