//! What the text of a chain says: laws of the design that the program tests itself on.
#![tactic(auto)]

pub mod laws;
