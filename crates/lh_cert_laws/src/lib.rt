//! Laws of certifying: an edited module for which there is no cause has the trace of the module that it was. Each law is the contract of a
//! function that does nothing.
#![tactic(auto)]

pub mod laws;
