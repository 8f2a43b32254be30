//! Why an edited module is not certified: the causes, in their order, by which it may have another trace than the module that it was.
#![tactic(auto)]

mod cause;
pub mod laws;

pub use crate::cause::Cause;
