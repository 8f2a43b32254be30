//! Modules, units and instructions by ids, and the definitions of what a text reads as, how it is printed, and what
//! it means.
#![tactic(auto)]

pub mod constant;
mod copies;
pub mod inst;
pub mod module;
mod table;
pub mod token;
pub mod view;
