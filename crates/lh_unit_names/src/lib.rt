//! Names of units, values and labels, and the tables that give those of a unit their numbers.
#![tactic(auto)]

pub mod name;
pub mod table;
