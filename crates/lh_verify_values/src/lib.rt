//! What is known of the values of a unit: their kinds, and their types by numbers.
#![tactic(auto)]

pub mod facts;
pub mod numbers;
pub mod params;
mod results;
pub mod scope;
