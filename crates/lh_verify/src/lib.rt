//! Which instruction of a module is faulty first, and by which of the eight faults.
#![tactic(auto)]

mod allowed;
mod arguments;
mod kinds;
mod phis;
mod place;
mod predecessors;
mod spots;
mod undefined;
mod unit;
mod units;
pub mod verify;
