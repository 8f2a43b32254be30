//! One pass of an entity: what it remembers of its triggers, and what it wishes.
#![tactic(auto)]

mod entity;
mod kept;
mod pass;
mod places;
mod quiet;
mod register;
mod state;
mod triggers;

pub use entity::{EntAct, react};
pub use lh_bits::writes::DueWrites;
pub use state::EntState;
