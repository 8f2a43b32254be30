//! What an entity says, by ids: the parts that it probes, its drives and its registers.
#![tactic(auto)]

mod known;
mod reading;
mod registers;
mod rows;

pub use crate::reading::read_entity;
pub use crate::rows::{
    EntityRows, RegisterList, RegisterRow, RegisterTrigger, RegisterTriggerList,
};
