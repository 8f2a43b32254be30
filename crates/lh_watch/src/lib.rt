//! Watchers: objects that see each frame of a simulation, hold numbers, and may end it.
#![tactic(auto)]

pub mod builtin;
pub mod shows;
pub mod watcher;
