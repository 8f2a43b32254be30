//! What an activation or a pass wishes, while it runs: bits in runs, by the instants at which they are due.
#![tactic(auto)]

mod cuts;
mod grouping;
mod layers;
mod overlay;
mod run;
mod runs;
pub mod wishes;
