//! A run that is shown to watchers, and its text: the trace, or the waveform as a value change dump.
#![tactic(auto)]

mod changed;
pub mod code;
mod digits;
pub mod ending;
pub mod head;
mod lines;
mod owned;
pub mod run;
mod scribe;
mod teller;
pub mod trace;
pub mod value;
mod waiting;
pub mod waveform;
pub mod wire;
