//! One activation of a process: its instructions and those of the functions that it calls, until it waits or halts.
#![tactic(auto)]

mod begin;
mod calls;
mod jumps;
mod laws;
mod machine;
mod process;
mod run;
mod state;
mod values;

pub use laws::{state_law, steady_law};
pub use lh_bits::writes::DueWrites;
pub use process::{Act, ExecFault, activate};
pub use state::{ProcState, WaitOn};
