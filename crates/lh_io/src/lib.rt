//! Where bytes come from and go to, with counts that tell when a call failed.
#![tactic(auto)]

pub mod adapter;
pub mod count;
pub mod memory;
pub mod stream;
pub mod whole;
