//! The definition of lowering: which entities stand in the place of a module's processes, and what is reported.
#![tactic(auto)]

pub mod laws;
mod report;

pub use crate::report::{Kind, ReportList, ReportRow, Verdict};
