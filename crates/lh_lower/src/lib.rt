//! Lowering: each process that has a shape becomes an entity, in its place.
#![tactic(auto)]

pub mod lowering;
pub mod outcome;
pub mod process;
pub mod text;

pub use crate::lowering::{Lowered, lower};
pub use crate::outcome::{ProcessOutcome, outcome_of};
pub use crate::process::{shape, shape_of_flat};
pub use crate::text::text_of;
pub use lh_lower_def::{Kind, ReportList, ReportRow, Verdict};
