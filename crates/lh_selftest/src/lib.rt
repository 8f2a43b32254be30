//! The steps of the program's test of itself: a chain is generated, read and verified; the module and what it is lowered to are simulated,
//! and a summary says how the runs went. What lowers the module stands above.
#![tactic(auto)]

ghost use Rattle.std.specs.Prelude.{◌≡◌, map, IfOk};
ghost use Rattle.lh_unit.specs.Arena.{contents};
ghost use Rattle.lh_unit.specs.Trace.{SameTrace};
ghost use Rattle.lh_lower_def.specs.Lowering.{lowered as lowered_to, report};
ghost use Rattle.lh_lower_def.specs.Report.{row_text};
ghost use Rattle.lh_selftest_design.specs.Summary.{IsSummaryOf};
ghost use Rattle.lh_selftest.specs.SelfTest.{HasDesign, units_of};
ghost use Rattle.lh_selftest.specs.Answer.{AnswerIsOfFile};

pub mod chain;
mod course;
mod design;
mod units;

use crate::course::course_of;
use crate::units::count_units;
use lh_lower_def::ReportRow;
use lh_selftest_design::summary::put_summary;
use lh_types::memory::NoMemory;
use lh_verify::verify::Verified;
use std::alloc::Global;

/// How many frames a run has at most.
const MAX_FRAMES: u32 = 1_000_000;

/// The summary of the runs of a file and of what it is lowered to, where these rows are the report on it.
pub fn compared(
    alloc: Global,
    file: &Verified,
    lowered: &Verified,
    rows: &[ReportRow],
) -> Result<Vec<u8>, NoMemory>
    requires design { HasDesign (contents file.now) }
    requires lowered { contents lowered.now ≡ lowered_to (contents file.now) }
    requires report { map (row_text file.now) rows.now ≡ report (contents file.now) }
    requires same { SameTrace (contents file.now) (contents lowered.now) }
    ensures { IfOk result (λ text. IsSummaryOf (contents file.now) (lowered_to (contents file.now)) (units_of (contents file.now)) text.items) }
{
    let units = count_units(file.module(), rows);
    let original = course_of(alloc, file, MAX_FRAMES)?;
    let changed = course_of(alloc, lowered, MAX_FRAMES)?;
    let mut text = Vec::new(alloc);
    put_summary(&mut text, units, &original, &changed)?;
    Ok(text)
}

/// The answer is that of the file that the text of the chain reads as.
pub fn answer_law()
    ensures { AnswerIsOfFile }
{}
