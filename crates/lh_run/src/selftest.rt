//! The command `selftest`.
ghost use Rattle.std.specs.Prelude.{◌≤◌, IfOk};
ghost use Rattle.lh_unit.specs.Arena.{contents};
ghost use Rattle.lh_lower_def.specs.Lowering.{lowered as lowered_to};
ghost use Rattle.lh_selftest_design.specs.Summary.{IsSummaryOf};
ghost use Rattle.lh_args.specs.Forms.{max_links};
ghost use Rattle.lh_selftest.specs.SelfTest.{HasDesign, IsSelfTest, units_of};
ghost use Rattle.lh_result.specs.Account.{use_of};
ghost use Rattle.lh_result.specs.Steps.{WritesSelfTest, ended};

use lh_io::stream::Sink;
use lh_io::whole::write_all;
use lh_lower::lower;
use lh_result::status::Status;
use lh_selftest::chain::chain;
use lh_selftest::{answer_law, compared};
use lh_types::memory::NoMemory;
use lh_verify::verify::Verified;
use std::alloc::Global;

/// Lowers and simulates a chain of this many links, and writes how it went; nothing is read.
pub fn test_itself<O: Sink>(alloc: Global, links: u32, out: &mut O) -> Status
    requires least { 1 ≤ links }
    requires most { links ≤ max_links }
    ensures { WritesSelfTest links result (use_of (O.written out.old) (O.written out.new) (O.faults out.old) (O.faults out.new)) }
{
    match write_test(alloc, links, out) {
        Ok(()) => Status::Done,
        Err(status) => status,
    }
}

// The text of the self-test goes to the output.
fn write_test<O: Sink>(alloc: Global, links: u32, out: &mut O) -> Result<(), Status>
    requires least { 1 ≤ links }
    requires most { links ≤ max_links }
    ensures { WritesSelfTest links (ended result) (use_of (O.written out.old) (O.written out.new) (O.faults out.old) (O.faults out.new)) }
{
    answer_law();
    let text = selftest(alloc, links)?;
    write_all(out, &text)?;
    Ok(())
}

/// The summary of the runs of a chain of this many links, as it is and lowered.
fn selftest(alloc: Global, links: u32) -> Result<Vec<u8>, NoMemory>
    requires some { 1 ≤ links }
    requires few { links ≤ 1000 }
    ensures { IfOk result (λ text. IsSelfTest links text.items) }
{
    let file = chain(alloc, links)?;
    let text = answered(alloc, &file);
    drop(file);
    text
}

/// The summary of the runs of a file, as it is and lowered.
fn answered(alloc: Global, file: &Verified) -> Result<Vec<u8>, NoMemory>
    requires { HasDesign (contents file.now) }
    ensures { IfOk result (λ text. IsSummaryOf (contents file.now) (lowered_to (contents file.now)) (units_of (contents file.now)) text.items) }
{
    let lowered = lower(alloc, file)?;
    let text = compared(alloc, file, &lowered.module, lowered.report.as_slice());
    drop(lowered);
    text
}
