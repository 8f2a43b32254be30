//! The command `lower`.
ghost use Rattle.std.specs.Prelude.{◌≡◌, ◌≤◌, IfOk};
ghost use Rattle.lh_unit.specs.Arena.{contents};
ghost use Rattle.lh_result.specs.Account.{use_of};
ghost use Rattle.lh_result.specs.Steps.{ended};
ghost use Rattle.lh_result.specs.Written.{WritesLowered, IsTexts};
ghost use Rattle.lh_result.specs.declared.status.Status.TheVariants.{Done};
ghost use Rattle.lh_run.specs.Faithful.{KeepsTrace};

use lh_io::stream::Sink;
use lh_lower::{lower, text_of};
use lh_lower_def::laws::lowering_law;
use lh_print::print;
use lh_result::status::Status;
use lh_result::texts::{Texts, write_texts};
use lh_types::memory::NoMemory;
use lh_verify::verify::Verified;
use std::alloc::Global;

/// Writes the canonical text of the lowered module, and then a line for each process to the log. Where the text has more bytes than a
/// source may give, nothing is written.
pub fn lower_file<O: Sink, L: Sink>(
    alloc: Global,
    file: &Verified,
    out: &mut O,
    log: &mut L,
) -> Result<(), Status>
    ensures writes { WritesLowered (contents file.now) (ended result) (use_of (O.written out.old) (O.written out.new) (O.faults out.old) (O.faults out.new)) (use_of (L.written log.old) (L.written log.new) (L.faults log.old) (L.faults log.new)) }
    ensures keeps_trace { ended result ≡ Done → KeepsTrace (contents file.now) }
    ensures never_fall { L.faults log.old ≤ L.faults log.new }
{
    let texts = texts_of(alloc, file)?;
    write_texts(&texts, out, log)
}

/// The texts of a file that is lowered.
fn texts_of(alloc: Global, file: &Verified) -> Result<Texts, NoMemory>
    ensures texts { IfOk result (IsTexts (contents file.now)) }
    ensures keeps_trace { IfOk result (λ _. KeepsTrace (contents file.now)) }
{
    lowering_law();
    let lowered = lower(alloc, file)?;
    let module = print(alloc, lowered.module.module())?;
    let report = text_of(alloc, file.module(), lowered.report.as_slice())?;
    Ok(Texts { module, report })
}
