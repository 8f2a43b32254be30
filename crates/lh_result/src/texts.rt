//! What the command `lower` writes.
ghost use Rattle.std.specs.Prelude.{◌≤◌};
ghost use Rattle.lh_result.specs.Account.{use_of};
ghost use Rattle.lh_result.specs.Steps.{ended};
ghost use Rattle.lh_result.specs.Written.{WritesTexts};

use crate::load::SOURCE_LIMIT;
use crate::status::Status;
use lh_io::stream::Sink;
use lh_io::whole::write_all;

/// The text of a lowered module, and that of the report.
#[derive(Drop)]
pub struct Texts {
    pub module: Vec<u8>,
    pub report: Vec<u8>,
}

/// Writes the text of a lowered module, and then the report to the log. Where the text has more bytes than a source may give, nothing is
/// written.
pub fn write_texts<O: Sink, L: Sink>(texts: &Texts, out: &mut O, log: &mut L) -> Result<(), Status>
    ensures writes { WritesTexts texts.now (ended result) (use_of (O.written out.old) (O.written out.new) (O.faults out.old) (O.faults out.new)) (use_of (L.written log.old) (L.written log.new) (L.faults log.old) (L.faults log.new)) }
    ensures never_fall { L.faults log.old ≤ L.faults log.new }
{
    if texts.module.len() > SOURCE_LIMIT {
        return Err(Status::OutputTooLong);
    }
    write_all(out, &texts.module)?;
    write_all(log, &texts.report)?;
    Ok(())
}
