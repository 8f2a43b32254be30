//! The command `check`.
ghost use Rattle.lh_unit.specs.Arena.{contents};
ghost use Rattle.lh_result.specs.Account.{use_of};
ghost use Rattle.lh_result.specs.Steps.{WritesCanon, ended};

use lh_io::stream::Sink;
use lh_io::whole::write_all;
use lh_print::print;
use lh_result::status::Status;
use lh_verify::verify::Verified;
use std::alloc::Global;

/// Writes the canonical text of a file.
pub fn check<O: Sink>(alloc: Global, file: &Verified, out: &mut O) -> Result<(), Status>
    ensures { WritesCanon (contents file.now) (ended result) (use_of (O.written out.old) (O.written out.new) (O.faults out.old) (O.faults out.new)) }
{
    let text = print(alloc, file.module())?;
    write_all(out, &text)?;
    Ok(())
}
