//! Which terms have a value before in them.
ghost use Rattle.std.specs.Prelude.{◌≡◌, length, IfOk};
ghost use Rattle.std.specs.List.{list_any};
ghost use Rattle.lh_shape.specs.ByIds as ids;
ghost use Rattle.lh_edge.specs.Steps.{TellPasts};

use lh_edge::pasts::past_flags;
use lh_region::DriveRow;
use lh_term::terms::Terms;
use lh_types::memory::NoMemory;
use std::alloc::Global;

/// Whether a value before is in what one of some drives drives.
pub(crate) fn some_drives_past(
    alloc: Global,
    terms: &Terms,
    drives: &[DriveRow],
) -> Result<bool, NoMemory>
    requires { ids.DrivesFit terms.now drives.now }
    ensures { IfOk result (λ past. past ≡ list_any (ids.drives_past terms.now) drives.now) }
{
    let flags = past_flags(alloc, terms)?;
    for drive in drives {
        if has_past(terms, &flags, drive) {
            return Ok(true);
        }
    }
    Ok(false)
}

/// Whether a value before is in what a drive drives, by the flags of all terms.
fn has_past(_terms: &Terms, flags: &[bool], drive: &DriveRow) -> bool
    requires fits { ids.DriveRowFits _terms.now drive.now }
    requires tell { TellPasts _terms.now flags.now }
    requires all { length flags.now ≡ length _terms.now }
    ensures { result ≡ ids.drives_past _terms.now drive.now }
{
    flags[drive.value.0]
}
