//! The report as text.
ghost use Rattle.std.specs.Prelude.{◌≡◌, ◌<◌, ◌++◌, map, IfOk, OnOk};
ghost use Rattle.lh_unit.specs.Arena.{unit_count};
ghost use Rattle.lh_unit.specs.Within.{Each};
ghost use Rattle.lh_lower_def.specs.Report.{row_text, row_line, report_text};
ghost use Rattle.lh_lower_def.specs.declared.report.ReportRow.{ReportRow as Row};

use lh_lower_def::ReportRow;
use lh_types::memory::NoMemory;
use lh_types::text::put;
use lh_unit::module::Module;
use std::alloc::Global;

/// A line for each row of a report on this module: what became of the process, its name, and the shape or the reason.
pub fn text_of(alloc: Global, m: &Module, rows: &[ReportRow]) -> Result<Vec<u8>, NoMemory>
    requires { Each (λ (r : Row). r.unit.0 < unit_count m.now) rows.now }
    ensures { IfOk result (λ text. text.items ≡ report_text (map (row_text m.now) rows.now)) }
{
    let mut text = Vec::new(alloc);
    for row in rows {
        put_row(&mut text, m, row)?;
    }
    Ok(text)
}

/// Adds the line of a row.
fn put_row(text: &mut Vec<u8>, m: &Module, row: &ReportRow) -> Result<(), NoMemory>
    requires { row.now.unit.0 < unit_count m.now }
    ensures { OnOk result (text.new.items ≡ text.old.items ++ row_line (row_text m.now row.now)) }
{
    let name = m.unit_name(row.unit);
    put(text, row.verdict.word())?;
    put(text, b" ")?;
    put(text, &[name.sigil])?;
    put(text, name.name.as_bytes())?;
    put(text, b" ")?;
    put(text, row.verdict.name())?;
    put(text, b"\n")
}
