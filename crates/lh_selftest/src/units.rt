//! How many units a file has, and what became of its processes.
ghost use Rattle.std.specs.Prelude.{◌≡◌, map, count_by, not};
ghost use Rattle.lh_unit.specs.Arena.{contents};
ghost use Rattle.lh_lower_def.specs.Lowering.{report};
ghost use Rattle.lh_lower_def.specs.Report.{row_text};
ghost use Rattle.lh_lower_def.specs.declared.report.ReportRow.{ReportRow as Row};
ghost use Rattle.lh_selftest.specs.Counted.{is_unit_item};
ghost use Rattle.lh_selftest.specs.SelfTest.{is_lowered as became_entity, units_of};

use lh_lower_def::{ReportRow, Verdict};
use lh_selftest_design::summary::Units;
use lh_unit::inst::Item;
use lh_unit::module::Module;

/// The units of a module and what became of its processes, by the report on it.
pub fn count_units(m: &Module, rows: &[ReportRow]) -> Units
    requires { map (row_text m.now) rows.now ≡ report (contents m.now) }
    ensures { result ≡ units_of (contents m.now) }
{
    Units {
        all: count_defined(m.items()) as u64,
        lowered: count_lowered(rows) as u64,
        left: count_left(rows) as u64,
    }
}

/// How many items define a unit.
fn count_defined(items: &[Item]) -> usize
    ensures { result ≡ count_by is_unit_item items.now }
{
    items.iter().filter(|item| is_unit(item)).count()
}

/// How many processes became entities.
fn count_lowered(rows: &[ReportRow]) -> usize
    ensures { result ≡ count_by (λ (r : Row). became_entity r.verdict) rows.now }
{
    rows.iter().filter(|row| is_lowered(row)).count()
}

/// How many processes were left.
fn count_left(rows: &[ReportRow]) -> usize
    ensures { result ≡ count_by (λ (r : Row). not (became_entity r.verdict)) rows.now }
{
    rows.iter().filter(|row| !is_lowered(row)).count()
}

/// Whether an item defines a unit.
fn is_unit(item: &Item) -> bool
    ensures { result ≡ is_unit_item item.now }
{
    matches!(item, Item::Unit(_))
}

/// Whether a process became an entity.
fn is_lowered(row: &ReportRow) -> bool
    ensures { result ≡ became_entity row.now.verdict }
{
    matches!(row.verdict, Verdict::Lowered(_))
}
