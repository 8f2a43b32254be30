//! A unit that is added as it is in another module.
ghost use Rattle.std.specs.Prelude.{◌≡◌, ◌<◌, false, Some, IsSome, IfOk};
ghost use Rattle.lh_unit.specs.Contents.{defines_unit};
ghost use Rattle.lh_unit.specs.Arena.{IsArena, contents, kind_at, unit_count, value_count, label_count, unit_name_at, unit_text_at};
ghost use Rattle.lh_lower_copy.specs.Changing.{AddsUnitText};
ghost use Rattle.lh_lower_copy.specs.Named.{SameUnits, SameNames};
ghost use Rattle.lh_lower_copy.specs.Copying.{AddsUnit, headed};

use crate::adding::begin;
use crate::names::{name_labels, name_values};
use crate::units::{keep_args, keep_blocks, keep_type};
use lh_types::memory::NoMemory;
use lh_unit::inst::{UnitId, UnitKind};
use lh_unit::module::Module;

/// Begins a unit, with its arguments and its result type.
fn keep_header(m: &mut Module, from: &Module, unit: UnitId, kind: UnitKind) -> Result<(), NoMemory>
    requires sound { IsArena from.now }
    requires kind { kind_at from.now unit.0 ≡ Some kind }
    requires there { unit.0 < unit_count from.now }
    requires named { SameNames from.now m.old unit.0 }
    requires undefined { defines_unit (unit_name_at from.now unit.0) (contents m.old) ≡ false }
    ensures { IfOk result (λ _. AddsUnitText m.old m.new unit (headed (unit_text_at from.now unit.0))) }
{
    begin(m, unit, kind)?;
    keep_args(m, from, unit)?;
    keep_type(m, from, unit)
}

/// Adds a unit whose values and labels have their names.
fn keep_text(m: &mut Module, from: &Module, unit: UnitId, kind: UnitKind) -> Result<(), NoMemory>
    requires sound { IsArena from.now }
    requires kind { kind_at from.now unit.0 ≡ Some kind }
    requires there { unit.0 < unit_count from.now }
    requires named { SameNames from.now m.old unit.0 }
    requires undefined { defines_unit (unit_name_at from.now unit.0) (contents m.old) ≡ false }
    ensures { IfOk result (λ _. AddsUnitText m.old m.new unit (unit_text_at from.now unit.0)) }
{
    keep_header(m, from, unit, kind)?;
    keep_blocks(m, from, unit, kind)
}

/// Adds a unit that has no values and no labels yet.
pub fn keep_unit(m: &mut Module, from: &Module, unit: UnitId) -> Result<(), NoMemory>
    requires there { unit.0 < unit_count from.now }
    requires defined { IsSome (kind_at from.now unit.0) }
    requires units { SameUnits from.now m.old }
    requires no_values { value_count m.old unit.0 ≡ 0 }
    requires no_labels { label_count m.old unit.0 ≡ 0 }
    requires undefined { defines_unit (unit_name_at from.now unit.0) (contents m.old) ≡ false }
    ensures { IfOk result (λ _. AddsUnit m.old m.new unit.0 (unit_text_at from.now unit.0)) }
{
    name_values(m, from, unit)?;
    name_labels(m, from, unit)?;
    match from.kind(unit) {
        Some(kind) => keep_text(m, from, unit, kind),
        None => unreachable!(),
    }
}
