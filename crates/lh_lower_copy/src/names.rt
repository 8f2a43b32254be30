//! The names of units, values and labels, under the ids that they have in another module.
ghost use Rattle.std.specs.Prelude.{◌≡◌, ◌<◌, ◌^◌, [], length, slice_index_or, IfOk};
ghost use Rattle.lh_unit.specs.Arena.{no_arena, unit_count, value_count, label_count, value_name_at, label_name_at};
ghost use Rattle.lh_emit_body.specs.Bodies.{NamesDiffer};
ghost use Rattle.lh_lower_copy.specs.Named.{NamesUnits, NamesValues, NamesLabels};

use lh_types::memory::NoMemory;
use lh_unit::inst::{BlockId, UnitId, ValueId};
use lh_unit::module::Module;
use lh_unit_names::name::Name;

/// Names the units of another module.
pub fn name_units(m: &mut Module, from: &Module) -> Result<(), NoMemory>
    requires { m.old ≡ no_arena }
    ensures { IfOk result (λ _. NamesUnits from.now m.new (unit_count from.now)) }
{
    for unit in 0..from.units() {
        let _ = m.unit_named(from.unit_name(UnitId(unit)))?;
    }
    Ok(())
}

/// Names the values of a unit of another module.
pub fn name_values(m: &mut Module, from: &Module, unit: UnitId) -> Result<(), NoMemory>
    requires there { unit.0 < unit_count from.now }
    requires within { unit.0 < unit_count m.old }
    requires none { value_count m.old unit.0 ≡ 0 }
    ensures { IfOk result (λ _. NamesValues m.old m.new unit.0 (value_count from.now unit.0) (value_name_at from.now unit.0)) }
{
    for value in 0..from.values(unit) {
        let _ = m.value_named(unit, from.value_name(unit, ValueId(value)))?;
    }
    Ok(())
}

/// Names the labels of a unit of another module.
pub fn name_labels(m: &mut Module, from: &Module, unit: UnitId) -> Result<(), NoMemory>
    requires there { unit.0 < unit_count from.now }
    requires within { unit.0 < unit_count m.old }
    requires none { label_count m.old unit.0 ≡ 0 }
    ensures { IfOk result (λ _. NamesLabels m.old m.new unit.0 (label_count from.now unit.0) (label_name_at from.now unit.0)) }
{
    for label in 0..from.labels(unit) {
        let _ = m.block_named(unit, from.block_name(unit, BlockId(label)))?;
    }
    Ok(())
}

/// Gives the values of a unit these names, in order.
pub fn name_all(m: &mut Module, unit: UnitId, names: &[Name]) -> Result<(), NoMemory>
    requires within { unit.0 < unit_count m.old }
    requires none { value_count m.old unit.0 ≡ 0 }
    requires few { length names.now < 2 ^ 32 }
    requires apart { NamesDiffer names.now }
    ensures { IfOk result (λ _. NamesValues m.old m.new unit.0 (length names.now) (λ v. slice_index_or names.now v [])) }
{
    for name in names {
        let _ = m.value_named(unit, name)?;
    }
    Ok(())
}
