//! What operands hold: values, parts, delays and truth values.
ghost use Rattle.std.specs.Prelude.{◌≡◌, ◌<◌, ◌++◌, [], ◌∷◌, length, map, IfOk, OnOk};
ghost use Rattle.std.specs.Option.{option_map, option_copied};
ghost use Rattle.lh_types.specs.ValueOf.{datum_of};
ghost use Rattle.lh_unit.specs.Within.{Each};
ghost use Rattle.lh_unit.specs.Held.{as_test, as_delay};
ghost use Rattle.lh_unit.specs.declared.inst.Typed.{Typed as Operand};
ghost use Rattle.lh_eval.specs.Holding as holding;
ghost use Rattle.lh_eval.specs.Holding.{MaybeIn};

use crate::held::{Held, Slots};
use lh_time::Delay;
use lh_types::memory::NoMemory;
use lh_types::part::Range;
use lh_types::val::Val;
use lh_unit::inst::{Typed, ValueId};
use std::alloc::Global;

/// The data value or time that is held by a value, if one is.
pub fn datum_in(slots: &Slots, value: ValueId) -> Option<&Val>
    requires { value.0 < length slots.now }
    ensures { option_map datum_of (option_copied result) ≡ holding.datum_in slots.now value }
{
    match slots.get(value) {
        Some(Held::Datum(v)) => Some(v),
        _ => None,
    }
}

/// What is stored in the variable that is held by a value, if one is.
pub fn cell_in(slots: &Slots, value: ValueId) -> Option<&Val>
    requires { value.0 < length slots.now }
    ensures { option_map datum_of (option_copied result) ≡ holding.cell_in slots.now value }
{
    match slots.get(value) {
        Some(Held::Cell(v)) => Some(v),
        _ => None,
    }
}

/// The part of the signals that is held by a value, if one is.
pub fn part_in(slots: &Slots, value: ValueId) -> Option<Range>
    requires { value.0 < length slots.now }
    ensures { result ≡ holding.part_in slots.now value }
{
    match slots.get(value) {
        Some(Held::Part(range)) => Some(*range),
        _ => None,
    }
}

/// The delay that is held by a value, if one is.
pub fn delay_in(slots: &Slots, value: ValueId) -> Option<Delay>
    requires { value.0 < length slots.now }
    ensures { result ≡ holding.delay_in slots.now value }
{
    delay_of(datum_in(slots, value)?)
}

fn delay_of(value: &Val) -> Option<Delay>
    ensures { result ≡ as_delay (datum_of value.now) }
{
    match value {
        Val::Time(delay) => Some(*delay),
        _ => None,
    }
}

/// Whether the integer that is held by a value is not 0, if one is.
pub fn test_in(slots: &Slots, value: ValueId) -> Option<bool>
    requires { value.0 < length slots.now }
    ensures { result ≡ holding.test_in slots.now value }
{
    test_of(datum_in(slots, value)?)
}

fn test_of(value: &Val) -> Option<bool>
    ensures { result ≡ as_test (datum_of value.now) }
{
    match value {
        Val::Int { width: _, bits } => Some(*bits != 0),
        _ => None,
    }
}

/// Whether the operand of an `if` is not 0; where there is none it holds.
pub fn condition_in(slots: &Slots, cond: Option<ValueId>) -> Option<bool>
    requires { MaybeIn slots.now cond }
    ensures { result ≡ holding.condition_in slots.now cond }
{
    match cond {
        Some(value) => test_in(slots, value),
        None => Some(true),
    }
}

/// Copies of the values that operands hold, where each holds one.
pub fn data_in(
    alloc: Global,
    slots: &Slots,
    operands: &[Typed],
) -> Result<Option<Vec<Val>>, NoMemory>
    requires { Each (λ (o : Operand). o.value.0 < length slots.now) operands.now }
    ensures { IfOk result (λ vs. option_map (λ v. map datum_of v.items) vs ≡ holding.data_in slots.now operands.now) }
{
    let mut values = Vec::with_capacity(alloc, operands.len())?;
    for operand in operands {
        match datum_in(slots, operand.value) {
            Some(value) => push_copy(&mut values, value)?,
            None => return Ok(None),
        }
    }
    Ok(Some(values))
}

fn push_copy(values: &mut Vec<Val>, value: &Val) -> Result<(), NoMemory>
    ensures { OnOk result (map datum_of values.new.items ≡ map datum_of values.old.items ++ datum_of value.now ∷ []) }
{
    let value = value.copy()?;
    values.push(value)?;
    Ok(())
}
