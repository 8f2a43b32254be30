//! What an operation gives: of values a value, of a signal its part.
ghost use Rattle.std.specs.Prelude.{◌≡◌, ◌+◌, ◌<◌, ◌^◌, List, [], ◌∷◌, length, map, Some, IfOk};
ghost use Rattle.std.specs.Option.{option_map, option_copied};
ghost use Rattle.lh_types.specs.Types.{IsData, bit_count, signal_type};
ghost use Rattle.lh_types.specs.Values.{Datum};
ghost use Rattle.lh_types.specs.ValueOf.{datum_of};
ghost use Rattle.lh_types.specs.Apply as rows;
ghost use Rattle.lh_types.specs.ApplyTypes.{FitsOp};
ghost use Rattle.lh_unit.specs.Arena.{unit_count, value_count, sizes, naming, unit_text_at};
ghost use Rattle.lh_unit.specs.Effects as effects;
ghost use Rattle.lh_unit.specs.Effects.{operated, stepped};
ghost use Rattle.lh_unit.specs.Held.{Env, part_held};
ghost use Rattle.lh_unit.specs.Naming.{operand_text, value_text};
ghost use Rattle.lh_unit.specs.Within.{Each, OperandWithin};
ghost use Rattle.lh_unit.specs.declared.inst.Typed.{Typed as Operand};
ghost use Rattle.lh_eval.specs.HeldOf.{maybe_held};
ghost use Rattle.lh_unit.specs.Typing.{value_type};
ghost use Rattle.lh_eval.specs.Holding as holding;
ghost use Rattle.lh_eval.specs.Holding.{Holds, one_datum, two_data, three_data};
ghost use Rattle.lh_eval.specs.Fitting.{PartFits, OperandsFit};

use crate::held::{Held, Slots};
use crate::operands::{data_in, datum_in, part_in};
use crate::put::with_field;
use crate::seen::{chosen, seen};
use crate::types::carried_by;
use lh_ops::apply;
use lh_types::memory::NoMemory;
use lh_types::op::Op;
use lh_types::part::{Range, Step, range_of};
use lh_types::ty::Ty;
use lh_types::val::{Val, ValList};
use lh_unit::inst::{Typed, UnitId};
use lh_unit::module::Module;
use std::alloc::Global;
use std::slice;

/// What an operation of a unit gives: the value of the operands where each holds a value; or else the part of a signal
/// that `extf` or `exts` names; `None` where an operand holds neither.
pub fn operate(
    alloc: Global,
    m: &Module,
    unit: UnitId,
    op: &Op,
    args: &[Typed],
    slots: &Slots,
) -> Result<Option<Held>, NoMemory>
    requires unit { unit.0 < unit_count m.now }
    requires args { Each (OperandWithin (sizes m.now unit.0)) args.now }
    requires slots { length slots.now ≡ value_count m.now unit.0 }
    requires fit { OperandsFit m.now unit.0 slots.now op.now args.now }
    ensures { (e : Env) → Holds m.now unit.0 slots.now e → IfOk result (λ h. maybe_held h ≡ operated (unit_text_at m.now unit.0) e op.now (map (operand_text (naming m.now unit.0)) args.now)) }
{
    if let Some(value) = applied(alloc, op, slots, args)? {
        return Ok(Some(Held::Datum(value)));
    }
    match signal_part(m, unit, op, args, slots) {
        Some(range) => Ok(Some(Held::Part(range))),
        None => Ok(None),
    }
}

/// The value of an operation on what its operands hold, where each holds a value. Only an array or a struct takes a list of
/// them, as its parts.
fn applied(alloc: Global, op: &Op, slots: &Slots, args: &[Typed]) -> Result<Option<Val>, NoMemory>
    requires args { Each (λ (o : Operand). o.value.0 < length slots.now) args.now }
    requires fit { (ds : List Datum) → holding.data_in slots.now args.now ≡ Some ds → FitsOp op.now ds }
    ensures { IfOk result (λ v. option_map datum_of v ≡ option_map (rows.apply op.now) (holding.data_in slots.now args.now)) }
{
    if keeps_operands(op) {
        return applied_to_all(alloc, op, slots, args);
    }
    if args.len() == 1 {
        return applied_to_one(alloc, op, datum_in(slots, args[0].value));
    }
    if args.len() == 2 {
        let first = datum_in(slots, args[0].value);
        return applied_to_two(alloc, op, first, datum_in(slots, args[1].value));
    }
    if args.len() == 3 {
        let first = datum_in(slots, args[0].value);
        let second = datum_in(slots, args[1].value);
        return applied_to_three(alloc, op, first, second, datum_in(slots, args[2].value));
    }
    applied_to_all(alloc, op, slots, args)
}

/// Whether the values of the operands are the parts of what the operation gives.
fn keeps_operands(op: &Op) -> bool {
    match op {
        Op::Array | Op::Tuple => true,
        _ => false,
    }
}

fn applied_to_one(alloc: Global, op: &Op, a: Option<&Val>) -> Result<Option<Val>, NoMemory>
    requires { (ds : List Datum) → one_datum (option_map datum_of (option_copied a)) ≡ Some ds → FitsOp op.now ds }
    ensures { IfOk result (λ v. option_map datum_of v ≡ option_map (rows.apply op.now) (one_datum (option_map datum_of (option_copied a.entry)))) }
{
    match a {
        Some(a) => {
            let value = apply(alloc, op, slice::from_ref(a))?;
            Ok(Some(value))
        }
        None => Ok(None),
    }
}

fn applied_to_two(
    alloc: Global,
    op: &Op,
    a: Option<&Val>,
    b: Option<&Val>,
) -> Result<Option<Val>, NoMemory>
    requires { (ds : List Datum) → two_data (option_map datum_of (option_copied a)) (option_map datum_of (option_copied b)) ≡ Some ds → FitsOp op.now ds }
    ensures { IfOk result (λ v. option_map datum_of v ≡ option_map (rows.apply op.now) (two_data (option_map datum_of (option_copied a.entry)) (option_map datum_of (option_copied b.entry)))) }
{
    let Some(a) = a else {
        return Ok(None);
    };
    let Some(b) = b else {
        return Ok(None);
    };
    let value = of_two(alloc, op, a, b)?;
    Ok(Some(value))
}

/// The value of an operation on two values. They are copied only where the operation cannot be told from a look at them.
fn of_two(alloc: Global, op: &Op, a: &Val, b: &Val) -> Result<Val, NoMemory>
    requires { FitsOp op.now (datum_of a.now ∷ datum_of b.now ∷ []) }
    ensures { IfOk result (λ v. datum_of v ≡ rows.apply op.now (datum_of a.now ∷ datum_of b.now ∷ [])) }
{
    if let Some(value) = seen(op, a, b) {
        return Ok(value);
    }
    if let Some(element) = chosen(op, a, b) {
        return element.copy();
    }
    if let Op::Insf(k) = op {
        return with_field(a, *k, b);
    }
    let a = a.copy()?;
    let b = b.copy()?;
    apply(alloc, op, &[a, b])
}

fn applied_to_three(
    alloc: Global,
    op: &Op,
    a: Option<&Val>,
    b: Option<&Val>,
    c: Option<&Val>,
) -> Result<Option<Val>, NoMemory>
    requires { (ds : List Datum) → three_data (option_map datum_of (option_copied a)) (option_map datum_of (option_copied b)) (option_map datum_of (option_copied c)) ≡ Some ds → FitsOp op.now ds }
    ensures { IfOk result (λ v. option_map datum_of v ≡ option_map (rows.apply op.now) (three_data (option_map datum_of (option_copied a.entry)) (option_map datum_of (option_copied b.entry)) (option_map datum_of (option_copied c.entry)))) }
{
    let Some(a) = a else {
        return Ok(None);
    };
    let Some(b) = b else {
        return Ok(None);
    };
    let Some(c) = c else {
        return Ok(None);
    };
    let value = of_three(alloc, op, a, b, c)?;
    Ok(Some(value))
}

/// The value of an operation on three values.
fn of_three(alloc: Global, op: &Op, a: &Val, b: &Val, c: &Val) -> Result<Val, NoMemory>
    requires { FitsOp op.now (datum_of a.now ∷ datum_of b.now ∷ datum_of c.now ∷ []) }
    ensures { IfOk result (λ v. datum_of v ≡ rows.apply op.now (datum_of a.now ∷ datum_of b.now ∷ datum_of c.now ∷ [])) }
{
    let a = a.copy()?;
    let b = b.copy()?;
    let c = c.copy()?;
    apply(alloc, op, &[a, b, c])
}

fn applied_to_all(
    alloc: Global,
    op: &Op,
    slots: &Slots,
    args: &[Typed],
) -> Result<Option<Val>, NoMemory>
    requires args { Each (λ (o : Operand). o.value.0 < length slots.now) args.now }
    requires fit { (ds : List Datum) → holding.data_in slots.now args.now ≡ Some ds → FitsOp op.now ds }
    ensures { IfOk result (λ v. option_map datum_of v ≡ option_map (rows.apply op.now) (holding.data_in slots.now args.now)) }
{
    match data_in(alloc, slots, args)? {
        Some(values) => {
            let value = applied_to_these(alloc, op, values)?;
            Ok(Some(value))
        }
        None => Ok(None),
    }
}

/// The value of an operation on these values; an array or a struct takes them as its parts, without a copy.
#[tactic(auto, unfolding(lh_types::specs::Apply::apply))]
fn applied_to_these(alloc: Global, op: &Op, values: Vec<Val>) -> Result<Val, NoMemory>
    requires { FitsOp op.now (map datum_of values.items) }
    ensures { IfOk result (λ v. datum_of v ≡ rows.apply op.now (map datum_of values.items)) }
{
    match op {
        Op::Array => Ok(Val::Array(ValList::from_vec(values))),
        Op::Tuple => Ok(Val::Tuple(ValList::from_vec(values))),
        _ => apply(alloc, op, values.as_slice()),
    }
}

/// The part of a signal that `extf` or `exts` names.
fn signal_part(m: &Module, unit: UnitId, op: &Op, args: &[Typed], slots: &Slots) -> Option<Range>
    requires unit { unit.0 < unit_count m.now }
    requires args { Each (OperandWithin (sizes m.now unit.0)) args.now }
    requires slots { length slots.now ≡ value_count m.now unit.0 }
    requires fit { OperandsFit m.now unit.0 slots.now op.now args.now }
    ensures { (e : Env) → Holds m.now unit.0 slots.now e → option_map part_held result ≡ effects.signal_part (unit_text_at m.now unit.0) e op.now (map (operand_text (naming m.now unit.0)) args.now) }
{
    if args.len() != 1 {
        return None;
    }
    stepped_part(m, unit, op, &args[0], slots)
}

/// The part of the signal that an operand holds to which an operation leads.
fn stepped_part(m: &Module, unit: UnitId, op: &Op, arg: &Typed, slots: &Slots) -> Option<Range>
    requires unit { unit.0 < unit_count m.now }
    requires arg { arg.now.value.0 < value_count m.now unit.0 }
    requires slots { length slots.now ≡ value_count m.now unit.0 }
    requires fit { PartFits m.now unit.0 slots.now arg.now.value }
    ensures { option_map part_held result ≡ stepped (value_type (unit_text_at m.now unit.0) (value_text (naming m.now unit.0) arg.now.value)) (holding.part_in slots.now arg.now.value) (effects.step_of op.now) }
{
    let step = step_of(op)?;
    let whole = part_in(slots, arg.value)?;
    let carried = carried_by(m, unit, arg.value)?;
    step_into(carried, whole, step)
}

/// The step into a signal that an operation takes.
fn step_of(op: &Op) -> Option<Step>
    ensures { result ≡ effects.step_of op.now }
{
    match op {
        Op::Extf(k) => Some(Step::Field(*k)),
        Op::Exts { at, len } => Some(Step::Slice { at: *at, len: *len }),
        _ => None,
    }
}

/// The part of a part of the signals, which carries this type, that a step leads to.
fn step_into(carried: &Ty, whole: Range, step: Step) -> Option<Range>
    requires data { IsData carried.now }
    requires within { whole.lo + bit_count carried.now < 2 ^ 32 }
    ensures { option_map part_held result ≡ stepped (Some (signal_type carried.now)) (Some whole) (Some step) }
{
    let part = range_of(carried, &[step])?;
    Some(Range {
        lo: whole.lo + part.lo,
        len: part.len,
    })
}
