//! The triggers of an entity, found in its text: which bits of the signals they are.
ghost use Rattle.std.specs.Prelude.{◌≡◌, ◌<◌, ◌++◌, List, Some, IfOk, IfSome, IsTrue, length, map};
ghost use Rattle.std.specs.Option.{option_and_then};
ghost use Rattle.lh_types.specs.Types.{int_type};
ghost use Rattle.lh_types.specs.declared.part.Range.{Range as Part};
ghost use Rattle.lh_unit.specs.Contents.{TriggerText};
ghost use Rattle.lh_unit.specs.Typing.{carried};
ghost use Rattle.lh_unit.specs.Naming.{value_text, operand_text, trigger_text};
ghost use Rattle.lh_unit.specs.Within.{Each, OperandWithin, TriggerWithin};
ghost use Rattle.lh_unit.specs.Arena.{IsArena, unit_count, value_count, inst_count, sizes, kind_at, contents, naming, unit_text_at, block_insts_at};
ghost use Rattle.lh_unit.specs.WellFormed.{IsWellFormed};
ghost use Rattle.lh_react.specs.Standing.{line_in};
ghost use Rattle.lh_react.specs.TriggerBits.{IsBitAt, IsIntAt, IsSameAt, AreSameAt, GateIs, IsTriggerBit, AreTriggerBits, HasTriggers, AddsTriggers};

use crate::triggers::{Gate, TriggerBit};
use lh_types::list::ListOf;
use lh_types::memory::NoMemory;
use lh_types::op::Op;
use lh_types::part::Range;
use lh_types::ty::{Ty, TyKind};
use lh_unit::inst::{Inst, InstId, RegTrigger, Typed, UnitId, UnitKind, ValueDef, ValueId};
use lh_unit::module::Module;
use std::alloc::Global;

/// The triggers of an entity in text order, where its arguments have these ranges: each is the bit of a probe of an argument. `None` where one is not,
/// or where the entity has a drive beside its registers.
pub(crate) fn triggers_of(
    alloc: Global,
    m: &Module,
    unit: UnitId,
    insts: &[InstId],
    args: &[Range],
) -> Result<Option<ListOf<TriggerBit>>, NoMemory>
    requires arena { IsArena m.now }
    requires unit { unit.0 < unit_count m.now }
    requires entity { kind_at m.now unit.0 ≡ Some UnitKind.Entity }
    requires formed { IsWellFormed (contents m.now) }
    requires insts { insts.now ≡ block_insts_at m.now unit.0 0 }
    ensures { IfOk result (λ o. IfSome o (HasTriggers (unit_text_at m.now unit.0) args.now)) }
{
    let mut bits = ListOf::new(alloc);
    for inst in insts {
        if !add_triggers(m, unit, *inst, args, &mut bits)? {
            return Ok(None);
        }
    }
    Ok(Some(bits))
}

/// Adds the triggers of an instruction. The answer says whether they were found, and it is no drive.
fn add_triggers(
    m: &Module,
    unit: UnitId,
    inst: InstId,
    args: &[Range],
    bits: &mut ListOf<TriggerBit>,
) -> Result<bool, NoMemory>
    requires unit { unit.0 < unit_count m.now }
    requires entity { kind_at m.now unit.0 ≡ Some UnitKind.Entity }
    requires formed { IsWellFormed (contents m.now) }
    requires inst { inst.0 < inst_count m.now unit.0 }
    ensures { IfOk result (λ found. IsTrue found → AddsTriggers (unit_text_at m.now unit.0) args.now (line_in m.now unit.0 inst).inst bits.old bits.new) }
{
    match m.inst(unit, inst) {
        Inst::Drv { .. } => Ok(false),
        Inst::Reg { to: _, triggers } => add_register(m, unit, triggers.as_slice(), args, bits),
        _ => Ok(true),
    }
}

/// Adds the triggers of a register. The answer says whether they were found.
fn add_register(
    m: &Module,
    unit: UnitId,
    triggers: &[RegTrigger],
    args: &[Range],
    bits: &mut ListOf<TriggerBit>,
) -> Result<bool, NoMemory>
    requires unit { unit.0 < unit_count m.now }
    requires entity { kind_at m.now unit.0 ≡ Some UnitKind.Entity }
    requires formed { IsWellFormed (contents m.now) }
    requires within { Each (TriggerWithin (sizes m.now unit.0)) triggers.now }
    ensures { IfOk result (λ found. IsTrue found → (before : List TriggerText) → AreTriggerBits (unit_text_at m.now unit.0) args.now before bits.old
        → AreTriggerBits (unit_text_at m.now unit.0) args.now (before ++ map (trigger_text (naming m.now unit.0)) triggers.now) bits.new) }
{
    for trigger in triggers {
        let Some(bit) = trigger_bit(m, unit, trigger, args) else {
            return Ok(false);
        };
        bits.push(bit)?;
    }
    Ok(true)
}

/// A trigger as a bit of the signals, where it is the bit of a probe of an argument.
fn trigger_bit(m: &Module, unit: UnitId, trigger: &RegTrigger, args: &[Range]) -> Option<TriggerBit>
    requires unit { unit.0 < unit_count m.now }
    requires entity { kind_at m.now unit.0 ≡ Some UnitKind.Entity }
    requires formed { IsWellFormed (contents m.now) }
    requires within { TriggerWithin (sizes m.now unit.0) trigger.now }
    ensures { IfSome result (IsTriggerBit (unit_text_at m.now unit.0) args.now (trigger_text (naming m.now unit.0) trigger.now)) }
{
    let Some(at) = probed_bit(m, unit, trigger.trigger, args) else {
        return None;
    };
    let gate = match trigger.gate {
        Some(value) => gate_of(m, unit, value, args),
        None => Gate::Unknown,
    };
    Some(TriggerBit {
        mode: trigger.mode,
        at,
        gate,
    })
}

/// What is known of a gate: it is such a bit too, or compares two integers of probes.
fn gate_of(m: &Module, unit: UnitId, value: ValueId, args: &[Range]) -> Gate
    requires unit { unit.0 < unit_count m.now }
    requires entity { kind_at m.now unit.0 ≡ Some UnitKind.Entity }
    requires formed { IsWellFormed (contents m.now) }
    requires value { value.0 < value_count m.now unit.0 }
    ensures { GateIs (unit_text_at m.now unit.0) args.now (Some (value_text (naming m.now unit.0) value)) result }
{
    if let Some(at) = probed_bit(m, unit, value, args) {
        return Gate::Bit(at);
    }
    match compared_parts(m, unit, value, args) {
        Some((left, right)) => Gate::Same(left, right),
        None => Gate::Unknown,
    }
}

/// The parts whose integers a value compares, where it is the `eq` of two integers of one width that a `prb` of an argument gives.
fn compared_parts(
    m: &Module,
    unit: UnitId,
    value: ValueId,
    args: &[Range],
) -> Option<(Range, Range)>
    requires unit { unit.0 < unit_count m.now }
    requires entity { kind_at m.now unit.0 ≡ Some UnitKind.Entity }
    requires formed { IsWellFormed (contents m.now) }
    requires value { value.0 < value_count m.now unit.0 }
    ensures { IfSome result (λ (r : Part × Part). IsSameAt (unit_text_at m.now unit.0) args.now (value_text (naming m.now unit.0) value) r.0 r.1) }
{
    let ValueDef::Inst(inst) = m.value_def(unit, value) else {
        return None;
    };
    match m.inst(unit, inst) {
        Inst::Pure { op, args: operands } => {
            if !is_eq(op) {
                return None;
            }
            both_parts(m, unit, operands.as_slice(), args)
        }
        _ => None,
    }
}

fn is_eq(op: &Op) -> bool
    ensures { IsTrue result → op.now ≡ Op.Eq }
{
    match op {
        Op::Eq => true,
        _ => false,
    }
}

/// The parts of two operands, where each is an integer that a `prb` of an argument gives, both of one width.
fn both_parts(
    m: &Module,
    unit: UnitId,
    operands: &[Typed],
    args: &[Range],
) -> Option<(Range, Range)>
    requires unit { unit.0 < unit_count m.now }
    requires entity { kind_at m.now unit.0 ≡ Some UnitKind.Entity }
    requires formed { IsWellFormed (contents m.now) }
    requires within { Each (OperandWithin (sizes m.now unit.0)) operands.now }
    ensures { IfSome result (λ (r : Part × Part). AreSameAt (unit_text_at m.now unit.0) args.now (map (operand_text (naming m.now unit.0)) operands.now) r.0 r.1) }
{
    if operands.len() != 2 {
        return None;
    }
    let Some(left) = probed_part(m, unit, operands[0].value, args) else {
        return None;
    };
    let Some(right) = probed_part(m, unit, operands[1].value, args) else {
        return None;
    };
    if left.len != right.len {
        return None;
    }
    Some((left, right))
}

/// The place of the bit that a value is in each pass, where it is what a `prb` of an argument of one bit gives.
fn probed_bit(m: &Module, unit: UnitId, value: ValueId, args: &[Range]) -> Option<u32>
    requires unit { unit.0 < unit_count m.now }
    requires entity { kind_at m.now unit.0 ≡ Some UnitKind.Entity }
    requires formed { IsWellFormed (contents m.now) }
    requires value { value.0 < value_count m.now unit.0 }
    ensures { IfSome result (IsBitAt (unit_text_at m.now unit.0) args.now (value_text (naming m.now unit.0) value)) }
{
    let Some(part) = probed_part(m, unit, value, args) else {
        return None;
    };
    if part.len == 1 { Some(part.lo) } else { None }
}

/// The part whose integer a value is in each pass, where it is what a `prb` of an argument gives.
fn probed_part(m: &Module, unit: UnitId, value: ValueId, args: &[Range]) -> Option<Range>
    requires unit { unit.0 < unit_count m.now }
    requires entity { kind_at m.now unit.0 ≡ Some UnitKind.Entity }
    requires formed { IsWellFormed (contents m.now) }
    requires value { value.0 < value_count m.now unit.0 }
    ensures { IfSome result (IsIntAt (unit_text_at m.now unit.0) args.now (value_text (naming m.now unit.0) value)) }
{
    let ValueDef::Inst(inst) = m.value_def(unit, value) else {
        return None;
    };
    let Inst::Prb(signal) = m.inst(unit, inst) else {
        return None;
    };
    let ValueDef::Arg(number) = m.value_def(unit, signal.value) else {
        return None;
    };
    let Some(width) = carried_width(signal) else {
        return None;
    };
    if number as usize >= args.len() {
        return None;
    }
    let part = args[number as usize];
    if part.len == width { Some(part) } else { None }
}

/// How many bits the integers have that a signal of the type carries that is written before an operand.
fn carried_width(operand: &Typed) -> Option<u32>
    ensures { IfSome result (λ n. option_and_then carried operand.now.ty ≡ Some (int_type n)) }
{
    match operand.ty.get() {
        Some(ty) => signal_width(ty),
        None => None,
    }
}

fn signal_width(ty: &Ty) -> Option<u32>
    ensures { IfSome result (λ n. carried ty.now ≡ Some (int_type n)) }
{
    match ty.kind() {
        TyKind::Signal(of) => int_width(of),
        _ => None,
    }
}

fn int_width(ty: &Ty) -> Option<u32>
    ensures { IfSome result (λ n. ty.now ≡ int_type n) }
{
    match ty.kind() {
        TyKind::Int(width) => Some(width),
        _ => None,
    }
}
