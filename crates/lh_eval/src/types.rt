//! What the signal that is a value carries, read from the line that gives the value.
ghost use Rattle.std.specs.Prelude.{◌≡◌, ◌<◌, map};
ghost use Rattle.std.specs.Option.{option_and_then, option_copied};
ghost use Rattle.lh_unit.specs.Arena.{unit_count, value_count, naming, unit_text_at};
ghost use Rattle.lh_unit.specs.Naming.{Naming, inst_text, value_text, operand_text};
ghost use Rattle.lh_unit.specs.Typing as typing;
ghost use Rattle.lh_unit.specs.Typing.{result_type, signal_of, first_type, operation_type, value_type};

use lh_types::op::Op;
use lh_types::ty::{Ty, carries_data};
use lh_unit::inst::{Inst, Typed, UnitId, ValueDef, ValueId};
use lh_unit::module::Module;

/// What the signal that is a value of a unit carries; `None` where the value is no signal. It is read from what defines
/// the value, in a time that does not grow with the unit.
pub fn carried_by(m: &Module, unit: UnitId, value: ValueId) -> Option<&Ty>
    requires unit { unit.0 < unit_count m.now }
    requires value { value.0 < value_count m.now unit.0 }
    ensures { option_copied result ≡ option_and_then typing.carried (value_type (unit_text_at m.now unit.0) (value_text (naming m.now unit.0) value)) }
{
    match m.value_def(unit, value) {
        ValueDef::Missing => None,
        ValueDef::Arg(number) => m.args(unit)[number as usize].ty.carried(),
        ValueDef::Inst(inst) => carried_by_inst(m.inst(unit, inst)),
    }
}

/// What the signal that an instruction gives carries.
fn carried_by_inst(inst: &Inst) -> Option<&Ty>
    ensures { (f : Naming) → option_copied result ≡ option_and_then typing.carried (result_type (inst_text f inst.now)) }
{
    match inst {
        Inst::Pure { op, args } => carried_by_operation(op, args.as_slice()),
        Inst::Sig(initial) => data(initial),
        Inst::Prb(signal) => carried_twice(signal),
        Inst::Ld(pointer) => carried_behind(pointer),
        Inst::Call {
            unit: _,
            result,
            args: _,
        } => result.carried(),
        Inst::Phi { ty, edges: _ } => ty.carried(),
        _ => None,
    }
}

/// The type that is written before an operand, where that is a data type.
fn data(operand: &Typed) -> Option<&Ty>
    ensures { option_copied result ≡ option_and_then typing.carried (option_and_then signal_of operand.now.ty) }
{
    match operand.ty.get() {
        Some(ty) if carries_data(ty) => Some(ty),
        _ => None,
    }
}

/// What is carried by what the type that is written carries; there is none such.
fn carried_twice(operand: &Typed) -> Option<&Ty>
    ensures { option_copied result ≡ option_and_then typing.carried (option_and_then typing.carried operand.now.ty) }
{
    match operand.ty.get() {
        Some(ty) => ty.carried()?.carried(),
        None => None,
    }
}

/// What is carried by what the type that is written points to; there is none such.
fn carried_behind(operand: &Typed) -> Option<&Ty>
    ensures { option_copied result ≡ option_and_then typing.carried (option_and_then typing.pointed operand.now.ty) }
{
    match operand.ty.get() {
        Some(ty) => ty.pointed()?.carried(),
        None => None,
    }
}

/// What the signal that an operation gives carries: where it is `extf` or `exts` of a signal, that is what is written.
fn carried_by_operation<'a>(op: &Op, args: &'a [Typed]) -> Option<&'a Ty>
    ensures { (f : Naming) → option_copied result ≡ option_and_then typing.carried (operation_type op.now (map (operand_text f) args.now)) }
{
    match op {
        Op::Eq
        | Op::Neq
        | Op::Slt
        | Op::Sgt
        | Op::Sle
        | Op::Sge
        | Op::Ult
        | Op::Ugt
        | Op::Ule
        | Op::Uge
        | Op::Array
        | Op::Repeat(_)
        | Op::Tuple => None,
        _ => carried_first(args),
    }
}

/// What the type that is written first carries.
fn carried_first(args: &[Typed]) -> Option<&Ty>
    ensures { (f : Naming) → option_copied result ≡ option_and_then typing.carried (first_type (map (operand_text f) args.now)) }
{
    if args.is_empty() {
        return None;
    }
    match args[0].ty.get() {
        Some(ty) => ty.carried(),
        None => None,
    }
}
