//! Steps from a signal to a part of it.
ghost use Rattle.std.specs.Prelude.{◌≡◌, ◌+◌, ◌<◌, ◌^◌, Some, IfOk, IfSome, IsSome};
ghost use Rattle.std.specs.Option.{option_and_then};
ghost use Rattle.lh_types.specs.Types.{IsData};
ghost use Rattle.lh_types.specs.declared.part.Range.{Range as Bits};
ghost use Rattle.lh_unit.specs.Typing.{carried};
ghost use Rattle.lh_unit.specs.Effects.{step_of};
ghost use Rattle.lh_flat_parts.specs.Steps as spec;

use lh_term::part::Part;
use lh_types::memory::NoMemory;
use lh_types::op::Op;
use lh_types::part::{Range, Step, range_of};
use lh_types::ty::{Ty, TyKind};
use lh_unit::inst::{Inst, OperandList, Typed, ValueId};

/// A step from one signal to a part of it: the value that it starts from, the operation, and the type of the part.
#[derive(Drop)]
pub struct PartStep {
    pub from: ValueId,
    pub op: Op,
    pub ty: Ty,
}

/// The step that an instruction is, where it is an `extf` or `exts` of a signal.
pub fn step_in(inst: &Inst) -> Result<Option<PartStep>, NoMemory>
    ensures step { IfOk result (λ step. step ≡ spec.step_in inst.now) }
    ensures data { IfOk result (λ step. IfSome step (λ s. IsData s.ty)) }
{
    match inst {
        Inst::Pure { op, args } => step_on(*op, args),
        _ => Ok(None),
    }
}

fn step_on(op: Op, args: &OperandList) -> Result<Option<PartStep>, NoMemory>
    ensures step { IfOk result (λ step. step ≡ spec.step_on op args.now) }
    ensures data { IfOk result (λ step. IfSome step (λ s. IsData s.ty)) }
{
    match args.as_slice() {
        [whole] => step_from(op, whole),
        _ => Ok(None),
    }
}

fn step_from(op: Op, whole: &Typed) -> Result<Option<PartStep>, NoMemory>
    ensures step { IfOk result (λ step. step ≡ spec.step_if op whole.now.value (step_of op) (option_and_then carried whole.now.ty)) }
    ensures data { IfOk result (λ step. IfSome step (λ s. IsData s.ty)) }
{
    let Some(_) = step_into(op) else {
        return Ok(None);
    };
    match whole.ty.get() {
        Some(ty) => step_of_signal(op, whole.value, ty),
        None => Ok(None),
    }
}

/// The step of an operation that is one.
fn step_of_signal(op: Op, from: ValueId, ty: &Ty) -> Result<Option<PartStep>, NoMemory>
    requires { IsSome (step_of op) }
    ensures step { IfOk result (λ step. step ≡ spec.step_if op from (step_of op) (carried ty.now)) }
    ensures data { IfOk result (λ step. IfSome step (λ s. IsData s.ty)) }
{
    match ty.kind() {
        TyKind::Signal(of) => Ok(Some(PartStep {
            from,
            op,
            ty: of.copy()?,
        })),
        _ => Ok(None),
    }
}

/// The step that an operation takes, if it is one.
fn step_into(op: Op) -> Option<Step>
    ensures { result ≡ step_of op }
{
    match op {
        Op::Extf(k) => Some(Step::Field(k)),
        Op::Exts { at, len } => Some(Step::Slice { at, len }),
        _ => None,
    }
}

/// The bits of a type that an operation takes, if it is a step that fits.
fn range_by(ty: &Ty, op: Op) -> Option<Range>
    requires { IsData ty.now }
    ensures { result ≡ spec.range_by ty.now op }
{
    match step_into(op) {
        Some(step) => range_of(ty, &[step]),
        None => None,
    }
}

/// The part that a step leads to, if the step fits.
pub fn stepped(from: &Part, step: &PartStep) -> Result<Option<Part>, NoMemory>
    requires is_data { IsData from.now.ty }
    requires in_range { (r : Bits) → spec.range_by from.now.ty step.now.op ≡ Some r → from.now.lo + r.lo < 2 ^ 32 }
    ensures { IfOk result (λ p. p ≡ spec.stepped from.now step.now) }
{
    match range_by(&from.ty, step.op) {
        Some(range) => Ok(Some(Part {
            arg: from.arg,
            lo: from.lo + range.lo,
            ty: step.ty.copy()?,
        })),
        None => Ok(None),
    }
}
