//! The type and the kind of what an instruction gives.
ghost use Rattle.std.specs.Prelude.{◌≡◌, Option, Some, None, Ok, map, option_map, IfOk, if◌then◌else◌};
ghost use Rattle.std.specs.Option.{option_copied, option_and_then};
ghost use Rattle.lh_types.specs.Types.{TypeTree, int_type, row_of};
ghost use Rattle.lh_types.specs.Kind.{type_of_kind};
ghost use Rattle.lh_types.specs.ValueOf.{datum_of};
ghost use Rattle.lh_types.specs.Faults.{MakesType};
ghost use Rattle.lh_unit.specs.Naming.{Naming, operand_text, inst_text};
ghost use Rattle.lh_unit.specs.Typing as spec;
ghost use Rattle.lh_unit.specs.Typing.{if_made, array_made, tuple_made, pointer_to, signal_of, pointed, carried};
ghost use Rattle.lh_unit.specs.Kinds as kinds;
ghost use Rattle.lh_verify_values.specs.Facts.{kind_as};
ghost use Rattle.lh_verify_values.specs.Given.{type_given};
ghost use Rattle.lh_verify_values.specs.Rows.{rows_joined};

use crate::scope::ValueKind;
use lh_types::memory::NoMemory;
use lh_types::op::OpClass;
use lh_types::ty::{Ty, TyFault, TyKind, TyList, carries_data};
use lh_types::val::Val;
use lh_unit::inst::{Inst, Typed};
use std::alloc::Global;

/// The type of what an instruction gives: one that the instruction holds, or one that was made.
#[derive(Drop)]
pub enum GivenType<'a> {
    Held(&'a Ty),
    Made(Ty),
}

impl GivenType<'_> {
    /// The type.
    pub fn get(&self) -> &Ty
        ensures { result.now ≡ type_given self.now }
    {
        match self {
            GivenType::Held(ty) => ty,
            GivenType::Made(ty) => ty,
        }
    }
}

fn held(ty: Option<&Ty>) -> Option<GivenType<'_>>
    ensures { option_map type_given result ≡ option_copied ty.entry }
{
    Some(GivenType::Held(ty?))
}

fn given<'a>(ty: Result<Option<Ty>, NoMemory>) -> Result<Option<GivenType<'a>>, NoMemory>
    ensures { IfOk result (λ o. ty ≡ Ok (option_map type_given o)) }
{
    match ty {
        Ok(Some(ty)) => Ok(Some(GivenType::Made(ty))),
        Ok(None) => Ok(None),
        Err(NoMemory) => Err(NoMemory),
    }
}

/// The type that was made, if there is such a type.
fn made(ty: Result<Ty, TyFault>) -> Result<Option<Ty>, NoMemory>
    ensures { (fault : Option TyFault) (t : TypeTree) → MakesType ty fault t → IfOk result (λ o. o ≡ if_made fault t) }
{
    match ty {
        Ok(ty) => Ok(Some(ty)),
        Err(TyFault::OutOfMemory) => Err(NoMemory),
        Err(_) => Ok(None),
    }
}

/// The type of a constant: an integer or a time.
fn constant_type(value: &Val) -> Result<Option<Ty>, NoMemory>
    ensures { IfOk result (λ o. o ≡ spec.constant_type (datum_of value.now)) }
{
    match value {
        Val::Int { width, bits: _ } => made(Ty::int(*width)),
        Val::Time(_) => Ok(Some(Ty::time())),
        Val::Array(_) | Val::Tuple(_) => Ok(None),
    }
}

/// The array of this many elements of a type, if there is such a type.
fn array_of(alloc: Global, len: usize, of: &Ty) -> Result<Option<Ty>, NoMemory>
    ensures { IfOk result (λ o. o ≡ array_made len of.now) }
{
    if !carries_data(of) {
        return Ok(None);
    }
    if len > 65536 {
        return Ok(None);
    }
    let of = of.copy()?;
    made(Ty::array(alloc, len as u32, of))
}

/// The array of this many elements of the type that is written before the first operand.
fn array_type(alloc: Global, len: usize, args: &[Typed]) -> Result<Option<Ty>, NoMemory>
    ensures { (f : Naming) → IfOk result (λ o. o ≡ option_and_then (array_made len) (spec.first_type (map (operand_text f) args.now))) }
{
    match args.split_first() {
        None => Ok(None),
        Some((first, _)) => match first.ty.get() {
            None => Ok(None),
            Some(of) => array_of(alloc, len, of),
        },
    }
}

/// The type of a truth value, which a comparison gives.
fn bit_type() -> Result<Option<Ty>, NoMemory>
    ensures { IfOk result (λ o. o ≡ Some (int_type 1)) }
{
    made(Ty::int(1))
}

/// The types that are written before the operands, where each has one.
fn written_types(alloc: Global, args: &[Typed]) -> Result<Option<TyList>, NoMemory>
    ensures { (f : Naming) → IfOk result (λ o. option_map row_of o ≡ spec.operand_types (map (operand_text f) args.now)) }
{
    let mut list = TyList::with_room(alloc, args.len())?;
    let each_has_one = put_written(&mut list, args)?;
    Ok(if each_has_one { Some(list) } else { None })
}

/// Adds the types that are written before operands, up to the first that has none; whether each has one.
fn put_written(list: &mut TyList, args: &[Typed]) -> Result<bool, NoMemory>
    ensures { (f : Naming) → IfOk result (λ all. rows_joined list.old (spec.operand_types (map (operand_text f) args.now)) ≡ (if all then Some (row_of list.new) else None)) }
{
    for operand in args {
        match operand.ty.get() {
            None => return Ok(false),
            Some(ty) => list.push(ty.copy()?)?,
        }
    }
    Ok(true)
}

/// The struct that holds the operands.
fn struct_of(alloc: Global, args: &[Typed]) -> Result<Option<Ty>, NoMemory>
    ensures { (f : Naming) → IfOk result (λ o. o ≡ option_and_then tuple_made (spec.operand_types (map (operand_text f) args.now))) }
{
    match written_types(alloc, args)? {
        None => Ok(None),
        Some(fields) => made(Ty::tuple(fields)),
    }
}

/// The type that is written before the first operand.
fn first_type(args: &[Typed]) -> Option<&Ty>
    ensures { (f : Naming) → option_copied result ≡ spec.first_type (map (operand_text f) args.now) }
{
    match args.split_first() {
        None => None,
        Some((first, _)) => first.ty.get(),
    }
}

/// The type of what the operations of a class give.
fn class_type(
    alloc: Global,
    class: OpClass,
    args: &[Typed],
) -> Result<Option<GivenType<'_>>, NoMemory>
    ensures { (f : Naming) → IfOk result (λ o. option_map type_given o ≡ spec.class_type class (map (operand_text f) args.now)) }
{
    match class {
        OpClass::Relation | OpClass::Equality => given(bit_type()),
        OpClass::Array => given(array_type(alloc, args.len(), args)),
        OpClass::Repeat(n) => given(array_type(alloc, n as usize, args)),
        OpClass::Tuple => given(struct_of(alloc, args)),
        OpClass::Unary
        | OpClass::Binary
        | OpClass::Shift
        | OpClass::Select
        | OpClass::TakePart(_)
        | OpClass::PutPart(_) => Ok(held(first_type(args))),
    }
}

/// The pointer to the type that is written before an operand, if there is such a type.
fn pointer_type(alloc: Global, to: &Typed) -> Result<Option<Ty>, NoMemory>
    ensures { IfOk result (λ o. o ≡ option_and_then pointer_to to.now.ty) }
{
    match to.ty.get() {
        None => Ok(None),
        Some(ty) => {
            if !ty.is_value_type() {
                return Ok(None);
            }
            let ty = ty.copy()?;
            made(Ty::pointer(alloc, ty))
        }
    }
}

/// The signal of the type that is written before an operand, if there is such a type.
fn signal_type(alloc: Global, of: &Typed) -> Result<Option<Ty>, NoMemory>
    ensures { IfOk result (λ o. o ≡ option_and_then signal_of of.now.ty) }
{
    match of.ty.get() {
        None => Ok(None),
        Some(ty) => {
            if !carries_data(ty) {
                return Ok(None);
            }
            let ty = ty.copy()?;
            made(Ty::signal(alloc, ty))
        }
    }
}

/// What the pointer that is written before an operand points to.
fn pointed_type(from: &Typed) -> Option<&Ty>
    ensures { option_copied result ≡ option_and_then pointed from.now.ty }
{
    from.ty.get()?.pointed()
}

/// What the signal that is written before an operand carries.
fn carried_type(from: &Typed) -> Option<&Ty>
    ensures { option_copied result ≡ option_and_then carried from.now.ty }
{
    from.ty.get()?.carried()
}

/// The type of what an instruction gives, where it gives something that has a type.
pub fn result_type(alloc: Global, inst: &Inst) -> Result<Option<GivenType<'_>>, NoMemory>
    ensures { (f : Naming) → IfOk result (λ o. option_map type_given o ≡ spec.result_type (inst_text f inst.now)) }
{
    match inst {
        Inst::Const(value) => {
            let value = value.value()?;
            given(constant_type(&value))
        }
        Inst::Pure { op, args } => class_type(alloc, op.class(), args.as_slice()),
        Inst::Var(of) => given(pointer_type(alloc, of)),
        Inst::Ld(from) => Ok(held(pointed_type(from))),
        Inst::Sig(of) => given(signal_type(alloc, of)),
        Inst::Prb(of) => Ok(held(carried_type(of))),
        Inst::Call { result: ty, .. } => Ok(Some(GivenType::Held(ty))),
        Inst::Phi { ty, edges: _ } => Ok(Some(GivenType::Held(ty))),
        _ => Ok(None),
    }
}

/// The kind of a value of this type; `void` is none.
pub fn kind_of(ty: TyKind<'_>) -> Option<ValueKind>
    ensures { option_map kind_as result ≡ kinds.kind_of (type_of_kind ty.entry) }
{
    match ty {
        TyKind::Int(_) | TyKind::Array(_, _) | TyKind::Tuple(_) => Some(ValueKind::Datum),
        TyKind::Time => Some(ValueKind::Time),
        TyKind::Signal(_) => Some(ValueKind::Signal),
        TyKind::Pointer(_) => Some(ValueKind::Pointer),
        TyKind::Void => None,
    }
}

/// The kind of what an instruction gives, with the type that it has: `var` gives a pointer and `sig` a signal, also
/// where no type is such.
pub fn result_kind(inst: &Inst, ty: Option<&Ty>) -> Option<ValueKind>
    ensures { (f : Naming) → option_copied ty.entry ≡ spec.result_type (inst_text f inst.now) → option_map kind_as result ≡ kinds.result_kind (inst_text f inst.now) }
{
    match inst {
        Inst::Var(_) => Some(ValueKind::Pointer),
        Inst::Sig(_) => Some(ValueKind::Signal),
        _ => kind_of(ty?.kind()),
    }
}
