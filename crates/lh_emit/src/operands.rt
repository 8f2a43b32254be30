//! Operands of the instructions of an entity, with the types that stand before them.
ghost use Rattle.std.specs.Prelude.{◌≡◌, ◌++◌, map, None, IfOk, OnOk};
ghost use Rattle.lh_types.specs.Types.{IsData, signal_type};
ghost use Rattle.lh_emit.specs.Operands.{with_type, without_type, first_with_type};

use lh_types::memory::NoMemory;
use lh_types::ty::Ty;
use lh_types::written::WrittenTy;
use lh_unit::inst::{Typed, TypedList, ValueId};
use std::alloc::Global;

/// A value with this type before it.
pub fn typed(alloc: Global, value: ValueId, ty: &Ty) -> Result<Typed, NoMemory>
    ensures { IfOk result (λ operand. operand ≡ with_type ty.now value) }
{
    Ok(Typed {
        value,
        ty: WrittenTy::new(alloc, Some(ty.copy()?))?,
    })
}

/// A value without a type.
fn bare(value: ValueId, none: &WrittenTy) -> Result<Typed, NoMemory>
    requires { none.now ≡ None }
    ensures { IfOk result (λ operand. operand ≡ without_type value) }
{
    let ty = none.share()?;
    Ok(Typed { value, ty })
}

/// A value with the type of a signal before it, which carries this type.
pub fn signal(alloc: Global, value: ValueId, of: &Ty) -> Result<Typed, NoMemory>
    requires { IsData of.now }
    ensures { IfOk result (λ operand. operand ≡ with_type (signal_type of.now) value) }
{
    match Ty::signal(alloc, of.copy()?) {
        Ok(ty) => Ok(Typed {
            value,
            ty: WrittenTy::new(alloc, Some(ty))?,
        }),
        Err(_) => Err(NoMemory),
    }
}

/// Adds values without types, which share that there is none.
fn push_bare(operands: &mut TypedList, values: &[ValueId], none: &WrittenTy) -> Result<(), NoMemory>
    requires { none.now ≡ None }
    ensures { OnOk result (operands.new ≡ operands.old ++ map without_type values.now) }
{
    let mut left = values;
    while let [value, rest @ ..] = left {
        operands.push(bare(*value, none)?)?;
        left = rest;
    }
    Ok(())
}

/// Values of which the first has this type before it, and the others none.
pub fn first_typed(alloc: Global, values: &[ValueId], ty: &Ty) -> Result<TypedList, NoMemory>
    ensures { IfOk result (λ operands. operands ≡ first_with_type ty.now values.now) }
{
    let mut operands = TypedList::new(alloc);
    if let [first, rest @ ..] = values {
        operands.push(typed(alloc, *first, ty)?)?;
        let none = WrittenTy::none(alloc)?;
        push_bare(&mut operands, rest, &none)?;
    }
    Ok(operands)
}
