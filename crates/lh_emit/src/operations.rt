//! Operations as instructions: which types stand before their operands.
ghost use Rattle.std.specs.Prelude.{◌≡◌, true, length, Some, IfOk};
ghost use Rattle.std.specs.Option.{is_some};
ghost use Rattle.lh_term.specs.Arena.{AreIn};
ghost use Rattle.lh_emit_def.specs.Needs as needs;
ghost use Rattle.lh_emit.specs.Values.{value_in};
ghost use Rattle.lh_emit.specs.Operations.{HaveValues, AreValues, each_with_type, operands_of};

use crate::operands::{first_typed, typed};
use crate::values::Values;
use lh_term::term::TermId;
use lh_term::terms::Terms;
use lh_types::memory::NoMemory;
use lh_types::op::{Op, OpClass};
use lh_types::ty::Ty;
use lh_unit::inst::{TypedList, ValueId, ValueIdList};
use std::alloc::Global;

/// The operands of an operation that gives a value of this type, on terms that have these values.
pub fn operands(
    alloc: Global,
    terms: &Terms,
    op: &Op,
    of: &[TermId],
    values: &[ValueId],
    gives: &Ty,
) -> Result<TypedList, NoMemory>
    requires within { AreIn terms.now of.now }
    requires long { length values.now ≡ length of.now }
    ensures { IfOk result (λ list. list ≡ operands_of terms.now op.now of.now gives.now values.now) }
{
    if writes_each(op) {
        return each_typed(alloc, terms, of, values);
    }
    if writes_result(op) {
        return first_typed(alloc, values, gives);
    }
    match of {
        [first, ..] => first_typed(alloc, values, terms.ty(*first)),
        [] => Ok(TypedList::new(alloc)),
    }
}

/// Whether each operand has its type before it.
fn writes_each(op: &Op) -> bool
    ensures { result ≡ needs.writes_each op.now }
{
    match op.class() {
        OpClass::Shift | OpClass::Tuple => true,
        _ => false,
    }
}

/// Whether the type before the first operand is that of what is given.
fn writes_result(op: &Op) -> bool
    ensures { result ≡ needs.writes_result op.now }
{
    match op.class() {
        OpClass::Select | OpClass::TakePart(_) => true,
        _ => false,
    }
}

/// Each value with the type of its term before it.
fn each_typed(
    alloc: Global,
    terms: &Terms,
    of: &[TermId],
    values: &[ValueId],
) -> Result<TypedList, NoMemory>
    requires within { AreIn terms.now of.now }
    requires long { length values.now ≡ length of.now }
    ensures { IfOk result (λ list. list ≡ each_with_type terms.now of.now values.now) }
{
    let mut operands = TypedList::new(alloc);
    let mut k = 0;
    while k < values.len() {
        let operand = typed(alloc, values[k], terms.ty(of[k]))?;
        operands.push(operand)?;
        k += 1;
    }
    Ok(operands)
}

/// The values of terms.
pub fn values_of(alloc: Global, values: &Values, of: &[TermId]) -> Result<ValueIdList, NoMemory>
    requires { HaveValues values.now of.now }
    ensures { IfOk result (λ list. AreValues values.now of.now list) }
{
    let mut list = ValueIdList::new(alloc);
    let mut k = 0;
    while k < of.len() {
        list.push(value_of(values, of[k]))?;
        k += 1;
    }
    Ok(list)
}

/// The value of a term that has one.
pub fn value_of(values: &Values, term: TermId) -> ValueId
    requires { is_some (value_in values.now term) ≡ true }
    ensures { Some result ≡ value_in values.now term }
{
    match values.get(term) {
        Some(value) => value,
        None => unreachable!(),
    }
}
