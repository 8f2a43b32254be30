//! What is known of the values of an entity.
ghost use Rattle.std.specs.Prelude.{◌≡◌, ◌<◌, ◌^◌, length, replicate, None, IfOk, OnOk};
ghost use Rattle.std.specs.Option.{option_copied, option_map};
ghost use Rattle.lh_unit.specs.Table.{ArgsWithin};
ghost use Rattle.lh_unit.specs.Typing.{carried};
ghost use Rattle.lh_unit.specs.Within.{Each};
ghost use Rattle.lh_unit.specs.declared.inst.Typed.{Typed as Operand};
ghost use Rattle.lh_term.specs.Parts as parts;
ghost use Rattle.lh_cert_read.specs.Known.{term_at, part_at, terms_at, given, args_given, MaybeIn};

use lh_term::part::Part;
use lh_term::term::{TermId, TermList};
use lh_types::memory::NoMemory;
use lh_types::ty::{Ty, TyKind};
use lh_unit::inst::{Arg, Typed, ValueId};
use std::alloc::Global;

/// What is known of a value.
#[derive(Drop)]
pub(crate) enum Known {
    /// The term of a value.
    Term(TermId),
    /// A part of an argument.
    Part(Part),
}

/// What is known of the values of one unit, by their ids.
#[derive(Drop)]
pub(crate) struct KnownValues {
    pub(crate) values: Vec<Option<Known>>,
}

impl KnownValues {
    /// Nothing known of so many values.
    pub(crate) fn new(alloc: Global, count: u32) -> Result<KnownValues, NoMemory>
        ensures { IfOk result (λ k. k.values.items ≡ replicate count None) }
    {
        let mut values = Vec::with_capacity(alloc, count as usize)?;
        for i in 0..count {
            values.push_reserved(None);
        }
        Ok(KnownValues { values })
    }

    /// The term of a value, if one is known.
    pub(crate) fn term(&self, value: ValueId) -> Option<TermId>
        requires { value.0 < length self.now.values.items }
        ensures { result ≡ term_at self.now.values.items value }
    {
        match &self.values[value.0 as usize] {
            Some(Known::Term(term)) => Some(*term),
            _ => None,
        }
    }

    /// The part that a value is, if one is known.
    pub(crate) fn part(&self, value: ValueId) -> Option<&Part>
        requires { value.0 < length self.now.values.items }
        ensures { option_copied result ≡ part_at self.now.values.items value }
    {
        match &self.values[value.0 as usize] {
            Some(Known::Part(part)) => Some(part),
            _ => None,
        }
    }

    /// The terms of operands, where each has one.
    pub(crate) fn terms_of(
        &self,
        alloc: Global,
        operands: &[Typed],
    ) -> Result<Option<TermList>, NoMemory>
        requires { Each (λ (o : Operand). o.value.0 < length self.now.values.items) operands.now }
        ensures { IfOk result (λ terms. terms ≡ terms_at self.now.values.items operands.now) }
    {
        let mut terms = TermList::new(alloc);
        let mut left = operands;
        while let [operand, rest @ ..] = left {
            let Some(term) = self.term(operand.value) else {
                return Ok(None);
            };
            terms.push(term)?;
            left = rest;
        }
        Ok(Some(terms))
    }

    /// From now on this is known of a result, where both are there.
    pub(crate) fn give(&mut self, name: Option<ValueId>, known: Option<Known>)
        requires { MaybeIn self.old.values.items name }
        ensures { self.new.values.items ≡ given self.old.values.items name known }
    {
        if let (Some(value), Some(known)) = (name, known) {
            self.values[value.0 as usize] = Some(known);
        }
    }

    /// From now on the arguments are known, each signal as a part by itself.
    pub(crate) fn give_args(&mut self, args: &[Arg]) -> Result<(), NoMemory>
        requires within { ArgsWithin (length self.old.values.items) args.now }
        requires few { length args.now < 2 ^ 32 }
        ensures { OnOk result (self.new.values.items ≡ args_given self.old.values.items 0 args.now) }
    {
        for (k, arg) in args.iter().enumerate() {
            let whole = whole_argument(k, &arg.ty)?;
            self.give(Some(arg.value), whole);
        }
        Ok(())
    }
}

/// An argument of this number and type as a part by itself, where it is a signal.
fn whole_argument(k: usize, ty: &Ty) -> Result<Option<Known>, NoMemory>
    requires { k < 2 ^ 32 }
    ensures { IfOk result (λ known. known ≡ option_map (λ t. Known.Part (parts.whole_argument k t)) (carried ty.now)) }
{
    match ty.kind() {
        TyKind::Signal(of) => {
            let ty = of.copy()?;
            Ok(Some(Known::Part(Part {
                arg: k as u32,
                lo: 0,
                ty,
            })))
        }
        _ => Ok(None),
    }
}
