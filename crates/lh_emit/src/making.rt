//! Which instruction gives a term, and what the term is made of.
ghost use Rattle.std.specs.Prelude.{◌≡◌, [], map, true, IfOk, OnOk};
ghost use Rattle.std.specs.Option.{is_none};
ghost use Rattle.std.specs.Result.{IfErr};
ghost use Rattle.lh_types.specs.Faults.{array_fault};
ghost use Rattle.lh_types.specs.ValueOf.{datum_of};
ghost use Rattle.lh_term.specs.Tree.{constant, choice_of};
ghost use Rattle.lh_term.specs.Types.{FitsTerm, IsTyped, type_of};
ghost use Rattle.lh_term.specs.Arena.{trees, tree_at, IsIn, Grows};
ghost use Rattle.lh_unit.specs.Within.{Each};
ghost use Rattle.lh_emit.specs.Making as making;
ghost use Rattle.lh_emit.specs.Making.{AreOperandTerms, HasNoPair, parts_in, TermIsProbed, AreConstants, AreChosen, NoPairOf, IsMadeBy};

use lh_emit_body::lines::EmitFault;
use lh_term::part::Part;
use lh_term::term::{Term, TermId, TermList};
use lh_term::terms::Terms;
use lh_types::memory::NoMemory;
use lh_types::op::Op;
use lh_types::ty::{Ty, TyFault};
use lh_types::val::{Val, ValList};
use std::alloc::Global;

/// Which instruction gives a term: a constant, a `prb`, or an operation on what the term is made of.
#[derive(Clone, Copy, Debug, PartialEq, Eq)]
pub enum TermForm {
    Scalar,
    Probe,
    Joined(Op),
}

/// Which instruction gives a term.
pub fn form_of(terms: &Terms, t: TermId) -> TermForm
    requires { IsIn terms.now t }
    ensures { result ≡ making.form_of (tree_at (trees terms.now) t) }
{
    match terms.view(t) {
        Term::Konst(Val::Array(_)) => TermForm::Joined(Op::Array),
        Term::Konst(Val::Tuple(_)) => TermForm::Joined(Op::Tuple),
        Term::Konst(_) => TermForm::Scalar,
        Term::Past(_) | Term::Now(_) => TermForm::Probe,
        Term::Op { op, .. } => TermForm::Joined(*op),
        Term::Choice { .. } => TermForm::Joined(Op::Mux),
    }
}

/// The part whose value a term is.
pub fn probed(terms: &Terms, t: TermId) -> Result<Part, NoMemory>
    requires is_in { IsIn terms.now t }
    requires form { making.form_of (tree_at (trees terms.now) t) ≡ TermForm.Probe }
    ensures { IfOk result (λ p. TermIsProbed (tree_at (trees terms.now) t) p) }
{
    match terms.view(t) {
        Term::Past(part) | Term::Now(part) => part.copy(),
        _ => unreachable!(),
    }
}

/// The value of a constant.
pub fn scalar(terms: &Terms, t: TermId) -> Result<Val, NoMemory>
    requires is_in { IsIn terms.now t }
    requires form { making.form_of (tree_at (trees terms.now) t) ≡ TermForm.Scalar }
    ensures { IfOk result (λ v. tree_at (trees terms.now) t ≡ constant (datum_of v)) }
{
    match terms.view(t) {
        Term::Konst(v) => v.copy(),
        _ => unreachable!(),
    }
}

/// The terms that a term is made of: the parts of a constant, the operands of an operation, the array of both terms of a choice and
/// its condition. There are none where that array is no type.
pub fn made_of(alloc: Global, terms: &mut Terms, t: TermId) -> Result<TermList, EmitFault>
    requires { IsIn terms.old t }
    ensures kept { Grows terms.old terms.new }
    ensures made { IfOk result (λ list. AreOperandTerms terms.old terms.new t list) }
    ensures cause { IfErr result (HasNoPair terms.old t) }
{
    match needs_of(alloc, terms, t)? {
        Needs::Parts(values) => Ok(constants(alloc, terms, &values)?),
        Needs::Terms(list) => Ok(list),
        Needs::Chosen { c, f, t } => chosen(alloc, terms, c, f, t),
    }
}

/// What a term is made of, as it stands in the arena.
#[derive(Drop)]
enum Needs {
    /// The constants of these values.
    Parts(ValList),
    Terms(TermList),
    /// The array of both terms of a choice, and its condition.
    Chosen { c: TermId, f: TermId, t: TermId },
}

fn needs_of(alloc: Global, terms: &Terms, t: TermId) -> Result<Needs, NoMemory>
    requires { IsIn terms.now t }
    ensures { IfOk result (IsMadeBy terms.now t) }
{
    match terms.view(t) {
        Term::Konst(v) => Ok(Needs::Parts(parts_of(alloc, v)?)),
        Term::Op { args, .. } => Ok(Needs::Terms(TermList::from_slice(alloc, args.as_slice())?)),
        Term::Choice { c, f, t } => Ok(Needs::Chosen {
            c: *c,
            f: *f,
            t: *t,
        }),
        Term::Past(_) | Term::Now(_) => Ok(Needs::Terms(TermList::new(alloc))),
    }
}

/// The elements or fields of a value.
fn parts_of(alloc: Global, v: &Val) -> Result<ValList, NoMemory>
    ensures { IfOk result (λ vs. vs ≡ parts_in (datum_of v.now)) }
{
    match v {
        Val::Array(vs) | Val::Tuple(vs) => vs.copy(),
        _ => Ok(ValList::new(alloc)),
    }
}

/// The constants of values.
fn constants(alloc: Global, terms: &mut Terms, values: &ValList) -> Result<TermList, NoMemory>
    requires { Each FitsTerm values.now }
    ensures kept { Grows terms.old terms.new }
    ensures made { IfOk result (AreConstants values.now terms.new) }
{
    let mut list = TermList::new(alloc);
    let mut left = values.as_slice();
    while let [value, rest @ ..] = left {
        let id = terms.konst(value.copy()?)?;
        list.push(id)?;
        left = rest;
    }
    Ok(list)
}

/// The array of both terms of a choice, and the condition.
fn chosen(
    alloc: Global,
    terms: &mut Terms,
    c: TermId,
    f: TermId,
    t: TermId,
) -> Result<TermList, EmitFault>
    requires c_in { IsIn terms.old c }
    requires f_in { IsIn terms.old f }
    requires t_in { IsIn terms.old t }
    requires typed { IsTyped (choice_of (tree_at (trees terms.old) c) (tree_at (trees terms.old) f) (tree_at (trees terms.old) t)) }
    ensures kept { Grows terms.old terms.new }
    ensures made { IfOk result (AreChosen (tree_at (trees terms.old) c) (tree_at (trees terms.old) f) (tree_at (trees terms.old) t) terms.new) }
    ensures cause { IfErr result (NoPairOf (type_of (tree_at (trees terms.old) f))) }
{
    has_pair(alloc, terms.ty(f))?;
    let pair = terms.op(&Op::Array, &[f, t])?;
    Ok(TermList::from_slice(alloc, &[pair, c])?)
}

/// Whether there is an array of two of a type.
fn has_pair(alloc: Global, of: &Ty) -> Result<(), EmitFault>
    ensures pair { OnOk result (is_none (array_fault 2 of.now) ≡ true) }
    ensures cause { IfErr result (NoPairOf of.now) }
{
    match Ty::array(alloc, 2, of.copy()?) {
        Ok(_) => Ok(()),
        Err(TyFault::OutOfMemory) => Err(EmitFault::OutOfMemory),
        Err(_) => Err(EmitFault::EntityTooLarge),
    }
}
