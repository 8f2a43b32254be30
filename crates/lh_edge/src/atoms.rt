//! The atoms of a condition: its maximal subterms that are no connective of bits, and for each value of a part before its value now.
ghost use Rattle.std.specs.Prelude.{◌≡◌, ◌<◌, [], ◌∷◌, length, OnOk, IfOk};
ghost use Rattle.lh_types.specs.Types.{IsData};
ghost use Rattle.lh_term.specs.Tree.{tree_row, now_of};
ghost use Rattle.lh_term.specs.Arena.{trees, tree_at, trees_at, IsIn, AreIn, StandsForTree, Grows};
ghost use Rattle.lh_term.specs.Reach.{AreReached};
ghost use Rattle.lh_edge.specs.Atoms as spec;
ghost use Rattle.lh_edge.specs.Reached as reach;
ghost use Rattle.lh_edge.specs.Reached.{joined_by};
ghost use Rattle.lh_edge.specs.Steps.{FindsThe, found_items, with_atom, with_missing, IsPresent, AddsPresent};

use crate::pasts::put;
use crate::reach::joined_of;
use lh_term::part::Part;
use lh_term::term::{Term, TermId};
use lh_term::terms::Terms;
use lh_types::memory::NoMemory;
use lh_types::op::Op;
use lh_types::ty::TyKind;
use std::alloc::Global;

/// How many atoms the edge part of a condition may have.
pub const MAX_ATOMS: usize = 12;

/// Whether a term is of one bit.
pub fn is_one_bit(terms: &Terms, x: TermId) -> bool
    requires { IsIn terms.now x }
    ensures { result ≡ spec.is_one_bit (tree_at (trees terms.now) x) }
{
    match terms.ty(x).kind() {
        TyKind::Int(width) => width == 1,
        _ => false,
    }
}

/// Whether each of these terms is of one bit.
pub fn are_one_bit(terms: &Terms, xs: &[TermId]) -> bool
    requires { AreIn terms.now xs.now }
    ensures { result ≡ spec.are_one_bit (tree_row (trees_at terms.now xs.now)) }
{
    let mut left = xs;
    while let [x, rest @ ..] = left {
        if !is_one_bit(terms, *x) {
            return false;
        }
        left = rest;
    }
    true
}

/// Whether an operation is a connective where its operands are of one bit.
pub fn connects(op: &Op) -> bool
    ensures { result ≡ spec.connects op.now }
{
    match op {
        Op::Not | Op::And | Op::Or | Op::Xor | Op::Eq | Op::Neq => true,
        _ => false,
    }
}

/// Whether a term is no connective of bits.
pub fn is_atom(terms: &Terms, x: TermId) -> bool
    requires { IsIn terms.now x }
    ensures { result ≡ reach.is_atom (tree_at (trees terms.now) x) }
{
    match terms.view(x) {
        Term::Konst(_) => !is_one_bit(terms, x),
        Term::Past(_) | Term::Now(_) => true,
        Term::Op { op, args } => !(connects(op) && are_one_bit(terms, args.as_slice())),
        Term::Choice { f, .. } => !is_one_bit(terms, *f),
    }
}

/// Whether a term is in a list.
fn contains(terms: &Terms, xs: &[TermId], x: TermId) -> bool
    requires are_in { AreIn terms.now xs.now }
    requires is_in { IsIn terms.now x }
    ensures { result ≡ spec.has (trees_at terms.now xs.now) (tree_at (trees terms.now) x) }
{
    let mut left = xs;
    while let [y, rest @ ..] = left {
        if terms.same(*y, x) {
            return true;
        }
        left = rest;
    }
    false
}

/// The maximal subterms of the edge part that are no connective, by the terms that it is joined of; none where they are more than
/// twelve.
fn found_subterms(
    alloc: Global,
    terms: &Terms,
    _edge: TermId,
    joined: &[TermId],
) -> Result<Option<Vec<TermId>>, NoMemory>
    requires { AreReached (joined_by (trees terms.now)) terms.now (_edge ∷ []) joined.now }
    ensures { IfOk result (λ found. FindsThe terms.now (spec.subterms (tree_at (trees terms.now) _edge)) (found_items found)) }
{
    let mut found = Vec::new(alloc);
    for x in joined {
        add_atom(terms, *x, &mut found)?;
        if found.len() > MAX_ATOMS {
            return Ok(None);
        }
    }
    Ok(Some(found))
}

/// Adds a term that is no connective, unless it is there.
fn add_atom(terms: &Terms, x: TermId, found: &mut Vec<TermId>) -> Result<(), NoMemory>
    requires is_in { IsIn terms.now x }
    requires are_in { AreIn terms.now found.old.items }
    ensures { OnOk result (found.new.items ≡ with_atom terms.now found.old.items x) }
{
    if is_atom(terms, x) {
        return add_missing(terms, x, found);
    }
    Ok(())
}

/// Adds a term, unless it is there.
fn add_missing(terms: &Terms, x: TermId, found: &mut Vec<TermId>) -> Result<(), NoMemory>
    requires is_in { IsIn terms.now x }
    requires are_in { AreIn terms.now found.old.items }
    ensures { OnOk result (found.new.items ≡ with_missing terms.now found.old.items x) }
{
    if contains(terms, found, x) {
        return Ok(());
    }
    put(found, x)
}

/// The atoms of the edge part; none where they are more than twelve.
pub(crate) fn atoms_of(
    alloc: Global,
    terms: &mut Terms,
    edge: TermId,
) -> Result<Option<Vec<TermId>>, NoMemory>
    requires { IsIn terms.old edge }
    ensures found { IfOk result (λ found. FindsThe terms.new (spec.atoms_of (tree_at (trees terms.old) edge)) (found_items found)) }
    ensures kept { Grows terms.old terms.new }
{
    let joined = joined_of(alloc, terms, &[edge])?;
    let Some(mut atoms) = found_subterms(alloc, terms, edge, &joined)? else {
        return Ok(None);
    };
    for k in 0..atoms.len() {
        add_present(terms, k, &mut atoms)?;
    }
    if atoms.len() > MAX_ATOMS {
        return Ok(None);
    }
    Ok(Some(atoms))
}

/// Adds the value now of the part whose value before the term at a place is.
fn add_present(terms: &mut Terms, k: usize, atoms: &mut Vec<TermId>) -> Result<(), NoMemory>
    requires are_in { AreIn terms.old atoms.old.items }
    requires within { k < length atoms.old.items }
    ensures added { OnOk result (AddsPresent terms.old terms.new atoms.old.items k atoms.new.items) }
    ensures kept { Grows terms.old terms.new }
{
    match present_of(terms, atoms[k])? {
        Some(now) => add_missing(terms, now, atoms),
        None => Ok(()),
    }
}

/// The value now of the part whose value before a term is.
pub(crate) fn present_of(terms: &mut Terms, x: TermId) -> Result<Option<TermId>, NoMemory>
    requires { IsIn terms.old x }
    ensures made { IfOk result (λ now. IsPresent terms.new (tree_at (trees terms.old) x) now) }
    ensures kept { Grows terms.old terms.new }
{
    if let Term::Past(part) = terms.view(x) {
        let part = part.copy()?;
        let now = now_with(terms, part)?;
        return Ok(Some(now));
    }
    Ok(None)
}

/// The value now of a part, of which it lets go.
fn now_with(terms: &mut Terms, part: Part) -> Result<TermId, NoMemory>
    requires { IsData part.ty }
    ensures made { IfOk result (λ t. StandsForTree terms.new t (now_of part)) }
    ensures kept { Grows terms.old terms.new }
{
    terms.now(&part)
}
