//! Which terms have a value before in them, and the edge part of a condition.
ghost use Rattle.std.specs.Prelude.{◌≡◌, ◌≤◌, ℕ, [], ◌∷◌, ◌++◌, if◌then◌else◌, nat_eq, length, IfOk, OnOk};
ghost use Rattle.std.specs.List.{list_any, filter, insert};
ghost use Rattle.std.specs.HashSet as hash;
ghost use Rattle.lh_types.specs.Types.{int_type};
ghost use Rattle.lh_term.specs.Types.{type_of};
ghost use Rattle.lh_term.specs.Arena.{trees, tree_at, trees_at, IsIn, AreIn, StandsForTree, Grows};
ghost use Rattle.lh_term.specs.Conjuncts.{conjunction};
ghost use Rattle.lh_term.specs.Reach.{operands_of, GoOn, none_left};
ghost use Rattle.lh_term.specs.Make.{make_operation};
ghost use Rattle.lh_term.proofs.Sound.{IntTerm};
ghost use Rattle.lh_types.specs.declared.op.Op.TheVariants as spec_op;
ghost use Rattle.lh_term.proofs.Conditions.{AllBits};
ghost use Rattle.lh_edge.specs.Atoms as spec;
ghost use Rattle.lh_edge.specs.Steps.{TellPasts};
ghost use Rattle.lh_edge.specs.Reached.{TellsPassed, TellsNext};

use lh_term::term::{Term, TermId};
use lh_term::terms::Terms;
use lh_types::memory::NoMemory;
use lh_types::op::Op;
use lh_types::val::Val;
use std::alloc::Global;
use std::collections::HashSet;

/// For each term of an arena, by its id, whether the value that a part had before is in it.
pub fn past_flags(alloc: Global, terms: &Terms) -> Result<Vec<bool>, NoMemory>
    ensures tell { IfOk result (λ flags. TellPasts terms.now flags.items) }
    ensures all { IfOk result (λ flags. length flags.items ≡ length terms.now) }
{
    let mut flags = Vec::new(alloc);
    let mut pasts = HashSet::new(alloc);
    for i in 0..terms.len() {
        let _term = terms.view(TermId(i));
        let has_past = note_past(terms, TermId(i), &mut pasts)?;
        put(&mut flags, has_past)?;
    }
    Ok(flags)
}

/// The ids of the terms with a value before in them, of all that some terms are made of.
pub(crate) fn pasts_of(
    alloc: Global,
    terms: &Terms,
    xs: &[TermId],
) -> Result<HashSet<usize>, NoMemory>
    requires { AreIn terms.now xs.now }
    ensures { IfOk result (λ pasts. TellsPassed terms.now spec.contains_past (hash.contains nat_eq pasts) xs.now) }
{
    let made_of = terms.made_of(xs)?;
    pasts_among(alloc, terms, &made_of)
}

/// The ids of the terms with a value before in them, of some with their operands behind them.
fn pasts_among(alloc: Global, terms: &Terms, made_of: &[TermId]) -> Result<HashSet<usize>, NoMemory>
    requires are_in { AreIn terms.now made_of.now }
    requires go_on { GoOn operands_of terms.now none_left made_of.now }
    ensures { IfOk result (λ pasts. TellsPassed terms.now spec.contains_past (hash.contains nat_eq pasts) made_of.now) }
{
    let mut pasts = HashSet::new(alloc);
    let mut k = made_of.len();
    while k > 0 {
        k -= 1;
        note_past(terms, made_of[k], &mut pasts)?;
    }
    Ok(pasts)
}

/// Notes whether a value before is in a term.
fn note_past(terms: &Terms, x: TermId, pasts: &mut HashSet<usize>) -> Result<bool, NoMemory>
    requires is_in { IsIn terms.now x }
    requires tells { TellsNext operands_of terms.now spec.contains_past (hash.contains nat_eq pasts.old) x }
    ensures past { IfOk result (λ has_past. has_past ≡ spec.contains_past (tree_at (trees terms.now) x)) }
    ensures told { OnOk result ((q : ℕ) → hash.contains nat_eq pasts.new q ≡ (if nat_eq x.0 q then spec.contains_past (tree_at (trees terms.now) x) else hash.contains nat_eq pasts.old q)) }
{
    let has_past = contains_past(terms, x, pasts);
    tell(pasts, x, has_past)?;
    Ok(has_past)
}

/// Whether a value before is in a term, by what is told of its operands.
fn contains_past(terms: &Terms, x: TermId, pasts: &HashSet<usize>) -> bool
    requires is_in { IsIn terms.now x }
    requires tells { TellsNext operands_of terms.now spec.contains_past (hash.contains nat_eq pasts.now) x }
    ensures { result ≡ spec.contains_past (tree_at (trees terms.now) x) }
{
    match terms.view(x) {
        Term::Konst(_) | Term::Now(_) => false,
        Term::Past(_) => true,
        Term::Op { args, .. } => some_past(terms, args.as_slice(), pasts),
        Term::Choice { c, f, t } => some_past(terms, &[*c, *f, *t], pasts),
    }
}

/// Whether a value before is in one of some terms.
fn some_past(_terms: &Terms, xs: &[TermId], pasts: &HashSet<usize>) -> bool
    requires { TellsPassed _terms.now spec.contains_past (hash.contains nat_eq pasts.now) xs.now }
    ensures { result ≡ list_any spec.contains_past (trees_at _terms.now xs.now) }
{
    let mut left = xs;
    while let [x, rest @ ..] = left {
        if pasts.contains(&x.0) {
            return true;
        }
        left = rest;
    }
    false
}

/// The conjunction of the conjuncts that have a value before in them.
pub(crate) fn edge_part(alloc: Global, terms: &mut Terms, cond: TermId) -> Result<TermId, NoMemory>
    requires is_in { IsIn terms.old cond }
    requires bit { type_of (tree_at (trees terms.old) cond) ≡ int_type 1 }
    ensures made { IfOk result (λ e. StandsForTree terms.new e (spec.edge_part (tree_at (trees terms.old) cond))) }
    ensures kept { Grows terms.old terms.new }
{
    let _typed = terms.view(cond);
    let conjuncts = terms.conjuncts(cond)?;
    let pasts = pasts_of(alloc, terms, conjuncts.as_slice())?;
    conjoined(terms, conjuncts.as_slice(), &pasts)
}

/// The conjunction of those of some conditions that have a value before in them.
fn conjoined(terms: &mut Terms, xs: &[TermId], pasts: &HashSet<usize>) -> Result<TermId, NoMemory>
    requires are_in { AreIn terms.old xs.now }
    requires bits { AllBits (trees_at terms.old xs.now) }
    requires tells { TellsPassed terms.old spec.contains_past (hash.contains nat_eq pasts.now) xs.now }
    ensures made { IfOk result (λ e. StandsForTree terms.new e (conjunction (filter spec.contains_past (trees_at terms.old xs.now)))) }
    ensures kept { Grows terms.old terms.new }
{
    let mut all = terms.konst(Val::Int { width: 1, bits: 1 })?;
    let mut left = xs;
    while let [x, rest @ ..] = left {
        if pasts.contains(&x.0) {
            all = both(terms, all, *x)?;
        }
        left = rest;
    }
    Ok(all)
}

/// `and` of two conditions.
fn both(terms: &mut Terms, x: TermId, y: TermId) -> Result<TermId, NoMemory>
    requires x_in { IsIn terms.old x }
    requires y_in { IsIn terms.old y }
    requires x_bit { IntTerm (tree_at (trees terms.old) x) 1 }
    requires y_bit { IntTerm (tree_at (trees terms.old) y) 1 }
    ensures made { IfOk result (λ t. StandsForTree terms.new t (make_operation spec_op.And (tree_at (trees terms.old) x ∷ tree_at (trees terms.old) y ∷ []))) }
    ensures kept { Grows terms.old terms.new }
{
    terms.op(&Op::And, &[x, y])
}

/// Tells of a term whether it is one of those that are noted.
pub(crate) fn tell(noted: &mut HashSet<usize>, x: TermId, is_one: bool) -> Result<(), NoMemory>
    ensures { OnOk result ((q : ℕ) → hash.contains nat_eq noted.new q ≡ (if nat_eq x.0 q then is_one else hash.contains nat_eq noted.old q)) }
{
    if is_one {
        noted.insert(x.0)?;
    } else {
        noted.remove(&x.0);
    }
    Ok(())
}

/// Adds an item at the end.
pub(crate) fn put<T: Drop>(items: &mut Vec<T>, item: T) -> Result<(), NoMemory>
    ensures { OnOk result (items.new.items ≡ items.old.items ++ item ∷ []) }
{
    items.push(item)?;
    Ok(())
}

/// Adds an item before the one at a place.
pub(crate) fn put_at<T: Drop>(items: &mut Vec<T>, place: usize, item: T) -> Result<(), NoMemory>
    requires { place ≤ length items.old.items }
    ensures { OnOk result (items.new.items ≡ insert items.old.items place item) }
{
    items.insert(place, item)?;
    Ok(())
}
