//! At which valuations of its atoms the edge part holds. A valuation is a number, in which bit j is the value of atom j.
ghost use Rattle.std.specs.Prelude.{◌≡◌, [], ◌∷◌, false, if◌then◌else◌, nat_eq, IfOk};
ghost use Rattle.std.specs.HashSet as hash;
ghost use Rattle.lh_types.specs.ValueOf.{datum_of};
ghost use Rattle.lh_term.specs.Make.{is_bit_value};
ghost use Rattle.lh_term.specs.Arena.{trees, tree_at, trees_at, IsIn, AreIn};
ghost use Rattle.lh_term.specs.Reach.{AreReached};
ghost use Rattle.lh_edge.specs.Valuations as spec;
ghost use Rattle.lh_edge.specs.Reached.{joined_by, TellsNext};
ghost use Rattle.lh_edge.specs.Steps.{numbered, table_from, values_at};

use crate::atoms::{are_one_bit, connects, is_one_bit};
use crate::pasts::{put, tell};
use crate::reach::joined_of;
use lh_term::term::{Term, TermId};
use lh_term::terms::Terms;
use lh_types::memory::NoMemory;
use lh_types::op::Op;
use lh_types::val::Val;
use std::alloc::Global;
use std::collections::HashSet;

/// The value of a term at a valuation of the atoms.
pub(crate) fn bit_of(terms: &Terms, atoms: &[TermId], x: TermId, valuation: usize) -> bool
    requires are_in { AreIn terms.now atoms.now }
    requires is_in { IsIn terms.now x }
    ensures { result ≡ numbered (trees_at terms.now atoms.now) valuation (tree_at (trees terms.now) x) }
{
    let mut bits = valuation;
    let mut left = atoms;
    while let [atom, rest @ ..] = left {
        if terms.same(*atom, x) {
            return bits % 2 == 1;
        }
        bits /= 2;
        left = rest;
    }
    false
}

/// At each valuation whether the edge part holds.
///
/// It looks at the terms alone of which that is joined, once for each valuation.
pub(crate) fn truth_table(
    alloc: Global,
    terms: &Terms,
    edge: TermId,
    atoms: &[TermId],
    size: usize,
) -> Result<Vec<bool>, NoMemory>
    requires is_in { IsIn terms.now edge }
    requires are_in { AreIn terms.now atoms.now }
    ensures { IfOk result (λ table. table.items ≡ table_from (trees_at terms.now atoms.now) (tree_at (trees terms.now) edge) 0 size) }
{
    let joined = joined_of(alloc, terms, &[edge])?;
    let mut values = HashSet::new(alloc);
    let mut table = Vec::new(alloc);
    for valuation in 0..size {
        let holds = holds_at(terms, edge, &joined, atoms, valuation, &mut values)?;
        put(&mut table, holds)?;
    }
    Ok(table)
}

/// Whether the edge part holds at a valuation. It is noted which of the terms that it is joined of do, whatever was noted before.
fn holds_at(
    terms: &Terms,
    edge: TermId,
    joined: &[TermId],
    atoms: &[TermId],
    valuation: usize,
    values: &mut HashSet<usize>,
) -> Result<bool, NoMemory>
    requires are_in { AreIn terms.now atoms.now }
    requires joined { AreReached (joined_by (trees terms.now)) terms.now (edge ∷ []) joined.now }
    ensures { IfOk result (λ b. b ≡ spec.holds (numbered (trees_at terms.now atoms.now) valuation) (tree_at (trees terms.now) edge)) }
{
    let mut k = joined.len();
    while k > 0 {
        k -= 1;
        let value = value_of(terms, joined[k], atoms, valuation, values);
        tell(values, joined[k], value)?;
    }
    Ok(values.contains(&edge.0))
}

/// The value of a term at a valuation, by the values of what it joins.
fn value_of(
    terms: &Terms,
    x: TermId,
    atoms: &[TermId],
    valuation: usize,
    values: &HashSet<usize>,
) -> bool
    requires is_in { IsIn terms.now x }
    requires are_in { AreIn terms.now atoms.now }
    requires tells { TellsNext (joined_by (trees terms.now)) terms.now (spec.holds (numbered (trees_at terms.now atoms.now) valuation)) (hash.contains nat_eq values.now) x }
    ensures { result ≡ spec.holds (numbered (trees_at terms.now atoms.now) valuation) (tree_at (trees terms.now) x) }
{
    match terms.view(x) {
        Term::Konst(v) => {
            if is_one_bit(terms, x) {
                is_one(v)
            } else {
                bit_of(terms, atoms, x, valuation)
            }
        }
        Term::Past(_) | Term::Now(_) => bit_of(terms, atoms, x, valuation),
        Term::Op { op, args } => {
            if connects(op) && are_one_bit(terms, args.as_slice()) {
                connected(op, args.as_slice(), values)
            } else {
                bit_of(terms, atoms, x, valuation)
            }
        }
        Term::Choice { c, f, t } => {
            if is_one_bit(terms, *f) {
                chosen(*c, *f, *t, values)
            } else {
                bit_of(terms, atoms, x, valuation)
            }
        }
    }
}

/// Whether it is the one bit 1.
fn is_one(v: &Val) -> bool
    ensures { result ≡ is_bit_value 1 (datum_of v.now) }
{
    match v {
        Val::Int { width, bits } => *width == 1 && *bits == 1,
        _ => false,
    }
}

/// The value of the one term where that of the condition is 0, else of the other.
fn chosen(c: TermId, f: TermId, t: TermId, values: &HashSet<usize>) -> bool
    ensures { result ≡ (if hash.contains nat_eq values.now c.0 then hash.contains nat_eq values.now t.0 else hash.contains nat_eq values.now f.0) }
{
    if values.contains(&c.0) {
        values.contains(&t.0)
    } else {
        values.contains(&f.0)
    }
}

/// What a connective gives for the values of its operands.
fn connected(op: &Op, args: &[TermId], values: &HashSet<usize>) -> bool
    ensures { result ≡ spec.connected op.now (values_at (hash.contains nat_eq values.now) args.now) }
{
    match args {
        [a] => of_one(op, values.contains(&a.0)),
        [a, b] => of_two(op, values.contains(&a.0), values.contains(&b.0)),
        _ => false,
    }
}

fn of_one(op: &Op, a: bool) -> bool
    ensures { result ≡ spec.connected op.now (a ∷ []) }
{
    match op {
        Op::Not => !a,
        _ => false,
    }
}

fn of_two(op: &Op, a: bool, b: bool) -> bool
    ensures { result ≡ spec.connected op.now (a ∷ b ∷ []) }
{
    match op {
        Op::And => a && b,
        Op::Or => a || b,
        Op::Xor | Op::Neq => differ(a, b),
        Op::Eq => !differ(a, b),
        _ => false,
    }
}

/// Whether two bits differ.
pub(crate) fn differ(a: bool, b: bool) -> bool
    ensures { result ≡ spec.differ a b }
{
    if a { !b } else { b }
}
