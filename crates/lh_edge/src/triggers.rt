//! The triggers of an edge-shown condition.
ghost use Rattle.std.specs.Prelude.{◌≡◌, ◌≤◌, List, [], ◌∷◌, length, IfOk, OnOk};
ghost use Rattle.lh_types.specs.Types.{int_type, same_type};
ghost use Rattle.lh_term.specs.declared.part.Part.{Part as PartRecord};
ghost use Rattle.lh_term.specs.Types.{type_of};
ghost use Rattle.lh_term.specs.Make.{is_bit as is_bit_tree, bit_of};
ghost use Rattle.lh_term.specs.Arena.{trees, tree_at, trees_at, IsIn, AreIn, StandsForTree, Grows};
ghost use Rattle.lh_term.specs.Reach.{operands_of, AreReached};
ghost use Rattle.lh_term.specs.Subst.{PairsIn, pairs_at, is_first as first_in_pair};
ghost use Rattle.lh_term_cover.specs.Runs.{IsCover};
ghost use Rattle.lh_edge.specs.Answers.{TriggersOrFault, ShownOrNot, AreTriggers, AddsTrigger};
ghost use Rattle.lh_edge.specs.Gates.{AllBit, IsPresents, MakesGate, Gathers, with_pair};
ghost use Rattle.lh_edge.specs.Shown as spec;
ghost use Rattle.lh_edge.specs.Triggers as tri;
ghost use Rattle.lh_edge.specs.Triggers.{in_order, with_part};
ghost use Rattle.lh_edge.specs.Atoms.{contains_past};
ghost use Rattle.lh_edge.specs.Steps.{is_checked, showing_of, with_showing, place_in};

use crate::atoms::{atoms_of, present_of};
use crate::pasts::{edge_part, pasts_of, put, put_at};
use crate::shown::EdgePart;
use crate::table::truth_table;
use lh_term::part::{Part, PartList};
use lh_term::subst::Swap;
use lh_term::term::{Term, TermId};
use lh_term::terms::Terms;
use lh_term_cover::Cover;
use lh_types::list::ListOf;
use lh_types::memory::NoMemory;
use lh_types::ty::TyKind;
use lh_types::val::Val;
use std::alloc::Global;
use thiserror::Error;

/// A rise or fall of a part of one bit at which a condition holds, where the gate is 1.
#[derive(Drop)]
pub struct Trigger {
    pub rise: bool,
    pub part: Part,
    pub gate: TermId,
}

/// Triggers in order.
pub type TriggerList = ListOf<Trigger>;

/// A drive whose condition is edge-shown: the part that is driven, the value and the delay, and when.
#[derive(Drop)]
pub struct EdgeRow {
    pub part: Part,
    pub value: TermId,
    pub delay: TermId,
    pub triggers: TriggerList,
}

/// Such drives in order.
pub type EdgeRowList = ListOf<EdgeRow>;

/// Why a condition has no triggers.
#[derive(Clone, Copy, Debug, PartialEq, Eq, Error)]
pub enum EdgeFault {
    /// Its edge part has more than twelve atoms.
    #[error("too many atoms")]
    TooManyAtoms,
    /// It has no value before, or its edge part holds at a valuation that no part shows.
    #[error("no edge shows the condition")]
    NoEdge,
    /// Memory ran out.
    #[error("out of memory")]
    OutOfMemory,
}

impl From<NoMemory> for EdgeFault {
    ghost use Rattle.std.specs.Prelude.{◌≡◌};
    ghost use Rattle.lh_edge.specs.declared.triggers.EdgeFault.TheVariants.{OutOfMemory};

    ghost from_gives = { λ _ e. e ≡ OutOfMemory };

    fn from(_: NoMemory) -> EdgeFault {
        EdgeFault::OutOfMemory
    }
}

/// The triggers of a condition of one bit, where it is edge-shown by the parts that are waited on: in order of argument, then of
/// lowest bit, the rise before the fall, each with what the condition is there.
///
/// `TooManyAtoms` comes where the edge part has more than twelve atoms, and else `NoEdge` where the condition is not edge-shown.
/// Whatever it answers, the terms made before keep their ids.
pub fn edges(
    alloc: Global,
    terms: &mut Terms,
    cond: TermId,
    waited: &PartList,
) -> Result<TriggerList, EdgeFault>
    requires is_in { IsIn terms.old cond }
    requires bit { type_of (tree_at (trees terms.old) cond) ≡ int_type 1 }
    ensures answers { TriggersOrFault terms.new waited.now (tree_at (trees terms.old) cond) result }
    ensures kept { Grows terms.old terms.new }
{
    let edge = edge_part(alloc, terms, cond)?;
    let Some(atoms) = atoms_of(alloc, terms, edge)? else {
        return Err(EdgeFault::TooManyAtoms);
    };
    let parts = showing_parts(alloc, terms, &atoms, waited)?;
    shown_triggers(alloc, terms, cond, edge, &atoms, &parts)
}

/// The triggers, where these parts show the condition. The atoms and the parts belong to the caller, so no failure here has any to
/// drop.
fn shown_triggers(
    alloc: Global,
    terms: &mut Terms,
    cond: TermId,
    edge: TermId,
    atoms: &[TermId],
    parts: &[Part],
) -> Result<TriggerList, EdgeFault>
    requires cond_in { IsIn terms.old cond }
    requires edge_in { IsIn terms.old edge }
    requires are_in { AreIn terms.old atoms.now }
    requires few { length atoms.now ≤ 12 }
    requires bits { AllBit parts.now }
    ensures answers { ShownOrNot terms.new (is_checked (tree_at (trees terms.old) cond) (tree_at (trees terms.old) edge) (trees_at terms.old atoms.now) parts.now) (tri.triggers_at (tree_at (trees terms.old) cond) parts.now) result }
    ensures kept { Grows terms.old terms.new }
{
    if !is_edge_shown(alloc, terms, cond, edge, atoms, parts)? {
        return Err(EdgeFault::NoEdge);
    }
    Ok(triggers(alloc, terms, cond, parts)?)
}

/// Whether the condition has a value before, and every valuation at which its edge part holds is shown by one of the parts.
fn is_edge_shown(
    alloc: Global,
    terms: &Terms,
    cond: TermId,
    edge: TermId,
    atoms: &[TermId],
    parts: &[Part],
) -> Result<bool, NoMemory>
    requires cond_in { IsIn terms.now cond }
    requires edge_in { IsIn terms.now edge }
    requires are_in { AreIn terms.now atoms.now }
    requires few { length atoms.now ≤ 12 }
    ensures { IfOk result (λ shown. shown ≡ is_checked (tree_at (trees terms.now) cond) (tree_at (trees terms.now) edge) (trees_at terms.now atoms.now) parts.now) }
{
    if !has_past(alloc, terms, cond)? {
        return Ok(false);
    }
    let pasts = pasts_of(alloc, terms, atoms)?;
    let size = 1 << atoms.len();
    let table = truth_table(alloc, terms, edge, atoms, size)?;
    let known = EdgePart {
        terms,
        atoms,
        table: &table,
        pasts: &pasts,
    };
    known.are_shown(alloc, parts)
}

/// Whether a value before is in a condition.
fn has_past(alloc: Global, terms: &Terms, cond: TermId) -> Result<bool, NoMemory>
    requires { IsIn terms.now cond }
    ensures { IfOk result (λ past. past ≡ contains_past (tree_at (trees terms.now) cond)) }
{
    let pasts = pasts_of(alloc, terms, &[cond])?;
    Ok(pasts.contains(&cond.0))
}

/// The parts that can show, of those that are waited on, in order of argument, then of lowest bit.
fn showing_parts(
    alloc: Global,
    terms: &Terms,
    atoms: &[TermId],
    waited: &PartList,
) -> Result<Vec<Part>, NoMemory>
    requires { AreIn terms.now atoms.now }
    ensures { IfOk result (λ parts. parts.items ≡ in_order (spec.showing_parts waited.now (trees_at terms.now atoms.now))) }
{
    let cover = Cover::new(alloc, waited)?;
    let mut parts = Vec::new(alloc);
    let mut k = atoms.len();
    while k > 0 {
        k -= 1;
        add_showing(terms, atoms[k], &cover, &mut parts)?;
    }
    Ok(parts)
}

/// Adds the part whose value before a term is, if it can show.
fn add_showing(
    terms: &Terms,
    atom: TermId,
    waited: &Cover,
    parts: &mut Vec<Part>,
) -> Result<(), NoMemory>
    requires { IsIn terms.now atom }
    ensures { OnOk result ((on : List PartRecord) → IsCover waited.now on → parts.new.items ≡ with_showing (showing_of on (tree_at (trees terms.now) atom)) parts.old.items) }
{
    match terms.view(atom) {
        Term::Past(part) => {
            if is_bit(part) && waited.has(part) {
                let part = part.copy()?;
                return add_part(parts, part);
            }
            Ok(())
        }
        _ => Ok(()),
    }
}

fn is_bit(part: &Part) -> bool
    ensures { result ≡ same_type part.now.ty (int_type 1) }
{
    match part.ty.kind() {
        TyKind::Int(width) => width == 1,
        _ => false,
    }
}

/// Adds a part in its place among parts in order.
fn add_part(parts: &mut Vec<Part>, part: Part) -> Result<(), NoMemory>
    ensures { OnOk result (parts.new.items ≡ with_part part parts.old.items) }
{
    let place = place_of(parts, &part);
    put_at(parts, place, part)
}

/// Where a part goes among parts in order.
fn place_of(parts: &[Part], part: &Part) -> usize
    ensures place { result ≡ place_in parts.now part.now }
    ensures within { result ≤ length parts.now }
{
    for k in 0..parts.len() {
        if comes_first(part, &parts[k]) {
            return k;
        }
    }
    parts.len()
}

/// Whether a part is of a lower argument, or of the same and not from a higher bit.
fn comes_first(part: &Part, other: &Part) -> bool
    ensures { result ≡ tri.comes_first part.now other.now }
{
    part.arg < other.arg || part.arg == other.arg && part.lo <= other.lo
}

/// The rises and falls of these parts at which the condition can hold.
fn triggers(
    alloc: Global,
    terms: &mut Terms,
    cond: TermId,
    parts: &[Part],
) -> Result<TriggerList, NoMemory>
    requires is_in { IsIn terms.old cond }
    requires bits { AllBit parts.now }
    ensures made { IfOk result (λ list. AreTriggers terms.new list (tri.triggers_at (tree_at (trees terms.old) cond) parts.now)) }
    ensures kept { Grows terms.old terms.new }
{
    let presents = presents(alloc, terms, cond)?;
    let mut triggers = TriggerList::new(alloc);
    for k in 0..parts.len() {
        let part = &parts[k];
        add_trigger(alloc, terms, cond, part, true, &presents, &mut triggers)?;
        add_trigger(alloc, terms, cond, part, false, &presents, &mut triggers)?;
    }
    Ok(triggers)
}

/// The values before in a condition, each with the value now.
fn presents(
    alloc: Global,
    terms: &mut Terms,
    cond: TermId,
) -> Result<Vec<(TermId, TermId)>, NoMemory>
    requires { IsIn terms.old cond }
    ensures made { IfOk result (λ pairs. IsPresents terms.new (tree_at (trees terms.old) cond) pairs.items) }
    ensures kept { Grows terms.old terms.new }
{
    let made_of = terms.made_of(&[cond])?;
    gathered(alloc, terms, cond, &made_of)
}

/// Those among the terms that the condition is made of.
fn gathered(
    alloc: Global,
    terms: &mut Terms,
    _cond: TermId,
    made_of: &[TermId],
) -> Result<Vec<(TermId, TermId)>, NoMemory>
    requires { AreReached operands_of terms.old (_cond ∷ []) made_of.now }
    ensures made { IfOk result (λ pairs. IsPresents terms.new (tree_at (trees terms.old) _cond) pairs.items) }
    ensures kept { Grows terms.old terms.new }
{
    let mut pairs = Vec::new(alloc);
    for x in made_of {
        gather(terms, *x, &mut pairs)?;
    }
    Ok(pairs)
}

/// Adds a term with the value now of the part whose value before it is.
fn gather(terms: &mut Terms, x: TermId, pairs: &mut Vec<(TermId, TermId)>) -> Result<(), NoMemory>
    requires { IsIn terms.old x }
    ensures added { OnOk result (Gathers terms.old terms.new pairs.old.items x pairs.new.items) }
    ensures kept { Grows terms.old terms.new }
{
    match present_of(terms, x)? {
        Some(now) => put(pairs, (x, now)),
        None => Ok(()),
    }
}

/// The trigger of a rise or fall of a part, unless its gate is 0.
fn add_trigger(
    alloc: Global,
    terms: &mut Terms,
    cond: TermId,
    part: &Part,
    rise: bool,
    presents: &[(TermId, TermId)],
    triggers: &mut TriggerList,
) -> Result<(), NoMemory>
    requires is_in { IsIn terms.old cond }
    requires bit { part.now.ty ≡ int_type 1 }
    requires presents { IsPresents terms.old (tree_at (trees terms.old) cond) presents.now }
    ensures added { OnOk result (AddsTrigger terms.new triggers.old (tri.trigger_at (tree_at (trees terms.old) cond) part.now rise) triggers.new) }
    ensures kept { Grows terms.old terms.new }
{
    let gate = gate_at(alloc, terms, cond, part, rise, presents)?;
    if is_never(terms, gate) {
        return Ok(());
    }
    let part = part.copy()?;
    triggers.push(Trigger { rise, part, gate })
}

/// The gate of a rise or fall of a part: what the condition is there.
fn gate_at(
    alloc: Global,
    terms: &mut Terms,
    cond: TermId,
    part: &Part,
    rise: bool,
    presents: &[(TermId, TermId)],
) -> Result<TermId, NoMemory>
    requires is_in { IsIn terms.old cond }
    requires bit { part.now.ty ≡ int_type 1 }
    requires presents { IsPresents terms.old (tree_at (trees terms.old) cond) presents.now }
    ensures made { IfOk result (λ gate. StandsForTree terms.new gate (tri.gate_of rise part.now (tree_at (trees terms.old) cond))) }
    ensures kept { Grows terms.old terms.new }
{
    let swap = swap_at(alloc, terms, cond, part, rise, presents)?;
    terms.subst(cond, &swap)
}

/// Whether it is the constant 0 of one bit.
fn is_never(terms: &Terms, x: TermId) -> bool
    requires { IsIn terms.now x }
    ensures { result ≡ is_bit_tree 0 (tree_at (trees terms.now) x) }
{
    match terms.view(x) {
        Term::Konst(Val::Int { width, bits }) => *width == 1 && *bits == 0,
        _ => false,
    }
}

/// The values of a part before and now at its rise or fall, and for each other value before the value now.
fn swap_at(
    alloc: Global,
    terms: &mut Terms,
    cond: TermId,
    part: &Part,
    rise: bool,
    presents: &[(TermId, TermId)],
) -> Result<Swap, NoMemory>
    requires is_in { IsIn terms.old cond }
    requires bit { part.now.ty ≡ int_type 1 }
    requires presents { IsPresents terms.old (tree_at (trees terms.old) cond) presents.now }
    ensures made { IfOk result (λ swap. MakesGate terms.new rise part.now (tree_at (trees terms.old) cond) swap) }
    ensures kept { Grows terms.old terms.new }
{
    let before = konst_bit(terms, !rise)?;
    let after = konst_bit(terms, rise)?;
    let past = terms.past(part)?;
    let now = terms.now(part)?;
    let mut swap = Swap::new(alloc);
    swap.push((past, before))?;
    swap.push((now, after))?;
    let mut left = presents;
    while let [pair, rest @ ..] = left {
        add_pair(terms, *pair, &mut swap)?;
        left = rest;
    }
    Ok(swap)
}

/// Adds a pair, unless its first is first in another.
fn add_pair(terms: &Terms, pair: (TermId, TermId), swap: &mut Swap) -> Result<(), NoMemory>
    requires pairs_in { PairsIn terms.now swap.old }
    requires is_in { IsIn terms.now pair.0 }
    ensures { OnOk result (swap.new ≡ with_pair terms.now swap.old pair) }
{
    if is_first(terms, swap, pair.0) {
        return Ok(());
    }
    swap.push(pair)
}

/// The constant of a bit.
fn konst_bit(terms: &mut Terms, value: bool) -> Result<TermId, NoMemory>
    ensures made { IfOk result (λ t. StandsForTree terms.new t (bit_of value)) }
    ensures kept { Grows terms.old terms.new }
{
    if value {
        return terms.konst(Val::Int { width: 1, bits: 1 });
    }
    terms.konst(Val::Int { width: 1, bits: 0 })
}

/// Whether a term is first in a pair.
fn is_first(terms: &Terms, swap: &Swap, x: TermId) -> bool
    requires pairs_in { PairsIn terms.now swap.now }
    requires is_in { IsIn terms.now x }
    ensures { result ≡ first_in_pair (pairs_at terms.now swap.now) (tree_at (trees terms.now) x) }
{
    let mut left = swap.as_slice();
    while let [pair, rest @ ..] = left {
        if terms.same(pair.0, x) {
            return true;
        }
        left = rest;
    }
    false
}
