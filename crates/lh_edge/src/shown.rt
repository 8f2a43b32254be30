//! Whether every valuation at which the edge part holds is shown by a part.
ghost use Rattle.std.specs.Prelude.{◌≡◌, ◌<◌, ◌≤◌, ◌+◌, ◌*◌, ◌^◌, true, false, not, ◌||◌, if◌then◌else◌, nat_eq, length, replicate, slice_index_or, IfOk, OnOk};
ghost use Rattle.std.specs.List.{list_any};
ghost use Rattle.std.specs.HashSet as hash;
ghost use Rattle.lh_term.specs.Tree.{past_of, now_of};
ghost use Rattle.lh_term.specs.SameTree.{same_tree};
ghost use Rattle.lh_term.specs.Arena.{trees, tree_at, trees_at, IsIn};
ghost use Rattle.lh_edge.specs.Atoms as spec;
ghost use Rattle.lh_edge.specs.Steps as step;
ghost use Rattle.lh_edge.specs.Steps.{AddsShown, AreMarks, HoldsBy, IsKnown, IsSight};

use crate::table::differ;
use lh_term::part::Part;
use lh_term::term::{Term, TermId};
use lh_term::terms::Terms;
use lh_types::memory::NoMemory;
use std::alloc::Global;
use std::collections::HashSet;

/// What is known of the edge part: at which valuations of its atoms it holds, and in which terms a value before is.
#[derive(Clone, Copy)]
pub(crate) struct EdgePart<'a> {
    pub(crate) terms: &'a Terms,
    pub(crate) atoms: &'a [TermId],
    pub(crate) table: &'a [bool],
    pub(crate) pasts: &'a HashSet<usize>,
}

/// How a part shows valuations by their numbers: the bit of its value before and that of its value now, or 0 where it is no atom; the bits
/// of the atoms that stay; and for each number of such bits whether the edge part holds wherever they are so.
#[derive(Drop)]
struct Sight {
    before: usize,
    after: usize,
    kept: usize,
    holds: Vec<bool>,
}

impl EdgePart<'_> {
    /// Whether every valuation at which the edge part holds is shown by one of the parts.
    ///
    /// It looks at each valuation twice for each part.
    pub(crate) fn are_shown(&self, alloc: Global, parts: &[Part]) -> Result<bool, NoMemory>
        requires known { IsKnown self.now.terms.now self.now.atoms.now (hash.contains nat_eq self.now.pasts.now) }
        requires few { length self.now.atoms.now ≤ 12 }
        ensures { IfOk result (λ all. all ≡ step.shown_from self.now.table.now (trees_at self.now.terms.now self.now.atoms.now) parts.now 0 self.now.table.now) }
    {
        let mut shown = unset(alloc, self.table.len())?;
        let mut left = parts;
        while let [part, rest @ ..] = left {
            self.add_shown(alloc, part, &mut shown)?;
            left = rest;
        }
        Ok(self.are_marked(parts, &shown))
    }

    /// Marks the valuations that a part shows.
    fn add_shown(&self, alloc: Global, part: &Part, shown: &mut [bool]) -> Result<(), NoMemory>
        requires known { IsKnown self.now.terms.now self.now.atoms.now (hash.contains nat_eq self.now.pasts.now) }
        requires few { length self.now.atoms.now ≤ 12 }
        requires len { length shown.old ≡ length self.now.table.now }
        ensures { OnOk result (AddsShown self.now.table.now (trees_at self.now.terms.now self.now.atoms.now) part.now shown.old shown.new) }
    {
        let sight = self.sight_of(alloc, part)?;
        for valuation in 0..self.table.len() {
            if self.shows(part, &sight, valuation) {
                shown[valuation] = true;
            }
        }
        Ok(())
    }

    /// Whether every valuation at which the edge part holds is marked.
    fn are_marked(&self, _parts: &[Part], shown: &[bool]) -> bool
        requires { AreMarks self.now.table.now (trees_at self.now.terms.now self.now.atoms.now) _parts.now shown.now }
        ensures { result ≡ step.shown_from self.now.table.now (trees_at self.now.terms.now self.now.atoms.now) _parts.now 0 self.now.table.now }
    {
        for valuation in 0..self.table.len() {
            if !self.is_marked_or_false(_parts, shown, valuation) {
                return false;
            }
        }
        true
    }

    /// Whether the edge part does not hold at a valuation, or it is marked.
    fn is_marked_or_false(&self, _parts: &[Part], shown: &[bool], valuation: usize) -> bool
        requires marks { AreMarks self.now.table.now (trees_at self.now.terms.now self.now.atoms.now) _parts.now shown.now }
        requires within { valuation < length self.now.table.now }
        ensures { result ≡ (not (slice_index_or self.now.table.now valuation false) || list_any (step.shows_at self.now.table.now (trees_at self.now.terms.now self.now.atoms.now) valuation) _parts.now) }
    {
        !self.table[valuation] || shown[valuation]
    }

    /// Whether a part changes, and the edge part holds whatever the other atoms of the past are.
    fn shows(&self, _part: &Part, sight: &Sight, valuation: usize) -> bool
        requires sight { IsSight self.now.table.now (trees_at self.now.terms.now self.now.atoms.now) _part.now sight.now }
        requires within { valuation < length self.now.table.now }
        ensures { result ≡ step.shows_at self.now.table.now (trees_at self.now.terms.now self.now.atoms.now) valuation _part.now }
    {
        let before = has_bit(valuation, sight.before);
        let after = has_bit(valuation, sight.after);
        if differ(before, after) {
            return sight.holds[valuation & sight.kept];
        }
        false
    }

    /// How a part shows valuations.
    fn sight_of(&self, alloc: Global, part: &Part) -> Result<Sight, NoMemory>
        requires known { IsKnown self.now.terms.now self.now.atoms.now (hash.contains nat_eq self.now.pasts.now) }
        requires few { length self.now.atoms.now ≤ 12 }
        ensures { IfOk result (IsSight self.now.table.now (trees_at self.now.terms.now self.now.atoms.now) part.now) }
    {
        let before = self.past_bit(part);
        let after = self.now_bit(part);
        let kept = self.kept_bits(part);
        let holds = self.holds_by(alloc, kept)?;
        Ok(Sight {
            before,
            after,
            kept,
            holds,
        })
    }

    /// The bit of a part's value before, or 0.
    fn past_bit(&self, part: &Part) -> usize
        requires known { IsKnown self.now.terms.now self.now.atoms.now (hash.contains nat_eq self.now.pasts.now) }
        requires few { length self.now.atoms.now ≤ 12 }
        ensures { result ≡ step.bit_of_atom (trees_at self.now.terms.now self.now.atoms.now) (past_of part.now) }
    {
        let mut bit = 0;
        let mut k = self.atoms.len();
        while k > 0 {
            k -= 1;
            bit = first_or(is_before(self.terms, self.atoms[k], part), bit);
        }
        bit
    }

    /// The bit of a part's value now, or 0.
    fn now_bit(&self, part: &Part) -> usize
        requires known { IsKnown self.now.terms.now self.now.atoms.now (hash.contains nat_eq self.now.pasts.now) }
        requires few { length self.now.atoms.now ≤ 12 }
        ensures { result ≡ step.bit_of_atom (trees_at self.now.terms.now self.now.atoms.now) (now_of part.now) }
    {
        let mut bit = 0;
        let mut k = self.atoms.len();
        while k > 0 {
            k -= 1;
            bit = first_or(is_now(self.terms, self.atoms[k], part), bit);
        }
        bit
    }

    /// The bits of the atoms that stay as they are where a part shows.
    fn kept_bits(&self, part: &Part) -> usize
        requires known { IsKnown self.now.terms.now self.now.atoms.now (hash.contains nat_eq self.now.pasts.now) }
        requires few { length self.now.atoms.now ≤ 12 }
        ensures { result ≡ step.kept_bits (past_of part.now) (trees_at self.now.terms.now self.now.atoms.now) }
    {
        let mut kept = 0;
        let mut k = self.atoms.len();
        while k > 0 {
            k -= 1;
            kept = kept_or(self.is_other(part, self.atoms[k]), kept);
        }
        kept
    }

    /// For each number of such bits whether the edge part holds at all valuations that have these of the bits that are kept.
    fn holds_by(&self, alloc: Global, kept: usize) -> Result<Vec<bool>, NoMemory>
        ensures { IfOk result (λ holds. HoldsBy self.now.table.now kept holds.items) }
    {
        let mut holds = all_set(alloc, self.table.len())?;
        for valuation in 0..self.table.len() {
            if !self.table[valuation] {
                holds[valuation & kept] = false;
            }
        }
        Ok(holds)
    }

    /// Whether a value before is in an atom, and it is not that of the part.
    fn is_other(&self, part: &Part, atom: TermId) -> bool
        requires atom_in { IsIn self.now.terms.now atom }
        requires told { hash.contains nat_eq self.now.pasts.now atom.0 ≡ spec.contains_past (tree_at (trees self.now.terms.now) atom) }
        ensures { result ≡ step.is_other (past_of part.now) (tree_at (trees self.now.terms.now) atom) }
    {
        self.pasts.contains(&atom.0) && !is_past(self.terms, atom, part)
    }
}

/// Whether the term is the value of a part before.
pub(crate) fn is_past(terms: &Terms, x: TermId, part: &Part) -> bool
    requires { IsIn terms.now x }
    ensures { result ≡ same_tree (past_of part.now) (tree_at (trees terms.now) x) }
{
    match terms.view(x) {
        Term::Past(of) => *part == *of,
        _ => false,
    }
}

/// Whether the term is the value of a part before, asked the other way round.
fn is_before(terms: &Terms, x: TermId, part: &Part) -> bool
    requires { IsIn terms.now x }
    ensures { result ≡ same_tree (tree_at (trees terms.now) x) (past_of part.now) }
{
    match terms.view(x) {
        Term::Past(of) => *of == *part,
        _ => false,
    }
}

/// Whether the term is the value of a part now.
fn is_now(terms: &Terms, x: TermId, part: &Part) -> bool
    requires { IsIn terms.now x }
    ensures { result ≡ same_tree (tree_at (trees terms.now) x) (now_of part.now) }
{
    match terms.view(x) {
        Term::Now(of) => *of == *part,
        _ => false,
    }
}

/// Whether a number has this bit.
fn has_bit(number: usize, bit: usize) -> bool
    ensures { result ≡ step.has_bit number bit }
{
    number & bit != 0
}

/// The lowest bit where this atom is the one, else the bit found among those after it.
fn first_or(is_it: bool, later: usize) -> usize
    requires { later < 2 ^ 12 }
    ensures { result ≡ (if is_it then 1 else 2 * later) }
{
    if is_it { 1 } else { 2 * later }
}

/// The bits of the atoms after one that are kept, with its own unless it is another of the past.
fn kept_or(is_other: bool, later: usize) -> usize
    requires { later < 2 ^ 12 }
    ensures { result ≡ (if is_other then 2 * later else 1 + 2 * later) }
{
    if is_other { 2 * later } else { 1 + 2 * later }
}

/// Flags of which none is set.
fn unset(alloc: Global, len: usize) -> Result<Vec<bool>, NoMemory>
    ensures { IfOk result (λ flags. flags.items ≡ replicate len false) }
{
    Ok(vec![in alloc; false; len]?)
}

/// Flags that are all set.
fn all_set(alloc: Global, len: usize) -> Result<Vec<bool>, NoMemory>
    ensures { IfOk result (λ flags. flags.items ≡ replicate len true) }
{
    Ok(vec![in alloc; true; len]?)
}
