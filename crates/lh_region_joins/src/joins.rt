//! Where edges join: on which condition control is there, and what tells the edges apart.
ghost use Rattle.std.specs.Prelude.{◌≡◌, ◌<◌, ◌+◌, ◌^◌, not, ℕ, List, map, nat_eq, IfOk, OnOk};
ghost use Rattle.std.specs.List.{filter, list_all};
ghost use Rattle.lh_unit.specs.Within.{Each};
ghost use Rattle.lh_term.specs.Arena.{trees, tree_at, trees_at, AreIn, StandsForTree, Grows};
ghost use Rattle.lh_term.specs.Conjuncts.{conjuncts_of, conjunction};
ghost use Rattle.lh_region_def.specs.Joins.{any_taken, in_each, selector};
ghost use Rattle.lh_term.specs.Make.{make_choice};
ghost use Rattle.lh_term.specs.declared.term.TermId.{TermId as TermOf};
ghost use Rattle.lh_region_joins.specs.declared.edge.Edge.{Edge as EdgeOf};
ghost use Rattle.lh_region_joins.specs.Joins.{IsConditionAt, AreConditions, edges_on, is_listed, count_of, raised, IsShared, AreTerms, AreOthers, after_first, chosen_by, CanChoose, CanMerge};

use crate::edge::Edge;
use crate::logic::{and, bit, or};
use lh_term::term::{TermId, TermList};
use lh_term::terms::Terms;
use lh_types::list::ListOf;
use lh_types::memory::NoMemory;
use std::alloc::Global;
use std::collections::HashMap;

/// The conditions of edges, one or the other, from the left.
pub fn any_of(terms: &mut Terms, edges: &[Edge]) -> Result<TermId, NoMemory>
    requires { AreConditions terms.old edges.now }
    ensures made { IfOk result (λ t. StandsForTree terms.new t (any_taken (edges_on terms.old edges.now))) }
    ensures kept { Grows terms.old terms.new }
{
    let mut any = bit(terms, false)?;
    for edge in edges {
        any = or(terms, any, edge.cond)?;
    }
    Ok(any)
}

/// Which conjuncts all of some edges have: for each the number of edges that have it, from the first one on without a gap.
#[derive(Drop)]
pub struct Shared {
    counts: HashMap<usize, usize>,
    edges: usize,
}

impl Shared {
    /// The conjuncts of these edges.
    pub fn new(alloc: Global, terms: &Terms, edges: &[Edge]) -> Result<Shared, NoMemory>
        requires { AreConditions terms.now edges.now }
        ensures { IfOk result (λ shared. IsShared terms.now edges.now shared) }
    {
        terms.are_apart();
        let mut shared = Shared {
            counts: HashMap::new(alloc),
            edges: 0,
        };
        for edge in edges {
            let conjuncts = terms.conjuncts(edge.cond)?;
            shared.take(&conjuncts)?;
        }
        Ok(shared)
    }

    /// Takes the conjuncts of one more edge into account.
    fn take(&mut self, conjuncts: &TermList) -> Result<(), NoMemory>
        requires { self.old.edges + 1 < 2 ^ 64 }
        ensures edges { OnOk result (self.new.edges ≡ self.old.edges + 1) }
        ensures counts { OnOk result ((q : ℕ) → count_of self.new.counts q ≡ raised self.old.edges (is_listed conjuncts.now q) (count_of self.old.counts q)) }
    {
        for conjunct in conjuncts.as_slice() {
            self.note(*conjunct)?;
        }
        self.edges += 1;
        Ok(())
    }

    /// Notes that the next edge has a conjunct too, if all before it have.
    fn note(&mut self, conjunct: TermId) -> Result<(), NoMemory>
        requires { self.old.edges + 1 < 2 ^ 64 }
        ensures edges { self.new.edges ≡ self.old.edges }
        ensures counts { OnOk result ((q : ℕ) → count_of self.new.counts q ≡ raised self.old.edges (nat_eq conjunct.0 q) (count_of self.old.counts q)) }
    {
        if self.count(conjunct) != self.edges {
            return Ok(());
        }
        self.counts.insert(conjunct.0, self.edges + 1)?;
        Ok(())
    }

    fn count(&self, conjunct: TermId) -> usize
        ensures { result ≡ count_of self.now.counts conjunct.0 }
    {
        self.counts.get(&conjunct.0).copied().unwrap_or(0)
    }

    /// Whether all the edges have a conjunct.
    fn has(&self, conjunct: TermId) -> bool
        ensures { result ≡ nat_eq (count_of self.now.counts conjunct.0) self.now.edges }
    {
        self.count(conjunct) == self.edges
    }

    /// The conjuncts of a condition that not all edges have.
    pub fn others(&self, alloc: Global, terms: &Terms, cond: TermId) -> Result<TermList, NoMemory>
        requires { IsConditionAt terms.now cond }
        ensures within { IfOk result (λ ts. AreIn terms.now ts) }
        ensures others { (es : List EdgeOf) → IsShared terms.now es self.now → IfOk result (λ ts. trees_at terms.now ts ≡ filter (λ c. not (in_each (edges_on terms.now es) c)) (conjuncts_of (tree_at (trees terms.now) cond))) }
    {
        let conjuncts = terms.conjuncts(cond)?;
        let mut others = TermList::new(alloc);
        for conjunct in conjuncts.as_slice() {
            if !self.has(*conjunct) {
                others.push(*conjunct)?;
            }
        }
        Ok(others)
    }

    fn others_of_each(
        &self,
        alloc: Global,
        terms: &Terms,
        edges: &[Edge],
    ) -> Result<ListOf<TermList>, NoMemory>
        requires { AreConditions terms.now edges.now }
        ensures { IfOk result (λ lists. (es : List EdgeOf) → IsShared terms.now es self.now → AreOthers terms.now (edges_on terms.now es) (edges_on terms.now edges.now) lists) }
    {
        let mut others = ListOf::new(alloc);
        for edge in edges {
            others.push(self.others(alloc, terms, edge.cond)?)?;
        }
        Ok(others)
    }
}

/// The conjunction of conditions, from the left.
pub fn conjunction(terms: &mut Terms, conds: &[TermId]) -> Result<TermId, NoMemory>
    requires { Each (IsConditionAt terms.old) conds.now }
    ensures made { IfOk result (λ t. StandsForTree terms.new t (conjunction (trees_at terms.old conds.now))) }
    ensures kept { Grows terms.old terms.new }
{
    let mut all = bit(terms, true)?;
    for cond in conds {
        all = and(terms, all, *cond)?;
    }
    Ok(all)
}

/// What tells the edges after the first from the others, one term for each: the conjunction of the conjuncts of its condition that not
/// all edges have.
pub fn selectors(alloc: Global, terms: &mut Terms, edges: &[Edge]) -> Result<TermList, NoMemory>
    requires { AreConditions terms.old edges.now }
    ensures made { IfOk result (λ ts. AreTerms terms.new ts (map (selector (edges_on terms.old edges.now)) (after_first (edges_on terms.old edges.now)))) }
    ensures kept { Grows terms.old terms.new }
{
    let others = others_of(alloc, terms, edges)?;
    let mut selectors = TermList::new(alloc);
    for conds in others.as_slice() {
        selectors.push(conjunction(terms, conds.as_slice())?)?;
    }
    Ok(selectors)
}

/// The conjuncts of each edge after the first that not all edges have.
fn others_of(alloc: Global, terms: &Terms, edges: &[Edge]) -> Result<ListOf<TermList>, NoMemory>
    requires { AreConditions terms.now edges.now }
    ensures { IfOk result (λ lists. AreOthers terms.now (edges_on terms.now edges.now) (after_first (edges_on terms.now edges.now)) lists) }
{
    let shared = Shared::new(alloc, terms, edges)?;
    let others = shared.others_of_each(alloc, terms, later(edges))?;
    Ok(others)
}

/// The edges after the first.
fn later(edges: &[Edge]) -> &[Edge]
    ensures { result.now ≡ after_first edges.now }
{
    match edges {
        [_, later @ ..] => later,
        [] => edges,
    }
}

/// Whether all terms after the first are the first.
pub fn are_same(first: TermId, others: &[TermId]) -> bool
    ensures { result ≡ list_all (λ (t : TermOf). nat_eq first.0 t.0) others.now }
{
    others.iter().all(|t| t.0 == first.0)
}

/// The value of the edge that is taken, of one for each edge: it starts as that of the first edge, and for each further edge it is that of
/// the edge where its selector is 1.
pub fn merge(
    terms: &mut Terms,
    selectors: &[TermId],
    first: TermId,
    others: &[TermId],
) -> Result<TermId, NoMemory>
    requires { CanMerge terms.old selectors.now first others.now }
    ensures made { IfOk result (λ t. StandsForTree terms.new t (chosen_by (trees_at terms.old selectors.now) (tree_at (trees terms.old) first) (trees_at terms.old others.now))) }
    ensures kept { Grows terms.old terms.new }
{
    let mut merged = first;
    for (k, value) in others.iter().enumerate() {
        merged = choose(terms, selectors[k], merged, *value)?;
    }
    Ok(merged)
}

/// The value so far, or another where its selector is 1.
fn choose(
    terms: &mut Terms,
    selector: TermId,
    so_far: TermId,
    value: TermId,
) -> Result<TermId, NoMemory>
    requires { CanChoose terms.old selector so_far value }
    ensures made { IfOk result (λ t. StandsForTree terms.new t (make_choice (tree_at (trees terms.old) selector) (tree_at (trees terms.old) so_far) (tree_at (trees terms.old) value))) }
    ensures kept { Grows terms.old terms.new }
{
    terms.choice(selector, so_far, value)
}
