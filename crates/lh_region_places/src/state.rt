//! The places of a region that were reached, and what is known at each.
ghost use Rattle.std.specs.Prelude.{◌≡◌, ℕ, [], true, IfOk, OnOk, OnErr, None};
ghost use Rattle.std.specs.Option.{is_some};
ghost use Rattle.lh_term.specs.Arena.{Grows};
ghost use Rattle.lh_region_places.specs.Asked.{kept_by, shape_of, IsWith, IsJoin, IsSelected, CanJoin, IsJoined};

use lh_region_joins::Edge;
use lh_region_joins::joins::{are_same, merge, selectors};
use lh_term::term::{TermId, TermList};
use lh_term::terms::Terms;
use lh_types::memory::NoMemory;
use std::alloc::Global;
use std::collections::HashMap;

/// A place: a block after a number of turns.
#[derive(Drop)]
pub struct PlaceState {
    pub block: u32,
    /// The edges to it, in the order of their sources.
    pub edges: Vec<Edge>,
    /// What each edge after the first adds to the conditions of all, once it was asked for.
    pub selectors: Option<TermList>,
    /// The terms of values and variables that are known by now: those that the place gives, and those that were asked for.
    pub known: HashMap<u32, TermId>,
}

impl PlaceState {
    /// A place that nothing leads to yet.
    pub fn new(alloc: Global, block: u32) -> PlaceState
        ensures block { result.block ≡ block }
        ensures edges { result.edges.items ≡ [] }
        ensures selectors { result.selectors ≡ None }
        ensures known { (v : ℕ) → kept_by v result ≡ None }
    {
        PlaceState {
            block,
            edges: Vec::new(alloc),
            selectors: None,
            known: HashMap::new(alloc),
        }
    }

    /// The term of a value or variable, if it is known by now.
    pub fn get(&self, value: u32) -> Option<TermId>
        ensures { result ≡ kept_by value self.now }
    {
        self.known.get(&value).copied()
    }

    /// Whether the term of a value or variable is known by now.
    pub fn keeps(&self, value: u32) -> bool
        ensures { result ≡ is_some (kept_by value self.now) }
    {
        self.known.get(&value).is_some()
    }

    /// Makes a term known.
    pub fn set(&mut self, value: u32, term: TermId) -> Result<(), NoMemory>
        ensures ok { OnOk result (IsWith self.old value term self.new) }
        ensures err { OnErr result ((w : ℕ) → kept_by w self.new ≡ kept_by w self.old) }
        ensures shape { shape_of self.new ≡ shape_of self.old }
    {
        self.known.insert(value, term)?;
        Ok(())
    }

    /// The value of the edge that is taken, of one for each edge to the place.
    pub fn merged(
        &mut self,
        alloc: Global,
        terms: &mut Terms,
        values: &[TermId],
    ) -> Result<TermId, NoMemory>
        requires join { IsJoin terms.old self.old }
        requires values { CanJoin terms.old self.old values.now }
        ensures kept { Grows terms.old terms.new }
        ensures known { self.new.known ≡ self.old.known }
        ensures shape { shape_of self.new ≡ shape_of self.old }
        ensures place { OnOk result (IsSelected terms.new self.old self.new) }
        ensures made { IfOk result (λ t. IsJoined terms.old self.old.edges.items values.now terms.new t) }
    {
        let [first, others @ ..] = values else {
            unreachable!()
        };
        if are_same(*first, others) {
            return Ok(*first);
        }
        self.select(alloc, terms)?;
        match &self.selectors {
            Some(selectors) => merge(terms, selectors.as_slice(), *first, others),
            None => unreachable!(),
        }
    }

    /// Makes the selectors of the place's edges, unless they were made.
    fn select(&mut self, alloc: Global, terms: &mut Terms) -> Result<(), NoMemory>
        requires { IsJoin terms.old self.old }
        ensures kept { Grows terms.old terms.new }
        ensures known { self.new.known ≡ self.old.known }
        ensures shape { shape_of self.new ≡ shape_of self.old }
        ensures place { OnOk result (IsSelected terms.new self.old self.new) }
        ensures there { OnOk result (is_some self.new.selectors ≡ true) }
    {
        if self.selectors.is_none() {
            let made = selectors(alloc, terms, self.edges.as_slice())?;
            self.selectors = Some(made);
        }
        Ok(())
    }
}
