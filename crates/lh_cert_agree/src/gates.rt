//! What two terms are joined of, as gates in a row: each makes its bit of the bits of gates before it.
ghost use Rattle.std.specs.Prelude.{◌≡◌, ℕ, ◌∷◌, [], List, Bool, true, Some, length, nat_eq, if◌then◌else◌, IfOk, OnOk};
ghost use Rattle.std.specs.Option.{is_some};
ghost use Rattle.std.specs.HashMap as hash;
ghost use Rattle.lh_types.specs.ValueOf.{datum_of};
ghost use Rattle.lh_term.specs.Make.{is_bit_value};
ghost use Rattle.lh_term.specs.Arena.{trees, tree_at, trees_at, IsIn, AreIn};
ghost use Rattle.lh_term.specs.Reach.{GoOn, none_left};
ghost use Rattle.lh_edge.specs.Reached.{joined_by};
ghost use Rattle.lh_edge.specs.Valuations as spec;
ghost use Rattle.lh_edge.specs.Steps.{numbered, values_at};
ghost use Rattle.lh_cert_agree.specs.Gates.{AreGates, IsGateOf, ArePlaced, OperandsPlaced, gate_bit, gate_bits, placed_bit, bit_in};

use lh_edge::atoms::is_atom;
use lh_term::term::{Term, TermId};
use lh_term::terms::Terms;
use lh_types::memory::NoMemory;
use lh_types::op::Op;
use lh_types::val::Val;
use std::alloc::Global;
use std::collections::HashMap;

/// How the bit of a term comes about: it is given, or that of an atom, or made of those of gates before it, named by their places.
#[derive(Clone, Copy)]
pub(crate) enum Gate {
    Given(bool),
    Atom(usize),
    Not(usize),
    And(usize, usize),
    Or(usize, usize),
    Differ(usize, usize),
    Same(usize, usize),
    Choice(usize, usize, usize),
}

/// Gates in a row, and the place of each term among them.
#[derive(Drop)]
pub(crate) struct Network {
    pub(crate) gates: Vec<Gate>,
    pub(crate) places: HashMap<usize, usize>,
}

impl Network {
    /// The gates of some terms, of which each stands before those that it joins.
    pub(crate) fn new(
        alloc: Global,
        terms: &Terms,
        joined: &[TermId],
        atoms: &[TermId],
    ) -> Result<Network, NoMemory>
        requires atoms_in { AreIn terms.now atoms.now }
        requires joined_in { AreIn terms.now joined.now }
        requires go_on { GoOn (joined_by (trees terms.now)) terms.now none_left joined.now }
        ensures gates { IfOk result (λ n. AreGates terms.now (trees_at terms.now atoms.now) n.gates.items (hash.get nat_eq n.places)) }
        ensures placed { IfOk result (λ n. ArePlaced (hash.get nat_eq n.places) joined.now) }
    {
        let mut network = Network {
            gates: Vec::new(alloc),
            places: HashMap::new(alloc),
        };
        let mut k = joined.len();
        while k > 0 {
            k -= 1;
            network.add(terms, joined[k], atoms)?;
        }
        Ok(network)
    }

    /// Adds the gate of a term.
    fn add(&mut self, terms: &Terms, x: TermId, atoms: &[TermId]) -> Result<(), NoMemory>
        requires is_in { IsIn terms.now x }
        requires atoms_in { AreIn terms.now atoms.now }
        requires gates { AreGates terms.now (trees_at terms.now atoms.now) self.old.gates.items (hash.get nat_eq self.old.places) }
        requires operands { OperandsPlaced terms.now (hash.get nat_eq self.old.places) x }
        ensures gates { OnOk result (AreGates terms.now (trees_at terms.now atoms.now) self.new.gates.items (hash.get nat_eq self.new.places)) }
        ensures placed { OnOk result ((q : ℕ) → hash.get nat_eq self.new.places q ≡ (if nat_eq x.0 q then Some (length self.old.gates.items) else hash.get nat_eq self.old.places q)) }
    {
        let gate = self.gate_of(terms, x, atoms);
        let place = self.gates.len();
        self.gates.push(gate)?;
        self.places.insert(x.0, place)?;
        Ok(())
    }

    /// The place of a term.
    pub(crate) fn place_of(&self, x: TermId) -> usize
        requires { is_some (hash.get nat_eq self.now.places x.0) ≡ true }
        ensures { hash.get nat_eq self.now.places x.0 ≡ Some result }
    {
        match self.places.get(&x.0) {
            Some(place) => *place,
            None => unreachable!(),
        }
    }

    /// The gate of a term whose operands have places.
    fn gate_of(&self, terms: &Terms, x: TermId, atoms: &[TermId]) -> Gate
        requires is_in { IsIn terms.now x }
        requires atoms_in { AreIn terms.now atoms.now }
        requires gates { AreGates terms.now (trees_at terms.now atoms.now) self.now.gates.items (hash.get nat_eq self.now.places) }
        requires operands { OperandsPlaced terms.now (hash.get nat_eq self.now.places) x }
        ensures { IsGateOf (trees_at terms.now atoms.now) self.now.gates.items result (tree_at (trees terms.now) x) }
    {
        if is_atom(terms, x) {
            return atom_gate(terms, atoms, x);
        }
        match terms.view(x) {
            Term::Konst(v) => Gate::Given(is_one(v)),
            Term::Op { op, args } => self.connective(op, args.as_slice()),
            Term::Choice { c, f, t } => self.choice(*c, *f, *t),
            Term::Past(_) | Term::Now(_) => Gate::Given(false),
        }
    }

    /// The gate of a choice.
    fn choice(&self, c: TermId, f: TermId, t: TermId) -> Gate
        requires { ArePlaced (hash.get nat_eq self.now.places) (c ∷ f ∷ t ∷ []) }
        ensures { (n : ℕ) → gate_bit n (gate_bits n self.now.gates.items) result ≡ (if placed_bit n self.now.gates.items (hash.get nat_eq self.now.places) c.0 then placed_bit n self.now.gates.items (hash.get nat_eq self.now.places) t.0 else placed_bit n self.now.gates.items (hash.get nat_eq self.now.places) f.0) }
    {
        let c = self.place_of(c);
        let f = self.place_of(f);
        let t = self.place_of(t);
        Gate::Choice(c, f, t)
    }

    /// The gate of a connective.
    fn connective(&self, op: &Op, args: &[TermId]) -> Gate
        requires { ArePlaced (hash.get nat_eq self.now.places) args.now }
        ensures { (n : ℕ) → gate_bit n (gate_bits n self.now.gates.items) result ≡ spec.connected op.now (values_at (placed_bit n self.now.gates.items (hash.get nat_eq self.now.places)) args.now) }
    {
        match args {
            [a] => of_one(op, self.place_of(*a)),
            [a, b] => of_two(op, self.place_of(*a), self.place_of(*b)),
            _ => Gate::Given(false),
        }
    }
}

/// The gate of a connective of one operand.
fn of_one(op: &Op, a: usize) -> Gate
    ensures { (n : ℕ) (bits : List Bool) → gate_bit n bits result ≡ spec.connected op.now (bit_in bits a ∷ []) }
{
    match op {
        Op::Not => Gate::Not(a),
        _ => Gate::Given(false),
    }
}

/// The gate of a connective of two operands.
fn of_two(op: &Op, a: usize, b: usize) -> Gate
    ensures { (n : ℕ) (bits : List Bool) → gate_bit n bits result ≡ spec.connected op.now (bit_in bits a ∷ bit_in bits b ∷ []) }
{
    match op {
        Op::And => Gate::And(a, b),
        Op::Or => Gate::Or(a, b),
        Op::Xor | Op::Neq => Gate::Differ(a, b),
        Op::Eq => Gate::Same(a, b),
        _ => Gate::Given(false),
    }
}

/// The gate of an atom: its number is its place in the list.
fn atom_gate(terms: &Terms, atoms: &[TermId], x: TermId) -> Gate
    requires atoms_in { AreIn terms.now atoms.now }
    requires is_in { IsIn terms.now x }
    ensures { (n : ℕ) (bits : List Bool) → gate_bit n bits result ≡ numbered (trees_at terms.now atoms.now) n (tree_at (trees terms.now) x) }
{
    let mut j = 0;
    let mut left = atoms;
    while let [atom, rest @ ..] = left {
        if terms.same(*atom, x) {
            return Gate::Atom(j);
        }
        j += 1;
        left = rest;
    }
    Gate::Given(false)
}

/// Whether it is the one bit 1.
fn is_one(v: &Val) -> bool
    ensures { result ≡ is_bit_value 1 (datum_of v.now) }
{
    match v {
        Val::Int { width, bits } => *width == 1 && *bits == 1,
        _ => false,
    }
}
