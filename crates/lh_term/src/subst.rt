//! Terms in place of parts' values.
ghost use Rattle.std.specs.Prelude.{◌≡◌, [], ◌∷◌, true, Some, nat_eq, IfOk};
ghost use Rattle.std.specs.Option.{is_some};
ghost use Rattle.std.specs.HashMap as hash;
ghost use Rattle.lh_term.specs.Arena.{trees, tree_at, IsIn, StandsForTree, Grows};
ghost use Rattle.lh_term.specs.Subst.{AreSwaps, PairsIn, pairs_at, swapped, replaced};
ghost use Rattle.lh_term.specs.Reach.{operands_of, AreReached, AreMade, MadeFor, OperandsMade};

use crate::term::{Term, TermId, TermList};
use crate::terms::Terms;
use lh_types::list::ListOf;
use lh_types::memory::NoMemory;
use std::alloc::Global;
use std::collections::HashMap;

/// A list of pairs: a part's value before or now, and the term that takes its place.
pub type Swap = ListOf<(TermId, TermId)>;

impl Terms {
    /// The term with terms in the places of parts' values, made anew by the equations. The first of each pair is a part's value
    /// before or now and first in no other pair, and the two are of one type.
    ///
    /// It looks at the terms alone that the term is made of, and makes each once. When memory runs out the terms made before keep
    /// their ids.
    pub fn subst(&mut self, t: TermId, by: &Swap) -> Result<TermId, NoMemory>
        requires is_in { IsIn self.old t }
        requires pairs_in { PairsIn self.old by.now }
        requires swaps { AreSwaps (pairs_at self.old by.now) }
        ensures made { IfOk result (λ x. StandsForTree self.new x (swapped (pairs_at self.old by.now) (tree_at (trees self.old) t))) }
        ensures kept { Grows self.old self.new }
    {
        let made_of = self.made_of(&[t])?;
        self.made_anew(t, &made_of, by)
    }

    /// The term made anew, by the terms that it is made of.
    fn made_anew(&mut self, t: TermId, made_of: &[TermId], by: &Swap) -> Result<TermId, NoMemory>
        requires is_in { IsIn self.old t }
        requires pairs_in { PairsIn self.old by.now }
        requires swaps { AreSwaps (pairs_at self.old by.now) }
        requires made_of { AreReached operands_of self.old (t ∷ []) made_of.now }
        ensures made { IfOk result (λ x. StandsForTree self.new x (swapped (pairs_at self.old by.now) (tree_at (trees self.old) t))) }
        ensures kept { Grows self.old self.new }
    {
        let mut made = HashMap::new(self.allocator());
        let mut k = made_of.len();
        while k > 0 {
            k -= 1;
            let x = self.remade(made_of[k], by, &made)?;
            made.insert(made_of[k].0, x)?;
        }
        Ok(made_at(&made, t))
    }

    /// The term with the terms that were made in place of its operands.
    fn remade(
        &mut self,
        x: TermId,
        by: &Swap,
        made: &HashMap<usize, TermId>,
    ) -> Result<TermId, NoMemory>
        requires is_in { IsIn self.old x }
        requires pairs_in { PairsIn self.old by.now }
        requires swaps { AreSwaps (pairs_at self.old by.now) }
        requires operands { OperandsMade self.old (pairs_at self.old by.now) x (hash.get nat_eq made.now) }
        ensures made { IfOk result (λ y. StandsForTree self.new y (swapped (pairs_at self.old by.now) (tree_at (trees self.old) x))) }
        ensures kept { Grows self.old self.new }
    {
        self.are_all_typed();
        match self.view(x) {
            Term::Konst(_) => Ok(x),
            Term::Past(_) | Term::Now(_) => Ok(self.replaced(by, x)),
            Term::Op { op, args } => {
                let op = *op;
                let args = renamed(self.allocator(), args.as_slice(), made)?;
                self.op(&op, args.as_slice())
            }
            Term::Choice { c, f, t } => {
                let c = made_at(made, *c);
                let f = made_at(made, *f);
                let t = made_at(made, *t);
                self.choice(c, f, t)
            }
        }
    }

    /// The second of the pair whose first is the term, else the term.
    fn replaced(&self, by: &Swap, x: TermId) -> TermId
        requires is_in { IsIn self.now x }
        requires pairs_in { PairsIn self.now by.now }
        ensures { StandsForTree self.now result (replaced (pairs_at self.now by.now) (tree_at (trees self.now) x)) }
    {
        let mut left = by.as_slice();
        while let [pair, rest @ ..] = left {
            if self.same(pair.0, x) {
                return pair.1;
            }
            left = rest;
        }
        x
    }
}

/// The term that was made for one.
fn made_at(made: &HashMap<usize, TermId>, x: TermId) -> TermId
    requires { is_some (hash.get nat_eq made.now x.0) ≡ true }
    ensures { hash.get nat_eq made.now x.0 ≡ Some result }
{
    match made.get(&x.0) {
        Some(y) => *y,
        None => unreachable!(),
    }
}

/// The terms that were made for these.
fn renamed(
    alloc: Global,
    xs: &[TermId],
    made: &HashMap<usize, TermId>,
) -> Result<TermList, NoMemory>
    requires { AreMade (hash.get nat_eq made.now) xs.now }
    ensures { IfOk result (λ ys. MadeFor (hash.get nat_eq made.now) xs.now ys) }
{
    let mut to = TermList::new(alloc);
    let mut left = xs;
    while let [x, rest @ ..] = left {
        let y = made_at(made, *x);
        to.push(y)?;
        left = rest;
    }
    Ok(to)
}
