//! The conjuncts of a condition.
ghost use Rattle.std.specs.Prelude.{◌≡◌, [], IfOk, OnOk};
ghost use Rattle.lh_term.specs.Arena.{trees, tree_at, trees_at, IsIn, AreIn};
ghost use Rattle.lh_term.specs.Conjuncts.{conjuncts_of};
ghost use Rattle.lh_term.specs.Found.{FindsJoined};

use crate::forms::and_operands;
use crate::term::{Term, TermId, TermList};
use crate::terms::Terms;
use lh_types::memory::NoMemory;
use std::collections::HashSet;

impl Terms {
    /// The conjuncts of a condition in order: those of both operands of `and` on one bit, none of the constant 1, and of any other
    /// term the term itself. One that repeats counts once.
    ///
    /// It looks at each shared term once, and at no other term of the arena.
    pub fn conjuncts(&self, t: TermId) -> Result<TermList, NoMemory>
        requires { IsIn self.now t }
        ensures within { IfOk result (λ ts. AreIn self.now ts) }
        ensures conjuncts { IfOk result (λ ts. trees_at self.now ts ≡ conjuncts_of (tree_at (trees self.now) t)) }
    {
        let mut found = TermList::new(self.allocator());
        let mut seen = HashSet::new(self.allocator());
        let mut ahead = Vec::new(self.allocator());
        self.walk(t, &mut found, &mut seen, &mut ahead)?;
        Ok(found)
    }

    /// The conjuncts, by the terms seen and those ahead, which belong to the caller: then no failure here has anything to drop.
    fn walk(
        &self,
        t: TermId,
        found: &mut TermList,
        seen: &mut HashSet<usize>,
        ahead: &mut Vec<TermId>,
    ) -> Result<(), NoMemory>
        requires is_in { IsIn self.now t }
        requires none_found { found.old ≡ [] }
        requires none_seen { seen.old.keys ≡ [] }
        requires none_ahead { ahead.old.items ≡ [] }
        ensures within { OnOk result (AreIn self.now found.new) }
        ensures conjuncts { OnOk result (trees_at self.now found.new ≡ conjuncts_of (tree_at (trees self.now) t)) }
    {
        self.are_apart();
        ahead.push(t)?;
        while let Some(x) = ahead.pop() {
            let is_new = seen.insert(x.0)?;
            if !is_new {
                continue;
            }
            if let Some((a, b)) = self.joined(x) {
                ahead.push(b)?;
                ahead.push(a)?;
            } else if !self.is_bit(x, 1) {
                found.push(x)?;
            }
        }
        Ok(())
    }

    /// `a` and `b` where the term is `and(a, b)` on one bit.
    fn joined(&self, x: TermId) -> Option<(TermId, TermId)>
        requires { IsIn self.now x }
        ensures { FindsJoined self.now x result (tree_at (trees self.now) x) }
    {
        if !self.ty(x).is_bit() {
            return None;
        }
        match self.view(x) {
            Term::Op { op, args } => and_operands(op, args.as_slice()),
            Term::Konst(_) | Term::Past(_) | Term::Now(_) | Term::Choice { .. } => None,
        }
    }
}
