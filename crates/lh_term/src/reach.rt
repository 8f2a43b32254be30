//! The terms that some terms are made of.
ghost use Rattle.std.specs.Prelude.{◌≡◌, ◌||◌, ℕ, Some, slice_get, nat_eq, IfOk, OnOk};
ghost use Rattle.std.specs.Ordering.{nat_cmp};
ghost use Rattle.std.specs.BTreeSet as sorted;
ghost use Rattle.lh_term.specs.Arena.{terms_in, IsIn, AreIn};
ghost use Rattle.lh_term.specs.Reach.{operands_of, is_on, LeavesChildren, AreReached};
ghost use Rattle.lh_term.specs.declared.term.Term.{Term as TermOf};

use crate::term::{Term, TermId};
use crate::terms::Terms;
use lh_types::memory::NoMemory;
use std::collections::BTreeSet;

impl Terms {
    /// The terms that some terms are made of, themselves included. Later ones come first, so operands stand behind the terms that use
    /// them.
    ///
    /// It looks at these terms alone.
    pub fn made_of(&self, xs: &[TermId]) -> Result<Vec<TermId>, NoMemory>
        requires { AreIn self.now xs.now }
        ensures { IfOk result (λ ids. AreReached operands_of self.now xs.now ids.items) }
    {
        let mut made_of = Vec::new(self.allocator());
        let mut left = BTreeSet::new(self.allocator());
        leave_all(xs, &mut left)?;
        while let Some(i) = left.pop_last() {
            self.leave_operands(TermId(i), &mut left)?;
            made_of.push(TermId(i))?;
        }
        Ok(made_of)
    }

    /// Leaves the operands of a term to be looked at, by their ids.
    pub fn leave_operands(&self, x: TermId, left: &mut BTreeSet<usize>) -> Result<(), NoMemory>
        requires { IsIn self.now x }
        ensures { OnOk result ((k : TermOf) → slice_get (terms_in self.now) x.0 ≡ Some k → LeavesChildren operands_of self.now x (sorted.contains nat_cmp left.old) (sorted.contains nat_cmp left.new) k) }
    {
        match self.view(x) {
            Term::Op { args, .. } => leave_all(args.as_slice(), left),
            Term::Choice { c, f, t } => leave_all(&[*c, *f, *t], left),
            Term::Konst(_) | Term::Past(_) | Term::Now(_) => Ok(()),
        }
    }
}

/// Leaves terms to be looked at, by their ids.
pub fn leave_all(xs: &[TermId], left: &mut BTreeSet<usize>) -> Result<(), NoMemory>
    ensures { OnOk result ((q : ℕ) → sorted.contains nat_cmp left.new q ≡ (is_on xs.now q || sorted.contains nat_cmp left.old q)) }
{
    for x in xs {
        leave(*x, left)?;
    }
    Ok(())
}

fn leave(x: TermId, left: &mut BTreeSet<usize>) -> Result<(), NoMemory>
    ensures { OnOk result ((q : ℕ) → sorted.contains nat_cmp left.new q ≡ (nat_eq q x.0 || sorted.contains nat_cmp left.old q)) }
{
    left.insert(x.0)?;
    Ok(())
}
