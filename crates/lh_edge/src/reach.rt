//! The terms that some terms are joined of.
ghost use Rattle.std.specs.Prelude.{◌≡◌, Some, slice_get, IfOk, OnOk};
ghost use Rattle.std.specs.Ordering.{nat_cmp};
ghost use Rattle.std.specs.BTreeSet as sorted;
ghost use Rattle.lh_term.specs.Arena.{trees, terms_in, IsIn, AreIn};
ghost use Rattle.lh_term.specs.Reach.{LeavesChildren, AreReached};
ghost use Rattle.lh_term.specs.declared.term.Term.{Term as TermOf};
ghost use Rattle.lh_edge.specs.Reached.{joined_by};

use crate::atoms::is_atom;
use crate::pasts::put;
use lh_term::reach::leave_all;
use lh_term::term::TermId;
use lh_term::terms::Terms;
use lh_types::memory::NoMemory;
use std::alloc::Global;
use std::collections::BTreeSet;

/// The terms that some terms are joined of, themselves included. Later ones come first, so operands stand behind the terms that use them.
///
/// It looks at these terms alone.
pub fn joined_of(alloc: Global, terms: &Terms, xs: &[TermId]) -> Result<Vec<TermId>, NoMemory>
    requires { AreIn terms.now xs.now }
    ensures { IfOk result (λ ids. AreReached (joined_by (trees terms.now)) terms.now xs.now ids.items) }
{
    let mut joined = Vec::new(alloc);
    let mut left = BTreeSet::new(alloc);
    leave_all(xs, &mut left)?;
    while let Some(i) = left.pop_last() {
        leave_joined(terms, TermId(i), &mut left)?;
        put(&mut joined, TermId(i))?;
    }
    Ok(joined)
}

/// Leaves the terms that a term joins to be looked at.
fn leave_joined(terms: &Terms, x: TermId, left: &mut BTreeSet<usize>) -> Result<(), NoMemory>
    requires { IsIn terms.now x }
    ensures { OnOk result ((k : TermOf) → slice_get (terms_in terms.now) x.0 ≡ Some k → LeavesChildren (joined_by (trees terms.now)) terms.now x (sorted.contains nat_cmp left.old) (sorted.contains nat_cmp left.new) k) }
{
    let _term = terms.view(x);
    if is_atom(terms, x) {
        return Ok(());
    }
    terms.leave_operands(x, left)
}
