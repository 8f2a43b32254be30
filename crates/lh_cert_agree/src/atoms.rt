//! The atoms of two terms: their maximal subterms that are no connective of bits.
ghost use Rattle.std.specs.Prelude.{◌≡◌, [], ◌∷◌, ◌++◌, IfOk, OnOk};
ghost use Rattle.lh_term.specs.Arena.{trees, tree_at, trees_at, IsIn, AreIn};
ghost use Rattle.lh_term.specs.Reach.{AreReached};
ghost use Rattle.lh_edge.specs.Atoms.{has, subterms};
ghost use Rattle.lh_edge.specs.Reached.{joined_by};
ghost use Rattle.lh_edge.specs.Steps.{FindsThe, found_items, with_atom};

use lh_edge::atoms::{MAX_ATOMS, is_atom};
use lh_term::term::TermId;
use lh_term::terms::Terms;
use lh_types::memory::NoMemory;
use std::alloc::Global;

/// The atoms of two terms, by the terms that they are joined of; none where they are more than twelve.
pub(crate) fn atoms_among(
    alloc: Global,
    terms: &Terms,
    _a: TermId,
    _b: TermId,
    joined: &[TermId],
) -> Result<Option<Vec<TermId>>, NoMemory>
    requires { AreReached (joined_by (trees terms.now)) terms.now (_a ∷ _b ∷ []) joined.now }
    ensures { IfOk result (λ found. FindsThe terms.now (subterms (tree_at (trees terms.now) _a) ++ subterms (tree_at (trees terms.now) _b)) (found_items found)) }
{
    let mut found = Vec::new(alloc);
    for x in joined {
        add_atom(terms, *x, &mut found)?;
        if found.len() > MAX_ATOMS {
            return Ok(None);
        }
    }
    Ok(Some(found))
}

/// Adds a term, unless it is a connective or there already.
fn add_atom(terms: &Terms, x: TermId, found: &mut Vec<TermId>) -> Result<(), NoMemory>
    requires is_in { IsIn terms.now x }
    requires are_in { AreIn terms.now found.old.items }
    ensures { OnOk result (found.new.items ≡ with_atom terms.now found.old.items x) }
{
    if is_atom(terms, x) && !contains(terms, found, x) {
        found.push(x)?;
    }
    Ok(())
}

/// Whether a term is in a list.
fn contains(terms: &Terms, xs: &[TermId], x: TermId) -> bool
    requires are_in { AreIn terms.now xs.now }
    requires is_in { IsIn terms.now x }
    ensures { result ≡ has (trees_at terms.now xs.now) (tree_at (trees terms.now) x) }
{
    let mut left = xs;
    while let [y, rest @ ..] = left {
        if terms.same(*y, x) {
            return true;
        }
        left = rest;
    }
    false
}
