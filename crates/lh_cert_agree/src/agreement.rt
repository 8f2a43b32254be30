//! When two terms agree.
ghost use Rattle.std.specs.Prelude.{◌≡◌, ◌≤◌, ◌*◌, ◌^◌, [], ◌∷◌, ◌++◌, IfOk};
ghost use Rattle.lh_term.specs.Arena.{trees, tree_at, IsIn};
ghost use Rattle.lh_term.specs.Reach.{AreReached};
ghost use Rattle.lh_edge.specs.Atoms.{subterms};
ghost use Rattle.lh_edge.specs.Reached.{joined_by};
ghost use Rattle.lh_edge.specs.Steps.{AreAllIdsOf};
ghost use Rattle.lh_cert_agree.specs.Agreeing as spec;
ghost use Rattle.lh_cert_agree.specs.Agreeing.{atoms_of_both};

use crate::atoms::atoms_among;
use crate::gates::Network;
use crate::words::are_same;
use lh_edge::atoms::are_one_bit;
use lh_edge::reach::joined_of;
use lh_term::term::TermId;
use lh_term::terms::Terms;
use lh_types::memory::NoMemory;
use std::alloc::Global;

/// Whether two terms agree: they are one term; or both are of one bit, and with the maximal subterms that are no connective of bits as
/// atoms there are at most twelve of them, and both have the same value at every valuation.
///
/// It looks at each connective once for 64 valuations. Want of memory is the only fault.
pub fn agree(alloc: Global, terms: &Terms, a: TermId, b: TermId) -> Result<bool, NoMemory>
    requires a_in { IsIn terms.now a }
    requires b_in { IsIn terms.now b }
    ensures { IfOk result (λ answer. answer ≡ spec.agree (tree_at (trees terms.now) a) (tree_at (trees terms.now) b)) }
{
    if terms.same(a, b) {
        return Ok(true);
    }
    if are_one_bit(terms, &[a, b]) {
        return agree_by_atoms(alloc, terms, a, b);
    }
    Ok(false)
}

/// Whether two terms of one bit have at most twelve atoms, and the same value at every valuation of them.
fn agree_by_atoms(alloc: Global, terms: &Terms, a: TermId, b: TermId) -> Result<bool, NoMemory>
    requires a_in { IsIn terms.now a }
    requires b_in { IsIn terms.now b }
    ensures { IfOk result (λ answer. answer ≡ spec.agree_by (atoms_of_both (tree_at (trees terms.now) a) (tree_at (trees terms.now) b)) (tree_at (trees terms.now) a) (tree_at (trees terms.now) b)) }
{
    let joined = joined_of(alloc, terms, &[a, b])?;
    match atoms_among(alloc, terms, a, b, &joined)? {
        Some(atoms) => agree_everywhere(alloc, terms, a, b, &joined, &atoms),
        None => Ok(false),
    }
}

/// Whether two terms have the same value at every valuation of these atoms.
fn agree_everywhere(
    alloc: Global,
    terms: &Terms,
    a: TermId,
    b: TermId,
    joined: &[TermId],
    atoms: &[TermId],
) -> Result<bool, NoMemory>
    requires joined { AreReached (joined_by (trees terms.now)) terms.now (a ∷ b ∷ []) joined.now }
    requires atoms { AreAllIdsOf terms.now (subterms (tree_at (trees terms.now) a) ++ subterms (tree_at (trees terms.now) b)) atoms.now }
    ensures { IfOk result (λ answer. answer ≡ spec.agree_by (atoms_of_both (tree_at (trees terms.now) a) (tree_at (trees terms.now) b)) (tree_at (trees terms.now) a) (tree_at (trees terms.now) b)) }
{
    let network = Network::new(alloc, terms, joined, atoms)?;
    let a = network.place_of(a);
    let b = network.place_of(b);
    are_same(alloc, &network.gates, a, b, blocks(atoms.len()))
}

/// How many blocks of 64 valuations there are for so many atoms, at least one.
fn blocks(atoms: usize) -> usize
    requires { atoms ≤ 12 }
    ensures { 2 ^ atoms ≤ 64 * result }
{
    if atoms > 6 { 1 << (atoms - 6) } else { 1 }
}
