//! Terms made anew from their leaves, as the lines of an entity are read.
ghost use Rattle.std.specs.Prelude.{◌≡◌, true, Some, nat_eq, IfOk};
ghost use Rattle.std.specs.Option.{is_some};
ghost use Rattle.std.specs.HashMap as hash;
ghost use Rattle.lh_types.specs.Types.{IsData};
ghost use Rattle.lh_term.specs.Tree.{now_of};
ghost use Rattle.lh_term.specs.Arena.{trees, tree_at, IsIn, AreIn, StandsForTree, Grows};
ghost use Rattle.lh_term.specs.Reach.{operands_of, AreReached, AreMade, MadeFor};
ghost use Rattle.lh_cert_terms.specs.Rebuilding.{rebuilt};
ghost use Rattle.lh_cert_terms.specs.Made.{AreRebuilt, OperandsMade};

use crate::operation::read_operation;
use lh_term::part::Part;
use lh_term::term::{Term, TermId, TermList};
use lh_term::terms::Terms;
use lh_types::memory::NoMemory;
use std::alloc::Global;
use std::collections::HashMap;

/// These terms made anew from their leaves, and those that they are made of: by the id of each what stands in its place.
///
/// It looks at the terms alone that these are made of, and makes each once. Where memory runs out, the terms made before keep their ids.
pub fn make_anew(
    alloc: Global,
    terms: &mut Terms,
    roots: &[TermId],
) -> Result<HashMap<usize, TermId>, NoMemory>
    requires { AreIn terms.old roots.now }
    ensures made { IfOk result (λ made. AreMade (hash.get nat_eq made) roots.now) }
    ensures rebuilt { IfOk result (λ made. AreRebuilt terms.old terms.new (hash.get nat_eq made)) }
    ensures kept { Grows terms.old terms.new }
{
    let made_of = terms.made_of(roots)?;
    all_anew(alloc, terms, roots, &made_of)
}

/// The terms made anew, by those that they are made of.
fn all_anew(
    alloc: Global,
    terms: &mut Terms,
    _roots: &[TermId],
    made_of: &[TermId],
) -> Result<HashMap<usize, TermId>, NoMemory>
    requires { AreReached operands_of terms.old _roots.now made_of.now }
    ensures made { IfOk result (λ made. AreMade (hash.get nat_eq made) _roots.now) }
    ensures rebuilt { IfOk result (λ made. AreRebuilt terms.old terms.new (hash.get nat_eq made)) }
    ensures kept { Grows terms.old terms.new }
{
    let mut made = HashMap::new(alloc);
    let mut k = made_of.len();
    while k > 0 {
        k -= 1;
        let x = remade(alloc, terms, made_of[k], &made)?;
        made.insert(made_of[k].0, x)?;
    }
    Ok(made)
}

/// What stands in the place of a term.
pub fn made_at(made: &HashMap<usize, TermId>, x: TermId) -> TermId
    requires { is_some (hash.get nat_eq made.now x.0) ≡ true }
    ensures { hash.get nat_eq made.now x.0 ≡ Some result }
{
    match made.get(&x.0) {
        Some(y) => *y,
        None => unreachable!(),
    }
}

/// A term made anew of what stands in the places of its operands.
fn remade(
    alloc: Global,
    terms: &mut Terms,
    x: TermId,
    made: &HashMap<usize, TermId>,
) -> Result<TermId, NoMemory>
    requires is_in { IsIn terms.old x }
    requires rebuilt { AreRebuilt terms.old terms.old (hash.get nat_eq made.now) }
    requires operands { OperandsMade terms.old (hash.get nat_eq made.now) x }
    ensures made { IfOk result (λ y. StandsForTree terms.new y (rebuilt (tree_at (trees terms.old) x))) }
    ensures kept { Grows terms.old terms.new }
{
    match terms.view(x) {
        Term::Konst(_) | Term::Now(_) => Ok(x),
        Term::Past(part) => {
            let part = part.copy()?;
            now_with(terms, part)
        }
        Term::Op { op, args } => {
            let op = *op;
            let args = all_made(alloc, args.as_slice(), made)?;
            read_operation(terms, &op, args.as_slice())
        }
        Term::Choice { c, f, t } => {
            let c = made_at(made, *c);
            let f = made_at(made, *f);
            let t = made_at(made, *t);
            terms.choice(c, f, t)
        }
    }
}

/// The value now of a part, of which it lets go.
fn now_with(terms: &mut Terms, part: Part) -> Result<TermId, NoMemory>
    requires { IsData part.ty }
    ensures made { IfOk result (λ t. StandsForTree terms.new t (now_of part)) }
    ensures kept { Grows terms.old terms.new }
{
    terms.now(&part)
}

/// What stands in the places of these terms.
fn all_made(
    alloc: Global,
    xs: &[TermId],
    made: &HashMap<usize, TermId>,
) -> Result<TermList, NoMemory>
    requires { AreMade (hash.get nat_eq made.now) xs.now }
    ensures { IfOk result (λ ys. MadeFor (hash.get nat_eq made.now) xs.now ys) }
{
    let mut to = TermList::new(alloc);
    let mut left = xs;
    while let [x, rest @ ..] = left {
        let y = made_at(made, *x);
        to.push(y)?;
        left = rest;
    }
    Ok(to)
}
