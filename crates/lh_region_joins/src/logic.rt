//! Conditions: terms of one bit.
ghost use Rattle.std.specs.Prelude.{◌≡◌, ◌∷◌, [], IfOk};
ghost use Rattle.lh_types.specs.declared.op.Op.TheVariants.{And as AndOf, Or as OrOf};
ghost use Rattle.lh_term.specs.Arena.{trees, tree_at, StandsForTree, Grows};
ghost use Rattle.lh_term.specs.Make.{bit_of, is_zero, make_operation};
ghost use Rattle.lh_region_joins.specs.Joins.{IsConditionAt};

use lh_term::term::{Term, TermId};
use lh_term::terms::Terms;
use lh_types::memory::NoMemory;
use lh_types::op::Op;
use lh_types::val::Val;

/// A condition that always holds, or never does.
pub fn bit(terms: &mut Terms, is_set: bool) -> Result<TermId, NoMemory>
    ensures made { IfOk result (λ t. StandsForTree terms.new t (bit_of is_set)) }
    ensures kept { Grows terms.old terms.new }
{
    let bits = if is_set { 1 } else { 0 };
    terms.konst(Val::Int { width: 1, bits })
}

/// Both conditions.
pub fn and(terms: &mut Terms, a: TermId, b: TermId) -> Result<TermId, NoMemory>
    requires a_holds { IsConditionAt terms.old a }
    requires b_holds { IsConditionAt terms.old b }
    ensures made { IfOk result (λ t. StandsForTree terms.new t (make_operation AndOf (tree_at (trees terms.old) a ∷ tree_at (trees terms.old) b ∷ []))) }
    ensures kept { Grows terms.old terms.new }
{
    terms.op(&Op::And, &[a, b])
}

/// One condition or the other.
pub fn or(terms: &mut Terms, a: TermId, b: TermId) -> Result<TermId, NoMemory>
    requires a_holds { IsConditionAt terms.old a }
    requires b_holds { IsConditionAt terms.old b }
    ensures made { IfOk result (λ t. StandsForTree terms.new t (make_operation OrOf (tree_at (trees terms.old) a ∷ tree_at (trees terms.old) b ∷ []))) }
    ensures kept { Grows terms.old terms.new }
{
    terms.op(&Op::Or, &[a, b])
}

/// Whether a condition is the constant 0.
pub fn never_holds(terms: &Terms, cond: TermId) -> bool
    requires { IsConditionAt terms.now cond }
    ensures { result ≡ is_zero (tree_at (trees terms.now) cond) }
{
    match terms.view(cond) {
        Term::Konst(Val::Int { bits, .. }) => *bits == 0,
        _ => false,
    }
}
