//! Conditions at a place: those of drives, and of the edges of a branch.
ghost use Rattle.std.specs.Prelude.{◌≡◌, ◌<◌, length, IfOk, OnOk};
ghost use Rattle.lh_term.specs.Arena.{trees, tree_at, StandsForTree, Grows};
ghost use Rattle.lh_region_joins.specs.Joins.{IsConditionAt};
ghost use Rattle.lh_region_places.specs.Asked.{SamePlaces, StillTold};
ghost use Rattle.lh_region.specs.Branches.{CanTest, negation, IsAnd, IsAndNot};

use lh_region_joins::logic::and;
use lh_region_places::asking::value_at;
use lh_region_places::places::Places;
use lh_term::term::TermId;
use lh_term::terms::Terms;
use lh_types::memory::NoMemory;
use lh_types::op::Op;
use std::alloc::Global;

/// On which conditions the two edges of a branch are taken.
#[derive(Clone, Copy)]
pub struct Sides {
    pub zero: TermId,
    pub one: TermId,
}

/// A condition, and a value at a place.
pub fn and_at(
    alloc: Global,
    terms: &mut Terms,
    places: &mut Places,
    at: usize,
    cond: TermId,
    value: u32,
) -> Result<TermId, NoMemory>
    requires is_in { at < length places.old.items }
    requires cond { IsConditionAt terms.old cond }
    requires test { CanTest terms.old places.old.items value at }
    ensures kept { Grows terms.old terms.new }
    ensures same { OnOk result (SamePlaces places.old.items places.new.items) }
    ensures still { OnOk result (StillTold terms.old places.old.items terms.new places.new.items value at) }
    ensures made { IfOk result (λ t. IsAnd terms.old places.old.items terms.new value at (tree_at (trees terms.old) cond) t) }
{
    let test = value_at(alloc, terms, places, at, value)?;
    let both = and(terms, cond, test)?;
    Ok(both)
}

/// The conditions of the two edges of a branch: where a value at a place is 0, and where it is 1.
pub fn sides_at(
    alloc: Global,
    terms: &mut Terms,
    places: &mut Places,
    at: usize,
    cond: TermId,
    value: u32,
) -> Result<Sides, NoMemory>
    requires is_in { at < length places.old.items }
    requires cond { IsConditionAt terms.old cond }
    requires test { CanTest terms.old places.old.items value at }
    ensures kept { Grows terms.old terms.new }
    ensures same { OnOk result (SamePlaces places.old.items places.new.items) }
    ensures still { OnOk result (StillTold terms.old places.old.items terms.new places.new.items value at) }
    ensures zero { IfOk result (λ sides. IsAndNot terms.old places.old.items terms.new value at (tree_at (trees terms.old) cond) sides.zero) }
    ensures one { IfOk result (λ sides. IsAnd terms.old places.old.items terms.new value at (tree_at (trees terms.old) cond) sides.one) }
{
    let test = value_at(alloc, terms, places, at, value)?;
    let opposite = not(terms, test)?;
    let zero = and(terms, cond, opposite)?;
    let one = and(terms, cond, test)?;
    Ok(Sides { zero, one })
}

/// The opposite of a condition.
fn not(terms: &mut Terms, cond: TermId) -> Result<TermId, NoMemory>
    requires { IsConditionAt terms.old cond }
    ensures made { IfOk result (λ t. StandsForTree terms.new t (negation (tree_at (trees terms.old) cond))) }
    ensures kept { Grows terms.old terms.new }
{
    terms.op(&Op::Not, &[cond])
}
