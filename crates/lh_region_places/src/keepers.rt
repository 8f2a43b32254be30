//! Which places keep which values and variables.
ghost use Rattle.std.specs.Prelude.{◌≡◌, ℕ, ◌≤◌, true, OnOk};
ghost use Rattle.lh_region_places.specs.declared.keepers.Keeper.{Keeper};
ghost use Rattle.lh_region_places.specs.Keepers.{has, keeper};

use lh_types::memory::NoMemory;
use std::collections::BTreeSet;

/// A place that keeps a value or variable; in the order of the values, then of the places.
#[derive(Clone, Copy, Debug, PartialEq, Eq, PartialOrd, Ord)]
pub struct Keeper {
    pub value: u32,
    pub place: usize,
}

/// One more keeper.
pub fn add(keepers: &mut BTreeSet<Keeper>, one: Keeper) -> Result<(), NoMemory>
    ensures there { OnOk result (has keepers.new one ≡ true) }
    ensures still { (k : Keeper) → has keepers.old k ≡ true → has keepers.new k ≡ true }
{
    keepers.insert(one)?;
    Ok(())
}

/// The last keeper of a value up to a place; the first place where there is none.
pub fn last_up_to(keepers: &BTreeSet<Keeper>, value: u32, place: usize) -> usize
    ensures { (i : ℕ) → i ≤ place → has keepers.now (keeper value i) ≡ true → i ≤ result }
{
    match keepers.range(..=Keeper { value, place }).next_back() {
        Some(last) => { if last.value == value { last.place } else { 0 } }
        None => 0,
    }
}
