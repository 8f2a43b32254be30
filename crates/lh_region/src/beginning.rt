//! A place begins.
ghost use Rattle.std.specs.Prelude.{OnOk};
ghost use Rattle.lh_region.specs.Begins.{IsBegun, BeginsJoined};

use crate::ahead::EdgeList;
use lh_region_places::places::Places;
use lh_region_places::state::PlaceState;
use lh_types::memory::NoMemory;
use std::alloc::Global;

/// A place of a block begins, to which these edges lead. Its number is that of the places before it.
pub fn begin(
    alloc: Global,
    places: &mut Places,
    block: u32,
    edges: EdgeList,
) -> Result<(), NoMemory>
    ensures place { OnOk result (IsBegun places.old.items block edges places.new.items) }
    ensures joined { OnOk result (BeginsJoined places.old.items edges places.new.items) }
{
    let mut place = PlaceState::new(alloc, block);
    place.edges = edges.into_vec();
    places.push(place)?;
    Ok(())
}
