//! Where control goes from a place.
ghost use Rattle.std.specs.Prelude.{◌≡◌, ◌<◌, ◌≤◌, ◌⊎◌, length, OnOk, IfErr};
ghost use Rattle.lh_region_def.specs.Places.{next_place};
ghost use Rattle.lh_region_def.specs.Regions.{max_turns};
ghost use Rattle.lh_region.specs.declared.rows.RegionFault.TheVariants.{TooManyTurns as TooMany, OutOfMemory as NoMemoryLeft};
ghost use Rattle.lh_region.specs.Walking.{place_of, LeadsOn};

use crate::ahead::Ahead;
use crate::rows::RegionFault;
use lh_region_joins::Edge;

/// How many turns a region may have.
pub const MAX_TURNS: u32 = 256;

/// One more edge from a place of a turn, to a block. A branch to the same or an earlier block is a turn. `TooManyTurns` comes exactly
/// where that would be one more than 256, and no other fault but running out of memory.
pub fn lead(ahead: &mut Ahead, turns: u32, to: u32, edge: Edge) -> Result<(), RegionFault>
    requires here { to < length ahead.old.here.items }
    requires next { to < length ahead.old.next.items }
    requires turns { turns ≤ max_turns }
    ensures here { OnOk result (length ahead.new.here.items ≡ length ahead.old.here.items) }
    ensures next { OnOk result (length ahead.new.next.items ≡ length ahead.old.next.items) }
    ensures leads { OnOk result (LeadsOn ahead.old turns to edge ahead.new) }
    ensures within { OnOk result ((next_place (place_of turns edge.block) to).turns ≤ max_turns) }
    ensures cause { IfErr result (λ fault. (fault ≡ NoMemoryLeft) ⊎ ((fault ≡ TooMany) × (max_turns < (next_place (place_of turns edge.block) to).turns))) }
{
    if to > edge.block {
        ahead.lead_here(to, edge)?;
        return Ok(());
    }
    if turns >= MAX_TURNS {
        return Err(RegionFault::TooManyTurns);
    }
    ahead.lead_next(to, edge)?;
    Ok(())
}
