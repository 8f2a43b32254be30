//! The turns of a walk: at each turn the places to which edges lead, in the order of their blocks, until no edge leads on.
ghost use Rattle.std.specs.Prelude.{◌≡◌, ◌<◌, ◌≤◌, ◌+◌, ◌^◌, ◌∷◌, [], length, IfOk, OnOk, IfErr};
ghost use Rattle.lh_term.specs.Arena.{Grows};
ghost use Rattle.lh_region_def.specs.Regions.{max_turns, all_places};
ghost use Rattle.lh_region.specs.Walking.{place_of};
ghost use Rattle.lh_region_walk.specs.Turns as turns;

use crate::walk::{Region, Walk, WalkPoint};
use lh_region::ahead::{Ahead, EdgeList};
use lh_region::beginning::begin;
use lh_region::leading::MAX_TURNS;
use lh_region::rows::{RegionFault, Rows};
use lh_region_joins::joins::any_of;
use lh_region_places::places::Places;
use lh_term::terms::Terms;
use std::alloc::Global;

/// The walk through a region that starts at the last of these places. A fault comes exactly where the definition stops, apart from want
/// of memory.
pub fn walk_from(
    alloc: Global,
    region: &Region<'_>,
    terms: &mut Terms,
    places: Places,
    at: WalkPoint,
) -> Result<Walk, RegionFault>
    requires few { length region.now.flat.now.blocks < 2 ^ 32 }
    requires start { turns.CanStart terms.old region.now places.items at }
    ensures kept { Grows terms.old terms.new }
    ensures through { IfOk result (λ walk. turns.GoesThrough terms.old region.now places.items at terms.new walk) }
    ensures cause { IfErr result (λ fault. turns.GoesNot terms.old region.now places.items at fault) }
{
    let mut walk = Walk {
        places,
        ahead: Ahead::new(alloc, region.flat.blocks.len())?,
        insts: 0,
        rows: Rows::new(alloc),
        sources: EdgeList::new(alloc),
    };
    match walk.treat(alloc, region, terms, at) {
        Ok(()) => {}
        Err(fault) => {
            drop(walk);
            return Err(fault);
        }
    }
    match walk.treat_turns(alloc, region, terms, at.block + 1) {
        Ok(()) => Ok(walk),
        Err(fault) => {
            drop(walk);
            Err(fault)
        }
    }
}

impl Walk {
    /// Treats the places of all turns, until no edge leads on; those of turn 0 from this block on.
    fn treat_turns(
        &mut self,
        alloc: Global,
        region: &Region<'_>,
        terms: &mut Terms,
        first: u32,
    ) -> Result<(), RegionFault>
        requires few { length region.now.flat.now.blocks < 2 ^ 32 }
        requires first { first ≤ length region.now.flat.now.blocks }
        requires turn { turns.CanTurn terms.old region.now self.old 0 first }
        ensures kept { Grows terms.old terms.new }
        ensures passed { OnOk result (turns.PassesAll (turns.turns_at terms.old region.now self.old 0 first) region.now terms.new self.new) }
        ensures cause { IfErr result (λ fault. turns.Stops (turns.turns_at terms.old region.now self.old 0 first) region.now (all_places (length region.now.flat.now.blocks)) fault) }
    {
        self.treat_turn(alloc, region, terms, 0, first)?;
        for turn in 1..MAX_TURNS + 1 {
            if self.ahead.is_empty() {
                return Ok(());
            }
            self.treat_turn(alloc, region, terms, turn, 0)?;
        }
        Ok(())
    }

    /// Treats the places of a turn from this block on, in the order of their blocks, and goes to the next turn.
    fn treat_turn(
        &mut self,
        alloc: Global,
        region: &Region<'_>,
        terms: &mut Terms,
        turn: u32,
        first: u32,
    ) -> Result<(), RegionFault>
        requires few { length region.now.flat.now.blocks < 2 ^ 32 }
        requires first { first ≤ length region.now.flat.now.blocks }
        requires within { turn ≤ max_turns }
        requires turn { turns.CanTurn terms.old region.now self.old turn first }
        ensures kept { Grows terms.old terms.new }
        ensures passed { OnOk result (turns.Passes (turns.turns_at terms.old region.now self.old turn first) region.now (turns.places_of turn (length region.now.flat.now.blocks)) terms.new self.new (turn + 1) 0) }
        ensures cause { IfErr result (λ fault. turns.Stops (turns.turns_at terms.old region.now self.old turn first) region.now (turns.places_of turn (length region.now.flat.now.blocks)) fault) }
    {
        for block in first..region.flat.blocks.len() as u32 {
            self.treat_block(alloc, region, terms, turn, block)?;
        }
        self.ahead.turn(alloc)?;
        Ok(())
    }

    /// Treats the place of a block at a turn, if edges lead there.
    fn treat_block(
        &mut self,
        alloc: Global,
        region: &Region<'_>,
        terms: &mut Terms,
        turn: u32,
        block: u32,
    ) -> Result<(), RegionFault>
        requires block { block < length region.now.flat.now.blocks }
        requires within { turn ≤ max_turns }
        requires walk { turns.CanWalk terms.old region.now self.old turn block }
        ensures kept { Grows terms.old terms.new }
        ensures passed { OnOk result (turns.Passes (turns.walks_at terms.old region.now self.old turn block) region.now (place_of turn block ∷ []) terms.new self.new turn (block + 1)) }
        ensures cause { IfErr result (λ fault. turns.Stops (turns.walks_at terms.old region.now self.old turn block) region.now (place_of turn block ∷ []) fault) }
    {
        let edges = self.ahead.reach(alloc, block as usize);
        if edges.len() == 0 {
            return Ok(());
        }
        let cond = any_of(terms, edges.as_slice())?;
        let place = self.places.len();
        begin(alloc, &mut self.places, block, edges)?;
        self.treat(
            alloc,
            region,
            terms,
            WalkPoint {
                place,
                block,
                turns: turn,
                cond,
            },
        )
    }
}
