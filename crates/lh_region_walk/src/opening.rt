//! A place is treated: its instructions are counted, its `phi`s are taken, and then its lines in order.
ghost use Rattle.std.specs.Prelude.{◌≡◌, ◌<◌, ◌≤◌, ◌+◌, ◌∷◌, [], length, true, IfOk, OnOk, IfErr, MatchOption};
ghost use Rattle.lh_term.specs.Arena.{Grows};
ghost use Rattle.lh_region_def.specs.Regions.{max_insts};
ghost use Rattle.lh_region_walk.specs.Merges as merges;
ghost use Rattle.lh_region_walk.specs.Walked as walked;

use crate::walk::{Region, Walk, WalkPoint};
use lh_flat::flat::MergeEdge;
use lh_flat::{FlatInst, Merge};
use lh_region::giving::give;
use lh_region::head::begins_with_phi;
use lh_region::rows::RegionFault;
use lh_region::taking::phi_at;
use lh_region_places::places::Places;
use lh_term::terms::Terms;
use lh_types::list::ListOf;
use lh_types::memory::NoMemory;
use lh_unit::inst::{Inst, PhiEdge, ValueId};
use std::alloc::Global;

/// How many instructions the places of a region may have.
pub const MAX_INSTS: usize = 65_536;

impl Walk {
    /// Treats a place that has begun: counts its instructions, takes its `phi`s, and then its lines in order.
    pub fn treat(
        &mut self,
        alloc: Global,
        region: &Region<'_>,
        terms: &mut Terms,
        at: WalkPoint,
    ) -> Result<(), RegionFault>
        requires { walked.CanTreat terms.old region.now self.old at }
        ensures kept { Grows terms.old terms.new }
        ensures treated { OnOk result (walked.Treats terms.old region.now self.old at terms.new self.new) }
        ensures cause { IfErr result (walked.TreatsNot terms.old region.now self.old at) }
    {
        let block = &region.flat.blocks.as_slice()[at.block as usize];
        let Some(insts) = counted(self.insts, block.insts.len()) else {
            return Err(RegionFault::RegionTooLarge);
        };
        self.insts = insts;
        self.take_merges(alloc, region, terms, at)?;
        self.take_lines(alloc, region, terms, at, block.insts.as_slice())
    }

    /// Takes the result of the call before a block, and its `phi`s: each by the edge that was taken.
    fn take_merges(
        &mut self,
        alloc: Global,
        region: &Region<'_>,
        terms: &mut Terms,
        at: WalkPoint,
    ) -> Result<(), NoMemory>
        requires { walked.CanTreat terms.old region.now self.old at }
        ensures kept { Grows terms.old terms.new }
        ensures taken { OnOk result (merges.TakesMerges terms.old region.now self.old at terms.new self.new) }
    {
        let block = &region.flat.blocks.as_slice()[at.block as usize];
        if !begins_with_phi(block) {
            return Ok(());
        }
        take_phis(
            alloc,
            terms,
            &mut self.places,
            at.place,
            block.insts.as_slice(),
        )?;
        take_merge(alloc, terms, &mut self.places, at.place, &block.merge)
    }

    /// Takes the lines of a block, the last of which is its terminator.
    fn take_lines(
        &mut self,
        alloc: Global,
        region: &Region<'_>,
        terms: &mut Terms,
        at: WalkPoint,
        lines: &[FlatInst],
    ) -> Result<(), RegionFault>
        requires can { merges.CanTakeAll terms.old region.now self.old at lines.now }
        requires last { merges.EndsLast lines.now }
        ensures kept { Grows terms.old terms.new }
        ensures left { OnOk result (merges.EndsLines terms.old region.now self.old at lines.now terms.new self.new) }
        ensures cause { IfErr result (merges.EndsLinesFor terms.old region.now self.old at lines.now) }
    {
        let [inner @ .., last] = lines else {
            unreachable!()
        };
        self.take_inner(alloc, region, terms, at, inner)?;
        self.leave(alloc, region, terms, at, last)
    }

    /// Takes lines of a block of which none is a terminator.
    fn take_inner(
        &mut self,
        alloc: Global,
        region: &Region<'_>,
        terms: &mut Terms,
        at: WalkPoint,
        lines: &[FlatInst],
    ) -> Result<(), NoMemory>
        requires can { merges.CanTakeAll terms.old region.now self.old at lines.now }
        requires inner { merges.LeadNowhere lines.now }
        ensures kept { Grows terms.old terms.new }
        ensures taken { OnOk result (merges.TakesLines terms.old region.now self.old at lines.now terms.new self.new) }
    {
        for line in lines {
            self.take(alloc, region, terms, at, line)?;
        }
        Ok(())
    }
}

/// How many instructions there are with this many more, unless these are more than a region may have.
fn counted(insts: usize, more: usize) -> Option<usize>
    ensures { MatchOption result (max_insts < insts + more) (λ n. (n ≡ insts + more) × (n ≤ max_insts)) }
{
    if insts > MAX_INSTS {
        return None;
    }
    if more > MAX_INSTS - insts {
        return None;
    }
    Some(insts + more)
}

/// Takes the `phi`s of a block, from the last line to the first.
fn take_phis(
    alloc: Global,
    terms: &mut Terms,
    places: &mut Places,
    at: usize,
    lines: &[FlatInst],
) -> Result<(), NoMemory>
    requires { merges.CanTakeLines terms.old places.old.items at lines.now }
    ensures kept { Grows terms.old terms.new }
    ensures taken { OnOk result (merges.TakesPhis terms.old places.old.items at lines.now terms.new places.new.items) }
{
    for i in (0..lines.len()).rev() {
        take_line(alloc, terms, places, at, &lines[i])?;
    }
    Ok(())
}

/// Takes a line, if it is a `phi` that gives a value.
fn take_line(
    alloc: Global,
    terms: &mut Terms,
    places: &mut Places,
    at: usize,
    line: &FlatInst,
) -> Result<(), NoMemory>
    requires { merges.CanTakeLines terms.old places.old.items at (line.now ∷ []) }
    ensures kept { Grows terms.old terms.new }
    ensures taken { OnOk result (merges.TakesPhis terms.old places.old.items at (line.now ∷ []) terms.new places.new.items) }
{
    let Some(result) = line.result else {
        return Ok(());
    };
    match &line.inst {
        Inst::Phi { edges, .. } => take_phi(alloc, terms, places, at, result, edges.as_slice()),
        _ => Ok(()),
    }
}

/// Takes the result of the call before a block, if it has a name.
fn take_merge(
    alloc: Global,
    terms: &mut Terms,
    places: &mut Places,
    at: usize,
    merge: &Option<Merge>,
) -> Result<(), NoMemory>
    requires { merges.CanTakeMerge terms.old places.old.items at merge.now }
    ensures kept { Grows terms.old terms.new }
    ensures taken { OnOk result (merges.TakesMerge terms.old places.old.items at merge.now terms.new places.new.items) }
{
    let Some(merge) = merge else {
        return Ok(());
    };
    let edges = as_phis(alloc, merge.edges.as_slice())?;
    take_phi(alloc, terms, places, at, merge.value, edges.as_slice())
}

/// The edges of a merge as those of a `phi`.
fn as_phis(alloc: Global, merged: &[MergeEdge]) -> Result<ListOf<PhiEdge>, NoMemory>
    ensures { IfOk result (λ edges. edges ≡ merges.as_phis merged.now) }
{
    let mut edges = ListOf::new(alloc);
    for edge in merged {
        edges.push(PhiEdge {
            value: edge.value,
            block: edge.block,
        })?;
    }
    Ok(edges)
}

/// Takes a `phi`: the value that it gives is that of the edge that was taken.
fn take_phi(
    alloc: Global,
    terms: &mut Terms,
    places: &mut Places,
    at: usize,
    gives: ValueId,
    operands: &[PhiEdge],
) -> Result<(), NoMemory>
    requires { merges.CanTakePhi terms.old places.old.items at gives.0 operands.now }
    ensures kept { Grows terms.old terms.new }
    ensures taken { OnOk result (merges.TakesPhi terms.old places.old.items at gives.0 operands.now terms.new places.new.items) }
{
    let merged = phi_at(alloc, terms, places, at, operands)?;
    give(places, at, gives.0, merged)
}
