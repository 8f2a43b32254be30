//! How a place is left, by its last instruction: control leads on to other places, or the region ends.
ghost use Rattle.std.specs.Prelude.{◌≡◌, ◌<◌, ◌≤◌, ℕ, false, length, IfOk, OnOk, IfErr};
ghost use Rattle.lh_term.specs.Arena.{Grows};
ghost use Rattle.lh_region_def.specs.Regions.{max_turns};
ghost use Rattle.lh_region_joins.specs.Joins.{IsConditionAt};
ghost use Rattle.lh_region.specs.Branches.{CanTest};
ghost use Rattle.lh_region_walk.specs.Walked.{leads_nowhere, CanTake, EndsLine, EndsFor};
ghost use Rattle.lh_region.specs.Stands.{way_text};
ghost use Rattle.lh_region_walk.specs.Leaving as leaving;
ghost use Rattle.lh_region.specs.declared.rows.RegionFault.TheVariants.{OutOfMemory as NoMemoryLeft};

use crate::walk::{Region, Walk, WalkPoint};
use lh_flat::FlatInst;
use lh_flat_parts::PartTable;
use lh_region::branch::sides_at;
use lh_region::effects::{end, part_of};
use lh_region::leading::lead;
use lh_region::rows::{RegionFault, Way};
use lh_region_joins::Edge;
use lh_region_joins::logic::never_holds;
use lh_term::part::PartList;
use lh_term::term::TermId;
use lh_term::terms::Terms;
use lh_types::memory::NoMemory;
use lh_unit::inst::{Inst, ValueId, ValueIdList};
use std::alloc::Global;

/// A branch: the value of its condition, and the blocks to which it leads where that is 0 and where it is 1.
#[derive(Clone, Copy)]
pub struct Fork {
    pub cond: u32,
    pub zero: u32,
    pub one: u32,
}

impl Walk {
    /// Takes the terminator of a place.
    pub fn leave(
        &mut self,
        alloc: Global,
        region: &Region<'_>,
        terms: &mut Terms,
        at: WalkPoint,
        line: &FlatInst,
    ) -> Result<(), RegionFault>
        requires can { CanTake terms.old region.now self.old at line.now }
        requires last { leads_nowhere line.now.inst ≡ false }
        ensures kept { Grows terms.old terms.new }
        ensures left { OnOk result (EndsLine terms.old region.now self.old at line.now terms.new self.new) }
        ensures cause { IfErr result (EndsFor terms.old region.now self.old at line.now) }
    {
        match &line.inst {
            Inst::Br(to) => self.lead_on(region, terms, at, at.cond, to.0),
            Inst::Branch { cond, zero, one } => {
                let fork = Fork {
                    cond: cond.0,
                    zero: zero.0,
                    one: one.0,
                };
                self.branch(alloc, region, terms, at, fork)
            }
            Inst::Wait { to, after, signals } => {
                self.wait(alloc, region, at, to.0, after.is_some(), signals)
            }
            Inst::Halt => self.end_there(at, at.cond, Way::Halt),
            _ => Ok(()),
        }
    }

    /// Both edges of a branch on a condition: first that of 0.
    fn branch(
        &mut self,
        alloc: Global,
        region: &Region<'_>,
        terms: &mut Terms,
        at: WalkPoint,
        fork: Fork,
    ) -> Result<(), RegionFault>
        requires is_in { at.place < length self.old.places.items }
        requires turns { at.turns ≤ max_turns }
        requires cond { IsConditionAt terms.old at.cond }
        requires test { CanTest terms.old self.old.places.items fork.cond at.place }
        requires zero { leaving.CanLead self.old.ahead fork.zero }
        requires one { leaving.CanLead self.old.ahead fork.one }
        ensures kept { Grows terms.old terms.new }
        ensures led { OnOk result (leaving.Branches terms.old region.now self.old at fork.cond fork.zero fork.one terms.new self.new) }
        ensures cause { IfErr result (leaving.BranchesNot terms.old region.now self.old at fork.cond fork.zero fork.one) }
    {
        let sides = sides_at(alloc, terms, &mut self.places, at.place, at.cond, fork.cond)?;
        self.lead_on(region, terms, at, sides.zero, fork.zero)?;
        self.lead_on(region, terms, at, sides.one, fork.one)
    }

    /// An edge to a block, unless it is never taken. Where the region ends at the head, an edge there is an end.
    fn lead_on(
        &mut self,
        region: &Region<'_>,
        terms: &Terms,
        at: WalkPoint,
        cond: TermId,
        to: u32,
    ) -> Result<(), RegionFault>
        requires cond { IsConditionAt terms.now cond }
        requires to { leaving.CanLead self.old.ahead to }
        requires turns { at.turns ≤ max_turns }
        ensures places { self.new.places.items ≡ self.old.places.items }
        ensures to { OnOk result ((b : ℕ) → leaving.CanLead self.old.ahead b → leaving.CanLead self.new.ahead b) }
        ensures led { OnOk result (leaving.LeadsThere terms.now region.now self.old at cond to self.new) }
        ensures cause { IfErr result (leaving.LeadsNot terms.now region.now self.old at cond to) }
    {
        if never_holds(terms, cond) {
            return Ok(());
        }
        if region.ends_at_head && to == region.head {
            return self.end_there(at, cond, Way::Head);
        }
        lead(&mut self.ahead, at.turns, to, edge_from(at, cond))
    }

    /// The region ends at a `wait` for a block.
    fn wait(
        &mut self,
        alloc: Global,
        region: &Region<'_>,
        at: WalkPoint,
        to: u32,
        timed: bool,
        signals: &ValueIdList,
    ) -> Result<(), RegionFault>
        requires { leaving.AreParts region.now.parts.now.parts.items signals.now }
        ensures ended { OnOk result (leaving.Waits region.now self.old at to timed signals.now self.new) }
        ensures cause { IfErr result (λ e. e ≡ NoMemoryLeft) }
    {
        let parts = parts_of(alloc, region.parts, signals.as_slice())?;
        let way = Way::Wait {
            target: to,
            to_head: to == region.head,
            parts,
            timed,
        };
        self.end_there(at, at.cond, way)
    }

    /// The region ends, on a condition.
    fn end_there(&mut self, at: WalkPoint, cond: TermId, way: Way) -> Result<(), RegionFault>
        ensures places { self.new.places.items ≡ self.old.places.items }
        ensures ahead { self.new.ahead ≡ self.old.ahead }
        ensures ended { OnOk result (leaving.EndsThere self.old at cond (way_text way) self.new) }
        ensures cause { IfErr result (λ e. e ≡ NoMemoryLeft) }
    {
        end(&mut self.rows, &mut self.sources, edge_from(at, cond), way)?;
        Ok(())
    }
}

/// The parts that these values are.
fn parts_of(alloc: Global, table: &PartTable, values: &[ValueId]) -> Result<PartList, NoMemory>
    requires { leaving.AreParts table.now.parts.items values.now }
    ensures { IfOk result (λ parts. leaving.PartsOf table.now.parts.items values.now parts) }
{
    let mut parts = PartList::new(alloc);
    for value in values {
        let part = part_of(table, *value)?;
        parts.push(part)?;
    }
    Ok(parts)
}

/// An edge from a place, on a condition.
fn edge_from(at: WalkPoint, cond: TermId) -> Edge
    ensures { result ≡ leaving.edge_from at cond }
{
    Edge {
        from: at.place,
        block: at.block,
        cond,
    }
}
