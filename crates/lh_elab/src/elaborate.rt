//! Elaboration: the design of a top unit.
ghost use Rattle.std.specs.Prelude.{◌≡◌, ◌<◌, ◌++◌, ◌∷◌, [], length, Some, None, IsSome, IfErr, IfOk, OnOk, slice_index_or};
ghost use Rattle.lh_unit.specs.Arena.{IsArena, unit_count, kind_at, contents};
ghost use Rattle.lh_unit.specs.WellFormed.{IsWellFormed};
ghost use Rattle.lh_elab.specs.Elaborates.{Elaborates, ArePlans};
ghost use Rattle.lh_elab.specs.Answer.{IsDesignOf};
ghost use Rattle.lh_elab.specs.Refusals.{FaultWithin};

use crate::build::{Building, Pending};
use crate::{ElabFault, first_refusal};
use lh_design::Design;
use lh_elab_plan::plan::{Plan, plan_of};
use lh_types::memory::NoMemory;
use lh_unit::inst::UnitId;
use lh_unit::module::Module;
use std::alloc::Global;

/// The design of a top unit of a well-formed module, or the first reason why it has none; the unit that a cycle names is one of
/// the module.
///
/// Instances are visited depth first in text order: each takes the next number, its `sig` instructions become signals, and
/// then the instances in it are visited. Time and memory grow as the module and as what is built.
pub fn elab(alloc: Global, m: &Module, top: UnitId) -> Result<Design, ElabFault>
    requires unit { top.0 < unit_count m.now }
    requires begun { IsSome (kind_at m.now top.0) }
    requires formed { IsWellFormed (contents m.now) }
    ensures elaborates { Elaborates m.now top.0 result }
    ensures design { IfOk result (IsDesignOf m.now) }
    ensures placed { IfErr result (FaultWithin m.now) }
{
    let mut plans = Plans::new(alloc, m)?;
    let bits = first_refusal(alloc, m, top)?;
    let mut building = Building::started(alloc, m, top, bits)?;
    while let Some(next) = building.pending.pop() {
        plans.fill(alloc, m, next.unit)?;
        building.visit(alloc, m, plans.at(next.unit), next)?;
    }
    Ok(building.finish())
}

/// The plans of the units that were met, by the units' ids.
#[derive(Drop)]
struct Plans {
    plans: Vec<Option<Plan>>,
}

impl Plans {
    /// No unit was met.
    fn new(alloc: Global, m: &Module) -> Result<Plans, NoMemory>
        ensures plans { IfOk result (ArePlans m.now) }
        ensures sound { IsArena m.now }
    {
        let mut plans = Vec::new(alloc);
        for _unit in 0..m.units() {
            push_none(&mut plans)?;
        }
        Ok(Plans { plans })
    }

    /// Makes the plan of a unit, where it is not there.
    fn fill(&mut self, alloc: Global, m: &Module, unit: UnitId) -> Result<(), NoMemory>
        requires unit { unit.0 < unit_count m.now }
        requires formed { IsWellFormed (contents m.now) }
        requires plans { ArePlans m.now self.old }
        ensures plans { OnOk result (ArePlans m.now self.new) }
        ensures there { OnOk result (IsSome (slice_index_or self.new.plans.items unit.0 None)) }
    {
        if self.plans[unit.0 as usize].is_none() {
            self.plans[unit.0 as usize] = Some(plan_of(alloc, m, unit)?);
        }
        Ok(())
    }

    /// The plan of a unit that was met.
    fn at(&self, unit: UnitId) -> &Plan
        requires unit { unit.0 < length self.now.plans.items }
        requires there { IsSome (slice_index_or self.now.plans.items unit.0 None) }
        ensures { slice_index_or self.now.plans.items unit.0 None ≡ Some result.now }
    {
        match &self.plans[unit.0 as usize] {
            Some(plan) => plan,
            None => unreachable!(),
        }
    }
}

fn push_none(plans: &mut Vec<Option<Plan>>) -> Result<(), NoMemory>
    ensures { OnOk result (plans.new.items ≡ plans.old.items ++ None ∷ []) }
{
    plans.push(None)?;
    Ok(())
}
