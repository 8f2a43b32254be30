//! The runs of the instances that a frame wakes.
ghost use Rattle.std.specs.Prelude.{◌≡◌, ◌<◌, ◌≤◌, ◌++◌, ℕ, List, [], map, length, IfOk, OnErr};
ghost use Rattle.lh_types.specs.Raised.{raised};
ghost use Rattle.lh_types.specs.declared.frame.Outcome as outcome;
ghost use Rattle.lh_unit.specs.World.{State};
ghost use Rattle.lh_unit.specs.Frames.{activated_count};
ghost use Rattle.lh_unit.specs.Within.{Each};
ghost use Rattle.lh_kernel_wakes.specs.Rising.{IsOneOf, IsRising};
ghost use Rattle.lh_elab.specs.Answer.{IsDesignOf};
ghost use Rattle.lh_kernel.specs.States.{StatesStand, StatesFit};
ghost use Rattle.lh_kernel.specs.Ran.{AllRan, ActOfOne, outcomes_ran, outcomes_by};

use lh_bits::bits::Bits;
use lh_design::Design;
use lh_exec::ExecFault;
use lh_kernel_states::runs::{InstAct, run_instance};
use lh_kernel_states::state::InstState;
use lh_time::Instant;
use lh_types::frame::{Outcome, OutcomeList};
use lh_types::memory::NoMemory;
use lh_types::tally::Tally;
use lh_unit::module::Module;
use std::alloc::Global;

/// What one woken instance did.
#[derive(Drop)]
pub(crate) struct Activation {
    pub instance: u32,
    pub act: InstAct,
}

/// What the woken instances did, by rising instance, and the first that ran away: those behind it did nothing.
#[derive(Drop)]
pub(crate) struct Ran {
    pub acts: Vec<Activation>,
    pub runaway: Option<u32>,
}

/// Runs the woken instances one after the other, up to the first that runs away. All see the same bits. The tally is raised by one for
/// each instance that is run, the one that runs away included.
pub(crate) fn run_all<T: Tally>(
    alloc: Global,
    m: &Module,
    design: &Design,
    states: &[InstState],
    now: &Bits,
    at: Instant,
    woken: &[u32],
    tally: &mut T,
) -> Result<Ran, NoMemory>
    requires design { IsDesignOf m.now design.now }
    requires width { length now.now ≡ length design.now.init }
    requires fit { StatesFit m.now (length now.now) design.now.instances.items states.now }
    requires rising { IsRising woken.now }
    requires known { (k : ℕ) → IsOneOf k woken.now → k < length design.now.instances.items }
    ensures ran { (ps : List State) → StatesStand m.now design.now.instances.items states.now ps → IfOk result (λ r. AllRan m.now now.now at design.now.instances.items ps woken.now r.acts.items r.runaway) }
    ensures sound { IfOk result (λ r. Each (ActOfOne m.now (length now.now) at design.now.instances.items) r.acts.items) }
    ensures tally { IfOk result (λ r. T.count tally.new ≡ raised (T.count tally.old) (activated_count r.runaway woken.now)) }
    ensures err { OnErr result ((n : ℕ) × (n ≤ length woken.now) × (T.count tally.new ≡ raised (T.count tally.old) n)) }
{
    let mut acts = list_for(alloc, woken.len());
    for &instance in woken {
        let k = instance as usize;
        match run_instance(alloc, m, &design.instances()[k], &states[k], now, at, tally) {
            Ok(act) => acts.push(Activation { instance, act })?,
            Err(ExecFault::Runaway) => {
                return Ok(Ran {
                    acts,
                    runaway: Some(instance),
                });
            }
            Err(ExecFault::OutOfMemory) => return Err(NoMemory),
        }
    }
    Ok(Ran {
        acts,
        runaway: None,
    })
}

/// An empty list, with room for this many if there is memory for it.
fn list_for(alloc: Global, count: usize) -> Vec<Activation>
    ensures { result.items ≡ [] }
{
    match Vec::with_capacity(alloc, count) {
        Ok(list) => list,
        Err(_) => Vec::new(alloc),
    }
}

/// The outcomes of activations, by instance and then by execution.
pub(crate) fn outcomes_of(alloc: Global, acts: &[Activation]) -> Result<OutcomeList, NoMemory>
    ensures { IfOk result (λ os. os ≡ outcomes_ran acts.now) }
{
    let mut outcomes = OutcomeList::new(alloc);
    for done in acts {
        add_outcomes(&mut outcomes, done)?;
    }
    Ok(outcomes)
}

/// Adds the outcomes of one activation.
fn add_outcomes(outcomes: &mut OutcomeList, done: &Activation) -> Result<(), NoMemory>
    ensures { IfOk result (λ u. outcomes.new ≡ outcomes.old ++ outcomes_by done.now) }
{
    for &passed in done.act.outcomes() {
        outcomes.push(Outcome {
            instance: done.instance,
            passed,
        })?;
    }
    Ok(())
}
