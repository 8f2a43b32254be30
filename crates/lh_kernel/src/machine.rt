//! The parts of a simulation, and the phases of its step.
ghost use Rattle.std.specs.Prelude.{◌≡◌, ◌<◌, ◌≤◌, ℕ, List, length, false, Option, Some, IfOk, OnErr, IfSome};
ghost use Rattle.lh_types.specs.Raised.{raised};
ghost use Rattle.lh_types.specs.History.{sooner};
ghost use Rattle.lh_types.specs.declared.frame.Frame as shown;
ghost use Rattle.lh_unit.specs.World.{World, next_instant};
ghost use Rattle.lh_unit.specs.Frames.{activated_count};
ghost use Rattle.lh_unit.specs.Within.{Each};
ghost use Rattle.lh_design.specs.declared.Signal.{Signal};
ghost use Rattle.lh_kernel.specs.declared.run.Activation as ran;
ghost use Rattle.lh_kernel.specs.Kept.{IsKept};
ghost use Rattle.lh_kernel.specs.Moves.{MovesKnown, HasEntered, HasLeft, IsSameNoted};
ghost use Rattle.lh_kernel.specs.Ran.{states_after};
ghost use Rattle.lh_kernel.specs.Puts.{wishes_ran, WerePut, CanBePut};
ghost use Rattle.lh_kernel.specs.Simulation.{StandsFor, simulation_of};
ghost use Rattle.lh_kernel.specs.Phases.{ComesNext, HasLooked, IsPlanned, IsAhead, IsFrame, awake_in, woken_in, looked_at, RisesWithin};

use crate::noted::{Move, Noted};
use crate::plan::{FramePlan, plan_frame};
use crate::puts::take_acts;
use crate::run::Activation;
use crate::touched::touched_at;
use lh_bits::bits::Bits;
use lh_design::Design;
use lh_kernel_changes::undo::put_signals;
use lh_kernel_states::state::InstState;
use lh_kernel_wakes::rising::Rising;
use lh_queue::queue::Queue;
use lh_time::Instant;
use lh_types::frame::Frame;
use lh_types::memory::NoMemory;
use lh_types::part::RangeList;
use lh_types::tally::Tally;
use lh_unit::module::Module;
use std::alloc::Global;

/// A simulation between two steps. The bits stand twice: a frame is looked at in `looked`, and only then taken into `bits`, so that no
/// step copies them all.
#[derive(Drop)]
pub(crate) struct SimState<'m> {
    pub module: &'m Module,
    pub design: Design,
    pub bits: Bits,
    pub looked: Bits,
    pub last: Option<Instant>,
    pub states: Vec<InstState>,
    pub probes: Vec<RangeList>,
    pub queue: Queue,
    pub noted: Noted,
    pub alloc: Global,
}

impl SimState<'_> {
    /// The next instant: the first, and then the soonest at which a wish is due or an instance wakes by itself.
    pub fn next(&self) -> Option<Instant>
        requires { IsKept self.now }
        ensures next { (w : World) → StandsFor (simulation_of self.now false) w → result ≡ next_instant w }
        ensures comes { IfSome result (ComesNext self.now) }
    {
        if self.last.is_none() {
            return Some(Instant {
                fs: 0,
                delta: 0,
                eps: 0,
            });
        }
        soonest(self.queue.next_due(), self.noted.wakes.soonest())
    }

    /// Takes the frame at the next instant; beside it stands the least instance that ran away in it. After `NoMemory` all that contracts
    /// see is as it was.
    pub fn frame<T: Tally>(
        &mut self,
        at: Instant,
        tally: &mut T,
    ) -> Result<(Frame, Option<u32>), NoMemory>
        requires kept { IsKept self.old }
        requires next { ComesNext self.old at }
        ensures kept { IsKept self.new }
        ensures same { self.new ≡ record self.old { bits = self.new.bits; looked = self.new.looked; last = self.new.last; states = self.new.states; queue = self.new.queue; noted = self.new.noted } }
        ensures frame { IfOk result (λ (r : shown.Frame × Option ℕ). IsFrame self.old self.new at r.0 r.1) }
        ensures err { OnErr result (simulation_of self.new false ≡ simulation_of self.old false) }
        ensures tally { IfOk result (λ (r : shown.Frame × Option ℕ). (w : World) → StandsFor (simulation_of self.old false) w → T.count tally.new ≡ raised (T.count tally.old) (activated_count r.1 (woken_in self.old w at))) }
        ensures err_tally { OnErr result ((w : World) → StandsFor (simulation_of self.old false) w → RisesWithin (woken_in self.old w at) (T.count tally.old) (T.count tally.new)) }
    {
        let FramePlan {
            frame,
            acts,
            moves,
            wishes: _,
            runaway,
        } = self.ahead(at, tally)?;
        self.queue.take_due(at, &mut self.bits);
        match runaway {
            Some(instance) => {
                self.noted.take_back(&moves);
                Ok((frame, Some(instance)))
            }
            None => {
                self.commit(at, acts, &moves);
                Ok((frame, None))
            }
        }
    }

    /// Looks at the bits of an instant, works out its frame and makes room for what it brings. After `NoMemory` all that contracts see is as it was.
    fn ahead<T: Tally>(&mut self, at: Instant, tally: &mut T) -> Result<FramePlan, NoMemory>
        requires kept { IsKept self.old }
        requires next { ComesNext self.old at }
        ensures same { self.new ≡ record self.old { looked = self.new.looked; queue = self.new.queue; noted = self.new.noted } }
        ensures ok { IfOk result (λ p. IsAhead self.old at p self.new) }
        ensures err { OnErr result ((self.new.looked ≡ self.old.bits) × (self.new.queue.held ≡ self.old.queue.held) × IsSameNoted self.old.noted self.new.noted) }
        ensures tally { IfOk result (λ p. T.count tally.new ≡ raised (T.count tally.old) (activated_count p.runaway (awake_in (looked_at self.old at) at))) }
        ensures err_tally { OnErr result ((w : World) → StandsFor (simulation_of self.old false) w → RisesWithin (woken_in self.old w at) (T.count tally.old) (T.count tally.new)) }
    {
        let touched = touched_at(self.alloc, &self.design, &self.queue, at)?;
        self.queue.look_due(at, &mut self.looked);
        match self.prepared(at, &touched, tally) {
            Ok(plan) => Ok(plan),
            Err(NoMemory) => {
                put_signals(&mut self.looked, &self.bits, &self.design, &touched);
                Err(NoMemory)
            }
        }
    }

    /// The frame of an instant at which the bits were looked at, with room for what it brings.
    fn prepared<T: Tally>(
        &mut self,
        at: Instant,
        touched: &Rising,
        tally: &mut T,
    ) -> Result<FramePlan, NoMemory>
        requires looked { HasLooked self.old at touched.now }
        ensures same { self.new ≡ record self.old { queue = self.new.queue; noted = self.new.noted } }
        ensures held { self.new.queue.held ≡ self.old.queue.held }
        ensures planned { IfOk result (IsPlanned self.old at) }
        ensures room { IfOk result (λ p. p.wishes ≤ self.new.queue.spare) }
        ensures entered { IfOk result (λ p. HasEntered p.moves.items self.old.noted self.new.noted) }
        ensures err { OnErr result (IsSameNoted self.old.noted self.new.noted) }
        ensures tally { IfOk result (λ p. T.count tally.new ≡ raised (T.count tally.old) (activated_count p.runaway (awake_in self.old at))) }
        ensures err_tally { OnErr result (RisesWithin (awake_in self.old at) (T.count tally.old) (T.count tally.new)) }
    {
        let plan = plan_frame(self.alloc, self, at, touched, tally)?;
        self.queue.reserve(plan.wishes)?;
        self.noted.enter(&plan.moves)?;
        Ok(plan)
    }

    /// Takes what the instances of a frame did. It takes no memory.
    fn commit(&mut self, at: Instant, acts: Vec<Activation>, moves: &[Move])
        requires known { (signals : List Signal) × (length self.old.noted.index ≡ length signals) × MovesKnown signals moves.now }
        requires can { CanBePut self.old.queue.held (wishes_ran at acts.items) }
        requires room { length (wishes_ran at acts.items) ≤ self.old.queue.spare }
        requires instances { Each (λ (x : ran.Activation). x.instance < length self.old.states.items) acts.items }
        ensures same { self.new ≡ record self.old { last = Some at; states = self.new.states; queue = self.new.queue; noted = self.new.noted } }
        ensures left { HasLeft moves.now self.old.noted self.new.noted }
        ensures put { WerePut self.old.queue.held (wishes_ran at acts.items) self.new.queue.held }
        ensures states { self.new.states.items ≡ states_after self.old.states.items acts.items }
    {
        self.noted.leave(moves);
        take_acts(&mut self.queue, &mut self.states, at, acts);
        self.last = Some(at);
    }
}

/// The sooner of two instants, of which either may be missing.
fn soonest(due: Option<Instant>, wake: Option<Instant>) -> Option<Instant>
    ensures { result ≡ sooner due wake }
{
    match (due, wake) {
        (Some(due), Some(wake)) => Some(if wake < due { wake } else { due }),
        (Some(due), None) => Some(due),
        (None, wake) => wake,
    }
}
