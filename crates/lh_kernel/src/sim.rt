//! A simulation.
ghost use Rattle.std.specs.Prelude.{◌≡◌, ◌<◌, ◌↔◌, ℕ, None, true, length, IfOk, OnErr, slice_get, Some};
ghost use Rattle.std.specs.Option.{IsSomeAnd};
ghost use Rattle.lh_types.specs.ValueOf.{datum_of};
ghost use Rattle.lh_unit.specs.Arena.{contents};
ghost use Rattle.lh_unit.specs.Design as text;
ghost use Rattle.lh_unit.specs.World.{World, first_world, next_instant};
ghost use Rattle.lh_unit.specs.Trace.{signal_value};
ghost use Rattle.lh_design.specs.Texts.{design_text};
ghost use Rattle.lh_kernel_wakes.specs.Rising.{IsOneOf, IsRising};
ghost use Rattle.lh_elab.specs.Answer.{IsDesignOf};
ghost use Rattle.lh_kernel.specs.States.{SensesSignal};
ghost use Rattle.lh_kernel.specs.Simulation.{StandsFor};
ghost use Rattle.lh_kernel.specs.Stepped.{Stepped, Tallied, signal_of};

use crate::machine::SimState;
use lh_bits::layout::from_bits;
use lh_design::Design;
use lh_time::Instant;
use lh_types::frame::Frame;
use lh_types::memory::NoMemory;
use lh_types::tally::Tally;
use lh_types::val::Val;
use lh_unit::module::Module;
use std::alloc::Global;
use std::marker::Model;

/// What a step of a simulation gives.
#[derive(Drop)]
pub enum SimStep {
    /// The next frame of the trace.
    Frame(Frame),
    /// The next frame, in which this instance, the least such, ran away: it has the outcomes of lower instances alone, and
    /// ends the run.
    Runaway(Frame, u32),
    /// Nothing is to come.
    Quiet,
}

/// The simulation of a design of a module.
///
/// Contracts see its module, design, bits, last instant, the states of its instances and the wishes that are due, and say which worlds of
/// the definition it stands for.
#[derive(Drop)]
pub struct Sim<'m> {
    machine: SimState<'m>,
    ended: bool,
}

impl<'m> Model for Sim<'m> {
    ghost use Rattle.std.specs.Coded.{codes};
    ghost use Rattle.lh_types.specs.Types.{type_coded};
    ghost use Rattle.lh_types.specs.Values.{datum_coded};
    ghost use Rattle.lh_kernel.specs.Simulation.{Simulation};

    ghost Value = { Simulation };

    ghost coded = { Prim.hlevel (codes, type_coded, datum_coded) };

    ghost use Rattle.lh_kernel.specs.Simulation.{simulation_of};
    ghost use Rattle.lh_kernel.specs.Kept.{IsKept};

    ghost view = { λ s. simulation_of s.machine s.ended };

    ghost invariant = { λ s. IsKept s.machine };
}

impl<'m> Sim<'m> {
    /// The simulation of a design before its first frame. The design is the answer of elaboration for a top of the module.
    pub fn new(alloc: Global, m: &'m Module, d: Design) -> Result<Sim<'m>, NoMemory>
        requires design { IsDesignOf m.now d }
        ensures stands { IfOk result (λ s. StandsFor s (first_world (contents m.now) (design_text m.now d))) }
        ensures module { IfOk result (λ s. s.arena ≡ m.now) }
        ensures design { IfOk result (λ s. s.design ≡ d) }
    {
        Ok(Sim {
            machine: SimState::started(alloc, m, d)?,
            ended: false,
        })
    }

    /// The design.
    pub fn design(&self) -> &Design
        ensures same { result.now ≡ self.now.design }
        ensures sound { IsDesignOf self.now.arena self.now.design }
    {
        &self.machine.design
    }

    /// The instant of the next frame; `None` exactly where nothing is to come: a step would then answer `Quiet`. It takes no memory.
    pub fn next(&self) -> Option<Instant>
        ensures next { (w : World) → StandsFor self.now w → result ≡ next_instant w }
        ensures ended { self.now.ended ≡ true → result ≡ None }
    {
        if self.ended {
            None
        } else {
            self.machine.next()
        }
    }

    /// The value of a signal in the last frame; before the first frame its initial value.
    pub fn value(&self, signal: u32) -> Result<Val, NoMemory>
        requires known { signal < length self.now.design.signals.items }
        ensures { IfOk result (λ v. IsSomeAnd (signal_of self.now signal) (λ (s : text.Signal). datum_of v ≡ signal_value self.now.bits s)) }
    {
        let signal = &self.machine.design.signals()[signal as usize];
        from_bits(
            self.machine.alloc,
            &signal.ty,
            &self.machine.bits,
            signal.lo,
        )
    }

    /// The numbers of the instances that sense a bit of a signal now, rising.
    pub fn sensing(&self, signal: u32) -> &[u32]
        requires known { signal < length self.now.design.signals.items }
        ensures senses { (k : ℕ) → IsOneOf k result.now ↔ SensesSignal self.now.arena self.now.design.instances.items self.now.design.signals.items self.now.states signal k }
        ensures rising { IsRising result.now }
    {
        self.machine.noted.index.sensing(signal)
    }

    /// Takes the next step: the frame at the next instant, with its changes against the frame before.
    ///
    /// Against every world for which the simulation stands, the answer is exactly the next frame of the definition, and the simulation then stands
    /// for the world after it. After `Quiet` the simulation is as before. After a runaway it has ended, and each further step gives `Quiet`.
    /// After `NoMemory` it is as it was. The tally is raised by exactly the instances that are activated.
    pub fn step<T: Tally>(&mut self, tally: &mut T) -> Result<SimStep, NoMemory>
        ensures step { IfOk result (λ s. (w : World) → StandsFor self.old w → Stepped self.old w self.new s) }
        ensures err { OnErr result (self.new ≡ self.old) }
        ensures ended { self.old.ended ≡ true → IfOk result (λ s. (s ≡ SimStep.Quiet) × (self.new ≡ self.old)) }
        ensures module { self.new.arena ≡ self.old.arena }
        ensures design { self.new.design ≡ self.old.design }
        ensures tally { (w : World) → StandsFor self.old w → Tallied self.old w result (T.count tally.old) (T.count tally.new) }
        ensures ended_tally { self.old.ended ≡ true → T.count tally.new ≡ T.count tally.old }
    {
        if self.ended {
            return Ok(SimStep::Quiet);
        }
        let Some(at) = self.machine.next() else {
            return Ok(SimStep::Quiet);
        };
        let (frame, runaway) = self.machine.frame(at, tally)?;
        match runaway {
            Some(instance) => {
                self.ended = true;
                Ok(SimStep::Runaway(frame, instance))
            }
            None => Ok(SimStep::Frame(frame)),
        }
    }
}
