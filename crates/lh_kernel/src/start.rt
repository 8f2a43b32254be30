//! A simulation before its first frame.
ghost use Rattle.std.specs.Prelude.{◌≡◌, ◌+◌, ◌≤◌, ℕ, List, Bool, None, false, length, map, IfOk, OnOk};
ghost use Rattle.lh_types.specs.declared.part.Range.{Range as Part};
ghost use Rattle.lh_unit.specs.Arena.{Arena, contents};
ghost use Rattle.lh_unit.specs.World.{first_world, starts, bit_numbers};
ghost use Rattle.lh_unit.specs.Within.{Each};
ghost use Rattle.lh_design.specs.Filling.{SignalsFill};
ghost use Rattle.lh_design.specs.Texts.{instance_text, design_text};
ghost use Rattle.lh_kernel_changes.specs.Touched.{AreTouched, AreWithin};
ghost use Rattle.lh_elab.specs.Answer.{IsDesignOf};
ghost use Rattle.lh_elab.specs.Probed.{AreProbes};
ghost use Rattle.lh_kernel_states.specs.States.{parts_sensed, wake_kept};
ghost use Rattle.lh_kernel.specs.States.{StatesStand, StatesFit};
ghost use Rattle.lh_kernel.specs.Noted.{IsNotedFor, SensedWithin};
ghost use Rattle.lh_kernel.specs.Noting.{HasNoted};
ghost use Rattle.lh_kernel.specs.Kept.{IsKept, WakesAfter};
ghost use Rattle.lh_kernel.specs.Simulation.{StandsFor, simulation_of};

use crate::machine::SimState;
use crate::noted::Noted;
use lh_bits::bits::Bits;
use lh_design::Design;
use lh_elab::probes_of;
use lh_kernel_changes::signals::signals_of;
use lh_kernel_states::state::InstState;
use lh_kernel_wakes::sensing::Index;
use lh_kernel_wakes::wakes::Wakes;
use lh_queue::queue::Queue;
use lh_types::memory::NoMemory;
use lh_types::part::RangeList;
use lh_unit::module::Module;
use std::alloc::Global;

impl<'m> SimState<'m> {
    /// The parts of the simulation of a design before its first frame.
    pub fn started(alloc: Global, m: &'m Module, d: Design) -> Result<SimState<'m>, NoMemory>
        requires { IsDesignOf m.now d }
        ensures kept { IfOk result IsKept }
        ensures stands { IfOk result
            (λ x. StandsFor (simulation_of x false) (first_world (contents m.now) (design_text m.now d))) }
        ensures module { IfOk result (λ x. x.«module».now ≡ m.now) }
        ensures design { IfOk result (λ x. x.design ≡ d) }
    {
        let (bits, looked) = first_bits(&d)?;
        let Begun {
            probes,
            states,
            noted,
        } = begin_all(alloc, m, &d)?;
        Ok(SimState {
            module: m,
            design: d,
            bits,
            looked,
            last: None,
            states,
            probes,
            queue: Queue::new(alloc),
            noted,
            alloc,
        })
    }
}

/// The bits before the first frame, twice.
fn first_bits(d: &Design) -> Result<(Bits, Bits), NoMemory>
    ensures { IfOk result (λ (both : List Bool × List Bool). (both.0 ≡ d.now.init) × (both.1 ≡ d.now.init)) }
{
    let bits = d.init().copy()?;
    let looked = d.init().copy()?;
    Ok((bits, looked))
}

/// What instances probe, what is kept of them and what is noted, as they begin.
#[derive(Drop)]
struct Begun {
    probes: Vec<RangeList>,
    states: Vec<InstState>,
    noted: Noted,
}

/// The instances of a design as they begin.
fn begin_all(alloc: Global, m: &Module, d: &Design) -> Result<Begun, NoMemory>
    requires { IsDesignOf m.now d.now }
    ensures probes { IfOk result (λ b. AreProbes m.now d.now.instances.items b.probes.items) }
    ensures within { IfOk result
        (λ b. Each (λ (rs : List Part). Each (λ (r : Part). r.lo + r.len ≤ length d.now.init) rs) b.probes.items) }
    ensures stand { IfOk result
        (λ b. StatesStand m.now d.now.instances.items b.states.items (starts (contents m.now) (map (instance_text m.now) d.now.instances.items))) }
    ensures fit { IfOk result (λ b. StatesFit m.now (length d.now.init) d.now.instances.items b.states.items) }
    ensures wakes { IfOk result (λ b. Each (WakesAfter None) b.states.items) }
    ensures noted { IfOk result
        (λ b. IsNotedFor m.now d.now.instances.items d.now.signals.items b.states.items b.noted) }
{
    let probes = probes_of(alloc, m, d)?;
    let states = starts(alloc, m, d)?;
    let noted = noted_for(alloc, d, &states, &probes)?;
    Ok(Begun {
        probes,
        states,
        noted,
    })
}

/// What is kept of each instance as it begins.
fn starts(alloc: Global, m: &Module, d: &Design) -> Result<Vec<InstState>, NoMemory>
    requires { IsDesignOf m.now d.now }
    ensures stand { IfOk result
        (λ ss. StatesStand m.now d.now.instances.items ss.items (starts (contents m.now) (map (instance_text m.now) d.now.instances.items))) }
    ensures fit { IfOk result (λ ss. StatesFit m.now (length d.now.init) d.now.instances.items ss.items) }
    ensures wakes { IfOk result (λ ss. Each (WakesAfter None) ss.items) }
{
    let mut states = Vec::new(alloc);
    for instance in d.instances() {
        states.push(InstState::start(alloc, m, instance.unit)?)?;
    }
    Ok(states)
}

/// What is noted of instances with these states, where entities probe these parts.
fn noted_for(
    alloc: Global,
    d: &Design,
    states: &[InstState],
    probes: &[RangeList],
) -> Result<Noted, NoMemory>
    requires fill { SignalsFill d.now }
    requires few { length states.now ≤ 65536 }
    requires within { SensedWithin (length d.now.init) states.now probes.now }
    ensures { IfOk result
        (λ n. (a : Arena) → AreProbes a d.now.instances.items probes.now → IsNotedFor a d.now.instances.items d.now.signals.items states.now n) }
{
    let mut noted = Noted {
        index: Index::new(alloc, signal_count(d))?,
        wakes: Wakes::new(alloc),
    };
    for (number, state) in states.iter().enumerate() {
        note_instance(&mut noted, alloc, d, number as u32, state, &probes[number])?;
    }
    Ok(noted)
}

/// Notes of an instance with this state which signals it senses and when it wakes by itself.
fn note_instance(
    noted: &mut Noted,
    alloc: Global,
    d: &Design,
    number: u32,
    state: &InstState,
    probes: &RangeList,
) -> Result<(), NoMemory>
    requires fill { SignalsFill d.now }
    requires within { AreWithin (length d.now.init) (parts_sensed state.now probes.now) }
    requires long { length noted.old.index ≡ length d.now.signals.items }
    ensures { OnOk result
        ((touched : List ℕ) × AreTouched d.now.signals.items (bit_numbers (parts_sensed state.now probes.now)) touched × HasNoted number touched (wake_kept state.now) noted.old noted.new) }
{
    let signals = signals_of(alloc, d, state.senses(probes))?;
    noted.note(number, &signals, state.wake())?;
    Ok(())
}

/// How many signals there are.
fn signal_count(d: &Design) -> u32
    requires { SignalsFill d.now }
    ensures { result ≡ length d.now.signals.items }
{
    // There are no more signals than bits, and fewer than 2^32 bits.
    let _ = d.init().len();
    d.signals().len() as u32
}
