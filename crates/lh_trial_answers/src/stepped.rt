//! Simulations step by step.
ghost use Rattle.std.specs.Prelude.{◌≡◌};
ghost use Rattle.lh_elab.specs.Answer.{IsDesignOf};

use lh_design::Design;
use lh_io::count::Count;
use lh_kernel::{Sim, SimStep};
use lh_text_buffer::Text;
use lh_trial_reference::frames::{put_frame, put_instant, put_named, put_sensing};
use lh_types::memory::NoMemory;
use lh_unit::module::Module;
use lh_wave::value::put_value;
use std::alloc::Global;

/// At most this many frames of a simulation: all that it tells before, in and behind each step.
pub fn stepped(alloc: Global, m: &Module, design: Design, steps: u32) -> Result<Vec<u8>, NoMemory>
    requires { IsDesignOf m.now design }
{
    let mut to = Text::new(alloc);
    put_simulated(&mut to, alloc, m, design, steps)?;
    to.finish()
}

fn put_simulated(
    to: &mut Text,
    alloc: Global,
    m: &Module,
    design: Design,
    steps: u32,
) -> Result<(), NoMemory>
    requires { IsDesignOf m.now design }
{
    let mut sim = Sim::new(alloc, m, design)?;
    let told = put_stepped(to, &mut sim, steps);
    drop(sim);
    told
}

fn put_stepped(to: &mut Text, sim: &mut Sim<'_>, steps: u32) -> Result<(), NoMemory> {
    let mut count = Count::new();
    for _ in 0..steps {
        let goes = put_step(to, sim, &mut count)?;
        put_named(to, b"activations", count.get());
        put_senses(to, sim);
        put_values(to, sim)?;
        if !goes {
            return Ok(());
        }
    }
    Ok(())
}

/// The next step; whether a further one may follow.
fn put_step(to: &mut Text, sim: &mut Sim<'_>, count: &mut Count) -> Result<bool, NoMemory> {
    match sim.next() {
        Some(at) => put_instant(to, b"next", at),
        None => to.put(b"next none\n"),
    }
    let step = sim.step(count)?;
    put_told(to, &step);
    let goes = matches!(step, SimStep::Frame(_));
    drop(step);
    Ok(goes)
}

/// What a step tells.
fn put_told(to: &mut Text, step: &SimStep) {
    match step {
        SimStep::Frame(frame) => put_frame(to, frame),
        SimStep::Runaway(frame, instance) => {
            put_frame(to, frame);
            put_named(to, b"runaway", *instance as u64);
        }
        SimStep::Quiet => to.put(b"quiet\n"),
    }
}

/// How many signals there are.
fn signals_of(sim: &Sim<'_>) -> u32 {
    u32::try_from(sim.design().signals().len()).unwrap_or(u32::MAX)
}

/// The instances that sense each signal now.
fn put_senses(to: &mut Text, sim: &Sim<'_>) {
    for signal in 0..signals_of(sim) {
        if (signal as usize) < sim.design().signals().len() {
            put_sensing(to, signal as u64, sim.sensing(signal));
        }
    }
}

/// The values of all signals now.
fn put_values(to: &mut Text, sim: &Sim<'_>) -> Result<(), NoMemory> {
    for signal in 0..signals_of(sim) {
        if (signal as usize) < sim.design().signals().len() {
            let value = sim.value(signal)?;
            put_value(to, &value);
            drop(value);
            to.put(b" ");
        }
    }
    to.put(b"\n");
    Ok(())
}

/// At most this many frames of a simulation: the instant of each, the activations so far, and the instances that sense each signal
/// then.
pub fn sensed(alloc: Global, m: &Module, design: Design, steps: u32) -> Result<Vec<u8>, NoMemory>
    requires { IsDesignOf m.now design }
{
    let stepped = stepped(alloc, m, design, steps)?;
    let mut to = Text::new(alloc);
    put_sensed(&mut to, str::from_utf8(&stepped).unwrap_or(""));
    to.finish()
}

fn put_sensed(to: &mut Text, stepped: &str) {
    for line in stepped.lines() {
        if line.starts_with('@') || line.starts_with("activations") || line.starts_with("signal") {
            to.put(line.as_bytes());
            to.put(b"\n");
        }
    }
}
