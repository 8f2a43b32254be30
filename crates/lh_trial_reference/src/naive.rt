//! The frames of a design as the definition says them: every bit that was ever wished is kept, every bit of the signals is found among
//! all of them in each frame, and every instance is looked at.
ghost use Rattle.lh_elab.specs.Answer.{IsDesignOf};

use crate::frames::{put_frame, put_instant, put_named, put_sensing};
use crate::runner::{Runner, differ_at};
use crate::wished::{Entry, add_wish, bits_at, due_after, sooner};
use lh_bits::bits::Bits;
use lh_bits::layout::from_bits;
use lh_design::{Design, Signal};
use lh_elab::probes_of;
use lh_exec::ExecFault;
use lh_text_buffer::Text;
use lh_time::Instant;
use lh_types::frame::{Change, ChangeList, Frame, OutcomeList};
use lh_types::memory::NoMemory;
use lh_types::part::RangeList;
use lh_types::ty::{bits, carries_data};
use lh_types::val::Val;
use lh_unit::module::Module;
use lh_wave::value::put_value;
use std::alloc::Global;

/// A design with its instances, all that was ever wished, and the last frame.
#[derive(Drop)]
struct Naive<'m> {
    alloc: Global,
    design: &'m Design,
    runners: Vec<Runner<'m>>,
    history: Vec<Entry>,
    last: Option<Instant>,
    bits: Bits,
    activations: u64,
    runaway: Option<u32>,
}

/// At most this many frames by the definition, in the words of the simulation.
pub fn defined(alloc: Global, m: &Module, design: &Design, steps: u32) -> Result<Vec<u8>, NoMemory>
    requires { IsDesignOf m.now design.now }
{
    let mut naive = begun(alloc, m, design)?;
    let mut to = Text::new(alloc);
    let put = naive.put_steps(&mut to, steps);
    drop(naive);
    put?;
    to.finish()
}

/// A design before its first frame.
fn begun<'m>(alloc: Global, m: &'m Module, design: &'m Design) -> Result<Naive<'m>, NoMemory>
    requires { IsDesignOf m.now design.now }
{
    let bits = design.init().copy()?;
    Ok(Naive {
        alloc,
        design,
        runners: runners_of(alloc, m, design)?,
        history: Vec::new(alloc),
        last: None,
        bits,
        activations: 0,
        runaway: None,
    })
}

/// The instances of a design before their first activation.
fn runners_of<'m>(
    alloc: Global,
    m: &'m Module,
    design: &'m Design,
) -> Result<Vec<Runner<'m>>, NoMemory>
    requires { IsDesignOf m.now design.now }
{
    let mut runners = Vec::new(alloc);
    for (k, probes) in probes_of(alloc, m, design)?.into_iter().enumerate() {
        add_runner(&mut runners, alloc, m, design, k, probes)?;
    }
    Ok(runners)
}

/// Adds the instance of a number, if there is one.
fn add_runner<'m>(
    runners: &mut Vec<Runner<'m>>,
    alloc: Global,
    m: &'m Module,
    design: &'m Design,
    k: usize,
    probes: RangeList,
) -> Result<(), NoMemory>
    requires { IsDesignOf m.now design.now }
{
    if k < design.instances().len() {
        runners.push(Runner::new(alloc, m, design, k, probes)?)?;
    }
    Ok(())
}

impl Naive<'_> {
    /// The next instant.
    fn next(&self) -> Option<Instant> {
        let Some(last) = self.last else {
            return Some(Instant {
                fs: 0,
                delta: 0,
                eps: 0,
            });
        };
        let mut first = due_after(&self.history, last);
        for runner in &self.runners {
            first = sooner(first, runner.wake());
        }
        first
    }

    /// At most this many frames, each with the senses and the values after it.
    fn put_steps(&mut self, to: &mut Text, steps: u32) -> Result<(), NoMemory> {
        for _ in 0..steps {
            let goes = self.put_step(to)?;
            put_named(to, b"activations", self.activations);
            self.put_senses(to)?;
            self.put_values(to)?;
            if !goes {
                return Ok(());
            }
        }
        Ok(())
    }

    /// The next frame; whether a further one may follow.
    fn put_step(&mut self, to: &mut Text) -> Result<bool, NoMemory> {
        let Some(at) = self.next() else {
            to.put(b"next none\nquiet\n");
            return Ok(false);
        };
        put_instant(to, b"next", at);
        self.put_frame_at(to, at)?;
        let Some(instance) = self.runaway else {
            return Ok(true);
        };
        put_named(to, b"runaway", instance as u64);
        Ok(false)
    }

    /// The frame at an instant, which is the last one then.
    fn put_frame_at(&mut self, to: &mut Text, at: Instant) -> Result<(), NoMemory> {
        let now = bits_at(&self.history, self.design.init(), at)?;
        let put = self.put_frame_of(to, &now, at);
        self.last = Some(at);
        self.bits = now;
        put
    }

    /// The frame at an instant at which the bits are these.
    fn put_frame_of(&mut self, to: &mut Text, now: &Bits, at: Instant) -> Result<(), NoMemory> {
        let frame = self.frame(now, at)?;
        put_frame(to, &frame);
        Ok(())
    }

    /// What the instances do at an instant, and what differs from the last frame.
    fn frame(&mut self, now: &Bits, at: Instant) -> Result<Frame, NoMemory> {
        let outcomes = self.activate_all(now, at)?;
        Ok(Frame {
            at,
            changes: self.changes(now)?,
            outcomes,
        })
    }

    /// What differs from the last frame; in the first frame every signal.
    fn changes(&self, now: &Bits) -> Result<ChangeList, NoMemory> {
        let mut changes = ChangeList::new(self.alloc);
        for (k, signal) in self.design.signals().iter().enumerate() {
            self.add_change(&mut changes, short(k), signal, now)?;
        }
        Ok(changes)
    }

    /// What differs of a signal from the last frame.
    fn add_change(
        &self,
        changes: &mut ChangeList,
        number: u32,
        signal: &Signal,
        now: &Bits,
    ) -> Result<(), NoMemory> {
        let toggled = toggled(signal, &self.bits, now);
        if toggled == 0 && self.last.is_some() {
            return Ok(());
        }
        changes.push(Change {
            signal: number,
            toggled,
            value: value_of(self.alloc, signal, now)?,
        })
    }

    /// Activates the instances that wake, one by one, up to one that runs away.
    fn activate_all(&mut self, now: &Bits, at: Instant) -> Result<OutcomeList, NoMemory> {
        let mut outcomes = OutcomeList::new(self.alloc);
        for k in 0..self.runners.len() {
            if self.runaway.is_none() && self.wakes(k, now, at) {
                self.activate(k, now, at, &mut outcomes)?;
            }
        }
        Ok(outcomes)
    }

    /// Whether an instance wakes.
    fn wakes(&self, k: usize, now: &Bits, at: Instant) -> bool {
        let Some(runner) = self.runners.get(k) else {
            return false;
        };
        self.last.is_none() || runner.wake() == Some(at) || runner.is_touched(&self.bits, now)
    }

    /// Activates an instance.
    fn activate(
        &mut self,
        k: usize,
        now: &Bits,
        at: Instant,
        outcomes: &mut OutcomeList,
    ) -> Result<(), NoMemory> {
        self.activations = self.activations.saturating_add(1);
        let instance = short(k);
        let Some(runner) = self.runners.get_mut(k) else {
            return Ok(());
        };
        match runner.run(self.alloc, now, at, instance, outcomes) {
            Ok(wish) => add_wish(&mut self.history, at, instance, &wish),
            Err(ExecFault::Runaway) => {
                self.runaway = Some(instance);
                Ok(())
            }
            Err(ExecFault::OutOfMemory) => Err(NoMemory),
        }
    }

    /// The instances that sense each signal.
    fn put_senses(&self, to: &mut Text) -> Result<(), NoMemory> {
        for (k, signal) in self.design.signals().iter().enumerate() {
            put_sensing(to, k as u64, &self.sensing(signal)?);
        }
        Ok(())
    }

    fn sensing(&self, signal: &Signal) -> Result<Vec<u32>, NoMemory> {
        let mut sensing = Vec::new(self.alloc);
        let len = width_of(signal);
        for (k, runner) in self.runners.iter().enumerate() {
            if runner.senses(signal.lo, len) {
                sensing.push(short(k))?;
            }
        }
        Ok(sensing)
    }

    /// The values of all signals.
    fn put_values(&self, to: &mut Text) -> Result<(), NoMemory> {
        for signal in self.design.signals() {
            self.put_value_of(to, signal)?;
            to.put(b" ");
        }
        to.put(b"\n");
        Ok(())
    }

    fn put_value_of(&self, to: &mut Text, signal: &Signal) -> Result<(), NoMemory> {
        let value = value_of(self.alloc, signal, &self.bits)?;
        put_value(to, &value);
        Ok(())
    }
}

/// The number of an instance or a signal.
fn short(k: usize) -> u32 {
    u32::try_from(k).unwrap_or(u32::MAX)
}

/// How many bits a signal has.
fn width_of(signal: &Signal) -> u32 {
    if carries_data(&signal.ty) {
        bits(&signal.ty)
    } else {
        0
    }
}

/// How many bits of a signal differ.
fn toggled(signal: &Signal, was: &Bits, now: &Bits) -> u32 {
    let mut toggled: u32 = 0;
    for i in 0..width_of(signal) {
        if differ_at(was, now, signal.lo.saturating_add(i)) {
            toggled = toggled.saturating_add(1);
        }
    }
    toggled
}

/// The value of a signal.
fn value_of(alloc: Global, signal: &Signal, now: &Bits) -> Result<Val, NoMemory> {
    if !carries_data(&signal.ty) || signal.lo > now.len() {
        return Err(NoMemory);
    }
    if bits(&signal.ty) > now.len() - signal.lo {
        return Err(NoMemory);
    }
    from_bits(alloc, &signal.ty, now, signal.lo)
}
