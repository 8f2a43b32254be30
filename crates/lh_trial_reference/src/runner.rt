//! One instance of a design by itself.
ghost use Rattle.std.specs.Prelude.{◌<◌, length};
ghost use Rattle.lh_elab.specs.Answer.{IsDesignOf};

use lh_bits::bits::Bits;
use lh_bits::writes::DueWrites;
use lh_design::Design;
use lh_eval::instance::Instance;
use lh_exec::ExecFault;
use lh_io::count::Count;
use lh_kernel_states::runs::run_instance;
use lh_kernel_states::state::InstState;
use lh_time::Instant;
use lh_types::frame::{Outcome, OutcomeList};
use lh_types::memory::NoMemory;
use lh_types::part::{Range, RangeList};
use lh_unit::module::Module;
use std::alloc::Global;
use std::marker::Model;

/// An instance of a design with what is kept of it, and the parts that it probes if it is an entity.
#[derive(Drop)]
pub struct Runner<'m> {
    module: &'m Module,
    instance: &'m Instance,
    state: InstState,
    probes: RangeList,
    width: u32,
}

impl<'m> Model for Runner<'m> {
    ghost use Rattle.std.specs.Prelude.{ℕ};
    ghost use Rattle.lh_trial_reference.specs.Runners.{IsRunner};

    ghost Value = { ℕ };

    ghost view = { λ r. r.width };

    ghost invariant = { λ r. IsRunner r.«module».now r.width r.instance.now r.state };
}

impl<'m> Runner<'m> {
    /// The instance of a number, before its first activation.
    pub fn new(
        alloc: Global,
        m: &'m Module,
        d: &'m Design,
        k: usize,
        probes: RangeList,
    ) -> Result<Runner<'m>, NoMemory>
        requires design { IsDesignOf m.now d.now }
        requires known { k < length d.now.instances.items }
    {
        let instance = &d.instances()[k];
        Ok(Runner {
            module: m,
            instance,
            state: InstState::start(alloc, m, instance.unit)?,
            probes,
            width: d.init().len(),
        })
    }

    /// Activates the instance, where the signals have these bits and it has this number, and adds what its assertions found; the
    /// answer is what it wishes.
    pub fn run(
        &mut self,
        alloc: Global,
        now: &Bits,
        at: Instant,
        number: u32,
        outcomes: &mut OutcomeList,
    ) -> Result<DueWrites, ExecFault> {
        if now.len() != self.width {
            return Err(ExecFault::OutOfMemory);
        }
        let mut count = Count::new();
        let act = run_instance(
            alloc,
            self.module,
            self.instance,
            &self.state,
            now,
            at,
            &mut count,
        )?;
        let added = add_outcomes(outcomes, number, act.outcomes());
        let (next, wish) = act.into_parts();
        self.state = next;
        match added {
            Ok(()) => Ok(wish),
            Err(NoMemory) => Err(ExecFault::OutOfMemory),
        }
    }

    /// When it wakes by itself.
    pub fn wake(&self) -> Option<Instant> {
        self.state.wake()
    }

    /// Whether a bit that it senses is another in these bits than in those.
    pub fn is_touched(&self, was: &Bits, now: &Bits) -> bool {
        for part in self.state.senses(&self.probes) {
            if differ(was, now, *part) {
                return true;
            }
        }
        false
    }

    /// Whether it senses one of these bits.
    pub fn senses(&self, lo: u32, len: u32) -> bool {
        for part in self.state.senses(&self.probes) {
            let ends = part.lo as u64 + part.len as u64;
            if (lo as u64) < ends && (part.lo as u64) < lo as u64 + len as u64 {
                return true;
            }
        }
        false
    }
}

/// Adds what the assertions of an instance found.
fn add_outcomes(to: &mut OutcomeList, instance: u32, found: &[bool]) -> Result<(), NoMemory> {
    for &passed in found {
        to.push(Outcome { instance, passed })?;
    }
    Ok(())
}

/// Whether a bit of this part is another.
fn differ(was: &Bits, now: &Bits, part: Range) -> bool {
    for i in 0..part.len {
        if differ_at(was, now, part.lo.saturating_add(i)) {
            return true;
        }
    }
    false
}

/// Whether this bit is another.
pub fn differ_at(was: &Bits, now: &Bits, bit: u32) -> bool {
    bit < was.len() && bit < now.len() && was.get(bit) != now.get(bit)
}
