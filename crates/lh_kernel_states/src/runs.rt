//! One run of an instance.
ghost use Rattle.std.specs.Prelude.{◌≡◌, length, IfOk};
ghost use Rattle.lh_types.specs.Raised.{raised};
ghost use Rattle.lh_unit.specs.Arena.{contents, unit_text_at};
ghost use Rattle.lh_unit.specs.WellFormed.{IsWellFormed};
ghost use Rattle.lh_unit.specs.World.{State, rules_of, runs};
ghost use Rattle.lh_design.specs.Texts.{instance_text};
ghost use Rattle.lh_elab.specs.Answer.{InstanceIs};
ghost use Rattle.lh_kernel_states.specs.Acts.{outcomes_of};
ghost use Rattle.lh_kernel_states.specs.States.{StateIs, StateFits};
ghost use Rattle.lh_kernel_states.specs.Runs.{Runs, ActIsSound};

use crate::state::InstState;
use lh_bits::bits::Bits;
use lh_bits::writes::DueWrites;
use lh_eval::instance::Instance;
use lh_exec::{ExecFault, activate};
use lh_react::react;
use lh_time::Instant;
use lh_types::list::BoolList;
use lh_types::memory::NoMemory;
use lh_types::tally::Tally;
use lh_unit::module::Module;
use std::alloc::Global;
use std::boxed::Box;
use std::marker::Model;

/// What one run of an instance gives: its next state, the bits that it wishes, by the instants at which they are due, and whether
/// each assertion passed.
#[derive(Drop)]
pub struct InstAct {
    next: InstState,
    wishes: DueWrites,
    // Few runs come to an assertion, and what is kept of the others is small.
    outcomes: Option<Box<BoolList>>,
}

impl Model for InstAct {
    ghost use Rattle.std.specs.Coded.{codes};
    ghost use Rattle.lh_types.specs.Values.{datum_coded};
    ghost use Rattle.lh_kernel_states.specs.Acts.{ActDone, done_of};

    ghost Value = { ActDone };

    ghost coded = { Prim.hlevel (codes, datum_coded) };

    ghost view = { λ a. done_of a.next a.wishes a.outcomes };
}

impl InstAct {
    /// The next state.
    pub fn next(&self) -> &InstState
        ensures { result.now ≡ self.now.next }
    {
        &self.next
    }

    /// At how many instants something is wished.
    pub fn wish_count(&self) -> usize
        ensures { result ≡ length self.now.wishes }
    {
        self.wishes.len()
    }

    /// Whether each assertion passed.
    pub fn outcomes(&self) -> &[bool]
        ensures { result.now ≡ self.now.outcomes }
    {
        match &self.outcomes {
            None => &[],
            Some(outcomes) => outcomes.as_slice(),
        }
    }

    /// The next state, and what is wished.
    pub fn into_parts(self) -> (InstState, DueWrites)
        ensures next { result.0 ≡ self.next }
        ensures wishes { result.1 ≡ self.wishes }
    {
        let InstAct { next, wishes, .. } = self;
        (next, wishes)
    }
}

/// What is kept of whether each assertion passed: without one, nothing.
fn boxed(alloc: Global, outcomes: BoolList) -> Result<Option<Box<BoolList>>, NoMemory>
    ensures { IfOk result (λ kept. outcomes_of kept ≡ outcomes) }
{
    if outcomes.len() == 0 {
        return Ok(None);
    }
    Ok(Some(Box::new(alloc, outcomes)?))
}

/// One run of an instance of a well-formed module at an instant, where the signals have these bits: an activation of a process, or
/// a pass of an entity. The tally is raised by one, whatever the answer is.
///
/// `Runaway` comes exactly where the definition has the process run away. After a fault only the tally has changed.
pub fn run_instance<T: Tally>(
    alloc: Global,
    m: &Module,
    i: &Instance,
    s: &InstState,
    now: &Bits,
    at: Instant,
    tally: &mut T,
) -> Result<InstAct, ExecFault>
    requires formed { IsWellFormed (contents m.now) }
    requires instance { InstanceIs m.now (length now.now) i.now }
    requires fits { StateFits m.now (length now.now) i.now s.now }
    ensures act { (p : State) → StateIs m.now i.now s.now p → Runs m.now i.now result (runs (rules_of 1000000 (contents m.now)) now.now at (unit_text_at m.now i.now.unit.0) (instance_text m.now i.now) p) }
    ensures sound { IfOk result (ActIsSound m.now (length now.now) at i.now) }
    ensures tick { T.count tally.new ≡ raised (T.count tally.old) 1 }
{
    match s {
        InstState::Process(process) => {
            let act = activate(alloc, m, i, process, now, at, tally)?;
            Ok(InstAct {
                next: InstState::Process(act.next),
                wishes: act.wishes,
                outcomes: boxed(alloc, act.outcomes)?,
            })
        }
        InstState::Entity(entity) => {
            let act = react(alloc, m, i, entity, now, at, tally)?;
            Ok(InstAct {
                next: InstState::Entity(act.next),
                wishes: act.wishes,
                outcomes: None,
            })
        }
    }
}
