//! What an entity keeps between its runs.
ghost use Rattle.std.specs.Prelude.{◌≡◌, List, Bool, None, Some, Ok, IfOk, IfSome, IsTrue};
ghost use Rattle.std.specs.Option.{option_copied};
ghost use Rattle.std.specs.Rc.{rc_value};
ghost use Rattle.lh_react.specs.State.{values_of, state_of};

use crate::kept::Kept;
use crate::triggers::TriggerBit;
use lh_types::list::{BoolList, ListOf};
use lh_types::memory::NoMemory;
use lh_unit::inst::UnitId;
use lh_unit::module::Module;
use std::alloc::Global;
use std::marker::Model;
use std::rc::Rc;

/// What the states of an entity share: values that its triggers had at the end of runs, and which bits of the signals the triggers are, where that is known.
#[derive(Drop)]
pub(crate) struct Known {
    pub first: BoolList,
    pub second: BoolList,
    pub triggers: Option<Kept<TriggerBit>>,
}

/// Before the first run, or after one that ended with the first or the second values that are known.
#[derive(Drop)]
pub(crate) enum Stage {
    New,
    First(Rc<Known>),
    Second(Rc<Known>),
}

/// The state of an entity: the value of each trigger of its registers at its last run, in text order. Beside them it keeps which bits of the signals the
/// triggers are, once its first run has found that.
#[derive(Drop)]
pub struct EntState {
    // A clock comes back to the values of the run before: the next state then shares all that this one has.
    stage: Stage,
}

impl Model for EntState {
    ghost use Rattle.lh_react.specs.State.{EntityState, state_at};

    ghost Value = { EntityState };

    ghost view = { λ s. state_at s.stage };
}

impl EntState {
    /// The state of an entity that has not run yet. This takes no memory.
    pub fn start(_alloc: Global, _module: &Module, _unit: UnitId) -> Result<EntState, NoMemory>
        ensures { result ≡ Ok (record { memory = None; triggers = None }) }
    {
        Ok(EntState { stage: Stage::New })
    }

    /// The state after the first run, in which the triggers had these values, where they are these bits.
    pub(crate) fn first(
        alloc: Global,
        seen: BoolList,
        triggers: Option<Kept<TriggerBit>>,
    ) -> Result<EntState, NoMemory>
        ensures { IfOk result (λ s. s ≡ record { memory = Some seen; triggers = triggers }) }
    {
        let known = Known {
            first: seen,
            second: ListOf::new(alloc),
            triggers,
        };
        let stage = Stage::First(Rc::new(alloc, known)?);
        Ok(EntState { stage })
    }

    /// The state after a later run, which ended with the first values that are known or the second.
    pub(crate) fn ended(known: &Rc<Known>, second: bool) -> Result<EntState, NoMemory>
        ensures { IfOk result (λ s. s ≡ state_of (rc_value known.now) second) }
    {
        let known = known.clone()?;
        let stage = if second {
            Stage::Second(known)
        } else {
            Stage::First(known)
        };
        Ok(EntState { stage })
    }

    /// What is known, and whether the last run ended with the second values; `None` exactly before the first run.
    pub(crate) fn known(&self) -> Option<(&Rc<Known>, bool)>
        ensures some { IfSome result (λ k. self.now ≡ state_of (rc_value k.0.now) k.1) }
        ensures none { result ≡ None → self.now ≡ record { memory = None; triggers = None } }
    {
        match &self.stage {
            Stage::New => None,
            Stage::First(known) => Some((known, false)),
            Stage::Second(known) => Some((known, true)),
        }
    }

    /// The value of each trigger at the last run; `None` exactly before the first run.
    pub fn memory(&self) -> Option<&BoolList>
        ensures { option_copied result ≡ self.now.memory }
    {
        match &self.stage {
            Stage::New => None,
            Stage::First(known) => Some(&known.first),
            Stage::Second(known) => Some(&known.second),
        }
    }
}

impl Known {
    /// The first values that are kept, or the second.
    pub fn values(&self, second: bool) -> &BoolList
        ensures { result.now ≡ values_of self.now second }
    {
        if second { &self.second } else { &self.first }
    }
}

/// The state after a run that ended with these values, where this was known and the run before ended with the first or the second of it.
pub(crate) fn state_after(
    alloc: Global,
    known: &Rc<Known>,
    second: bool,
    seen: BoolList,
) -> Result<EntState, NoMemory>
    ensures { IfOk result (λ s. s ≡ record { memory = Some seen; triggers = (rc_value known.now).triggers }) }
{
    if are_same(known.first.as_slice(), seen.as_slice()) {
        return EntState::ended(known, false);
    }
    if are_same(known.second.as_slice(), seen.as_slice()) {
        return EntState::ended(known, true);
    }
    let triggers = match &known.triggers {
        Some(bits) => Some(bits.share()?),
        None => None,
    };
    let now = Known {
        first: seen,
        second: known.values(second).copy()?,
        triggers,
    };
    let stage = Stage::First(Rc::new(alloc, now)?);
    Ok(EntState { stage })
}

/// Whether two lists have the same values.
fn are_same(these: &[bool], those: &[bool]) -> bool
    ensures { IsTrue result → these.now ≡ those.now }
{
    these == those
}
