//! Registers: the triggers in order.
ghost use Rattle.std.specs.Prelude.{◌≡◌, ◌<◌, ℕ, ◌||◌, ◌++◌, [], ◌∷◌, length, map, slice_get, unwrap_or, Bool, false, Some, OnOk, IfOk};
ghost use Rattle.std.specs.Option.{option_and_then};
ghost use Rattle.lh_unit.specs.Pass as passes;
ghost use Rattle.lh_unit.specs.Within.{Each};
ghost use Rattle.lh_eval.specs.Holding as holding;
ghost use Rattle.lh_react.specs.Registers.{TriggerIn, TriggerFits, delay_in as delay_of, tried, tries, fires_in, stored_in};

use crate::pass::PassRun;
use crate::state::EntState;
use lh_eval::effects::wish;
use lh_eval::held::Slots;
use lh_eval::operands::{condition_in, datum_in, delay_in, part_in, test_in};
use lh_time::{Delay, Instant};
use lh_types::memory::NoMemory;
use lh_unit::inst::{Mode, RegTrigger, Typed, ValueId};
use std::alloc::Global;

/// Runs a register: the first trigger that fires drives its value, and the value of each is seen.
pub(crate) fn run_reg(
    alloc: Global,
    at: Instant,
    to: &Typed,
    triggers: &[RegTrigger],
    state: &EntState,
    run: &mut PassRun,
) -> Result<(), NoMemory>
    requires to { to.now.value.0 < length run.old.slots }
    requires within { Each (TriggerIn run.old.slots) triggers.now }
    requires fit { Each (TriggerFits run.old.slots to.now.value) triggers.now }
    ensures { OnOk result (run.new ≡ tries state.now.memory at to.now.value false run.old triggers.now) }
{
    let mut fired = false;
    for trigger in triggers {
        fired = run_trigger(alloc, at, to.value, trigger, state, fired, run)?;
    }
    Ok(())
}

/// Runs a trigger: it drives its value where it fires and none before it has. The answer says whether one has fired by now.
fn run_trigger(
    alloc: Global,
    at: Instant,
    to: ValueId,
    trigger: &RegTrigger,
    state: &EntState,
    fired: bool,
    run: &mut PassRun,
) -> Result<bool, NoMemory>
    requires to { to.0 < length run.old.slots }
    requires within { TriggerIn run.old.slots trigger.now }
    requires fit { TriggerFits run.old.slots to trigger.now }
    ensures { IfOk result (λ f. (f ≡ (fired || fires_in state.now.memory run.old trigger.now)) × (run.new ≡ tried state.now.memory at to fired run.old trigger.now)) }
{
    let value = test_in(&run.slots, trigger.trigger).unwrap_or(false);
    let fires = mode_holds(trigger.mode, past_of(state, run.seen.len()), value)
        && condition_in(&run.slots, trigger.gate).unwrap_or(false);
    run.seen.push(value)?;
    if fires && !fired {
        store(alloc, at, to, trigger, run)?;
    }
    Ok(fired || fires)
}

/// Drives the value of a trigger that fires.
fn store(
    alloc: Global,
    at: Instant,
    to: ValueId,
    trigger: &RegTrigger,
    run: &mut PassRun,
) -> Result<(), NoMemory>
    requires to { to.0 < length run.old.slots }
    requires within { TriggerIn run.old.slots trigger.now }
    requires fit { TriggerFits run.old.slots to trigger.now }
    ensures { OnOk result (run.new ≡ record run.old { wishes = stored_in at to run.old trigger.now }) }
{
    let part = part_in(&run.slots, to);
    let value = datum_in(&run.slots, trigger.value);
    let after = delay_or_zero(&run.slots, trigger.after);
    wish(alloc, at, part, value, after, &mut run.wishes)?;
    Ok(())
}

/// The delay of a trigger; one that is absent is the zero delay.
fn delay_or_zero(slots: &Slots, after: Option<ValueId>) -> Option<Delay>
    requires { holding.MaybeIn slots.now after }
    ensures { result ≡ delay_of slots.now after }
{
    match after {
        Some(value) => delay_in(slots, value),
        None => Some(Delay {
            fs: 0,
            delta: 0,
            eps: 0,
        }),
    }
}

/// Whether a mode holds, by the trigger's value at the previous run and now.
pub(crate) fn mode_holds(mode: Mode, past: Option<bool>, now: bool) -> bool
    ensures { result ≡ passes.mode_holds mode past now }
{
    match (mode, past) {
        (Mode::High, _) => now,
        (Mode::Low, _) => !now,
        (Mode::Rise, Some(past)) => !past && now,
        (Mode::Fall, Some(past)) => past && !now,
        (Mode::Both, Some(past)) => past != now,
        (_, None) => false,
    }
}

/// The value of the next trigger at the previous run, where so many were seen in this one.
pub(crate) fn past_of(state: &EntState, seen: usize) -> Option<bool>
    ensures { result ≡ option_and_then (λ values. slice_get values seen) state.now.memory }
{
    match state.memory() {
        Some(values) => values.as_slice().get(seen).copied(),
        None => None,
    }
}
