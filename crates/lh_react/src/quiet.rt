//! Passes in which no register is driven, told by the triggers alone.
ghost use Rattle.std.specs.Prelude.{◌≡◌, ◌+◌, ◌≤◌, Option, Some, false, true, IfOk, IfSome, IsTrue, length, slice_get};
ghost use Rattle.lh_react.specs.TriggerBits.{number_at, LiesIn};
ghost use Rattle.lh_react.specs.Resting.{AreOther, GateIsShut, IsHeld, NoneFires, IsQuiet};
ghost use Rattle.lh_react.specs.State.{EntityState};

use crate::register::mode_holds;
use crate::state::EntState;
use crate::triggers::{Gate, TriggerBit};
use lh_bits::bits::Bits;
use lh_types::memory::NoMemory;
use lh_types::part::Range;

/// The next state of an entity in a pass, where it is seen that none of its triggers fires and that their values are among those that are known.
pub(crate) fn quiet(state: &EntState, now: &Bits) -> Result<Option<EntState>, NoMemory>
    ensures { IfOk result (λ (o : Option EntityState). IfSome o (IsQuiet now.now state.now)) }
{
    let Some((known, second)) = state.known() else {
        return Ok(None);
    };
    let Some(bits) = &known.triggers else {
        return Ok(None);
    };
    let (triggers, last) = (bits.list().as_slice(), known.values(second).as_slice());
    let tried = likely(second, triggers, now, last);
    if all_rest(triggers, now, last, known.values(tried).as_slice()) {
        return Ok(Some(EntState::ended(known, tried)?));
    }
    Ok(None)
}

/// Which of the values that are known to try: the others than at the last run where the first trigger has changed.
fn likely(second: bool, triggers: &[TriggerBit], now: &Bits, last: &[bool]) -> bool {
    match (triggers.first(), last.first()) {
        (Some(trigger), Some(&value)) => second != (bit_at(trigger.at, now) != Some(value)),
        _ => second,
    }
}

/// Whether it is seen that these are the values of triggers, and that none of them fires: the mode does not hold, or the gate is 0.
fn all_rest(triggers: &[TriggerBit], now: &Bits, last: &[bool], values: &[bool]) -> bool
    ensures { IsTrue result → NoneFires now.now (Some last.now) 0 triggers.now values.now }
{
    triggers.len() == values.len() && rest_in_turn(triggers, now, last, values)
}

/// Whether no trigger fires, where each has a value.
fn rest_in_turn(triggers: &[TriggerBit], now: &Bits, last: &[bool], values: &[bool]) -> bool
    requires { length triggers.now ≡ length values.now }
    ensures { IsTrue result → NoneFires now.now (Some last.now) 0 triggers.now values.now }
{
    for (number, trigger) in triggers.iter().enumerate() {
        if !rests(trigger, now, value_at(last, number), values[number]) {
            return false;
        }
    }
    true
}

/// The value of this number.
fn value_at(values: &[bool], number: usize) -> Option<bool>
    ensures { result ≡ slice_get values.now number }
{
    values.get(number).copied()
}

/// Whether it is seen that a trigger has this value and does not fire.
fn rests(trigger: &TriggerBit, now: &Bits, past: Option<bool>, value: bool) -> bool
    ensures is { IsTrue result → slice_get now.now trigger.now.at ≡ Some value }
    ensures held { IsTrue result → IsHeld now.now past value trigger.now }
{
    match bit_at(trigger.at, now) {
        Some(bit) => bit == value && is_held(trigger, past, value, now),
        None => false,
    }
}

/// Whether it is seen that a trigger of this value does not fire.
fn is_held(trigger: &TriggerBit, past: Option<bool>, value: bool, now: &Bits) -> bool
    ensures { IsTrue result → IsHeld now.now past value trigger.now }
{
    if !mode_holds(trigger.mode, past, value) {
        return true;
    }
    is_shut(trigger.gate, now)
}

/// Whether a gate is known to be 0.
fn is_shut(gate: Gate, now: &Bits) -> bool
    ensures { IsTrue result → GateIsShut now.now gate }
{
    match gate {
        Gate::Unknown => false,
        Gate::Bit(at) => bit_at(at, now) == Some(false),
        Gate::Same(left, right) => are_other(left, right, now),
    }
}

/// Whether two parts have different integers.
fn are_other(left: Range, right: Range, now: &Bits) -> bool
    ensures { IsTrue result → AreOther now.now left right }
{
    if !lies_in(left, now) || !lies_in(right, now) {
        return false;
    }
    now.int_at(left.lo, left.len) != now.int_at(right.lo, right.len)
}

/// Whether a part is an integer of at most 128 bits, and lies within these.
fn lies_in(part: Range, now: &Bits) -> bool
    ensures narrow { IsTrue result → part.len ≤ 128 }
    ensures within { IsTrue result → LiesIn now.now part }
{
    part.len <= 128 && part.lo <= now.len() && part.len <= now.len() - part.lo
}

/// The bit at a place, where it is one of these.
fn bit_at(at: u32, now: &Bits) -> Option<bool>
    ensures { IfSome result (λ b. slice_get now.now at ≡ Some b) }
{
    if at < now.len() {
        Some(now.get(at))
    } else {
        None
    }
}
