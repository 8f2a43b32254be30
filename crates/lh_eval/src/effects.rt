//! What a probe gives and what a drive wishes.
ghost use Rattle.std.specs.Prelude.{◌≡◌, ℕ, ◌<◌, length, IfOk, IfSome};
ghost use Rattle.std.specs.Option.{option_and_then, option_map, option_copied};
ghost use Rattle.lh_types.specs.Types.{IsData};
ghost use Rattle.lh_types.specs.ValueOf.{datum_of};
ghost use Rattle.lh_unit.specs.Typing as typing;
ghost use Rattle.lh_unit.specs.Arena.{Arena, naming};
ghost use Rattle.lh_unit.specs.Effects.{probed, driven, drive_due};
ghost use Rattle.lh_unit.specs.Held.{Env};
ghost use Rattle.lh_unit.specs.Naming.{operand_text, value_text, maybe_text};
ghost use Rattle.lh_eval.specs.HeldOf.{maybe_held};
ghost use Rattle.lh_eval.specs.Holding as holding;
ghost use Rattle.lh_eval.specs.Holding.{Holds, MaybeIn};
ghost use Rattle.lh_eval.specs.Fitting.{ProbeFits, DriveFits, Drives};

use crate::held::{Held, Slots};
use crate::operands::{condition_in, datum_in, delay_in, part_in};
use lh_bits::bits::Bits;
use lh_bits::layout::{from_bits, to_bits};
use lh_eval_wishes::wishes::Wishes;
use lh_time::{Delay, Instant, due};
use lh_types::memory::NoMemory;
use lh_types::part::Range;
use lh_types::ty::Ty;
use lh_types::val::Val;
use lh_unit::inst::{Typed, ValueId};
use std::alloc::Global;

/// What a `prb` gives, where the signals have these bits: the value that the bits of its operand's part have. `None` where
/// the operand holds no part, or no type of a signal is written before it.
pub fn probe(
    alloc: Global,
    signal: &Typed,
    slots: &Slots,
    now: &Bits,
) -> Result<Option<Held>, NoMemory>
    requires within { signal.now.value.0 < length slots.now }
    requires fit { ProbeFits now.now slots.now signal.now }
    ensures { (a : Arena) (u : ℕ) (e : Env) → Holds a u slots.now e → IfOk result (λ h. maybe_held h ≡ probed now.now e (operand_text (naming a u) signal.now)) }
{
    let Some(ty) = carried_of(signal) else {
        return Ok(None);
    };
    let Some(part) = part_in(slots, signal.value) else {
        return Ok(None);
    };
    let value = from_bits(alloc, ty, now, part.lo)?;
    Ok(Some(Held::Datum(value)))
}

/// What the type that is written before an operand carries.
fn carried_of(operand: &Typed) -> Option<&Ty>
    ensures carried { option_copied result ≡ option_and_then typing.carried operand.now.ty }
    ensures data { IfSome result (λ t. IsData t.now) }
{
    match operand.ty.get() {
        Some(ty) => ty.carried(),
        None => None,
    }
}

/// Adds to the wishes what a `drv` drives at an instant, if it drives.
///
/// The answer is false, and the wishes stay, where the operands do not hold a part, a value, a delay and a truth value. A
/// delay without a due instant adds nothing. Of the wishes after `NoMemory` nothing is said.
pub fn drive(
    alloc: Global,
    at: Instant,
    to: &Typed,
    value: ValueId,
    after: ValueId,
    cond: Option<ValueId>,
    slots: &Slots,
    wishes: &mut Wishes,
) -> Result<bool, NoMemory>
    requires to_within { to.now.value.0 < length slots.now }
    requires value_within { value.0 < length slots.now }
    requires after_within { after.0 < length slots.now }
    requires cond_within { MaybeIn slots.now cond }
    requires fit { DriveFits (holding.part_in slots.now to.now.value) (holding.datum_in slots.now value) }
    ensures { (a : Arena) (u : ℕ) (e : Env) → Holds a u slots.now e → Drives result (driven at e wishes.old (operand_text (naming a u) to.now) (value_text (naming a u) value) (value_text (naming a u) after) (maybe_text (naming a u) cond)) wishes.old wishes.new }
{
    match condition_in(slots, cond) {
        Some(true) => wish(
            alloc,
            at,
            part_in(slots, to.value),
            datum_in(slots, value),
            delay_in(slots, after),
            wishes,
        ),
        Some(false) => Ok(true),
        None => Ok(false),
    }
}

/// Adds to the wishes the bits of a value, for a part of the signals, from an instant after a delay, where all three are there.
pub fn wish(
    alloc: Global,
    at: Instant,
    part: Option<Range>,
    value: Option<&Val>,
    after: Option<Delay>,
    wishes: &mut Wishes,
) -> Result<bool, NoMemory>
    requires { DriveFits part (option_map datum_of (option_copied value)) }
    ensures { Drives result (drive_due at wishes.old part (option_map datum_of (option_copied value.entry)) after) wishes.old wishes.new }
{
    match (part, value, after) {
        (Some(part), Some(value), Some(after)) => put_value(alloc, at, part, value, after, wishes),
        _ => Ok(false),
    }
}

fn put_value(
    alloc: Global,
    at: Instant,
    part: Range,
    value: &Val,
    after: Delay,
    wishes: &mut Wishes,
) -> Result<bool, NoMemory>
    requires { DriveFits (Some part) (Some (datum_of value.now)) }
    ensures { Drives result (drive_due at wishes.old (Some part) (Some (datum_of value.now)) (Some after)) wishes.old wishes.new }
{
    let Some(due) = due(at, after) else {
        return Ok(true);
    };
    let bits = to_bits(alloc, value)?;
    wishes.put_bits(due, part.lo, bits)?;
    Ok(true)
}
