//! The moves of what is noted, by activations.
ghost use Rattle.std.specs.Prelude.{◌≡◌, ◌≢◌, ◌↔◌, ℕ, Some, length, IfOk, IsTrue};
ghost use Rattle.lh_unit.specs.World.{bit_numbers};
ghost use Rattle.lh_unit.specs.Within.{Each};
ghost use Rattle.lh_kernel_wakes.specs.Rising.{IsOneOf};
ghost use Rattle.lh_design.specs.Filling.{SignalsFill};
ghost use Rattle.lh_kernel_changes.specs.Touched.{Touches, AreWithin};
ghost use Rattle.lh_kernel_states.specs.States.{parts_sensed};
ghost use Rattle.lh_kernel.specs.Moves.{IsMove, AreMoves, MovesKnown, AreBetween, SensesFit, SensesAsBefore};

use crate::noted::Move;
use crate::run::Activation;
use lh_design::Design;
use lh_exec::WaitOn;
use lh_kernel_changes::signals::signals_of;
use lh_kernel_states::state::InstState;
use lh_kernel_wakes::rising::Rising;
use lh_time::Instant;
use lh_types::memory::NoMemory;
use lh_types::part::{Range, RangeList};
use std::alloc::Global;

/// What changes of what is noted where these instances did this. Nothing does of an entity: it senses what it probes.
pub(crate) fn moves_of(
    alloc: Global,
    design: &Design,
    probes: &[RangeList],
    states: &[InstState],
    acts: &[Activation],
) -> Result<Vec<Move>, NoMemory>
    requires fill { SignalsFill design.now }
    requires fit { Each (SensesFit (length design.now.init) probes.now states.now) acts.now }
    ensures moves { IfOk result (λ ms. AreMoves design.now.signals.items probes.now states.now acts.now ms.items) }
    ensures known { IfOk result (λ ms. MovesKnown design.now.signals.items ms.items) }
{
    let mut moves = Vec::new(alloc);
    for done in acts {
        let k = done.instance as usize;
        let (probed, old, new) = (&probes[k], &states[k], done.act.next());
        if !senses_as_before(old, new) {
            moves.push(move_of(alloc, design, probed, done.instance, old, new)?)?;
        }
    }
    Ok(moves)
}

/// Whether an instance senses the parts that it sensed and wakes by itself as before, as an entity does and most processes do.
fn senses_as_before(old: &InstState, new: &InstState) -> bool
    ensures { IsTrue result → SensesAsBefore old.now new.now }
{
    match (old, new) {
        (InstState::Entity(_), InstState::Entity(_)) => true,
        (InstState::Process(old), InstState::Process(new)) => match (old.waits(), new.waits()) {
            (Some(old), Some(new)) => is_same_wait(old, new),
            _ => false,
        },
        _ => false,
    }
}

/// Whether two processes wait for the same.
fn is_same_wait(old: &WaitOn, new: &WaitOn) -> bool
    ensures { IsTrue result → new.now ≡ old.now }
{
    old.wake == new.wake && old.parts.as_slice() == new.parts.as_slice()
}

/// What changes of what is noted of one instance, where its old state is followed by a new one.
fn move_of(
    alloc: Global,
    design: &Design,
    probes: &RangeList,
    instance: u32,
    old: &InstState,
    new: &InstState,
) -> Result<Move, NoMemory>
    requires fill { SignalsFill design.now }
    requires left { AreWithin (length design.now.init) (parts_sensed old.now probes.now) }
    requires entered { AreWithin (length design.now.init) (parts_sensed new.now probes.now) }
    ensures { IfOk result (IsMove design.now.signals.items probes.now instance old.now new.now) }
{
    let (came, gone) = between(alloc, design, old.senses(probes), new.senses(probes))?;
    Ok(Move {
        instance,
        came,
        gone,
        wake_came: unless_same(new.wake(), old.wake()),
        wake_gone: unless_same(old.wake(), new.wake()),
    })
}

/// The signals that have a bit of the parts that are entered, and none of those that are left; and the other way about.
fn between(
    alloc: Global,
    design: &Design,
    left: &[Range],
    entered: &[Range],
) -> Result<(Rising, Rising), NoMemory>
    requires fill { SignalsFill design.now }
    requires left { AreWithin (length design.now.init) left.now }
    requires entered { AreWithin (length design.now.init) entered.now }
    ensures { IfOk result (λ moved. AreBetween design.now.signals.items left.now entered.now moved.0 moved.1) }
{
    if left == entered {
        return Ok((Rising::new(alloc), Rising::new(alloc)));
    }
    let before = signals_of(alloc, design, left)?;
    let after = signals_of(alloc, design, entered)?;
    let came = without(alloc, &after, &before)?;
    let gone = without(alloc, &before, &after)?;
    Ok((came, gone))
}

/// The numbers of the one list that are not in the other.
fn without(alloc: Global, these: &Rising, those: &Rising) -> Result<Rising, NoMemory>
    ensures { IfOk result (λ rest. (k : ℕ) → IsOneOf k rest ↔ (IsOneOf k these.now × ¬ IsOneOf k those.now)) }
{
    let mut rest = Rising::new(alloc);
    for &number in these.as_slice() {
        if !those.has(number) {
            rest.enter(number)?;
        }
    }
    Ok(rest)
}

/// An instant, unless it is the other one.
fn unless_same(at: Option<Instant>, other: Option<Instant>) -> Option<Instant>
    ensures { (t : Instant) → (result ≡ Some t) ↔ ((at ≡ Some t) × (other ≢ Some t)) }
{
    if at == other { None } else { at }
}
