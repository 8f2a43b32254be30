//! The triggers of a register.
ghost use Rattle.std.specs.Prelude.{◌≡◌, ◌<◌, length, map, IfOk};
ghost use Rattle.lh_unit.specs.Arena.{naming};
ghost use Rattle.lh_unit.specs.Naming as text;
ghost use Rattle.lh_unit.specs.Naming.{maybe_text};
ghost use Rattle.lh_unit.specs.Within.{Each};
ghost use Rattle.lh_term.specs.Arena.{Grows};
ghost use Rattle.lh_cert_rows.specs.Reading.{condition_known, delay_known, trigger_known, triggers_known};
ghost use Rattle.lh_cert_read.specs.Known.{MaybeIn};
ghost use Rattle.lh_cert_read.specs.Lines as spec;
ghost use Rattle.lh_cert_read.specs.Lines.{Finds, MaybeTerm, MaybeTrigger, MaybeTriggers, TriggerIn};

use crate::known::KnownValues;
use crate::rows::{RegisterTrigger, RegisterTriggerList};
use lh_region_joins::logic::bit;
use lh_term::term::TermId;
use lh_term::terms::Terms;
use lh_time::Delay;
use lh_types::memory::NoMemory;
use lh_types::val::Val;
use lh_unit::inst::{Mode, RegTrigger, ValueId};
use std::alloc::Global;

/// The triggers of a register, where all their terms are known.
pub(crate) fn triggers_of(
    alloc: Global,
    known: &KnownValues,
    triggers: &[RegTrigger],
    terms: &mut Terms,
) -> Result<Option<RegisterTriggerList>, NoMemory>
    requires { Each (TriggerIn known.now.values.items) triggers.now }
    ensures found { IfOk result (λ rows. Finds terms.old known.now.values.items (λ a u k. MaybeTriggers terms.new rows (triggers_known k (map (text.trigger_text (naming a u)) triggers.now)))) }
    ensures kept { Grows terms.old terms.new }
{
    let mut rows = RegisterTriggerList::new(alloc);
    for trigger in triggers {
        match trigger_of(known, trigger, terms)? {
            Some(row) => rows.push(row)?,
            None => return Ok(None),
        }
    }
    Ok(Some(rows))
}

/// A trigger, where its terms are known.
fn trigger_of(
    known: &KnownValues,
    trigger: &RegTrigger,
    terms: &mut Terms,
) -> Result<Option<RegisterTrigger>, NoMemory>
    requires { TriggerIn known.now.values.items trigger.now }
    ensures found { IfOk result (λ row. Finds terms.old known.now.values.items (λ a u k. MaybeTrigger terms.new row (trigger_known k (text.trigger_text (naming a u) trigger.now)))) }
    ensures kept { Grows terms.old terms.new }
{
    let gate = condition_of(known, trigger.gate, terms)?;
    let delay = delay_of(known, trigger.after, terms)?;
    let operand = known.term(trigger.trigger);
    let value = known.term(trigger.value);
    Ok(trigger_by(trigger.mode, operand, gate, value, delay))
}

/// The trigger of four terms, where all are there.
fn trigger_by(
    mode: Mode,
    operand: Option<TermId>,
    gate: Option<TermId>,
    value: Option<TermId>,
    delay: Option<TermId>,
) -> Option<RegisterTrigger>
    ensures { result ≡ spec.trigger_by mode operand gate value delay }
{
    let operand = operand?;
    let gate = gate?;
    let value = value?;
    let delay = delay?;
    Some(RegisterTrigger {
        mode,
        operand,
        gate,
        value,
        delay,
    })
}

/// The term of a condition: 1 where it is absent.
pub(crate) fn condition_of(
    known: &KnownValues,
    cond: Option<ValueId>,
    terms: &mut Terms,
) -> Result<Option<TermId>, NoMemory>
    requires { MaybeIn known.now.values.items cond }
    ensures found { IfOk result (λ term. Finds terms.old known.now.values.items (λ a u k. MaybeTerm terms.new term (condition_known k (maybe_text (naming a u) cond)))) }
    ensures kept { Grows terms.old terms.new }
{
    match cond {
        Some(value) => Ok(known.term(value)),
        None => {
            let one = bit(terms, true)?;
            Ok(Some(one))
        }
    }
}

/// The term of a delay: none where it is absent.
fn delay_of(
    known: &KnownValues,
    after: Option<ValueId>,
    terms: &mut Terms,
) -> Result<Option<TermId>, NoMemory>
    requires { MaybeIn known.now.values.items after }
    ensures found { IfOk result (λ term. Finds terms.old known.now.values.items (λ a u k. MaybeTerm terms.new term (delay_known k (maybe_text (naming a u) after)))) }
    ensures kept { Grows terms.old terms.new }
{
    match after {
        Some(value) => Ok(known.term(value)),
        None => {
            let none = terms.konst(Val::Time(NO_DELAY))?;
            Ok(Some(none))
        }
    }
}

/// The delay of a trigger without one.
const NO_DELAY: Delay = Delay {
    fs: 0,
    delta: 0,
    eps: 0,
};
