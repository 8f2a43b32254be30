//! Assertions, calls and returns.
ghost use Rattle.std.specs.Prelude.{◌≡◌, ◌<◌, ℕ, false, [], ◌∷◌, ◌++◌, length, map, if◌then◌else◌, Option, Some, IfOk, OnOk, IfSome};
ghost use Rattle.std.specs.Option.{option_map};
ghost use Rattle.lh_unit.specs.Activation as act;
ghost use Rattle.lh_unit.specs.Activation.{Point, asserted, tells, called, opens, entry, returns};
ghost use Rattle.lh_unit.specs.Arena.{Arena, IsArena, unit_count, value_count, naming, kind_at, unit_name_at, unit_text_at};
ghost use Rattle.lh_unit.specs.Contents as text;
ghost use Rattle.lh_unit.specs.Held.{Held as Content};
ghost use Rattle.lh_unit.specs.Held.{Env, data_at};
ghost use Rattle.lh_unit_names.specs.UnitNames.{is_assert};
ghost use Rattle.lh_unit.specs.Naming.{operand_text, maybe_text};
ghost use Rattle.lh_unit.specs.Table.{ArgsWithin, HasBlocks};
ghost use Rattle.lh_unit.specs.Within.{Each};
ghost use Rattle.lh_unit.specs.declared.inst.Typed.{Typed as Operand};
ghost use Rattle.lh_eval.specs.HeldOf.{maybe_held};
ghost use Rattle.lh_eval.specs.Holding.{Holds, MaybeIn};
ghost use Rattle.lh_exec.specs.Standing.{MachineIs, HasPoint, FrameIs, InstLeads, Does, MaybeFrame, asserted_in, returned_in, back};
ghost use Rattle.lh_exec.specs.Taking.{operands_given, GivesValues};

use crate::machine::{Call, Flow, Machine, UnitFrame};
use lh_eval::held::{Held, Slots};
use lh_eval::operands::{datum_in, test_in};
use lh_types::memory::NoMemory;
use lh_unit::inst::{Arg, Typed, UnitId, ValueId};
use lh_unit::module::Module;
use std::alloc::Global;
use std::mem;

/// At most so many calls are open at any time.
const MAX_CALLS: usize = 256;

impl Machine {
    /// A call of a function, or an assertion, which opens no call.
    pub(crate) fn run_call(
        &mut self,
        alloc: Global,
        m: &Module,
        unit: UnitId,
        args: &[Typed],
        name: Option<ValueId>,
    ) -> Result<Flow, NoMemory>
        requires unit { unit.0 < unit_count m.now }
        requires blocks { is_assert (unit_name_at m.now unit.0) ≡ false → HasBlocks (kind_at m.now unit.0) }
        requires args { Each (λ (o : Operand). o.value.0 < length self.old.frame.slots) args.now }
        requires name { MaybeIn self.old.frame.slots name }
        ensures { let f = naming m.now self.old.frame.unit.0 in Does result m.now self.old self.new (λ p. if is_assert (unit_name_at m.now unit.0) then tells p (asserted p.control.held (map (operand_text f) args.now)) else opens p (maybe_text f name) (called (Some (unit_text_at m.now unit.0)) (data_at p.control.held (map (operand_text f) args.now)))) }
    {
        if m.unit_name(unit).is_assert() {
            return self.tell(args);
        }
        self.open(alloc, m, unit, args, name)
    }

    /// Adds the outcome of an assertion: whether its one argument is not 0.
    fn tell(&mut self, args: &[Typed]) -> Result<Flow, NoMemory>
        requires { Each (λ (o : Operand). o.value.0 < length self.old.frame.slots) args.now }
        ensures { (a : Arena) → Does result a self.old self.new (λ p. tells p (asserted p.control.held (map (operand_text (naming a self.old.frame.unit.0)) args.now))) }
    {
        match asserted(&self.frame.slots, args) {
            Some(passed) => {
                self.outcomes.push(passed)?;
                Ok(Flow::Goes)
            }
            None => Ok(Flow::Lost),
        }
    }

    /// Opens a call of a function, unless as many as may be are open.
    fn open(
        &mut self,
        alloc: Global,
        m: &Module,
        unit: UnitId,
        args: &[Typed],
        name: Option<ValueId>,
    ) -> Result<Flow, NoMemory>
        requires unit { unit.0 < unit_count m.now }
        requires blocks { HasBlocks (kind_at m.now unit.0) }
        requires args { Each (λ (o : Operand). o.value.0 < length self.old.frame.slots) args.now }
        requires name { MaybeIn self.old.frame.slots name }
        ensures { let f = naming m.now self.old.frame.unit.0 in Does result m.now self.old self.new (λ p. opens p (maybe_text f name) (called (Some (unit_text_at m.now unit.0)) (data_at p.control.held (map (operand_text f) args.now)))) }
    {
        if self.callers.len() >= MAX_CALLS {
            return Ok(Flow::Lost);
        }
        match called_frame(alloc, m, unit, args, &self.frame.slots)? {
            Some(frame) => self.push(frame, name),
            None => Ok(Flow::Lost),
        }
    }

    /// Goes on in a frame, above the one that it was in.
    fn push(&mut self, frame: UnitFrame, name: Option<ValueId>) -> Result<Flow, NoMemory>
        requires name { MaybeIn self.old.frame.slots name }
        requires few { length self.old.callers.items < 256 }
        ensures { (a : Arena) (c : act.Control) → FrameIs a frame c → Does result a self.old self.new (λ p. opens p (maybe_text (naming a self.old.frame.unit.0) name) (Some c)) }
    {
        let frame = mem::replace(&mut self.frame, frame);
        push_call(
            &mut self.callers,
            Call {
                frame,
                result: name,
            },
        )?;
        Ok(Flow::Goes)
    }

    /// Ends the last open call.
    pub(crate) fn run_ret(&mut self, operand: &Option<Typed>) -> Result<Flow, NoMemory>
        requires within { IfSome operand.now (λ (o : Operand). o.value.0 < length self.old.frame.slots) }
        requires point { HasPoint self.old }
        ensures { (a : Arena) → Does result a self.old self.new (λ p. returns p (option_map (operand_text (naming a self.old.frame.unit.0)) operand.now) p.callers) }
    {
        match returned(&self.frame.slots, operand)? {
            Some(held) => Ok(self.go_back(held)),
            None => Ok(Flow::Lost),
        }
    }

    /// Goes on in the last open call, with this held by the name of its result.
    fn go_back(&mut self, held: Option<Held>) -> Flow
        requires { HasPoint self.old }
        ensures { (a : Arena) (p : Point) (h : Option Content) → MachineIs a self.old p → maybe_held held ≡ h → InstLeads a self.new result p.control.unit (back p h p.callers) }
    {
        match self.callers.pop() {
            Some(call) => {
                self.frame = call.frame;
                self.frame.slots.give(call.result, held);
                Flow::Goes
            }
            None => Flow::Lost,
        }
    }
}

fn push_call(calls: &mut Vec<Call>, call: Call) -> Result<(), NoMemory>
    ensures { OnOk result (calls.new.items ≡ calls.old.items ++ call ∷ []) }
{
    calls.push(call)?;
    Ok(())
}

/// Whether the one argument of an assertion is not 0.
fn asserted(slots: &Slots, args: &[Typed]) -> Option<bool>
    requires { Each (λ (o : Operand). o.value.0 < length slots.now) args.now }
    ensures { result ≡ asserted_in slots.now args.now }
{
    if args.len() != 1 {
        return None;
    }
    test_in(slots, args[0].value)
}

/// What a `ret` gives: nothing, or the value of its operand, where that holds one.
fn returned(slots: &Slots, operand: &Option<Typed>) -> Result<Option<Option<Held>>, NoMemory>
    requires { IfSome operand.now (λ (o : Operand). o.value.0 < length slots.now) }
    ensures { IfOk result (λ h. option_map maybe_held h ≡ returned_in slots.now operand.now) }
{
    let Some(operand) = operand else {
        return Ok(Some(None));
    };
    match datum_in(slots, operand.value) {
        Some(value) => {
            let value = value.copy()?;
            Ok(Some(Some(Held::Datum(value))))
        }
        None => Ok(None),
    }
}

/// The frame in which a function begins that is called with these operands, where each of them holds a value.
fn called_frame(
    alloc: Global,
    m: &Module,
    unit: UnitId,
    args: &[Typed],
    slots: &Slots,
) -> Result<Option<UnitFrame>, NoMemory>
    requires unit { unit.0 < unit_count m.now }
    requires blocks { HasBlocks (kind_at m.now unit.0) }
    requires args { Each (λ (o : Operand). o.value.0 < length slots.now) args.now }
    ensures { (u : ℕ) (e : Env) → Holds m.now u slots.now e → IfOk result (λ f. MaybeFrame m.now f (called (Some (unit_text_at m.now unit.0)) (data_at e (map (operand_text (naming m.now u)) args.now)))) }
{
    let mut held = Slots::new(alloc, m.values(unit))?;
    if !hold_operands(m.args(unit), args, slots, &mut held)? {
        return Ok(None);
    }
    Ok(first_frame(m, unit, held))
}

/// Holds by the arguments of a unit copies of what operands hold; false where one of these holds no value.
fn hold_operands(
    args: &[Arg],
    operands: &[Typed],
    from: &Slots,
    to: &mut Slots,
) -> Result<bool, NoMemory>
    requires args { ArgsWithin (length to.old) args.now }
    requires operands { Each (λ (o : Operand). o.value.0 < length from.now) operands.now }
    ensures { IfOk result (λ there. GivesValues there to.new (operands_given args.now operands.now from.now to.old)) }
{
    for (i, operand) in operands.iter().enumerate() {
        let Some(value) = datum_in(from, operand.value) else {
            return Ok(false);
        };
        if i >= args.len() {
            continue;
        }
        let value = value.copy()?;
        to.set(args[i].value, Held::Datum(value));
    }
    Ok(true)
}

/// The frame in which a unit begins, in its entry block, where it has one.
pub(crate) fn first_frame(m: &Module, unit: UnitId, slots: Slots) -> Option<UnitFrame>
    requires unit { unit.0 < unit_count m.now }
    requires blocks { HasBlocks (kind_at m.now unit.0) }
    ensures { (e : Env) → Holds m.now unit.0 slots e → MaybeFrame m.now result (entry (unit_text_at m.now unit.0) e) }
{
    let blocks = m.blocks(unit);
    if blocks.is_empty() {
        return None;
    }
    Some(UnitFrame {
        unit,
        block: blocks[0],
        next: 0,
        slots,
    })
}
