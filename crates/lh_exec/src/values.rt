//! Instructions that give a value, store one, or drive one.
ghost use Rattle.std.specs.Prelude.{◌≡◌, ◌<◌, ℕ, length, map, is_some, Some, IfOk};
ghost use Rattle.std.specs.Option.{option_map};
ghost use Rattle.lh_unit.specs.Activation.{gives, stores, wishes as wished};
ghost use Rattle.lh_unit.specs.Arena.{Arena, unit_count, value_count, sizes, naming, unit_text_at};
ghost use Rattle.lh_unit.specs.Effects.{operated, probed, driven};
ghost use Rattle.lh_unit.specs.Held.{datum_held, cell_held, cell_at, datum_at};
ghost use Rattle.lh_unit.specs.Naming.{operand_text, value_text, maybe_text};
ghost use Rattle.lh_unit.specs.Within.{Each, OperandWithin};
ghost use Rattle.lh_eval.specs.HeldOf.{maybe_held};
ghost use Rattle.lh_eval.specs.Holding as holding;
ghost use Rattle.lh_eval.specs.Holding.{MaybeIn};
ghost use Rattle.lh_eval.specs.Fitting.{OperandsFit, ProbeFits, DriveFits};
ghost use Rattle.lh_exec.specs.Standing.{Does};

use crate::machine::{Flow, Machine};
use lh_bits::bits::Bits;
use lh_eval::effects::{drive, probe};
use lh_eval::held::{Held, Slots};
use lh_eval::operands::{cell_in, datum_in};
use lh_eval::operate::operate;
use lh_time::Instant;
use lh_types::memory::NoMemory;
use lh_types::op::Op;
use lh_unit::constant::Constant;
use lh_unit::inst::{Typed, ValueId};
use lh_unit::module::Module;
use std::alloc::Global;

impl Machine {
    pub(crate) fn run_const(
        &mut self,
        value: &Constant,
        name: Option<ValueId>,
    ) -> Result<Flow, NoMemory>
        requires { MaybeIn self.old.frame.slots name }
        ensures { (a : Arena) → Does result a self.old self.new (λ p. gives p (maybe_text (naming a self.old.frame.unit.0) name) (Some (datum_held value.now))) }
    {
        let value = value.value()?;
        Ok(self.give(name, Some(Held::Datum(value))))
    }

    pub(crate) fn run_pure(
        &mut self,
        alloc: Global,
        m: &Module,
        op: &Op,
        args: &[Typed],
        name: Option<ValueId>,
    ) -> Result<Flow, NoMemory>
        requires unit { self.old.frame.unit.0 < unit_count m.now }
        requires args { Each (OperandWithin (sizes m.now self.old.frame.unit.0)) args.now }
        requires name { MaybeIn self.old.frame.slots name }
        requires slots { length self.old.frame.slots ≡ value_count m.now self.old.frame.unit.0 }
        requires fit { OperandsFit m.now self.old.frame.unit.0 self.old.frame.slots op.now args.now }
        ensures { let f = naming m.now self.old.frame.unit.0 in Does result m.now self.old self.new (λ p. gives p (maybe_text f name) (operated p.control.unit p.control.held op.now (map (operand_text f) args.now))) }
    {
        let held = operate(alloc, m, self.frame.unit, op, args, &self.frame.slots)?;
        Ok(self.give(name, held))
    }

    pub(crate) fn run_var(
        &mut self,
        initial: &Typed,
        name: Option<ValueId>,
    ) -> Result<Flow, NoMemory>
        requires within { initial.now.value.0 < length self.old.frame.slots }
        requires name { MaybeIn self.old.frame.slots name }
        ensures { (a : Arena) → Does result a self.old self.new (λ p. gives p (maybe_text (naming a self.old.frame.unit.0) name) (option_map cell_held (datum_at p.control.held (value_text (naming a self.old.frame.unit.0) initial.now.value)))) }
    {
        let held = new_cell(&self.frame.slots, initial.value)?;
        Ok(self.give(name, held))
    }

    pub(crate) fn run_ld(
        &mut self,
        pointer: &Typed,
        name: Option<ValueId>,
    ) -> Result<Flow, NoMemory>
        requires within { pointer.now.value.0 < length self.old.frame.slots }
        requires name { MaybeIn self.old.frame.slots name }
        ensures { (a : Arena) → Does result a self.old self.new (λ p. gives p (maybe_text (naming a self.old.frame.unit.0) name) (option_map datum_held (cell_at p.control.held (value_text (naming a self.old.frame.unit.0) pointer.now.value)))) }
    {
        let held = stored(&self.frame.slots, pointer.value)?;
        Ok(self.give(name, held))
    }

    pub(crate) fn run_st(&mut self, to: &Typed, value: ValueId) -> Result<Flow, NoMemory>
        requires within { to.now.value.0 < length self.old.frame.slots }
        requires value_within { value.0 < length self.old.frame.slots }
        ensures { (a : Arena) → let f = naming a self.old.frame.unit.0 in Does result a self.old self.new (λ p. stores p (value_text f to.now.value) (cell_at p.control.held (value_text f to.now.value)) (datum_at p.control.held (value_text f value))) }
    {
        if !has_cell(&self.frame.slots, to.value) {
            return Ok(Flow::Lost);
        }
        match new_cell(&self.frame.slots, value)? {
            Some(held) => {
                self.frame.slots.set(to.value, held);
                Ok(Flow::Goes)
            }
            None => Ok(Flow::Lost),
        }
    }

    pub(crate) fn run_prb(
        &mut self,
        alloc: Global,
        now: &Bits,
        signal: &Typed,
        name: Option<ValueId>,
    ) -> Result<Flow, NoMemory>
        requires within { signal.now.value.0 < length self.old.frame.slots }
        requires name { MaybeIn self.old.frame.slots name }
        requires fit { ProbeFits now.now self.old.frame.slots signal.now }
        ensures { (a : Arena) → let f = naming a self.old.frame.unit.0 in Does result a self.old self.new (λ p. gives p (maybe_text f name) (probed now.now p.control.held (operand_text f signal.now))) }
    {
        let held = probe(alloc, signal, &self.frame.slots, now)?;
        Ok(self.give(name, held))
    }

    pub(crate) fn run_drv(
        &mut self,
        alloc: Global,
        at: Instant,
        to: &Typed,
        value: ValueId,
        after: ValueId,
        cond: Option<ValueId>,
    ) -> Result<Flow, NoMemory>
        requires to_within { to.now.value.0 < length self.old.frame.slots }
        requires value_within { value.0 < length self.old.frame.slots }
        requires after_within { after.0 < length self.old.frame.slots }
        requires cond_within { MaybeIn self.old.frame.slots cond }
        requires fit { DriveFits (holding.part_in self.old.frame.slots to.now.value) (holding.datum_in self.old.frame.slots value) }
        ensures { (a : Arena) → let f = naming a self.old.frame.unit.0 in Does result a self.old self.new (λ p. wished p (driven at p.control.held p.wish (operand_text f to.now) (value_text f value) (value_text f after) (maybe_text f cond))) }
    {
        let slots = &self.frame.slots;
        let wishes = &mut self.wishes;
        if drive(alloc, at, to, value, after, cond, slots, wishes)? {
            Ok(Flow::Goes)
        } else {
            Ok(Flow::Lost)
        }
    }
}

/// Whether a variable is held by a value.
fn has_cell(slots: &Slots, pointer: ValueId) -> bool
    requires { pointer.0 < length slots.now }
    ensures { result ≡ is_some (holding.cell_in slots.now pointer) }
{
    match cell_in(slots, pointer) {
        Some(_) => true,
        None => false,
    }
}

/// A variable in which the value is that is held by a value.
fn new_cell(slots: &Slots, value: ValueId) -> Result<Option<Held>, NoMemory>
    requires { value.0 < length slots.now }
    ensures { IfOk result (λ h. maybe_held h ≡ option_map cell_held (holding.datum_in slots.now value)) }
{
    match datum_in(slots, value) {
        Some(v) => {
            let v = v.copy()?;
            Ok(Some(Held::Cell(v)))
        }
        None => Ok(None),
    }
}

/// What is stored in the variable that is held by a value.
fn stored(slots: &Slots, pointer: ValueId) -> Result<Option<Held>, NoMemory>
    requires { pointer.0 < length slots.now }
    ensures { IfOk result (λ h. maybe_held h ≡ option_map datum_held (holding.cell_in slots.now pointer)) }
{
    match cell_in(slots, pointer) {
        Some(v) => {
            let v = v.copy()?;
            Ok(Some(Held::Datum(v)))
        }
        None => Ok(None),
    }
}
