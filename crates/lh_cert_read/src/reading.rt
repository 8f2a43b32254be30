//! The lines of an entity, one after the other.
ghost use Rattle.std.specs.Prelude.{◌≡◌, ◌<◌, ◌^◌, List, length, Some, IfOk, OnOk};
ghost use Rattle.std.specs.Option.{option_map};
ghost use Rattle.lh_unit.specs.Arena.{IsArena, unit_count, inst_count, kind_at, args_at, block_insts_at, inst_at, result_at, contents, unit_text_at};
ghost use Rattle.lh_unit.specs.Contents.{LineText};
ghost use Rattle.lh_unit.specs.Hierarchy.{lines_of};
ghost use Rattle.lh_unit.specs.WellFormed.{IsWellFormed};
ghost use Rattle.lh_unit.specs.Within.{Each};
ghost use Rattle.lh_unit.specs.declared.inst.Inst.TheVariants as inst_form;
ghost use Rattle.lh_unit.specs.declared.inst.Typed.{Typed as Operand};
ghost use Rattle.lh_unit.specs.declared.inst.UnitKind.TheVariants.{Entity};
ghost use Rattle.lh_eval_laws.specs.Units.{IsPort};
ghost use Rattle.lh_term.specs.Types.{FitsTerm};
ghost use Rattle.lh_term.specs.Arena.{Grows};
ghost use Rattle.lh_term.specs.declared.term.TermNode.{TermNode};
ghost use Rattle.lh_flat_parts.specs.Steps as steps;
ghost use Rattle.lh_flat_parts.specs.declared.step.PartStep.{PartStep as StepRecord};
ghost use Rattle.lh_cert_rows.specs.Passing.{IsPlain};
ghost use Rattle.lh_cert_rows.specs.Reading.{EntityText, read};
ghost use Rattle.lh_cert_read.specs.Known as ids;
ghost use Rattle.lh_cert_read.specs.Known.{MaybeIn};
ghost use Rattle.lh_cert_read.specs.Rows.{Says};
ghost use Rattle.lh_cert_read.specs.Lines as spec;
ghost use Rattle.lh_cert_read.specs.Lines.{OperandsFit, StepFits, PartFits, TriggerIn, Reads, IsReading, CanTake, begun, said_by, says_constant, says_operation, says_probe, says_drive, says_register};
ghost use Rattle.lh_cert_read.specs.declared.known.Known.TheVariants as known_form;

use crate::known::{Known, KnownValues};
use crate::registers::{condition_of, triggers_of};
use crate::rows::{EntityRows, RegisterRow, RegisterTriggerList};
use lh_cert_terms::read_operation;
use lh_flat_parts::step::{step_in, stepped};
use lh_region::DriveRow;
use lh_term::part::Part;
use lh_term::term::TermId;
use lh_term::terms::Terms;
use lh_types::memory::NoMemory;
use lh_types::op::Op;
use lh_unit::constant::Constant;
use lh_unit::inst::{Inst, InstId, RegTrigger, Typed, ValueId};
use lh_unit::view::UnitView;
use std::alloc::Global;

/// What is known after some lines, and the rows that they said.
#[derive(Drop)]
pub(crate) struct Reading {
    pub(crate) known: KnownValues,
    pub(crate) rows: EntityRows,
}

/// What an entity of a well-formed module says that has no `sig` and no `inst`, its terms made by their constructors in the order of the
/// text.
///
/// It goes over its lines once. Where memory runs out, the terms made before keep their ids.
pub fn read_entity(
    alloc: Global,
    unit: UnitView<'_>,
    terms: &mut Terms,
) -> Result<EntityRows, NoMemory>
    requires formed { IsWellFormed (contents unit.module.now) }
    requires entity { kind_at unit.module.now unit.unit.0 ≡ Some Entity }
    requires plain { Each (λ (l : LineText). IsPlain l.inst) (lines_of (unit_text_at unit.module.now unit.unit.0).blocks) }
    requires few { length (args_at unit.module.now unit.unit.0) < 2 ^ 32 }
    ensures says { IfOk result (λ rows. Says terms.new rows (read (unit_text_at unit.entry.module.now unit.entry.unit.0))) }
    ensures kept { Grows terms.old terms.new }
{
    in_place(unit);
    let mut reading = Reading::new(alloc, unit)?;
    reading.take_all(alloc, unit, terms)?;
    let Reading { rows, .. } = reading;
    Ok(rows)
}

impl Reading {
    /// Nothing read yet: the arguments are known.
    fn new(alloc: Global, unit: UnitView<'_>) -> Result<Reading, NoMemory>
        requires ports { Each IsPort (unit_text_at unit.module.now unit.unit.0).args }
        requires few { length (args_at unit.module.now unit.unit.0) < 2 ^ 32 }
        ensures { IfOk result (λ r. (ns : List TermNode) → IsReading unit.entry.module.now unit.entry.unit.0 ns r (begun (unit_text_at unit.entry.module.now unit.entry.unit.0))) }
    {
        let mut known = KnownValues::new(alloc, unit.values())?;
        known.give_args(unit.args())?;
        Ok(Reading {
            known,
            rows: EntityRows::new(alloc),
        })
    }

    /// Takes the lines of an entity, one after the other.
    fn take_all(
        &mut self,
        alloc: Global,
        unit: UnitView<'_>,
        terms: &mut Terms,
    ) -> Result<(), NoMemory>
        requires formed { IsWellFormed (contents unit.module.now) }
        requires entity { kind_at unit.module.now unit.unit.0 ≡ Some Entity }
        requires plain { Each (λ (l : LineText). IsPlain l.inst) (lines_of (unit_text_at unit.module.now unit.unit.0).blocks) }
        requires begins { IsReading unit.module.now unit.unit.0 terms.old self.old (begun (unit_text_at unit.module.now unit.unit.0)) }
        ensures says { OnOk result (IsReading unit.entry.module.now unit.entry.unit.0 terms.new self.new (read (unit_text_at unit.entry.module.now unit.entry.unit.0))) }
        ensures kept { Grows terms.old terms.new }
    {
        for inst in insts_of(unit) {
            self.take(alloc, unit, *inst, terms)?;
        }
        Ok(())
    }

    /// Takes a line.
    fn take(
        &mut self,
        alloc: Global,
        unit: UnitView<'_>,
        inst: InstId,
        terms: &mut Terms,
    ) -> Result<(), NoMemory>
        requires inst { inst.0 < inst_count unit.module.now unit.unit.0 }
        requires can { CanTake unit.module.now unit.unit.0 terms.old self.old (inst_at unit.module.now unit.unit.0 inst.0) }
        ensures says { (e : EntityText) → IsReading unit.entry.module.now unit.entry.unit.0 terms.old self.old e → OnOk result (IsReading unit.entry.module.now unit.entry.unit.0 terms.new self.new (said_by unit.entry.module.now unit.entry.unit.0 e (result_at unit.entry.module.now unit.entry.unit.0 inst.0) (inst_at unit.entry.module.now unit.entry.unit.0 inst.0))) }
        ensures kept { Grows terms.old terms.new }
    {
        let name = unit.result_of(inst);
        let inst = unit.inst(inst);
        match inst {
            Inst::Const(value) => self.take_constant(value, name, terms),
            Inst::Pure { op, args } => {
                self.take_operation(alloc, inst, op, args.as_slice(), name, terms)
            }
            Inst::Prb(signal) => self.take_probe(signal, name, terms),
            Inst::Drv {
                to,
                value,
                after,
                cond,
            } => self.take_drive(to.value, *value, *after, *cond, terms),
            Inst::Reg { to, triggers } => {
                self.take_register(alloc, to.value, triggers.as_slice(), terms)
            }
            _ => Ok(()),
        }
    }

    /// A constant.
    fn take_constant(
        &mut self,
        value: &Constant,
        name: Option<ValueId>,
        terms: &mut Terms,
    ) -> Result<(), NoMemory>
        requires fits { FitsTerm value.now }
        requires name { MaybeIn self.old.known.values.items name }
        ensures says { OnOk result (Reads terms.old terms.new self.old self.new (says_constant name value.now)) }
        ensures kept { Grows terms.old terms.new }
    {
        let value = value.value()?;
        let term = terms.konst(value)?;
        self.known.give(name, Some(Known::Term(term)));
        Ok(())
    }

    /// An operation: on values a term, and on a signal a part of it.
    fn take_operation(
        &mut self,
        alloc: Global,
        inst: &Inst,
        op: &Op,
        args: &[Typed],
        name: Option<ValueId>,
        terms: &mut Terms,
    ) -> Result<(), NoMemory>
        requires is { inst.now ≡ inst_form.Pure op.now args.now }
        requires within { Each (λ (o : Operand). o.value.0 < length self.old.known.values.items) args.now }
        requires name { MaybeIn self.old.known.values.items name }
        requires operands { OperandsFit terms.old self.old.known.values.items op.now args.now }
        requires step { StepFits self.old.known.values.items (steps.step_on op.now args.now) }
        ensures says { OnOk result (Reads terms.old terms.new self.old self.new (says_operation name op.now args.now)) }
        ensures kept { Grows terms.old terms.new }
    {
        match self.known.terms_of(alloc, args)? {
            Some(operands) => {
                let term = read_operation(terms, op, operands.as_slice())?;
                self.known.give(name, Some(Known::Term(term)));
                Ok(())
            }
            None => {
                let part = self.part_by(inst)?;
                self.known.give(name, part);
                Ok(())
            }
        }
    }

    /// The part to which the step that an instruction is leads, if it is one.
    fn part_by(&self, inst: &Inst) -> Result<Option<Known>, NoMemory>
        requires within { (s : StepRecord) → steps.step_in inst.now ≡ Some s → s.from.0 < length self.now.known.values.items }
        requires fits { StepFits self.now.known.values.items (steps.step_in inst.now) }
        ensures { IfOk result (λ part. part ≡ option_map known_form.Part (ids.part_by self.now.known.values.items (steps.step_in inst.now))) }
    {
        let Some(step) = step_in(inst)? else {
            return Ok(None);
        };
        let Some(whole) = self.known.part(step.from) else {
            return Ok(None);
        };
        match stepped(whole, &step)? {
            Some(part) => Ok(Some(Known::Part(part))),
            None => Ok(None),
        }
    }

    /// A probe.
    fn take_probe(
        &mut self,
        signal: &Typed,
        name: Option<ValueId>,
        terms: &mut Terms,
    ) -> Result<(), NoMemory>
        requires within { signal.now.value.0 < length self.old.known.values.items }
        requires name { MaybeIn self.old.known.values.items name }
        requires fits { PartFits self.old.known.values.items signal.now.value }
        ensures says { OnOk result (Reads terms.old terms.new self.old self.new (says_probe name signal.now.value)) }
        ensures kept { Grows terms.old terms.new }
    {
        let Some(part) = self.copy_of_part(signal.value)? else {
            return Ok(());
        };
        let term = terms.now(&part)?;
        self.rows.probes.push(part)?;
        self.known.give(name, Some(Known::Term(term)));
        Ok(())
    }

    /// A drive.
    fn take_drive(
        &mut self,
        to: ValueId,
        value: ValueId,
        after: ValueId,
        cond: Option<ValueId>,
        terms: &mut Terms,
    ) -> Result<(), NoMemory>
        requires to { to.0 < length self.old.known.values.items }
        requires value { value.0 < length self.old.known.values.items }
        requires after { after.0 < length self.old.known.values.items }
        requires cond { MaybeIn self.old.known.values.items cond }
        ensures says { OnOk result (Reads terms.old terms.new self.old self.new (says_drive to value after cond)) }
        ensures kept { Grows terms.old terms.new }
    {
        let cond = condition_of(&self.known, cond, terms)?;
        let part = self.copy_of_part(to)?;
        let value = self.known.term(value);
        let delay = self.known.term(after);
        match drive_by(cond, part, value, delay) {
            Some(drive) => self.rows.drives.push(drive),
            None => Ok(()),
        }
    }

    /// A register.
    fn take_register(
        &mut self,
        alloc: Global,
        to: ValueId,
        triggers: &[RegTrigger],
        terms: &mut Terms,
    ) -> Result<(), NoMemory>
        requires to { to.0 < length self.old.known.values.items }
        requires within { Each (TriggerIn self.old.known.values.items) triggers.now }
        ensures says { OnOk result (Reads terms.old terms.new self.old self.new (says_register to triggers.now)) }
        ensures kept { Grows terms.old terms.new }
    {
        let triggers = triggers_of(alloc, &self.known, triggers, terms)?;
        let part = self.copy_of_part(to)?;
        match register_by(part, triggers) {
            Some(register) => self.rows.registers.push(register),
            None => Ok(()),
        }
    }

    /// The part that a value is, if one is known.
    fn copy_of_part(&self, value: ValueId) -> Result<Option<Part>, NoMemory>
        requires { value.0 < length self.now.known.values.items }
        ensures { IfOk result (λ part. part ≡ ids.part_at self.now.known.values.items value) }
    {
        match self.known.part(value) {
            Some(part) => {
                let part = part.copy()?;
                Ok(Some(part))
            }
            None => Ok(None),
        }
    }
}

/// The drive of a part under a condition, where all its terms are there.
fn drive_by(
    cond: Option<TermId>,
    part: Option<Part>,
    value: Option<TermId>,
    delay: Option<TermId>,
) -> Option<DriveRow>
    ensures { result ≡ spec.drive_by cond part value delay }
{
    let cond = cond?;
    let value = value?;
    let delay = delay?;
    let part = part?;
    Some(DriveRow {
        cond,
        part,
        value,
        delay,
    })
}

/// The register of a part with these triggers, where both are there.
fn register_by(part: Option<Part>, triggers: Option<RegisterTriggerList>) -> Option<RegisterRow>
    ensures { result ≡ spec.register_by part triggers }
{
    match (part, triggers) {
        (Some(part), Some(triggers)) => Some(RegisterRow { part, triggers }),
        _ => None,
    }
}

/// All ids of a module are in place.
fn in_place(unit: UnitView<'_>)
    ensures { IsArena unit.entry.module.now }
{
    let _kind = unit.kind();
}

/// The instructions of an entity.
fn insts_of(unit: UnitView<'_>) -> &[InstId]
    requires { kind_at unit.module.now unit.unit.0 ≡ Some Entity }
    ensures insts { result.now ≡ block_insts_at unit.entry.module.now unit.entry.unit.0 0 }
    ensures arena { IsArena unit.entry.module.now }
{
    let block = unit.blocks()[0];
    unit.insts(block)
}
