//! An entity under construction: each part and each term is given once, at its first need.
ghost use Rattle.std.specs.Prelude.{◌≡◌, ◌<◌, List, [], ◌∷◌, true, false, length, Some, IfOk, OnOk};
ghost use Rattle.std.specs.Result.{IfErr};
ghost use Rattle.lh_types.specs.Types.{IsLimited};
ghost use Rattle.lh_term.specs.Types.{type_of};
ghost use Rattle.lh_term.specs.Arena.{trees, tree_at, IsIn, AreIn, Grows};
ghost use Rattle.lh_unit.specs.Within.{InstWithin};
ghost use Rattle.lh_emit_body.specs.Lines.{LinesHaveRoom, values_alone, NamesGrow};
ghost use Rattle.lh_emit.specs.Making as making;
ghost use Rattle.lh_emit.specs.Underway.{CanTakePart, TakesPartOr, Looks, IsNewPart, CanMake, GivesInstOr, MakesOr, CanGo, GoesOr, CanTakeTerm, TakesTermOr, tops};
ghost use Rattle.lh_emit.specs.Operations.{HaveValues, IsOperandsOn};
ghost use Rattle.lh_emit.specs.Whole as whole;
ghost use Rattle.lh_emit.specs.Begun.{HasArgs};
ghost use Rattle.lh_emit_source.specs.Origins.{IsOrigin, source_by};
ghost use Rattle.lh_emit.specs.Emitting.{IsEmitted, CanNeed, NeedsTerm, NeedsNot, CanProbe, NeedsNow, NeedsNowNot, CanReach, NeedsPart, NeedsPartNot, PutsInst};
ghost use Rattle.lh_emit_def.specs.Emitted.{nothing_emitted};
ghost use Rattle.lh_flat.specs.Reads.{flat_text};
ghost use Rattle.lh_unit.specs.Naming.{Naming};
ghost use Rattle.lh_unit.specs.Reads.{args_repeat};
ghost use Rattle.lh_unit_names.specs.declared.name.UnitName.{UnitName};
ghost use Rattle.lh_term.specs.declared.term.TermNode.{TermNode};

use crate::making::{TermForm, form_of, made_of, probed, scalar};
use crate::operands::signal;
use crate::operations::{operands, value_of, values_of};
use crate::parts::{PartKey, Parts};
use crate::steps::take_route;
use crate::tasks::{Task, need_alone, push, push_needs};
use crate::values::Values;
use lh_emit_body::lines::{EmitFault, Lines};
use lh_emit_source::origin::Origin;
use lh_term::part::Part;
use lh_term::term::{TermId, TermList};
use lh_term::terms::Terms;
use lh_types::memory::NoMemory;
use lh_types::op::Op;
use lh_types::ty::{Ty, TyKind};
use lh_unit::constant::Constant;
use lh_unit::inst::{Arg, Inst, OperandList, TypedList, ValueId};
use lh_unit_names::name::Name;
use std::alloc::Global;

/// An entity under construction.
#[derive(Drop)]
pub struct Emitter {
    pub lines: Lines,
    /// The values of the terms that were emitted.
    pub values: Values,
    /// The values of the parts that were emitted.
    pub parts: Parts,
}

impl Emitter {
    /// An entity with the arguments of a flat text, and no instruction.
    pub fn new(alloc: Global, origin: &Origin<'_>) -> Result<Emitter, NoMemory>
        ensures { IfOk result (λ x. (ns : List TermNode) (name : UnitName) (f : Naming) → IsOrigin f origin.now → args_repeat [] (flat_text f origin.now.flat.now).args ≡ false → IsEmitted ns (source_by name f origin.now.flat.now) x (nothing_emitted (source_by name f origin.now.flat.now))) }
    {
        Ok(Emitter {
            lines: arguments(alloc, origin.names())?,
            values: Values::new(alloc),
            parts: Parts::new(alloc),
        })
    }

    /// The value of a term, which is emitted with what it needs, each unless it has a value.
    pub fn term(
        &mut self,
        alloc: Global,
        origin: &Origin<'_>,
        terms: &mut Terms,
        term: TermId,
    ) -> Result<ValueId, EmitFault>
        requires { CanNeed terms.old origin.now self.old term }
        ensures kept { Grows terms.old terms.new }
        ensures grows { OnOk result (NamesGrow self.old.lines.names self.new.lines.names) }
        ensures needed { IfOk result (λ v. NeedsTerm terms.old origin.now self.old term terms.new self.new v) }
        ensures cause { IfErr result (NeedsNot terms.old origin.now self.old term) }
    {
        self.take_term(alloc, origin, terms, term)
    }

    /// The value of a part now.
    pub fn now(
        &mut self,
        alloc: Global,
        origin: &Origin<'_>,
        terms: &mut Terms,
        part: &Part,
    ) -> Result<ValueId, EmitFault>
        requires { CanProbe terms.old origin.now self.old part.now }
        ensures kept { Grows terms.old terms.new }
        ensures grows { OnOk result (NamesGrow self.old.lines.names self.new.lines.names) }
        ensures needed { IfOk result (λ v. NeedsNow terms.old origin.now self.old part.now terms.new self.new v) }
        ensures cause { IfErr result (NeedsNowNot terms.old origin.now self.old part.now) }
    {
        let term = terms.now(part)?;
        terms.are_apart();
        self.term(alloc, origin, terms, term)
    }

    /// The value of a part: the argument, or what the steps to the part give.
    pub fn part(
        &mut self,
        alloc: Global,
        origin: &Origin<'_>,
        terms: &Terms,
        part: &Part,
    ) -> Result<ValueId, EmitFault>
        requires { CanReach terms.now origin.now self.old part.now }
        ensures grows { OnOk result (NamesGrow self.old.lines.names self.new.lines.names) }
        ensures needed { IfOk result (λ v. NeedsPart terms.now origin.now self.old part.now self.new v) }
        ensures cause { IfErr result (NeedsPartNot terms.now origin.now self.old part.now) }
    {
        self.take_part(alloc, origin, terms, part)
    }

    /// Adds an instruction that gives no value.
    pub fn put(&mut self, inst: Inst) -> Result<(), EmitFault>
        requires room { LinesHaveRoom self.old.lines }
        requires named { InstWithin (values_alone (length self.old.lines.names)) inst }
        ensures { PutsInst self.old inst self.new result }
    {
        self.lines.put(inst)
    }
}

impl Emitter {
    /// The value of a part: the argument, or what the steps to the part give.
    fn take_part(
        &mut self,
        alloc: Global,
        origin: &Origin<'_>,
        terms: &Terms,
        part: &Part,
    ) -> Result<ValueId, EmitFault>
        requires { CanTakePart terms.now origin.now self.old part.now }
        ensures { TakesPartOr terms.now origin.now self.old part.now self.new result }
    {
        if is_whole(origin.args(), part) {
            return Ok(ValueId(part.arg));
        }
        let key = PartKey::of(part)?;
        match self.parts.get(&key) {
            Some(value) => Ok(value),
            None => self.new_part(alloc, origin, terms, key),
        }
    }

    /// The value of a part that has none yet.
    fn new_part(
        &mut self,
        alloc: Global,
        origin: &Origin<'_>,
        terms: &Terms,
        key: PartKey,
    ) -> Result<ValueId, EmitFault>
        requires can { CanTakePart terms.now origin.now self.old key.part }
        requires new { IsNewPart origin.now self.old key.part }
        ensures { TakesPartOr terms.now origin.now self.old key.part self.new result }
    {
        let _ = terms;
        let route = origin.steps(alloc, &key.part)?;
        let from = ValueId(key.part.arg);
        let value = take_route(alloc, &mut self.lines, from, route)?;
        self.parts.keep(key, value)?;
        Ok(value)
    }

    /// The instruction that gives a term, of which all has a value that it is made of.
    fn inst_of(
        &mut self,
        alloc: Global,
        origin: &Origin<'_>,
        terms: &mut Terms,
        t: TermId,
    ) -> Result<Inst, EmitFault>
        requires { CanMake terms.old origin.now self.old t }
        ensures kept { Grows terms.old terms.new }
        ensures given { GivesInstOr terms.old origin.now self.old t terms.new self.new result }
    {
        match form_of(terms, t) {
            TermForm::Scalar => self.scalar_inst(alloc, origin, terms, t),
            TermForm::Probe => self.probe_inst(alloc, origin, terms, t),
            TermForm::Joined(op) => self.joined_inst(alloc, origin, terms, t, op),
        }
    }

    fn scalar_inst(
        &self,
        alloc: Global,
        origin: &Origin<'_>,
        terms: &Terms,
        t: TermId,
    ) -> Result<Inst, EmitFault>
        requires can { CanMake terms.now origin.now self.now t }
        requires form { making.form_of (tree_at (trees terms.now) t) ≡ TermForm.Scalar }
        ensures { GivesInstOr terms.now origin.now self.now t terms.now self.now result }
    {
        let _ = &self.lines;
        let _ = origin;
        let value = scalar(terms, t)?;
        Ok(Inst::Const(Constant::new(alloc, value)?))
    }

    fn probe_inst(
        &mut self,
        alloc: Global,
        origin: &Origin<'_>,
        terms: &Terms,
        t: TermId,
    ) -> Result<Inst, EmitFault>
        requires can { CanMake terms.now origin.now self.old t }
        requires form { making.form_of (tree_at (trees terms.now) t) ≡ TermForm.Probe }
        ensures { GivesInstOr terms.now origin.now self.old t terms.now self.new result }
    {
        let part = probed(terms, t)?;
        self.probe(alloc, origin, terms, t, &part)
    }

    /// The `prb` of the part whose value a term is; the part belongs to the caller, so no failure here has one to drop.
    fn probe(
        &mut self,
        alloc: Global,
        origin: &Origin<'_>,
        terms: &Terms,
        _t: TermId,
        part: &Part,
    ) -> Result<Inst, EmitFault>
        requires can { CanMake terms.now origin.now self.old _t }
        requires probed { making.TermIsProbed (tree_at (trees terms.now) _t) part.now }
        ensures { GivesInstOr terms.now origin.now self.old _t terms.now self.new result }
    {
        let value = self.take_part(alloc, origin, terms, part)?;
        let from = signal(alloc, value, &part.ty)?;
        Ok(Inst::Prb(from))
    }

    fn joined_inst(
        &self,
        alloc: Global,
        origin: &Origin<'_>,
        terms: &mut Terms,
        t: TermId,
        op: Op,
    ) -> Result<Inst, EmitFault>
        requires can { CanMake terms.old origin.now self.now t }
        requires form { making.form_of (tree_at (trees terms.old) t) ≡ TermForm.Joined op }
        ensures kept { Grows terms.old terms.new }
        ensures given { GivesInstOr terms.old origin.now self.now t terms.new self.now result }
    {
        let _ = origin;
        let of = made_of(alloc, terms, t)?;
        terms.are_apart();
        let args = self.operands_on(alloc, terms, t, &op, of)?;
        let args = OperandList::from_list(args);
        Ok(Inst::Pure { op, args })
    }

    /// The operands of an operation that gives a term, on what the term is made of.
    fn operands_on(
        &self,
        alloc: Global,
        terms: &Terms,
        t: TermId,
        op: &Op,
        of: TermList,
    ) -> Result<TypedList, NoMemory>
        requires is_in { IsIn terms.now t }
        requires within { AreIn terms.now of }
        requires have { HaveValues self.now.values of }
        ensures { IfOk result (IsOperandsOn self.now.values terms.now op.now of (type_of (tree_at (trees terms.now) t))) }
    {
        let values = values_of(alloc, &self.values, of.as_slice())?;
        operands(
            alloc,
            terms,
            op,
            of.as_slice(),
            values.as_slice(),
            terms.ty(t),
        )
    }

    /// Emits a term, of which all has a value that it is made of.
    fn make(
        &mut self,
        alloc: Global,
        origin: &Origin<'_>,
        terms: &mut Terms,
        t: TermId,
    ) -> Result<(), EmitFault>
        requires { CanMake terms.old origin.now self.old t }
        ensures kept { Grows terms.old terms.new }
        ensures made { MakesOr terms.old origin.now self.old t terms.new self.new result }
    {
        let inst = self.inst_of(alloc, origin, terms, t)?;
        terms.are_apart();
        let value = self.lines.give(inst)?;
        self.values.keep(t, value)?;
        Ok(())
    }

    /// Puts on the stack what a term needs, and then the term, unless it has a value.
    fn open(
        &self,
        alloc: Global,
        origin: &Origin<'_>,
        terms: &mut Terms,
        tasks: &mut Vec<Task>,
        t: TermId,
    ) -> Result<(), EmitFault>
        requires { CanGo terms.old origin.now self.now (Task.Need t ∷ tops tasks.old.items) }
        ensures kept { Grows terms.old terms.new }
        ensures gone { GoesOr terms.old origin.now self.now (Task.Need t ∷ tops tasks.old.items) terms.new self.now (tops tasks.new.items) result }
    {
        let _ = origin;
        if self.values.get(t).is_some() {
            return Ok(());
        }
        push(tasks, Task::Make(t))?;
        let of = made_of(alloc, terms, t)?;
        terms.are_apart();
        push_needs(tasks, of.as_slice())?;
        Ok(())
    }

    fn step(
        &mut self,
        alloc: Global,
        origin: &Origin<'_>,
        terms: &mut Terms,
        tasks: &mut Vec<Task>,
        task: Task,
    ) -> Result<(), EmitFault>
        requires { CanGo terms.old origin.now self.old (task ∷ tops tasks.old.items) }
        ensures kept { Grows terms.old terms.new }
        ensures gone { GoesOr terms.old origin.now self.old (task ∷ tops tasks.old.items) terms.new self.new (tops tasks.new.items) result }
    {
        match task {
            Task::Need(t) => self.open(alloc, origin, terms, tasks, t),
            Task::Make(t) => self.make(alloc, origin, terms, t),
        }
    }

    /// The value of a term; what the term needs is emitted before it, from left to right. Terms are deep, so a stack keeps what is
    /// still to be done.
    fn take_term(
        &mut self,
        alloc: Global,
        origin: &Origin<'_>,
        terms: &mut Terms,
        term: TermId,
    ) -> Result<ValueId, EmitFault>
        requires { CanTakeTerm terms.old origin.now self.old term }
        ensures kept { Grows terms.old terms.new }
        ensures taken { TakesTermOr terms.old origin.now self.old term terms.new self.new result }
    {
        let mut tasks = need_alone(alloc, term)?;
        while let Some(task) = tasks.pop() {
            self.step(alloc, origin, terms, &mut tasks, task)?;
        }
        Ok(value_of(&self.values, term))
    }
}

/// Whether a part is the whole of its argument.
fn is_whole(args: &[Arg], part: &Part) -> bool
    requires { part.now.arg < length args.now }
    ensures { Looks args.now part.now result }
{
    carries(&args[part.arg as usize].ty, part)
}

/// Whether a part is the whole of an argument of this type.
fn carries(ty: &Ty, part: &Part) -> bool
    ensures whole { result ≡ whole.is_whole part.now ty.now }
    ensures limited { IsLimited ty.now }
{
    match ty.kind() {
        TyKind::Signal(of) => part.lo == 0 && *of == part.ty,
        _ => false,
    }
}

/// The names of arguments, and no instruction.
fn arguments(alloc: Global, names: &[Name]) -> Result<Lines, NoMemory>
    ensures { IfOk result (HasArgs names.now) }
{
    let mut lines = Lines::new(alloc);
    let mut left = names;
    while let [name, rest @ ..] = left {
        lines.add_arg(name)?;
        left = rest;
    }
    Ok(lines)
}
