//! The lines of a place that lead nowhere: those that give something, and those that drive and assert.
ghost use Rattle.std.specs.Prelude.{◌≡◌, ◌<◌, length, true, Some, IfOk, OnOk};
ghost use Rattle.lh_term.specs.Tree.{constant};
ghost use Rattle.lh_term.specs.Types.{FitsTerm};
ghost use Rattle.lh_term.specs.Arena.{trees, tree_at, Grows};
ghost use Rattle.lh_region_joins.specs.Joins.{IsConditionAt};
ghost use Rattle.lh_region_places.specs.Asked.{CanAsk, SamePlaces};
ghost use Rattle.lh_region.specs.Taken.{IsOperation};
ghost use Rattle.lh_region_walk.specs.Lines as lines;
ghost use Rattle.lh_region_walk.specs.Walked.{leads_nowhere, CanTake, WalksLine};

use crate::walk::{Region, Walk, WalkPoint};
use lh_flat::FlatInst;
use lh_region::branch::and_at;
use lh_region::effects::{DriveAt, assert_at, drive, part_of, probe};
use lh_region::giving::give;
use lh_region::taking::operate;
use lh_region_places::asking::value_at;
use lh_region_places::places::Places;
use lh_term::term::TermId;
use lh_term::terms::Terms;
use lh_types::memory::NoMemory;
use lh_types::op::Op;
use lh_unit::constant::Constant;
use lh_unit::inst::{Inst, OperandList, ValueId};
use std::alloc::Global;

impl Walk {
    /// Takes an instruction that is no terminator and was not taken with the `phi`s.
    pub fn take(
        &mut self,
        alloc: Global,
        region: &Region<'_>,
        terms: &mut Terms,
        at: WalkPoint,
        line: &FlatInst,
    ) -> Result<(), NoMemory>
        requires can { CanTake terms.old region.now self.old at line.now }
        requires inner { leads_nowhere line.now.inst ≡ true }
        ensures kept { Grows terms.old terms.new }
        ensures taken { OnOk result (WalksLine terms.old region.now self.old at line.now terms.new self.new) }
    {
        match &line.inst {
            Inst::St { to, value } => give_value(
                alloc,
                terms,
                &mut self.places,
                at.place,
                value.0,
                to.value.0,
            ),
            Inst::Call { args, .. } => assert_at(
                alloc,
                terms,
                &mut self.places,
                &mut self.rows,
                at.place,
                args,
            ),
            Inst::Prb(_) => self.take_probe(region, terms, at, line),
            Inst::Drv { .. } => self.take_drive(alloc, region, terms, at, line),
            _ => self.take_given(alloc, region, terms, at, line),
        }
    }
}

impl Walk {
    /// Takes an instruction that gives a value, or nothing: a `phi` was taken before, and a part has no term.
    fn take_given(
        &mut self,
        alloc: Global,
        region: &Region<'_>,
        terms: &mut Terms,
        at: WalkPoint,
        line: &FlatInst,
    ) -> Result<(), NoMemory>
        requires can { CanTake terms.old region.now self.old at line.now }
        requires alone { lines.gives_alone line.now.inst ≡ true }
        ensures kept { Grows terms.old terms.new }
        ensures taken { OnOk result (WalksLine terms.old region.now self.old at line.now terms.new self.new) }
    {
        let Some(result) = line.result else {
            return Ok(());
        };
        let (place, to) = (at.place, result.0);
        match &line.inst {
            Inst::Const(value) => give_constant(terms, &mut self.places, place, to, value),
            Inst::Pure { op, args } => {
                self.take_operation(alloc, region, terms, at, result, *op, args)
            }
            Inst::Var(of) | Inst::Ld(of) => {
                give_value(alloc, terms, &mut self.places, place, of.value.0, to)
            }
            _ => Ok(()),
        }
    }

    /// Takes an operation that gives a value, unless it is a step to a part.
    fn take_operation(
        &mut self,
        alloc: Global,
        region: &Region<'_>,
        terms: &mut Terms,
        at: WalkPoint,
        to: ValueId,
        op: Op,
        args: &OperandList,
    ) -> Result<(), NoMemory>
        requires { CanTake terms.old region.now self.old at (lines.operation_line to op args.now) }
        ensures kept { Grows terms.old terms.new }
        ensures taken { OnOk result (WalksLine terms.old region.now self.old at (lines.operation_line to op args.now) terms.new self.new) }
    {
        if region.parts.step(to).is_some() {
            return Ok(());
        }
        give_operation(alloc, terms, &mut self.places, at.place, to.0, op, args)
    }

    /// Takes a probe, whether or not its value has a name.
    fn take_probe(
        &mut self,
        region: &Region<'_>,
        terms: &mut Terms,
        at: WalkPoint,
        line: &FlatInst,
    ) -> Result<(), NoMemory>
        requires can { CanTake terms.old region.now self.old at line.now }
        requires probe { lines.IsProbeInst line.now.inst }
        ensures kept { Grows terms.old terms.new }
        ensures taken { OnOk result (WalksLine terms.old region.now self.old at line.now terms.new self.new) }
    {
        let Inst::Prb(signal) = &line.inst else {
            unreachable!()
        };
        let part = part_of(region.parts, signal.value)?;
        let term = probe(terms, &mut self.rows, part, region.is_past)?;
        match line.result {
            Some(result) => give(&mut self.places, at.place, result.0, term),
            None => Ok(()),
        }
    }

    /// Takes a drive.
    fn take_drive(
        &mut self,
        alloc: Global,
        region: &Region<'_>,
        terms: &mut Terms,
        at: WalkPoint,
        line: &FlatInst,
    ) -> Result<(), NoMemory>
        requires can { CanTake terms.old region.now self.old at line.now }
        requires drive { lines.IsDriveInst line.now.inst }
        ensures kept { Grows terms.old terms.new }
        ensures taken { OnOk result (WalksLine terms.old region.now self.old at line.now terms.new self.new) }
    {
        let Inst::Drv {
            to,
            value,
            after,
            cond,
        } = &line.inst
        else {
            unreachable!()
        };
        let part = part_of(region.parts, to.value)?;
        let cond = drive_cond(alloc, terms, &mut self.places, at, *cond)?;
        let drives = DriveAt {
            place: at.place,
            cond,
            value: value.0,
            after: after.0,
        };
        drive(alloc, terms, &mut self.places, &mut self.rows, drives, part)
    }
}

/// Gives a constant to a value.
fn give_constant(
    terms: &mut Terms,
    places: &mut Places,
    at: usize,
    to: u32,
    value: &Constant,
) -> Result<(), NoMemory>
    requires is_in { at < length places.old.items }
    requires fits { FitsTerm value.now }
    ensures kept { Grows terms.old terms.new }
    ensures same { OnOk result (SamePlaces places.old.items places.new.items) }
    ensures gives { OnOk result (lines.GivesWhere (lines.IsThat (constant value.now)) terms.old places.old.items at to terms.new places.new.items) }
{
    let term = terms.konst(value.value()?)?;
    give(places, at, to, term)
}

/// Gives what a value is to another value or a variable.
fn give_value(
    alloc: Global,
    terms: &mut Terms,
    places: &mut Places,
    at: usize,
    of: u32,
    to: u32,
) -> Result<(), NoMemory>
    requires is_in { at < length places.old.items }
    requires told { CanAsk terms.old places.old.items of at }
    ensures kept { Grows terms.old terms.new }
    ensures same { OnOk result (SamePlaces places.old.items places.new.items) }
    ensures gives { OnOk result (lines.GivesWhere (lines.IsToldOf at of) terms.old places.old.items at to terms.new places.new.items) }
{
    let term = value_at(alloc, terms, places, at, of)?;
    give(places, at, to, term)
}

/// Gives an operation on values to a value.
fn give_operation(
    alloc: Global,
    terms: &mut Terms,
    places: &mut Places,
    at: usize,
    to: u32,
    op: Op,
    args: &OperandList,
) -> Result<(), NoMemory>
    requires is_in { at < length places.old.items }
    requires operation { IsOperation terms.old places.old.items at op args.now }
    ensures kept { Grows terms.old terms.new }
    ensures same { OnOk result (SamePlaces places.old.items places.new.items) }
    ensures gives { OnOk result (lines.GivesWhere (lines.IsOperationOn at op args.now) terms.old places.old.items at to terms.new places.new.items) }
{
    let term = operate(alloc, terms, places, at, op, args)?;
    give(places, at, to, term)
}

/// On which condition a drive happens: that of its place, and what the value after `if` is, where there is one.
fn drive_cond(
    alloc: Global,
    terms: &mut Terms,
    places: &mut Places,
    at: WalkPoint,
    cond: Option<ValueId>,
) -> Result<TermId, NoMemory>
    requires is_in { at.place < length places.old.items }
    requires cond { IsConditionAt terms.old at.cond }
    requires test { lines.MayTest terms.old places.old.items cond at.place }
    ensures kept { Grows terms.old terms.new }
    ensures same { OnOk result (SamePlaces places.old.items places.new.items) }
    ensures still { OnOk result (lines.StillTested terms.old places.old.items terms.new places.new.items cond at.place) }
    ensures made { IfOk result (λ t. lines.IsDriveCond terms.old places.old.items terms.new cond at.place (tree_at (trees terms.old) at.cond) t) }
{
    match cond {
        None => Ok(at.cond),
        Some(cond) => and_at(alloc, terms, places, at.place, at.cond, cond.0),
    }
}
