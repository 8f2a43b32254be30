//! Ids in place of names: each name of a line has an entry in the module, which is made where there is none.
//!
//! Each call answers `NoMemory` when memory runs out, or where each of the 4,294,967,295 ids of that kind has a name, as in
//! no text of 64 MiB; of the module nothing is said then.
ghost use Rattle.std.specs.Prelude.{◌≡◌, ◌<◌, map, IfOk};
ghost use Rattle.lh_unit.specs.Arena.{no_arena, unit_count};
ghost use Rattle.lh_unit.specs.Builders.{FindsUnit};
ghost use Rattle.lh_read_pieces.specs.LexemeOf.{unit_name_of};
ghost use Rattle.lh_read_phrases.specs.SyntaxOf.{operand_of, operands_of, trigger_of, edge_of};
ghost use Rattle.lh_read.specs.Placing.{ValuePlaced, MaybePlaced, LabelPlaced, OperandPlaced, TriggerPlaced, EdgePlaced, OperandsPlaced, TriggersPlaced, EdgesPlaced, SignalsPlaced};

use crate::known::{Known, digest, is_named};
use crate::taken::Taken;
use lh_read_phrases::syntax::{EdgeSyntax, Operand, TriggerSyntax};
use lh_read_pieces::tokens::{NameText, UnitNameText};
use lh_types::few::{Few, FewOf};
use lh_types::list::ListOf;
use lh_types::memory::NoMemory;
use lh_unit::inst::{
    BlockId, OperandList, PhiEdge, PhiEdgeList, RegTrigger, RegTriggerList, Typed, TypedList,
    UnitId, ValueId, ValueIdList,
};
use lh_unit::module::Module;
use std::alloc::Global;

/// What finds the ids of names and enters new ones: the module, and what the lines before have said.
#[derive(Drop)]
pub struct Resolver {
    pub alloc: Global,
    pub module: Module,
    known: Known,
}

impl Resolver {
    /// A module without entries, before the first line.
    pub fn new(alloc: Global) -> Resolver
        ensures empty { result.module ≡ no_arena }
    {
        Resolver {
            alloc,
            module: Module::new(alloc),
            known: Known::new(alloc),
        }
    }

    /// The unit of this name.
    pub fn unit_id(&mut self, name: &UnitNameText) -> Result<UnitId, NoMemory>
        ensures { FindsUnit result self.old.module self.new.module (unit_name_of name.now) }
    {
        // The limit on names: no id is left.
        if self.module.units() == u32::MAX {
            return Err(NoMemory);
        }
        let name = name.to_unit_name(self.alloc)?;
        self.module.unit_named(&name)
    }

    /// The entry of a value of this name in a unit, which is at hand from then on.
    fn entered(&mut self, unit: UnitId, name: &NameText) -> Result<ValueId, NoMemory>
        requires { unit.0 < unit_count self.old.module }
        ensures { IfOk result (λ v. ValuePlaced self.old.module self.new.module unit v name.now) }
    {
        // The limit on names: no id is left.
        if self.module.values(unit) == u32::MAX {
            return Err(NoMemory);
        }
        let place = usize::from(digest(name));
        let name = name.to_name(self.alloc)?;
        let value = self.module.enter_value(unit, name)?;
        self.known.values[place] = value.0;
        Ok(value)
    }

    /// The value of this name in a unit. What the lines before have named is mostly at hand.
    pub fn value_id(&mut self, unit: UnitId, name: &NameText) -> Result<ValueId, NoMemory>
        requires { unit.0 < unit_count self.old.module }
        ensures { IfOk result (λ v. ValuePlaced self.old.module self.new.module unit v name.now) }
    {
        let recent = ValueId(self.known.values[usize::from(digest(name))]);
        if is_named(&self.module, unit, recent, name) {
            return Ok(recent);
        }
        self.entered(unit, name)
    }

    /// The value that a line names as its result, if it names one. Such a name is mostly new.
    pub fn result_id(
        &mut self,
        unit: UnitId,
        name: &Option<NameText>,
    ) -> Result<Option<ValueId>, NoMemory>
        requires { unit.0 < unit_count self.old.module }
        ensures { IfOk result (λ v. MaybePlaced self.old.module self.new.module unit v name.now) }
    {
        match name {
            Some(name) => Ok(Some(self.entered(unit, name)?)),
            None => Ok(None),
        }
    }

    /// The label of this name in a unit.
    pub fn label_id(&mut self, unit: UnitId, name: &NameText) -> Result<BlockId, NoMemory>
        requires { unit.0 < unit_count self.old.module }
        ensures { IfOk result (λ b. LabelPlaced self.old.module self.new.module unit b name.now) }
    {
        // The limit on names: no id is left.
        if self.module.labels(unit) == u32::MAX {
            return Err(NoMemory);
        }
        let name = name.to_name(self.alloc)?;
        self.module.enter_block(unit, name)
    }

    /// The value of this name, if there is a name.
    pub fn maybe_id(
        &mut self,
        unit: UnitId,
        name: &Option<NameText>,
    ) -> Result<Option<ValueId>, NoMemory>
        requires { unit.0 < unit_count self.old.module }
        ensures { IfOk result (λ v. MaybePlaced self.old.module self.new.module unit v name.now) }
    {
        match name {
            Some(name) => Ok(Some(self.value_id(unit, name)?)),
            None => Ok(None),
        }
    }

    /// The operand; the operands of a file share their types.
    fn lent_operand(&mut self, unit: UnitId, from: &Operand) -> Result<Typed, NoMemory>
        requires { unit.0 < unit_count self.old.module }
        ensures { IfOk result (λ t. OperandPlaced self.old.module self.new.module unit t (operand_of from.now)) }
    {
        let value = self.value_id(unit, &from.value)?;
        let ty = self.known.types.share(self.alloc, from.ty.as_ref())?;
        Ok(Typed { value, ty })
    }

    /// The operand, which is let go.
    pub fn operand(&mut self, unit: UnitId, from: Operand) -> Result<Typed, NoMemory>
        requires { unit.0 < unit_count self.old.module }
        ensures { IfOk result (λ t. OperandPlaced self.old.module self.new.module unit t (operand_of from.entry)) }
    {
        self.lent_operand(unit, &from)
    }

    /// The trigger of a register.
    fn trigger(&mut self, unit: UnitId, from: &TriggerSyntax) -> Result<RegTrigger, NoMemory>
        requires { unit.0 < unit_count self.old.module }
        ensures { IfOk result (λ t. TriggerPlaced self.old.module self.new.module unit t (trigger_of from.now)) }
    {
        let value = self.value_id(unit, &from.value)?;
        let mode = from.mode;
        let trigger = self.value_id(unit, &from.trigger)?;
        let gate = self.maybe_id(unit, &from.gate)?;
        let after = self.maybe_id(unit, &from.after)?;
        Ok(RegTrigger {
            value,
            mode,
            trigger,
            gate,
            after,
        })
    }

    /// The edge of a `phi`.
    fn edge(&mut self, unit: UnitId, from: &EdgeSyntax) -> Result<PhiEdge, NoMemory>
        requires { unit.0 < unit_count self.old.module }
        ensures { IfOk result (λ e. EdgePlaced self.old.module self.new.module unit e (edge_of from.now)) }
    {
        let value = self.value_id(unit, &from.value)?;
        let block = self.label_id(unit, &from.block)?;
        Ok(PhiEdge { value, block })
    }

    /// The operands.
    pub fn operands(&mut self, unit: UnitId, from: ListOf<Operand>) -> Result<TypedList, NoMemory>
        requires { unit.0 < unit_count self.old.module }
        ensures { IfOk result (λ list. OperandsPlaced self.old.module self.new.module unit list (operands_of from.entry)) }
    {
        let mut to = ListOf::with_room(self.alloc, from.len())?;
        for one in Taken::new(from) {
            let placed = self.operand(unit, one)?;
            to.push(placed)?;
        }
        Ok(to)
    }

    /// One operand.
    fn one_operand(&mut self, unit: UnitId, from: &[Operand; 1]) -> Result<OperandList, NoMemory>
        requires { unit.0 < unit_count self.old.module }
        ensures { IfOk result (λ list. OperandsPlaced self.old.module self.new.module unit list (operands_of from.now)) }
    {
        let one = self.lent_operand(unit, &from[0])?;
        Ok(OperandList::one(self.alloc, one))
    }

    /// Two operands.
    fn two_operands(&mut self, unit: UnitId, from: &[Operand; 2]) -> Result<OperandList, NoMemory>
        requires { unit.0 < unit_count self.old.module }
        ensures { IfOk result (λ list. OperandsPlaced self.old.module self.new.module unit list (operands_of from.now)) }
    {
        let first = self.lent_operand(unit, &from[0])?;
        let second = self.lent_operand(unit, &from[1])?;
        Ok(OperandList::two(self.alloc, first, second))
    }

    /// The operands of an operation: one or two are read and kept in place.
    pub fn few_operands(
        &mut self,
        unit: UnitId,
        from: FewOf<Operand>,
    ) -> Result<OperandList, NoMemory>
        requires { unit.0 < unit_count self.old.module }
        ensures { IfOk result (λ list. OperandsPlaced self.old.module self.new.module unit list (operands_of from.entry)) }
    {
        match from.into_items() {
            Few::One(from) => {
                let list = self.one_operand(unit, &from);
                drop(from);
                list
            }
            Few::Two(from) => {
                let list = self.two_operands(unit, &from);
                drop(from);
                list
            }
            Few::Other(from) => {
                let list = self.operands(unit, from)?;
                Ok(OperandList::from_list(list))
            }
        }
    }

    /// The triggers of a register.
    pub fn triggers(
        &mut self,
        unit: UnitId,
        from: &[TriggerSyntax],
    ) -> Result<RegTriggerList, NoMemory>
        requires { unit.0 < unit_count self.old.module }
        ensures { IfOk result (λ list. TriggersPlaced self.old.module self.new.module unit list (map trigger_of from.now)) }
    {
        let mut to = ListOf::with_room(self.alloc, from.len())?;
        for one in from {
            let placed = self.trigger(unit, one)?;
            to.push(placed)?;
        }
        Ok(to)
    }

    /// The edges of a `phi`.
    pub fn edges(&mut self, unit: UnitId, from: &[EdgeSyntax]) -> Result<PhiEdgeList, NoMemory>
        requires { unit.0 < unit_count self.old.module }
        ensures { IfOk result (λ list. EdgesPlaced self.old.module self.new.module unit list (map edge_of from.now)) }
    {
        let mut to = ListOf::with_room(self.alloc, from.len())?;
        for one in from {
            let placed = self.edge(unit, one)?;
            to.push(placed)?;
        }
        Ok(to)
    }

    /// The signals that a `wait` names.
    pub fn signals(&mut self, unit: UnitId, from: &[NameText]) -> Result<ValueIdList, NoMemory>
        requires { unit.0 < unit_count self.old.module }
        ensures { IfOk result (λ list. SignalsPlaced self.old.module self.new.module unit list from.now) }
    {
        let mut to = ListOf::with_room(self.alloc, from.len())?;
        for one in from {
            let placed = self.value_id(unit, one)?;
            to.push(placed)?;
        }
        Ok(to)
    }
}
