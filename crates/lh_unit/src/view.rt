//! One unit of a module, seen through a view: the module with a unit that has an entry in it.
ghost use Rattle.std.specs.Prelude.{◌≡◌, ◌<◌};
ghost use Rattle.std.specs.Option.{option_copied};
ghost use Rattle.lh_unit.specs.Table.{IsDefinition};
ghost use Rattle.lh_unit.specs.Arena.{IsArena, InstPlaced, table_at, unit_count, value_count, label_count, block_count, inst_count, unit_name_at, value_name_at, label_name_at, kind_at, args_at, result_type_at, blocks_at, block_insts_at, inst_at, result_at};

use crate::inst::{Arg, BlockId, Inst, InstId, UnitId, UnitKind, ValueDef, ValueId};
use crate::module::Module;
use lh_types::ty::Ty;
use lh_unit_names::name::{Name, UnitName};

/// A unit of a module. The unit has an entry, so that no question about it wants this again.
#[derive(Clone, Copy)]
pub struct UnitView<'m> {
    module: &'m Module,
    unit: UnitId,
    pub ghost in_place: { unit.0 < unit_count module.now },
}

impl Module {
    /// The view of a unit that has an entry.
    pub fn unit(&self, unit: UnitId) -> UnitView<'_>
        requires { unit.0 < unit_count self.now }
        ensures module { result.module.now ≡ self.now }
        ensures unit { result.unit ≡ unit }
    {
        UnitView { module: self, unit }
    }
}

impl<'m> UnitView<'m> {
    /// The module.
    pub fn module(&self) -> &'m Module
        ensures module { result.now ≡ self.now.module.now }
    {
        self.module
    }

    /// The id of the unit.
    pub fn id(&self) -> UnitId
        ensures id { result ≡ self.now.unit }
        ensures in_place { result.0 < unit_count self.now.module.now }
    {
        self.unit
    }

    /// The kind of the unit; none where it is Missing.
    pub fn kind(&self) -> Option<UnitKind>
        ensures kind { result ≡ kind_at self.now.module.now self.now.unit.0 }
        ensures sound { IsArena self.now.module.now }
    {
        self.module.kind(self.unit)
    }

    /// The name of the unit.
    pub fn name(&self) -> &'m UnitName
        ensures name { result.now ≡ unit_name_at self.now.module.now self.now.unit.0 }
        ensures sound { IsArena self.now.module.now }
    {
        self.module.unit_name(self.unit)
    }

    /// The arguments, in order.
    pub fn args(&self) -> &'m [Arg]
        ensures args { result.now ≡ args_at self.now.module.now self.now.unit.0 }
        ensures sound { IsArena self.now.module.now }
    {
        self.module.args(self.unit)
    }

    /// The result type of a function; none of any other unit.
    pub fn result(&self) -> Option<&'m Ty>
        ensures ty { option_copied result ≡ result_type_at self.now.module.now self.now.unit.0 }
        ensures sound { IsArena self.now.module.now }
    {
        self.module.result(self.unit)
    }

    /// The blocks, in file order. An entity has one.
    pub fn blocks(&self) -> &'m [BlockId]
        ensures blocks { result.now ≡ blocks_at self.now.module.now self.now.unit.0 }
        ensures sound { IsArena self.now.module.now }
    {
        self.module.blocks(self.unit)
    }

    /// The instructions of a block, in order; of a label that is Missing there are none.
    pub fn insts(&self, block: BlockId) -> &'m [InstId]
        requires { block.0 < block_count self.now.module.now self.now.unit.0 }
        ensures insts { result.now ≡ block_insts_at self.now.module.now self.now.unit.0 block.0 }
        ensures sound { IsArena self.now.module.now }
    {
        self.module.insts(self.unit, block)
    }

    /// An instruction.
    pub fn inst(&self, inst: InstId) -> &'m Inst
        requires { inst.0 < inst_count self.now.module.now self.now.unit.0 }
        ensures inst { result.now ≡ inst_at self.now.module.now self.now.unit.0 inst.0 }
        ensures placed { InstPlaced self.now.module.now self.now.unit.0 result.now }
        ensures sound { IsArena self.now.module.now }
    {
        self.module.inst(self.unit, inst)
    }

    /// The value that an instruction gives, if it gives one.
    pub fn result_of(&self, inst: InstId) -> Option<ValueId>
        requires { inst.0 < inst_count self.now.module.now self.now.unit.0 }
        ensures value { result ≡ result_at self.now.module.now self.now.unit.0 inst.0 }
        ensures sound { IsArena self.now.module.now }
    {
        self.module.result_of(self.unit, inst)
    }

    /// What defines a value, in a time that does not grow with the unit.
    pub fn value_def(&self, value: ValueId) -> ValueDef
        requires { value.0 < value_count self.now.module.now self.now.unit.0 }
        ensures definition { IsDefinition (table_at self.now.module.now self.now.unit.0) value.0 result }
        ensures sound { IsArena self.now.module.now }
    {
        self.module.value_def(self.unit, value)
    }

    /// How many values have an entry.
    pub fn values(&self) -> u32
        ensures count { result ≡ value_count self.now.module.now self.now.unit.0 }
        ensures sound { IsArena self.now.module.now }
    {
        self.module.values(self.unit)
    }

    /// How many labels have an entry.
    pub fn labels(&self) -> u32
        ensures count { result ≡ label_count self.now.module.now self.now.unit.0 }
        ensures sound { IsArena self.now.module.now }
    {
        self.module.labels(self.unit)
    }

    /// The name of a value.
    pub fn value_name(&self, value: ValueId) -> &'m Name
        requires { value.0 < value_count self.now.module.now self.now.unit.0 }
        ensures name { result.now ≡ value_name_at self.now.module.now self.now.unit.0 value.0 }
        ensures sound { IsArena self.now.module.now }
    {
        self.module.value_name(self.unit, value)
    }

    /// The name of a label.
    pub fn block_name(&self, block: BlockId) -> &'m Name
        requires { block.0 < label_count self.now.module.now self.now.unit.0 }
        ensures name { result.now ≡ label_name_at self.now.module.now self.now.unit.0 block.0 }
        ensures sound { IsArena self.now.module.now }
    {
        self.module.block_name(self.unit, block)
    }
}
