//! One unit of the arena.
ghost use Rattle.std.specs.Prelude.{◌≡◌, ◌≤◌, ◌<◌, ◌+◌, ◌-◌, ◌^◌, [], ◌∷◌, ◌++◌, length, slice_set, slice_index_or, unwrap_or, vec_len, vec_capacity, Some, IsSome, OnOk, OnErr};
ghost use Rattle.std.specs.Option.{option_copied};
ghost use Rattle.lh_unit.specs.Table.{no_table, entity_block, ResultWithin, HasBlocks, IsDefinition, with_definition, defined_among, line_at, insts_at};
ghost use Rattle.lh_unit.specs.declared.inst.ValueDef.TheVariants as value_def;
ghost use Rattle.lh_unit.specs.TableCalls.{FindsValueIn, FindsLabelIn, BeginsTable, TakesArg, TakesBlock, TakesLine, with_result};

use crate::inst::{Arg, BlockId, Inst, InstId, UnitFault, UnitKind, ValueDef, ValueId};
use lh_types::list::ListOf;
use lh_types::memory::NoMemory;
use lh_types::ty::Ty;
use lh_unit_names::name::Name;
use lh_unit_names::table::NameTable;
use std::alloc::Global;
use std::marker::Model;

/// An instruction and its result.
#[derive(Drop)]
pub struct TableLine {
    pub result: Option<ValueId>,
    pub inst: Inst,
}

/// The instructions of a block, in order.
type InstIdList = ListOf<InstId>;

/// The entries of a unit by ids, and what is defined of them.
#[derive(Drop)]
pub struct UnitTable {
    kind: Option<UnitKind>,
    values: NameTable,
    // By the ids of values.
    defs: Vec<ValueDef>,
    labels: NameTable,
    // By the ids of blocks; none where no block of this label was added.
    bodies: Vec<Option<InstIdList>>,
    blocks: Vec<BlockId>,
    args: Vec<Arg>,
    result: Option<Ty>,
    lines: Vec<TableLine>,
}

impl Model for UnitTable {
    ghost use Rattle.std.specs.Coded.{codes};
    ghost use Rattle.lh_types.specs.Types.{type_coded};
    ghost use Rattle.lh_types.specs.Values.{datum_coded};
    ghost use Rattle.lh_unit.specs.Table.{Table};

    ghost Value = { Table };

    ghost coded = { Prim.hlevel (codes, type_coded, datum_coded) };

    ghost use Rattle.lh_unit.specs.TableOf.{table_of, InOrder};

    ghost view = { table_of };

    ghost invariant = { InOrder };
}

impl UnitTable {
    /// A unit that is Missing, with no entries.
    pub fn new(alloc: Global) -> UnitTable
        ensures { result ≡ no_table }
    {
        UnitTable {
            kind: None,
            values: NameTable::new(alloc),
            defs: Vec::new(alloc),
            labels: NameTable::new(alloc),
            bodies: Vec::new(alloc),
            blocks: Vec::new(alloc),
            args: Vec::new(alloc),
            result: None,
            lines: Vec::new(alloc),
        }
    }

    /// The value of this name, which is Missing where the name is new.
    pub fn value_named(&mut self, name: Name) -> Result<ValueId, NoMemory>
        requires { length self.old.values < 2 ^ 32 - 1 }
        ensures { FindsValueIn result self.old self.new name }
    {
        self.defs.reserve(1)?;
        let (i, is_new) = self.values.enter(name)?;
        if is_new {
            self.defs.push_reserved(ValueDef::Missing);
        }
        Ok(ValueId(i as u32))
    }

    /// The label of this name, which is Missing where the name is new.
    pub fn block_named(&mut self, name: Name) -> Result<BlockId, NoMemory>
        requires { length self.old.labels < 2 ^ 32 - 1 }
        ensures { FindsLabelIn result self.old self.new name }
    {
        self.bodies.reserve(1)?;
        let (i, is_new) = self.labels.enter(name)?;
        if is_new {
            self.bodies.push_reserved(None);
        }
        Ok(BlockId(i as u32))
    }

    /// Begins the unit as its header does: the result of a function is `void`, and an entity has its one block.
    pub fn begin(&mut self, kind: UnitKind) -> Result<(), NoMemory>
        requires { self.old.kind ≡ None }
        ensures { BeginsTable result self.old self.new kind }
    {
        match kind {
            UnitKind::Func => {
                put_type(&mut self.result, Ty::void());
                self.kind = Some(kind);
                Ok(())
            }
            UnitKind::Proc => {
                self.kind = Some(kind);
                Ok(())
            }
            UnitKind::Entity => {
                begin_block(&mut self.blocks, &mut self.bodies)?;
                self.kind = Some(kind);
                Ok(())
            }
        }
    }

    /// Adds an argument at the end.
    pub fn add_arg(&mut self, value: ValueId, ty: Ty, output: bool) -> Result<(), UnitFault>
        requires begun { IsSome self.old.kind }
        requires within { value.0 < length self.old.values }
        ensures { TakesArg result self.old self.new (record { value = value; ty = ty; output = output }) }
    {
        if self.defs[value.0 as usize].is_some() {
            return Err(UnitFault::DuplicateName);
        }
        let number = self.args.len() as u32;
        if push_arg(&mut self.args, Arg { value, ty, output }).is_err() {
            return Err(UnitFault::OutOfMemory);
        }
        self.defs[value.0 as usize] = ValueDef::Arg(number);
        Ok(())
    }

    /// Sets the result type of a function.
    pub fn set_result(&mut self, ty: Ty)
        requires { self.old.kind ≡ Some UnitKind.Func }
        ensures { self.new ≡ with_result self.old ty }
    {
        put_type(&mut self.result, ty);
    }

    /// Adds a block at the end, with no instructions.
    pub fn add_block(&mut self, block: BlockId) -> Result<(), UnitFault>
        requires labels { HasBlocks self.old.kind }
        requires within { block.0 < length self.old.labels }
        ensures { TakesBlock result self.old self.new block }
    {
        if self.bodies[block.0 as usize].is_some() {
            return Err(UnitFault::DuplicateName);
        }
        if self.blocks.push(block).is_err() {
            return Err(UnitFault::OutOfMemory);
        }
        let alloc = *self.blocks.allocator();
        self.bodies[block.0 as usize] = Some(ListOf::new(alloc));
        Ok(())
    }

    /// Adds an instruction at the end of the last block.
    pub fn add_line(&mut self, value: Option<ValueId>, inst: Inst) -> Result<InstId, UnitFault>
        requires begun { 0 < length self.old.blocks }
        requires within { ResultWithin (length self.old.values) value }
        ensures { TakesLine result self.old self.new value inst }
    {
        let id = self.lines.len();
        if id >= 65536 {
            return refuse(inst, UnitFault::UnitTooLarge);
        }
        if is_defined(&self.defs, value) {
            return refuse(inst, UnitFault::DuplicateName);
        }
        if self.lines.reserve(1).is_err() {
            return refuse(inst, UnitFault::OutOfMemory);
        }
        let last = self.blocks[self.blocks.len() - 1];
        if push_id(&mut self.bodies, last, InstId(id as u32)).is_err() {
            return refuse(inst, UnitFault::OutOfMemory);
        }
        self.lines.push_reserved(TableLine {
            result: value,
            inst,
        });
        define(&mut self.defs, value, ValueDef::Inst(InstId(id as u32)));
        Ok(InstId(id as u32))
    }

    /// Gives back the room that nothing needs.
    pub fn shrink(&mut self)
        ensures { self.new ≡ self.old }
    {
        self.values.close();
        self.defs.shrink_to_fit();
        self.labels.close();
        self.bodies.shrink_to_fit();
        self.blocks.shrink_to_fit();
        self.args.shrink_to_fit();
        self.lines.shrink_to_fit();
    }

    /// What kind of unit it is; none where it is Missing.
    pub fn kind(&self) -> Option<UnitKind>
        ensures { result ≡ self.now.kind }
    {
        self.kind
    }

    /// The arguments in order, inputs before outputs.
    pub fn args(&self) -> &[Arg]
        ensures { result.now ≡ self.now.args }
    {
        self.args.as_slice()
    }

    /// The result type of a function; none for other units.
    pub fn result(&self) -> Option<&Ty>
        ensures { option_copied result ≡ self.now.result }
    {
        self.result.as_ref()
    }

    /// The blocks in file order.
    pub fn blocks(&self) -> &[BlockId]
        ensures { result.now ≡ self.now.blocks }
    {
        self.blocks.as_slice()
    }

    /// The instructions of a block in file order; none where no block of this label stands.
    pub fn insts(&self, block: BlockId) -> &[InstId]
        requires { block.0 < length self.now.bodies }
        ensures { result.now ≡ insts_at self.now block.0 }
    {
        match &self.bodies[block.0 as usize] {
            Some(list) => list.as_slice(),
            None => &[],
        }
    }

    /// An instruction and its result.
    pub fn line(&self, inst: InstId) -> &TableLine
        requires { inst.0 < length self.now.lines }
        ensures { result.now ≡ line_at self.now inst.0 }
    {
        &self.lines[inst.0 as usize]
    }

    /// How many instructions there are.
    pub fn lines(&self) -> usize
        ensures { result ≡ length self.now.lines }
    {
        self.lines.len()
    }

    /// What defines a value.
    pub fn value_def(&self, value: ValueId) -> ValueDef
        requires { value.0 < length self.now.values }
        ensures { IsDefinition self.now value.0 result }
    {
        self.defs[value.0 as usize]
    }

    /// How many values have a name.
    pub fn values(&self) -> usize
        ensures { result ≡ length self.now.values }
    {
        self.values.len()
    }

    /// How many labels have a name.
    pub fn labels(&self) -> usize
        ensures { result ≡ length self.now.labels }
    {
        self.labels.len()
    }

    /// The name of a value, without its sigil.
    pub fn value_name(&self, value: ValueId) -> &Name
        requires { value.0 < length self.now.values }
        ensures { result.now ≡ slice_index_or self.now.values value.0 [] }
    {
        self.values.name(value.0 as usize)
    }

    /// The name of a label.
    pub fn block_name(&self, block: BlockId) -> &Name
        requires { block.0 < length self.now.labels }
        ensures { result.now ≡ slice_index_or self.now.labels block.0 [] }
    {
        self.labels.name(block.0 as usize)
    }
}

// The one block of an entity, with no instructions.
fn begin_block(
    blocks: &mut Vec<BlockId>,
    bodies: &mut Vec<Option<InstIdList>>,
) -> Result<(), NoMemory>
    ensures ok_blocks { OnOk result (blocks.new.items ≡ blocks.old.items ++ entity_block ∷ []) }
    ensures ok_bodies { OnOk result (bodies.new.items ≡ slice_set (bodies.old.items ++ None ∷ []) 0 (Some [])) }
    ensures err_blocks { OnErr result (blocks.new.items ≡ blocks.old.items) }
    ensures err_bodies { OnErr result (bodies.new.items ≡ bodies.old.items) }
{
    blocks.reserve(1)?;
    bodies.reserve(1)?;
    bodies.push_reserved(None);
    bodies[0] = Some(ListOf::new(*blocks.allocator()));
    blocks.push_reserved(BlockId(0));
    Ok(())
}

// On its own, since the drop of what stood there has a case for each kind of type.
fn put_type(place: &mut Option<Ty>, ty: Ty)
    ensures { place.new ≡ Some ty }
{
    *place = Some(ty);
}

fn push_arg(args: &mut Vec<Arg>, arg: Arg) -> Result<(), NoMemory>
    ensures ok { OnOk result (args.new.items ≡ args.old.items ++ arg ∷ []) }
    ensures err { OnErr result (args.new.items ≡ args.old.items) }
{
    args.push(arg)?;
    Ok(())
}

// Adds an instruction to the body of a block that stands.
fn push_id(bodies: &mut Vec<Option<InstIdList>>, block: BlockId, id: InstId) -> Result<(), NoMemory>
    requires within { block.0 < length bodies.old.items }
    requires stands { IsSome (slice_index_or bodies.old.items block.0 None) }
    ensures ok { OnOk result (bodies.new.items ≡ slice_set bodies.old.items block.0 (Some (unwrap_or (slice_index_or bodies.old.items block.0 None) [] ++ id ∷ []))) }
    ensures err { OnErr result (bodies.new.items ≡ bodies.old.items) }
{
    push_to(&mut bodies[block.0 as usize], id)
}

fn push_to(body: &mut Option<InstIdList>, id: InstId) -> Result<(), NoMemory>
    requires { IsSome body.old }
    ensures ok { OnOk result (body.new ≡ Some (unwrap_or body.old [] ++ id ∷ [])) }
    ensures err { OnErr result (body.new ≡ body.old) }
{
    match body {
        Some(list) => list.push(id),
        None => unreachable!(),
    }
}

// Drops an instruction that is not taken; on its own, since a drop has a case for each kind of instruction.
fn refuse(inst: Inst, fault: UnitFault) -> Result<InstId, UnitFault>
    ensures { result ≡ Err fault }
{
    drop(inst);
    Err(fault)
}

fn is_defined(defs: &Vec<ValueDef>, value: Option<ValueId>) -> bool
    requires { ResultWithin (length defs.now.items) value }
    ensures { result ≡ defined_among defs.now.items value }
{
    match value {
        Some(v) => defs[v.0 as usize].is_some(),
        None => false,
    }
}

fn define(defs: &mut Vec<ValueDef>, value: Option<ValueId>, given: ValueDef)
    requires { ResultWithin (length defs.old.items) value }
    ensures { defs.new.items ≡ with_definition defs.old.items value given }
{
    if let Some(v) = value {
        defs[v.0 as usize] = given;
    }
}
