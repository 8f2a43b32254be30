//! A flat text while it is built: a unit's blocks are copied in order, and a call's copy stands before what follows the call.
ghost use Rattle.std.specs.Prelude.{◌≡◌, ◌+◌, ◌^◌, ◌<◌, length, Some, IfOk, OnOk};
ghost use Rattle.lh_unit.specs.Arena.{unit_count, inst_count, blocks_at, block_insts_at};
ghost use Rattle.lh_flat.specs.Graph.{BlockPlaced, callee_of};
ghost use Rattle.lh_flat.specs.Building.{line_of, insts_room, block_room, unit_room, call_room, call_ids, put, taken, with_values, no_text, merging, entering, blocks_give, merge_in, line_added, block_added, call_added, unit_added};
ghost use Rattle.lh_flat.specs.CopyOf.{IsCopy};
ghost use Rattle.lh_flat.specs.Room.{inner_values, call_values, HasRoom};

use crate::calls::callee;
use crate::copy::{CopyPlace, UnitCopy, new_ids};
use crate::flat::{FlatBlock, FlatBlockList, FlatInst, Merge};
use crate::layout::unit_room;
use lh_types::memory::NoMemory;
use lh_unit::inst::{BlockId, Inst, InstId, UnitId};
use std::alloc::Global;
use std::mem;

/// A flat text while it is built.
#[derive(Drop)]
pub struct FlatBuilder {
    /// The blocks that are complete.
    pub blocks: FlatBlockList,
    /// The block that is open.
    pub current: FlatBlock,
    /// How many ids of values are given.
    pub values: u32,
}

impl FlatBuilder {
    /// A text in which nothing stands yet, where this many ids of values are given.
    pub fn new(alloc: Global, values: u32) -> FlatBuilder
        ensures { result ≡ no_text values }
    {
        FlatBuilder {
            blocks: FlatBlockList::new(alloc),
            current: FlatBlock::new(alloc),
            values,
        }
    }

    /// The open block is complete.
    fn put(&mut self) -> Result<(), NoMemory>
        ensures { OnOk result (self.new ≡ put self.old) }
    {
        let next = FlatBlock::new(self.blocks.allocator());
        let block = mem::replace(&mut self.current, next);
        self.blocks.push(block)
    }

    /// One more instruction in the open block.
    fn take(&mut self, inst: FlatInst) -> Result<(), NoMemory>
        ensures { OnOk result (self.new ≡ taken inst self.old) }
    {
        self.current.insts.push(inst)
    }

    /// The open block begins with this.
    fn merge(&mut self, merge: Option<Merge>)
        ensures { self.new ≡ merging merge self.old }
    {
        self.current.merge = merge;
    }

    /// As many more ids of values.
    fn take_values(&mut self, count: u32)
        requires { self.old.values + count < 2 ^ 32 }
        ensures { self.new ≡ with_values count self.old }
    {
        self.values += count;
    }

    /// The place behind the open block.
    fn next(&self) -> u32
        requires { length self.now.blocks + 1 < 2 ^ 32 }
        ensures { result ≡ length self.now.blocks + 1 }
    {
        self.blocks.len() as u32 + 1
    }

    /// Adds the blocks of a copy, in which at most `depth` calls nest.
    #[cycle(copying)]
    pub fn add_unit(&mut self, depth: u32, copy: &UnitCopy<'_>) -> Result<(), NoMemory>
        requires { let a = copy.now.view.module.now in let u = copy.now.view.unit.0 in HasRoom self.old (unit_room (call_room depth a) a u) (inner_values (call_values depth a) a u) }
        ensures { OnOk result (self.new ≡ unit_added depth copy.now.view.module.now copy.now.view.unit.0 copy.now.ids self.old) }
    {
        for block in copy.view.blocks() {
            self.add_block(depth, copy, *block)?;
        }
        Ok(())
    }

    /// Adds the pieces of a block, with the copies between them.
    #[cycle(copying)]
    fn add_block(&mut self, depth: u32, copy: &UnitCopy<'_>, block: BlockId) -> Result<(), NoMemory>
        requires placed { BlockPlaced copy.now.view.module.now copy.now.view.unit.0 block }
        requires room { let a = copy.now.view.module.now in let u = copy.now.view.unit.0 in HasRoom self.old (block_room (call_room depth a) a u block) (insts_room (call_values depth a) a u (block_insts_at a u block.0)) }
        ensures { let a = copy.now.view.module.now in OnOk result (self.new ≡ block_added (call_added depth a) a copy.now.view.unit.0 copy.now.ids block self.old) }
    {
        for id in copy.view.insts(block) {
            self.add_inst(depth, copy, *id)?;
        }
        self.put()
    }

    /// Adds an instruction, or the copy of the function that it calls.
    #[cycle(copying)]
    fn add_inst(&mut self, depth: u32, copy: &UnitCopy<'_>, id: InstId) -> Result<(), NoMemory>
        requires placed { id.0 < inst_count copy.now.view.module.now copy.now.view.unit.0 }
        requires room { let a = copy.now.view.module.now in let f = callee_of a (line_of a copy.now.view.unit.0 id).inst in HasRoom self.old (call_room depth a f) (call_values depth a f) }
        ensures { let a = copy.now.view.module.now in let l = line_of a copy.now.view.unit.0 id in OnOk result (self.new ≡ line_added (call_added depth a) copy.now.ids l (callee_of a l.inst) self.old) }
    {
        match callee(copy.view, copy.view.inst(id)) {
            None => self.take(copy.inst(id)?),
            Some(function) => self.add_call(depth, copy, id, function),
        }
    }

    /// Replaces a call by a copy of the function, in place.
    #[cycle(copying)]
    fn add_call(
        &mut self,
        depth: u32,
        copy: &UnitCopy<'_>,
        id: InstId,
        function: UnitId,
    ) -> Result<(), NoMemory>
        requires placed { id.0 < inst_count copy.now.view.module.now copy.now.view.unit.0 }
        requires function { function.0 < unit_count copy.now.view.module.now }
        requires room { let a = copy.now.view.module.now in HasRoom self.old (call_room depth a (Some function)) (call_values depth a (Some function)) }
        ensures { let a = copy.now.view.module.now in OnOk result (self.new ≡ call_added depth a function copy.now.ids (line_of a copy.now.view.unit.0 id) self.old) }
    {
        if depth == 0 {
            return Ok(());
        }
        let called = self.copy_for(depth - 1, copy, id, function)?;
        let added = self.add_copy(depth - 1, copy, id, &called);
        drop(called);
        added
    }

    /// Adds the copy of a function that is called, and what merges behind it.
    #[cycle(copying)]
    fn add_copy(
        &mut self,
        depth: u32,
        copy: &UnitCopy<'_>,
        id: InstId,
        called: &UnitCopy<'_>,
    ) -> Result<(), NoMemory>
        requires placed { id.0 < inst_count copy.now.view.module.now copy.now.view.unit.0 }
        requires room { let d = called.now in let a = d.view.module.now in let u = d.view.unit.0 in HasRoom self.old (unit_room (call_room depth a) a u + 1) (inst_count a u + inner_values (call_values depth a) a u) }
        ensures { let d = called.now in let a = d.view.module.now in let l = line_of copy.now.view.module.now copy.now.view.unit.0 id in
            OnOk result (self.new ≡ merging (merge_in copy.now.ids (blocks_give a d.view.unit.0 d.ids (blocks_at a d.view.unit.0)) l.inst l.result) (unit_added depth a d.view.unit.0 d.ids (entering a d.view.unit self.old))) }
    {
        self.enter(called)?;
        self.add_unit(depth, called)?;
        let merge = copy.merge(self.blocks.allocator(), id, called)?;
        self.merge(merge);
        Ok(())
    }

    /// The copy of the function for a call: its entry stands behind the open block.
    fn copy_for<'m>(
        &self,
        depth: u32,
        copy: &UnitCopy<'m>,
        id: InstId,
        function: UnitId,
    ) -> Result<UnitCopy<'m>, NoMemory>
        requires placed { id.0 < inst_count copy.now.view.module.now copy.now.view.unit.0 }
        requires function { function.0 < unit_count copy.now.view.module.now }
        requires room { let a = copy.now.view.module.now in HasRoom self.now (unit_room (call_room depth a) a function.0 + 1) (inst_count a function.0) }
        ensures { let a = copy.now.view.module.now in IfOk result (λ d. IsCopy a function (call_ids (call_room depth a) a function copy.now.ids (line_of a copy.now.view.unit.0 id) self.now) d) }
    {
        let view = copy.view.module().unit(function);
        let at = self.next();
        let back = at + unit_room(depth, view);
        let args = copy.args(self.blocks.allocator(), id)?;
        let values = new_ids(self.blocks.allocator(), view, args.as_slice(), self.values)?;
        let place = CopyPlace { at, back };
        UnitCopy::new(self.blocks.allocator(), depth, view, values, place)
    }

    /// The open block leads into a copy, whose results have ids from then on.
    fn enter(&mut self, called: &UnitCopy<'_>) -> Result<(), NoMemory>
        requires { HasRoom self.old 1 (inst_count called.now.view.module.now called.now.view.unit.0) }
        ensures { OnOk result (self.new ≡ entering called.now.view.module.now called.now.view.unit self.old) }
    {
        let entry = self.next();
        self.take(FlatInst {
            result: None,
            inst: Inst::Br(BlockId(entry)),
        })?;
        self.put()?;
        self.take_values(called.view.module().inst_count(called.view.id()));
        Ok(())
    }
}
