//! A copy of a unit in a flat text.
ghost use Rattle.std.specs.Prelude.{◌≡◌, ◌+◌, ◌^◌, ◌<◌, ◌++◌, [], length, IfOk, OnOk};
ghost use Rattle.lh_unit.specs.Arena.{table_at, value_count, inst_count, blocks_at, block_insts_at};
ghost use Rattle.lh_unit.specs.Within.{InstWithin};
ghost use Rattle.lh_flat.specs.Graph.{BlockPlaced};
ghost use Rattle.lh_flat.specs.Renames.{sizes_in, max_units};
ghost use Rattle.lh_flat.specs.Fits.{IdsFit};
ghost use Rattle.lh_flat.specs.Building.{line_of, unit_room, call_room, own_ids, new_id, new_ids, ids_for, call_args, edge_given, insts_give, blocks_give, merge_in, line_in};

use crate::flat::{FlatInst, Merge, MergeEdge, MergeList};
use crate::layout::layout;
use crate::rename::Renaming;
use lh_types::memory::NoMemory;
use lh_unit::inst::{BlockId, Inst, InstId, ValueDef, ValueId, ValueIdList};
use lh_unit::view::UnitView;
use std::alloc::Global;

/// A copy of a unit: each of its values and labels has an id in the flat text.
#[derive(Drop)]
pub struct UnitCopy<'m> {
    pub view: UnitView<'m>,
    pub ids: Renaming,
    ghost fits: { IdsFit view.module.now view.unit.0 ids },
}

/// Where a copy stands.
#[derive(Clone, Copy)]
pub struct CopyPlace {
    /// The place of its first block.
    pub at: u32,
    /// The block to which a `ret` leads.
    pub back: u32,
}

/// The ids of the values of a process: its own.
pub fn own_ids(alloc: Global, view: UnitView<'_>) -> Result<ValueIdList, NoMemory>
    ensures { IfOk result (λ ids. ids ≡ own_ids (value_count view.entry.module.now view.entry.unit.0)) }
{
    let mut ids = ValueIdList::new(alloc);
    for value in 0..view.values() {
        ids.push(ValueId(value))?;
    }
    Ok(ids)
}

/// The ids of the values of a copy of a function: a parameter has that of its argument, and the results have new ones, from this
/// number on.
pub fn new_ids(
    alloc: Global,
    view: UnitView<'_>,
    args: &[ValueId],
    from: u32,
) -> Result<ValueIdList, NoMemory>
    requires { from + inst_count view.module.now view.unit.0 < 2 ^ 32 }
    ensures { IfOk result (λ ids. ids ≡ new_ids (table_at view.entry.module.now view.entry.unit.0) args.now from) }
{
    let mut ids = ValueIdList::new(alloc);
    for value in 0..view.values() {
        ids.push(new_id(view, args, from, ValueId(value)))?;
    }
    Ok(ids)
}

/// The id of a value of a copy. A value that nothing defines is used nowhere.
fn new_id(view: UnitView<'_>, args: &[ValueId], from: u32, value: ValueId) -> ValueId
    requires value { value.0 < value_count view.module.now view.unit.0 }
    requires few { from + inst_count view.module.now view.unit.0 < 2 ^ 32 }
    ensures { result ≡ new_id (table_at view.entry.module.now view.entry.unit.0) args.now from value.0 }
{
    match view.value_def(value) {
        ValueDef::Arg(place) => match args.get(place as usize) {
            Some(id) => *id,
            None => ValueId(0),
        },
        ValueDef::Inst(inst) => ValueId(from + inst.0),
        ValueDef::Missing => ValueId(0),
    }
}

/// One more edge, where the instruction gives a value back.
fn give(ids: &Renaming, block: BlockId, inst: &Inst, edges: &mut MergeList) -> Result<(), NoMemory>
    requires { InstWithin (sizes_in max_units ids.now) inst.now }
    ensures { OnOk result (edges.new ≡ edges.old ++ edge_given ids.now block inst.now []) }
{
    match inst {
        Inst::Ret(Some(of)) => edges.push(MergeEdge {
            value: ids.value(of.value),
            block: ids.last(block),
        }),
        _ => Ok(()),
    }
}

impl<'m> UnitCopy<'m> {
    ghost use Rattle.lh_flat.specs.CopyOf.{IsCopy};

    /// A copy of a unit whose values have these ids, in which at most `depth` calls nest.
    pub fn new(
        alloc: Global,
        depth: u32,
        view: UnitView<'m>,
        values: ValueIdList,
        place: CopyPlace,
    ) -> Result<UnitCopy<'m>, NoMemory>
        requires values { length values ≡ value_count view.module.now view.unit.0 }
        requires few { place.at + unit_room (call_room depth view.module.now) view.module.now view.unit.0 < 2 ^ 32 }
        ensures { let a = view.entry.module.now in IfOk result (λ c. IsCopy a view.entry.unit (ids_for (call_room depth a) a view.entry.unit.0 values place.at place.back) c) }
    {
        let spans = layout(alloc, depth, view, place.at)?;
        Ok(UnitCopy {
            view,
            ids: Renaming {
                values,
                spans,
                back: BlockId(place.back),
            },
        })
    }

    /// An instruction in this copy.
    pub fn inst(&self, id: InstId) -> Result<FlatInst, NoMemory>
        requires { id.0 < inst_count self.now.view.module.now self.now.view.unit.0 }
        ensures { IfOk result (λ i. i ≡ line_in self.now.ids (line_of self.now.view.module.now self.now.view.unit.0 id)) }
    {
        let inst = self.ids.inst(self.view.inst(id))?;
        Ok(FlatInst {
            result: self.ids.maybe(self.view.result_of(id)),
            inst,
        })
    }

    /// The arguments of a call.
    pub fn args(&self, alloc: Global, id: InstId) -> Result<ValueIdList, NoMemory>
        requires { id.0 < inst_count self.now.view.module.now self.now.view.unit.0 }
        ensures { IfOk result (λ args. args ≡ call_args self.now.ids (line_of self.now.view.module.now self.now.view.unit.0 id).inst) }
    {
        match self.view.inst(id) {
            Inst::Call { args, .. } => self.ids.values(args),
            _ => Ok(ValueIdList::new(alloc)),
        }
    }

    /// The merge after a call, whose copy is `called`: none where the result has no name.
    pub fn merge(
        &self,
        alloc: Global,
        id: InstId,
        called: &UnitCopy<'_>,
    ) -> Result<Option<Merge>, NoMemory>
        requires { id.0 < inst_count self.now.view.module.now self.now.view.unit.0 }
        ensures { let d = called.now in let l = line_of self.now.view.module.now self.now.view.unit.0 id in IfOk result (λ m. m ≡ merge_in self.now.ids (blocks_give d.view.module.now d.view.unit.0 d.ids (blocks_at d.view.module.now d.view.unit.0)) l.inst l.result) }
    {
        let Inst::Call { result, .. } = self.view.inst(id) else {
            return Ok(None);
        };
        let Some(value) = self.view.result_of(id) else {
            return Ok(None);
        };
        let edges = called.given(alloc)?;
        let ty = result.copy()?;
        Ok(Some(Merge {
            value: self.ids.value(value),
            ty,
            edges,
        }))
    }

    /// What the copy gives back, block after block.
    fn given(&self, alloc: Global) -> Result<MergeList, NoMemory>
        ensures { let a = self.now.view.module.now in IfOk result (λ edges. edges ≡ blocks_give a self.now.view.unit.0 self.now.ids (blocks_at a self.now.view.unit.0)) }
    {
        let mut edges = MergeList::new(alloc);
        for block in self.view.blocks() {
            self.give_block(*block, &mut edges)?;
        }
        Ok(edges)
    }

    /// What a block of the copy gives back.
    fn give_block(&self, block: BlockId, edges: &mut MergeList) -> Result<(), NoMemory>
        requires { BlockPlaced self.now.view.module.now self.now.view.unit.0 block }
        ensures { let a = self.now.view.module.now in OnOk result (edges.new ≡ edges.old ++ insts_give a self.now.view.unit.0 self.now.ids block (block_insts_at a self.now.view.unit.0 block.0)) }
    {
        for id in self.view.insts(block) {
            give(&self.ids, block, self.view.inst(*id), edges)?;
        }
        Ok(())
    }
}
