//! The flat text of a process, with ids of its own.

use lh_types::list::ListOf;
use lh_types::ty::Ty;
use lh_unit::inst::{Arg, BlockId, Inst, ValueId};
use std::alloc::Global;

/// The arguments of a process, in order.
pub type ArgList = ListOf<Arg>;

/// The flat text of a process. Its ids are numbers of its own: `BlockId(k)` is the block at place k, and each copy of a value has
/// its own id; a parameter of a copied function has the id of the call's argument. The values of the process itself keep their ids.
#[derive(Drop)]
pub struct Flat {
    /// The arguments of the process, each with its value.
    pub args: ArgList,
    /// The blocks in order; the first one is the entry.
    pub blocks: FlatBlockList,
    /// Every value has an id below this number.
    pub values: u32,
}

/// A block of a flat text.
#[derive(Drop)]
pub struct FlatBlock {
    /// What the call before the block gives, where its result has a name.
    pub merge: Option<Merge>,
    /// The instructions; the last one is the terminator.
    pub insts: FlatInstList,
}

impl FlatBlock {
    ghost use Rattle.std.specs.Prelude.{◌≡◌};
    ghost use Rattle.lh_flat.specs.Building.{no_block};

    /// A block in which nothing stands yet.
    pub fn new(alloc: Global) -> FlatBlock
        ensures { result ≡ no_block }
    {
        FlatBlock {
            merge: None,
            insts: FlatInstList::new(alloc),
        }
    }
}

/// The blocks of a flat text, in order.
pub type FlatBlockList = ListOf<FlatBlock>;

/// The result of a call that was replaced, merged as by a `phi`: the returned value of the `ret` that was taken. It counts as no
/// instruction.
#[derive(Drop)]
pub struct Merge {
    pub value: ValueId,
    /// The type of the result.
    pub ty: Ty,
    pub edges: MergeList,
}

/// The value that a `ret` in this block gives.
#[derive(Clone, Copy)]
pub struct MergeEdge {
    pub value: ValueId,
    pub block: BlockId,
}

/// The edges of a merge, in the order of their blocks.
pub type MergeList = ListOf<MergeEdge>;

/// An instruction of a flat text. No instruction is a `ret`, and each `call` is one of `@llhd.assert`.
#[derive(Drop)]
pub struct FlatInst {
    pub result: Option<ValueId>,
    pub inst: Inst,
}

/// The instructions of a block, in order.
pub type FlatInstList = ListOf<FlatInst>;
