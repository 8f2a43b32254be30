//! Which blocks have an edge to a label.
ghost use Rattle.std.specs.Prelude.{◌≡◌, ◌<◌, ◌++◌, ◌∷◌, [], List, length, replicate, IfOk, OnOk};
ghost use Rattle.lh_unit.specs.Arena.{unit_count, label_count, table_at, blocks_at};
ghost use Rattle.lh_verify_operands.specs.Leading.{led_to};
ghost use Rattle.lh_unit.specs.Within.{Each};
ghost use Rattle.lh_unit.specs.declared.inst.BlockId.{BlockId};
ghost use Rattle.lh_unit.specs.Placed.{IsBlockOf};
ghost use Rattle.lh_verify.specs.Predecessors.{IsPredecessors, AddsPredecessor};

use lh_types::list::ListOf;
use lh_types::memory::NoMemory;
use lh_unit::inst::{BlockId, UnitId};
use lh_unit::module::Module;
use lh_verify_operands::successors::{Successors, successors_of};
use std::alloc::Global;

/// A list of blocks.
pub type BlockList = ListOf<BlockId>;

/// By the ids of labels, the blocks of a unit that have an edge to the label: in file order, each once.
pub fn predecessors(alloc: Global, m: &Module, unit: UnitId) -> Result<Vec<BlockList>, NoMemory>
    requires { unit.0 < unit_count m.now }
    ensures { IfOk result (λ rows. IsPredecessors (table_at m.now unit.0) (blocks_at m.now unit.0) (label_count m.now unit.0) rows.items) }
{
    let mut rows = no_blocks(alloc, m.labels(unit))?;
    put_blocks(&mut rows, m, unit, m.blocks(unit))?;
    Ok(rows)
}

/// Lists of which none has a block.
fn no_blocks(alloc: Global, labels: u32) -> Result<Vec<BlockList>, NoMemory>
    ensures { IfOk result (λ rows. rows.items ≡ replicate labels []) }
{
    let mut rows = Vec::with_capacity(alloc, labels as usize)?;
    for _ in 0..labels {
        put_empty(alloc, &mut rows)?;
    }
    Ok(rows)
}

fn put_empty(alloc: Global, rows: &mut Vec<BlockList>) -> Result<(), NoMemory>
    ensures { OnOk result (rows.new.items ≡ rows.old.items ++ [] ∷ []) }
{
    rows.push(BlockList::new(alloc))?;
    Ok(())
}

/// Adds each of these blocks to the lists of the labels to which it has an edge.
fn put_blocks(
    rows: &mut [BlockList],
    m: &Module,
    unit: UnitId,
    blocks: &[BlockId],
) -> Result<(), NoMemory>
    requires unit { unit.0 < unit_count m.now }
    requires blocks { Each (IsBlockOf m.now unit.0) blocks.now }
    requires rows { rows.old ≡ replicate (label_count m.now unit.0) [] }
    ensures { OnOk result (IsPredecessors (table_at m.now unit.0) blocks.now (label_count m.now unit.0) rows.new) }
{
    for block in blocks {
        put_block(rows, m, unit, *block)?;
    }
    Ok(())
}

fn put_block(
    rows: &mut [BlockList],
    m: &Module,
    unit: UnitId,
    block: BlockId,
) -> Result<(), NoMemory>
    requires unit { unit.0 < unit_count m.now }
    requires block { IsBlockOf m.now unit.0 block }
    requires long { length rows.old ≡ label_count m.now unit.0 }
    ensures { (bs : List BlockId) → IsPredecessors (table_at m.now unit.0) bs (label_count m.now unit.0) rows.old → OnOk result (IsPredecessors (table_at m.now unit.0) (bs ++ block ∷ []) (label_count m.now unit.0) rows.new) }
{
    match m.insts(unit, block).last() {
        Some(last) => put_edges(rows, block, successors_of(m.inst(unit, *last))),
        None => Ok(()),
    }
}

/// Adds a block to the lists of the labels to which its last instruction may lead.
fn put_edges(rows: &mut [BlockList], block: BlockId, to: Successors) -> Result<(), NoMemory>
    requires { Each (λ (b : BlockId). b.0 < length rows.old) (led_to to) }
    ensures { OnOk result (AddsPredecessor block (led_to to) rows.old rows.new) }
{
    match to {
        Successors::Nowhere => Ok(()),
        Successors::To(to) => put_edge(rows, block, to),
        Successors::Either(zero, one) => put_two(rows, block, zero, one),
    }
}

/// Two edges, which count as one where they lead to one label.
fn put_two(
    rows: &mut [BlockList],
    block: BlockId,
    zero: BlockId,
    one: BlockId,
) -> Result<(), NoMemory>
    requires zero { zero.0 < length rows.old }
    requires one { one.0 < length rows.old }
    ensures { OnOk result (AddsPredecessor block (zero ∷ one ∷ []) rows.old rows.new) }
{
    put_edge(rows, block, zero)?;
    if zero.0 == one.0 {
        return Ok(());
    }
    put_edge(rows, block, one)
}

fn put_edge(rows: &mut [BlockList], block: BlockId, to: BlockId) -> Result<(), NoMemory>
    requires { to.0 < length rows.old }
    ensures { OnOk result (AddsPredecessor block (to ∷ []) rows.old rows.new) }
{
    rows[to.0 as usize].push(block)
}
