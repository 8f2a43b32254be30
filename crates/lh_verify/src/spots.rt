//! The places of the instructions of a unit, in file order.
#![tactic(auto, using(lh_verify_operands::proofs::Lists::steps))]

ghost use Rattle.std.specs.Prelude.{◌≡◌, ◌<◌, ◌++◌, ◌||◌, true, false, IfOk, OnOk};
ghost use Rattle.lh_unit.specs.Arena.{IsArena, table_at, unit_count, block_insts_at};
ghost use Rattle.lh_unit.specs.Within.{Each};
ghost use Rattle.lh_unit.specs.Placed.{IsInstOf, IsBlockOf};
ghost use Rattle.lh_verify.specs.Spots.{is_other as inst_is_other, spots_in, spots_from, spots_of};

use lh_types::list::ListOf;
use lh_types::memory::NoMemory;
use lh_unit::inst::{BlockId, Inst, InstId, UnitId};
use lh_unit::module::Module;
use std::alloc::Global;

/// Where an instruction stands.
#[derive(Clone, Copy, Debug)]
pub struct Spot {
    pub inst: InstId,
    pub block: BlockId,
    /// Whether its block is the entry.
    pub in_entry: bool,
    /// Whether an instruction before it in its block is no `phi`.
    pub after_other: bool,
    /// Whether it is the last of its block.
    pub last: bool,
}

/// A list of places.
pub type SpotList = ListOf<Spot>;

/// The places of a unit, in file order.
pub fn spots(alloc: Global, m: &Module, unit: UnitId) -> Result<SpotList, NoMemory>
    requires { unit.0 < unit_count m.now }
    ensures places { IfOk result (λ list. list ≡ spots_of (table_at m.now unit.0)) }
    ensures sound { IsArena m.now }
{
    let mut list = SpotList::with_room(alloc, m.inst_count(unit) as usize)?;
    put_blocks(&mut list, m, unit, m.blocks(unit))?;
    Ok(list)
}

fn put_blocks(
    list: &mut SpotList,
    m: &Module,
    unit: UnitId,
    blocks: &[BlockId],
) -> Result<(), NoMemory>
    requires unit { unit.0 < unit_count m.now }
    requires blocks { Each (IsBlockOf m.now unit.0) blocks.now }
    ensures { OnOk result (list.new ≡ list.old ++ spots_from (table_at m.now unit.0) true blocks.now) }
{
    let mut in_entry = true;
    for block in blocks {
        put_block(list, m, unit, *block, in_entry)?;
        in_entry = false;
    }
    Ok(())
}

fn put_block(
    list: &mut SpotList,
    m: &Module,
    unit: UnitId,
    block: BlockId,
    in_entry: bool,
) -> Result<(), NoMemory>
    requires unit { unit.0 < unit_count m.now }
    requires block { IsBlockOf m.now unit.0 block }
    ensures { OnOk result (list.new ≡ list.old ++ spots_in (table_at m.now unit.0) in_entry block false (block_insts_at m.now unit.0 block.0)) }
{
    let insts = m.insts(unit, block);
    put_insts(list, m, unit, block, in_entry, insts)
}

fn put_insts(
    list: &mut SpotList,
    m: &Module,
    unit: UnitId,
    block: BlockId,
    in_entry: bool,
    insts: &[InstId],
) -> Result<(), NoMemory>
    requires unit { unit.0 < unit_count m.now }
    requires insts { Each (IsInstOf m.now unit.0) insts.now }
    ensures { OnOk result (list.new ≡ list.old ++ spots_in (table_at m.now unit.0) in_entry block false insts.now) }
{
    let mut after_other = false;
    for (k, inst) in insts.iter().enumerate() {
        list.push(Spot {
            inst: *inst,
            block,
            in_entry,
            after_other,
            last: k + 1 == insts.len(),
        })?;
        after_other = is_behind_other(after_other, m.inst(unit, *inst));
    }
    Ok(())
}

/// Whether what follows an instruction stands behind one that is no `phi`.
fn is_behind_other(after_other: bool, inst: &Inst) -> bool
    ensures { result ≡ (after_other || inst_is_other inst.now) }
{
    match inst {
        Inst::Phi { .. } => after_other,
        _ => true,
    }
}
