//! The parts of a unit that is added as it is in another module, where its names stand under the same ids.
ghost use Rattle.std.specs.Prelude.{◌≡◌, ◌<◌, Some, IfOk};
ghost use Rattle.lh_unit.specs.Arena.{IsArena, IsOpen, kind_at, result_type_at, unit_text_at, unit_count};
ghost use Rattle.lh_lower_copy.specs.Changing.{Becomes, with_args, with_lines, with_labelled, with_blocks, with_type};
ghost use Rattle.lh_lower_copy.specs.Fitting.{ArgsFit, LinesFit, LabelFits, BlocksFit};
ghost use Rattle.lh_lower_copy.specs.Named.{SameNames};
ghost use Rattle.lh_lower_copy.specs.Kept.{StandsIn, block_at, TypeFits};

use crate::adding::{put_arg, put_block, put_inst};
use lh_types::memory::NoMemory;
use lh_unit::inst::{BlockId, UnitId, UnitKind};
use lh_unit::module::Module;

/// Adds the arguments.
pub fn keep_args(m: &mut Module, from: &Module, unit: UnitId) -> Result<(), NoMemory>
    requires there { unit.0 < unit_count from.now }
    requires opened { IsOpen m.old unit }
    requires named { SameNames from.now m.old unit.0 }
    requires fit { ArgsFit (unit_text_at m.old unit.0) (unit_text_at from.now unit.0).args }
    ensures { IfOk result (λ _. Becomes m.old m.new unit (with_args (unit_text_at from.now unit.0).args (unit_text_at m.old unit.0))) }
{
    let args = from.args(unit);
    for arg in args {
        let ty = arg.ty.copy()?;
        put_arg(m, unit, arg.value, ty, arg.output)?;
    }
    Ok(())
}

/// Sets the result type of a function.
pub fn keep_type(m: &mut Module, from: &Module, unit: UnitId) -> Result<(), NoMemory>
    requires there { unit.0 < unit_count from.now }
    requires opened { IsOpen m.old unit }
    requires fits { TypeFits (unit_text_at m.old unit.0) (result_type_at from.now unit.0) }
    ensures { IfOk result (λ _. Becomes m.old m.new unit (with_type (result_type_at from.now unit.0) (unit_text_at m.old unit.0))) }
{
    match from.result(unit) {
        None => Ok(()),
        Some(ty) => {
            m.set_result(unit, ty.copy()?);
            Ok(())
        }
    }
}

/// Adds the instructions of a block.
fn keep_insts(m: &mut Module, from: &Module, unit: UnitId, block: BlockId) -> Result<(), NoMemory>
    requires there { unit.0 < unit_count from.now }
    requires opened { IsOpen m.old unit }
    requires named { SameNames from.now m.old unit.0 }
    requires stands { StandsIn from.now unit.0 block }
    requires fit { LinesFit (unit_text_at m.old unit.0) (block_at from.now unit.0 block).lines }
    ensures { IfOk result (λ _. Becomes m.old m.new unit (with_lines (block_at from.now unit.0 block).lines (unit_text_at m.old unit.0))) }
{
    let insts = from.insts(unit, block);
    for inst in insts {
        let copy = from.inst(unit, *inst).copy()?;
        put_inst(m, unit, from.result_of(unit, *inst), copy)?;
    }
    Ok(())
}

/// Begins a block of a function or a process.
fn keep_label(
    m: &mut Module,
    from: &Module,
    unit: UnitId,
    kind: UnitKind,
    block: BlockId,
) -> Result<(), NoMemory>
    requires sound { IsArena from.now }
    requires kind { kind_at from.now unit.0 ≡ Some kind }
    requires there { unit.0 < unit_count from.now }
    requires opened { IsOpen m.old unit }
    requires named { SameNames from.now m.old unit.0 }
    requires stands { StandsIn from.now unit.0 block }
    requires fits { LabelFits (unit_text_at m.old unit.0) (block_at from.now unit.0 block).label }
    ensures { IfOk result (λ _. Becomes m.old m.new unit (with_labelled (block_at from.now unit.0 block).label (unit_text_at m.old unit.0))) }
{
    match kind {
        UnitKind::Entity => Ok(()),
        UnitKind::Func | UnitKind::Proc => put_block(m, unit, block),
    }
}

/// Adds a block with its instructions.
fn keep_block(
    m: &mut Module,
    from: &Module,
    unit: UnitId,
    kind: UnitKind,
    block: BlockId,
) -> Result<(), NoMemory>
    requires sound { IsArena from.now }
    requires kind { kind_at from.now unit.0 ≡ Some kind }
    requires there { unit.0 < unit_count from.now }
    requires opened { IsOpen m.old unit }
    requires named { SameNames from.now m.old unit.0 }
    requires stands { StandsIn from.now unit.0 block }
    requires label { LabelFits (unit_text_at m.old unit.0) (block_at from.now unit.0 block).label }
    requires lines { LinesFit (with_labelled (block_at from.now unit.0 block).label (unit_text_at m.old unit.0)) (block_at from.now unit.0 block).lines }
    ensures { let b = block_at from.now unit.0 block in IfOk result (λ _. Becomes m.old m.new unit (with_lines b.lines (with_labelled b.label (unit_text_at m.old unit.0)))) }
{
    keep_label(m, from, unit, kind, block)?;
    keep_insts(m, from, unit, block)
}

/// Adds the blocks; an entity has its one block already.
pub fn keep_blocks(
    m: &mut Module,
    from: &Module,
    unit: UnitId,
    kind: UnitKind,
) -> Result<(), NoMemory>
    requires kind { kind_at from.now unit.0 ≡ Some kind }
    requires there { unit.0 < unit_count from.now }
    requires opened { IsOpen m.old unit }
    requires named { SameNames from.now m.old unit.0 }
    requires fit { BlocksFit (unit_text_at m.old unit.0) (unit_text_at from.now unit.0).blocks }
    ensures { IfOk result (λ _. Becomes m.old m.new unit (with_blocks (unit_text_at from.now unit.0).blocks (unit_text_at m.old unit.0))) }
{
    let blocks = from.blocks(unit);
    for block in blocks {
        keep_block(m, from, unit, kind, *block)?;
    }
    Ok(())
}
