//! What is added to a module under construction where nothing but memory can be wanting.
ghost use Rattle.std.specs.Prelude.{◌≡◌, ◌<◌, false, length, IfOk};
ghost use Rattle.lh_unit.specs.Contents.{new_unit, with_arg, with_block, with_line, defines_unit, defines_value, defines_label};
ghost use Rattle.lh_unit.specs.Within.{MaybeWithin};
ghost use Rattle.lh_unit.specs.Naming.{arg_text};
ghost use Rattle.lh_unit.specs.Arena.{IsOpen, InstPlaced, contents, naming, sizes, unit_count, value_count, label_count, unit_name_at, value_name_at, label_name_at, unit_text_at};
ghost use Rattle.lh_unit.specs.Builders.{HasLabels, HasRoom, line_text_at};
ghost use Rattle.lh_lower_copy.specs.Changing.{AddsUnitText, Becomes};

use lh_types::memory::NoMemory;
use lh_types::ty::Ty;
use lh_unit::inst::{BlockId, Inst, UnitFault, UnitId, UnitKind, ValueId};
use lh_unit::module::Module;

/// Begins a unit that is not defined yet.
pub fn begin(m: &mut Module, unit: UnitId, kind: UnitKind) -> Result<(), NoMemory>
    requires within { unit.0 < unit_count m.old }
    requires undefined { defines_unit (unit_name_at m.old unit.0) (contents m.old) ≡ false }
    ensures { IfOk result (λ _. AddsUnitText m.old m.new unit (new_unit (unit_name_at m.old unit.0) kind)) }
{
    match m.begin_unit(unit, kind) {
        Ok(()) => Ok(()),
        Err(fault) => Err(wanting(fault)),
    }
}

/// Adds an argument whose name the open unit does not define yet.
pub fn put_arg(
    m: &mut Module,
    unit: UnitId,
    value: ValueId,
    ty: Ty,
    output: bool,
) -> Result<(), NoMemory>
    requires opened { IsOpen m.old unit }
    requires within { value.0 < value_count m.old unit.0 }
    requires undefined { defines_value (value_name_at m.old unit.0 value.0) (unit_text_at m.old unit.0) ≡ false }
    ensures { IfOk result (λ _. Becomes m.old m.new unit (with_arg (arg_text (naming m.old unit.0) record { value = value; ty = ty; output = output }) (unit_text_at m.old unit.0))) }
{
    match m.add_arg(unit, value, ty, output) {
        Ok(()) => Ok(()),
        Err(fault) => Err(wanting(fault)),
    }
}

/// Adds a block whose label the open unit does not have yet.
pub fn put_block(m: &mut Module, unit: UnitId, block: BlockId) -> Result<(), NoMemory>
    requires opened { IsOpen m.old unit }
    requires labels { HasLabels (unit_text_at m.old unit.0).kind }
    requires within { block.0 < label_count m.old unit.0 }
    requires undefined { defines_label (label_name_at m.old unit.0 block.0) (unit_text_at m.old unit.0) ≡ false }
    ensures { IfOk result (λ _. Becomes m.old m.new unit (with_block (label_name_at m.old unit.0 block.0) (unit_text_at m.old unit.0))) }
{
    match m.add_block(unit, block) {
        Ok(()) => Ok(()),
        Err(fault) => Err(wanting(fault)),
    }
}

/// Adds an instruction for which the open unit has room, and whose result it does not define yet.
pub fn put_inst(
    m: &mut Module,
    unit: UnitId,
    value: Option<ValueId>,
    inst: Inst,
) -> Result<(), NoMemory>
    requires opened { IsOpen m.old unit }
    requires begun { 0 < length (unit_text_at m.old unit.0).blocks }
    requires within { MaybeWithin (sizes m.old unit.0) value }
    requires placed { InstPlaced m.old unit.0 inst }
    requires room { HasRoom (line_text_at m.old unit.0 value inst) (unit_text_at m.old unit.0) }
    ensures { IfOk result (λ _. Becomes m.old m.new unit (with_line (line_text_at m.old unit.0 value inst) (unit_text_at m.old unit.0))) }
{
    match m.add_inst(unit, value, inst) {
        Ok(_) => Ok(()),
        Err(fault) => Err(wanting(fault)),
    }
}

/// What is wanting where a builder can only have run out of memory.
fn wanting(fault: UnitFault) -> NoMemory
    requires { fault ≡ UnitFault.OutOfMemory }
{
    match fault {
        UnitFault::OutOfMemory => NoMemory,
        UnitFault::DuplicateName | UnitFault::UnitTooLarge => unreachable!(),
    }
}
