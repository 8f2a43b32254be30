//! An entity that is added in the place of a process.
ghost use Rattle.std.specs.Prelude.{◌≡◌, ◌<◌, List, false, map, IfOk};
ghost use Rattle.lh_unit.specs.Contents.{LineText, defines_unit};
ghost use Rattle.lh_unit.specs.Within.{Each};
ghost use Rattle.lh_unit.specs.Arena.{IsOpen, contents, unit_count, value_count, unit_name_at, unit_text_at};
ghost use Rattle.lh_emit_def.specs.Entities.{entity_with};
ghost use Rattle.lh_emit_body.specs.Bodies.{IsBody};
ghost use Rattle.lh_lower_copy.specs.Changing.{Becomes, with_args, with_lines};
ghost use Rattle.lh_lower_copy.specs.Fitting.{ArgsFit, LinesFit};
ghost use Rattle.lh_lower_copy.specs.Named.{SameUnits};
ghost use Rattle.lh_lower_copy.specs.Copying.{AddsUnit};
ghost use Rattle.lh_lower_copy.specs.Putting.{CanPut, ArgsNamed, IsLineWithin, body_line_at};

use crate::adding::{begin, put_arg, put_inst};
use crate::names::name_all;
use lh_emit_body::{Body, BodyLine, BodyLineList};
use lh_types::memory::NoMemory;
use lh_unit::inst::{UnitId, UnitKind, ValueId};
use lh_unit::module::Module;

/// Adds the arguments of a unit; the first values have their names.
fn put_args(m: &mut Module, from: &Module, unit: UnitId) -> Result<(), NoMemory>
    requires there { unit.0 < unit_count from.now }
    requires opened { IsOpen m.old unit }
    requires named { ArgsNamed from.now m.old unit.0 }
    requires fit { ArgsFit (unit_text_at m.old unit.0) (unit_text_at from.now unit.0).args }
    ensures { IfOk result (λ _. Becomes m.old m.new unit (with_args (unit_text_at from.now unit.0).args (unit_text_at m.old unit.0))) }
{
    for (k, arg) in from.args(unit).iter().enumerate() {
        let ty = arg.ty.copy()?;
        put_arg(m, unit, ValueId(k as u32), ty, arg.output)?;
    }
    Ok(())
}

/// Adds instructions.
fn put_lines(m: &mut Module, unit: UnitId, lines: BodyLineList) -> Result<(), NoMemory>
    requires opened { IsOpen m.old unit }
    requires within { Each (IsLineWithin m.old unit.0) lines }
    requires fit { LinesFit (unit_text_at m.old unit.0) (map (body_line_at m.old unit.0) lines) }
    ensures { IfOk result (λ _. Becomes m.old m.new unit (with_lines (map (body_line_at m.old unit.0) lines) (unit_text_at m.old unit.0))) }
{
    for line in lines.into_vec() {
        let BodyLine { result, inst } = line;
        put_inst(m, unit, result, inst)?;
    }
    Ok(())
}

/// Adds an entity with the name and the arguments of a unit, which has no values yet.
pub fn put_body(m: &mut Module, from: &Module, unit: UnitId, body: Body) -> Result<(), NoMemory>
    requires there { unit.0 < unit_count from.now }
    requires units { SameUnits from.now m.old }
    requires no_values { value_count m.old unit.0 ≡ 0 }
    requires undefined { defines_unit (unit_name_at from.now unit.0) (contents m.old) ≡ false }
    requires body { CanPut (unit_text_at from.now unit.0) body }
    ensures { let t = unit_text_at from.now unit.0 in IfOk result (λ _. (lines : List LineText) → IsBody t.args body lines → AddsUnit m.old m.new unit.0 (entity_with t lines)) }
{
    let Body { names, lines } = body;
    // There is no memory for this many names.
    if names.len() > u32::MAX as usize {
        return Err(NoMemory);
    }
    name_all(m, unit, names.as_slice())?;
    begin(m, unit, UnitKind::Entity)?;
    put_args(m, from, unit)?;
    put_lines(m, unit, lines)
}
