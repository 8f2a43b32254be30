//! The steps to a part of an argument, as instructions.
ghost use Rattle.std.specs.Prelude.{◌≡◌, ◌<◌, ◌∷◌, [], length, IfOk};
ghost use Rattle.std.specs.Result.{IfErr};
ghost use Rattle.lh_types.specs.Types.{IsData, signal_type};
ghost use Rattle.lh_emit_body.specs.Lines.{LinesHaveRoom};
ghost use Rattle.lh_emit.specs.Operands.{with_type};
ghost use Rattle.lh_emit.specs.Steps.{AllData, Walks, WalksNot};

use crate::operands::signal;
use lh_emit_body::lines::{EmitFault, Lines};
use lh_emit_source::origin::{Route, RouteStep};
use lh_types::memory::NoMemory;
use lh_unit::inst::{Inst, OperandList, TypedList, ValueId};
use std::alloc::Global;

/// Emits steps from a value on; the value of the last one, or the value itself where there are none.
pub fn take_steps(
    alloc: Global,
    lines: &mut Lines,
    from: ValueId,
    route: &[RouteStep],
) -> Result<ValueId, EmitFault>
    requires room { LinesHaveRoom lines.old }
    requires within { from.0 < length lines.old.names }
    requires types { AllData route.now }
    ensures walks { IfOk result (λ v. Walks route.now lines.old from lines.new v []) }
    ensures cause { IfErr result (WalksNot route.now lines.old from) }
{
    let mut value = from;
    let mut left = route;
    while let [step, rest @ ..] = left {
        let inst = step_inst(alloc, value, step)?;
        value = lines.give(inst)?;
        left = rest;
    }
    Ok(value)
}

/// Puts the lines of a route that is needed no more; its steps are moved and not copied.
pub(crate) fn take_route(
    alloc: Global,
    lines: &mut Lines,
    from: ValueId,
    route: Route,
) -> Result<ValueId, EmitFault>
    requires room { LinesHaveRoom lines.old }
    requires within { from.0 < length lines.old.names }
    requires types { AllData route }
    ensures walks { IfOk result (λ v. Walks route lines.old from lines.new v []) }
    ensures cause { IfErr result (WalksNot route lines.old from) }
{
    take_steps(alloc, lines, from, route.as_slice())
}

/// The instruction of a step from a value.
fn step_inst(alloc: Global, from: ValueId, step: &RouteStep) -> Result<Inst, NoMemory>
    requires { IsData step.now.ty }
    ensures { IfOk result (λ inst. inst ≡ Inst.Pure step.now.op (with_type (signal_type step.now.ty) from ∷ [])) }
{
    let operand = signal(alloc, from, &step.ty)?;
    let mut args = TypedList::new(alloc);
    args.push(operand)?;
    let args = OperandList::from_list(args);
    Ok(Inst::Pure { op: step.op, args })
}
