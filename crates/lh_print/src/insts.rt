//! Instructions.
#![tactic(auto, using(crate::proofs::Joined::steps))]

ghost use Rattle.std.specs.Prelude.{◌≡◌, ◌<◌, ◌++◌, [], map};
ghost use Rattle.lh_text_buffer.specs.Writing.{Writes};
ghost use Rattle.lh_unit.specs.Contents.{st_text, drv_text, reg_text, child_text, call_text, phi_text, br_text, branch_text, wait_text, ret_text};
ghost use Rattle.lh_unit.specs.Arena.{unit_count, label_count, naming, sizes, inst_text_at, InstPlaced};
ghost use Rattle.lh_unit.specs.Within.{Each, InstWithin, OperandWithin, TriggerWithin, EdgeWithin, ValueWithin, MaybeWithin};
ghost use Rattle.lh_unit.specs.Naming.{operand_text, trigger_text, edge_text, value_text, maybe_text};
ghost use Rattle.lh_unit.specs.Pieces.{render, percent, keyword, ◌␣◌, ◌⸴◌};
ghost use Rattle.lh_unit.specs.Canon.{inst_pieces};
ghost use Rattle.lh_unit.specs.CanonTypes.{const_pieces};

use crate::names::{put_label, put_maybe, put_unit_name, put_value};
use crate::operands::{
    put_bracketed, put_edges, put_operand, put_operation, put_signals_behind, put_triggers_behind,
};
use crate::types::put_type;
use crate::values::put_const;
use lh_text_buffer::Text;
use lh_types::memory::NoMemory;
use lh_types::ty::Ty;
use lh_unit::constant::Constant;
use lh_unit::inst::{BlockId, Inst, PhiEdge, RegTrigger, Typed, UnitId, ValueId};
use lh_unit::view::UnitView;

/// Writes a constant.
fn put_constant(out: &mut Text, constant: &Constant)
    ensures { Writes out.old out.new (render (const_pieces constant.now)) }
{
    match constant.value() {
        Ok(value) => put_const(out, &value),
        Err(NoMemory) => out.abandon(),
    }
}

/// Writes `st V* %p, %v`.
fn put_store(out: &mut Text, view: UnitView<'_>, to: &Typed, value: ValueId)
    requires to { OperandWithin (sizes view.module.now view.unit.0) to.now }
    requires value { ValueWithin (sizes view.module.now view.unit.0) value }
    ensures { let f = naming view.entry.module.now view.entry.unit.0 in Writes out.old out.new (render (inst_pieces (st_text (operand_text f to.now) (value_text f value)))) }
{
    put_operand(out, b"st ", view, to);
    put_value(out, b", %", view, value);
}

/// Writes `, %v after %d`.
fn put_delayed(out: &mut Text, view: UnitView<'_>, value: ValueId, after: ValueId)
    requires value { ValueWithin (sizes view.module.now view.unit.0) value }
    requires after { ValueWithin (sizes view.module.now view.unit.0) after }
    ensures { let f = naming view.entry.module.now view.entry.unit.0 in Writes out.old out.new (render ([] ⸴ percent (value_text f value) ␣ keyword "after" ␣ percent (value_text f after))) }
{
    put_value(out, b", %", view, value);
    put_value(out, b" after %", view, after);
}

/// Writes `drv S %s, %v after %d if %c`.
fn put_drive(
    out: &mut Text,
    view: UnitView<'_>,
    to: &Typed,
    value: ValueId,
    after: ValueId,
    cond: Option<ValueId>,
)
    requires to { OperandWithin (sizes view.module.now view.unit.0) to.now }
    requires value { ValueWithin (sizes view.module.now view.unit.0) value }
    requires after { ValueWithin (sizes view.module.now view.unit.0) after }
    requires cond { MaybeWithin (sizes view.module.now view.unit.0) cond }
    ensures { let f = naming view.entry.module.now view.entry.unit.0 in Writes out.old out.new (render (inst_pieces (drv_text (operand_text f to.now) (value_text f value) (value_text f after) (maybe_text f cond)))) }
{
    put_operand(out, b"drv ", view, to);
    put_delayed(out, view, value, after);
    put_maybe(out, b"if", view, cond);
}

/// Writes `reg S %q, [%v, mode %t if %g after %d]`.
fn put_register(out: &mut Text, view: UnitView<'_>, to: &Typed, triggers: &[RegTrigger])
    requires to { OperandWithin (sizes view.module.now view.unit.0) to.now }
    requires triggers { Each (TriggerWithin (sizes view.module.now view.unit.0)) triggers.now }
    ensures { let f = naming view.entry.module.now view.entry.unit.0 in Writes out.old out.new (render (inst_pieces (reg_text (operand_text f to.now) (map (trigger_text f) triggers.now)))) }
{
    put_operand(out, b"reg ", view, to);
    put_triggers_behind(out, view, triggers);
}

/// Writes `inst @u (S1 %a1) -> (S2 %a2)`.
fn put_child(out: &mut Text, view: UnitView<'_>, unit: UnitId, inputs: &[Typed], outputs: &[Typed])
    requires unit { unit.0 < unit_count view.module.now }
    requires inputs { Each (OperandWithin (sizes view.module.now view.unit.0)) inputs.now }
    requires outputs { Each (OperandWithin (sizes view.module.now view.unit.0)) outputs.now }
    ensures { let f = naming view.entry.module.now view.entry.unit.0 in Writes out.old out.new (render (inst_pieces (child_text (f.unit_name unit.0) (map (operand_text f) inputs.now) (map (operand_text f) outputs.now)))) }
{
    put_unit_name(out, b"inst ", view.module().unit_name(unit));
    put_bracketed(out, b" (", view, inputs, b")");
    put_bracketed(out, b" -> (", view, outputs, b")");
}

/// Writes `call R @f (V1 %a1)`.
fn put_call(out: &mut Text, view: UnitView<'_>, unit: UnitId, result_type: &Ty, args: &[Typed])
    requires unit { unit.0 < unit_count view.module.now }
    requires args { Each (OperandWithin (sizes view.module.now view.unit.0)) args.now }
    ensures { let f = naming view.entry.module.now view.entry.unit.0 in Writes out.old out.new (render (inst_pieces (call_text (f.unit_name unit.0) result_type.now (map (operand_text f) args.now)))) }
{
    out.put(b"call ");
    put_type(out, result_type);
    put_unit_name(out, b" ", view.module().unit_name(unit));
    put_bracketed(out, b" (", view, args, b")");
}

/// Writes `phi V [%v, %b]`.
fn put_phi(out: &mut Text, view: UnitView<'_>, ty: &Ty, edges: &[PhiEdge])
    requires { Each (EdgeWithin (sizes view.module.now view.unit.0)) edges.now }
    ensures { Writes out.old out.new (render (inst_pieces (phi_text ty.now (map (edge_text (naming view.entry.module.now view.entry.unit.0)) edges.now)))) }
{
    out.put(b"phi ");
    put_type(out, ty);
    out.put(b" ");
    put_edges(out, view, edges);
}

/// Writes `br %c, %f, %t`.
fn put_branch(out: &mut Text, view: UnitView<'_>, cond: ValueId, zero: BlockId, one: BlockId)
    requires cond { ValueWithin (sizes view.module.now view.unit.0) cond }
    requires zero { zero.0 < label_count view.module.now view.unit.0 }
    requires one { one.0 < label_count view.module.now view.unit.0 }
    ensures { let f = naming view.entry.module.now view.entry.unit.0 in Writes out.old out.new (render (inst_pieces (branch_text (value_text f cond) (f.label_name zero.0) (f.label_name one.0)))) }
{
    put_value(out, b"br %", view, cond);
    put_label(out, b", %", view, zero);
    put_label(out, b", %", view, one);
}

/// Writes `wait %b for %d, %s1, %s2`.
fn put_wait(
    out: &mut Text,
    view: UnitView<'_>,
    to: BlockId,
    after: Option<ValueId>,
    signals: &[ValueId],
)
    requires to { to.0 < label_count view.module.now view.unit.0 }
    requires after { MaybeWithin (sizes view.module.now view.unit.0) after }
    requires signals { Each (ValueWithin (sizes view.module.now view.unit.0)) signals.now }
    ensures { let f = naming view.entry.module.now view.entry.unit.0 in Writes out.old out.new (render (inst_pieces (wait_text (f.label_name to.0) (maybe_text f after) (map (value_text f) signals.now)))) }
{
    put_label(out, b"wait %", view, to);
    put_maybe(out, b"for", view, after);
    put_signals_behind(out, view, signals);
}

/// Writes an instruction, without its result.
pub fn put_inst(out: &mut Text, view: UnitView<'_>, inst: &Inst)
    requires placed { InstPlaced view.module.now view.unit.0 inst.now }
    ensures { Writes out.old out.new (render (inst_pieces (inst_text_at view.entry.module.now view.entry.unit.0 inst.now))) }
{
    match inst {
        Inst::Const(value) => put_constant(out, value),
        Inst::Pure { op, args } => put_operation(out, view, *op, args.as_slice()),
        Inst::Var(a) => put_operand(out, b"var ", view, a),
        Inst::Ld(p) => put_operand(out, b"ld ", view, p),
        Inst::St { to, value } => put_store(out, view, to, *value),
        Inst::Sig(a) => put_operand(out, b"sig ", view, a),
        Inst::Prb(s) => put_operand(out, b"prb ", view, s),
        Inst::Drv {
            to,
            value,
            after,
            cond,
        } => put_drive(out, view, to, *value, *after, *cond),
        Inst::Reg { to, triggers } => put_register(out, view, to, triggers.as_slice()),
        Inst::Child {
            unit,
            inputs,
            outputs,
        } => put_child(out, view, *unit, inputs.as_slice(), outputs.as_slice()),
        Inst::Call { unit, result, args } => put_call(out, view, *unit, result, args.as_slice()),
        Inst::Phi { ty, edges } => put_phi(out, view, ty, edges.as_slice()),
        Inst::Br(to) => put_label(out, b"br %", view, *to),
        Inst::Branch { cond, zero, one } => put_branch(out, view, *cond, *zero, *one),
        Inst::Wait { to, after, signals } => put_wait(out, view, *to, *after, signals.as_slice()),
        Inst::Halt => out.put(b"halt"),
        Inst::Ret(None) => out.put(b"ret"),
        Inst::Ret(Some(v)) => put_operand(out, b"ret ", view, v),
    }
}
