//! Fault 3: the types and the written numbers fit the row of an instruction.
ghost use Rattle.std.specs.Prelude.{◌≡◌, ◌&&◌, Some, None, map};
ghost use Rattle.std.specs.List.{list_all};
ghost use Rattle.lh_unit.specs.Contents.{st_text, drv_text, reg_text, phi_text, ret_text};
ghost use Rattle.lh_unit.specs.Naming.{value_text, maybe_text, operand_text, trigger_text, edge_text, inst_text};
ghost use Rattle.lh_unit.specs.TypingRows as spec;
ghost use Rattle.lh_unit.specs.Within.{Each, ValueWithin, MaybeWithin, OperandWithin, TriggerWithin, EdgeWithin, InstWithin};
ghost use Rattle.lh_verify_types.specs.Fitting.{carried_fits, edge_fits as text_edge_fits};
ghost use Rattle.lh_verify_values.specs.Numbers.{IsNumbered};
ghost use Rattle.lh_verify_values.specs.Facts.{IsScope, text_in, naming_in, sizes_in};

use crate::operands::{
    all_agree, has_bit, has_carried, has_data_type, has_pointed, has_pointer_type, has_result_type,
    has_signal_type, has_time, has_type, has_value_type, may_have_bit, may_have_time,
};
use crate::operations::operation_fits;
use lh_types::ty::{Ty, TyKind};
use lh_unit::inst::{Inst, PhiEdge, RegTrigger, Typed, ValueId};
use lh_verify_values::numbers::Numbered;
use lh_verify_values::scope::Scope;

/// Whether the types and the written numbers of an instruction fit its row. The arguments of `inst` and `call` are
/// compared with their unit elsewhere.
pub fn types_fit(scope: &Scope<'_>, inst: &Inst) -> bool
    requires scope { IsScope scope.now }
    requires within { InstWithin (sizes_in scope.now) inst.now }
    ensures { result ≡ spec.types_fit (text_in scope.now) (inst_text (naming_in scope.now) inst.now) }
{
    match inst {
        Inst::Const(_) | Inst::Br(_) | Inst::Halt => true,
        Inst::Pure { op, args } => operation_fits(scope, *op, args.as_slice()),
        Inst::Var(of) => has_value_type(scope, of),
        Inst::Ld(from) => has_pointer_type(scope, from),
        Inst::St { to, value } => store_fits(scope, to, *value),
        Inst::Sig(of) => has_data_type(scope, of),
        Inst::Prb(of) => has_signal_type(scope, of),
        Inst::Drv {
            to,
            value,
            after,
            cond,
        } => drive_fits(scope, to, *value, *after, *cond),
        Inst::Reg { to, triggers } => register_fits(scope, to, triggers.as_slice()),
        Inst::Child {
            unit: _,
            inputs,
            outputs,
        } => ports_fit(scope, inputs.as_slice(), outputs.as_slice()),
        Inst::Call {
            unit: _,
            result: _,
            args,
        } => all_agree(scope, args.as_slice()),
        Inst::Phi { ty, edges } => phi_fits(scope, ty, edges.as_slice()),
        Inst::Branch {
            cond,
            zero: _,
            one: _,
        } => has_bit(scope, *cond),
        Inst::Wait {
            to: _,
            after,
            signals: _,
        } => may_have_time(scope, *after),
        Inst::Ret(None) => returns_nothing(scope),
        Inst::Ret(Some(value)) => returns_value(scope, value),
    }
}

/// `st`: a pointer, and a value of the type that it points to.
fn store_fits(scope: &Scope<'_>, to: &Typed, value: ValueId) -> bool
    requires scope { IsScope scope.now }
    requires to { OperandWithin (sizes_in scope.now) to.now }
    requires value { ValueWithin (sizes_in scope.now) value }
    ensures { let f = naming_in scope.now in result ≡ spec.types_fit (text_in scope.now) (st_text (operand_text f to.now) (value_text f value)) }
{
    if !has_pointer_type(scope, to) {
        return false;
    }
    has_pointed(scope, to, value)
}

/// `drv`: a signal, a value of the type that it carries, a delay, and a truth value if there is a condition.
fn drive_fits(
    scope: &Scope<'_>,
    to: &Typed,
    value: ValueId,
    after: ValueId,
    cond: Option<ValueId>,
) -> bool
    requires scope { IsScope scope.now }
    requires to { OperandWithin (sizes_in scope.now) to.now }
    requires value { ValueWithin (sizes_in scope.now) value }
    requires after { ValueWithin (sizes_in scope.now) after }
    requires cond { MaybeWithin (sizes_in scope.now) cond }
    ensures { let f = naming_in scope.now in result ≡ spec.types_fit (text_in scope.now) (drv_text (operand_text f to.now) (value_text f value) (value_text f after) (maybe_text f cond)) }
{
    if !has_signal_type(scope, to) {
        return false;
    }
    if !has_carried(scope, to, value) {
        return false;
    }
    if !has_time(scope, after) {
        return false;
    }
    may_have_bit(scope, cond)
}

/// One trigger of `reg`: a value of the type that the signal carries, truth values, and a delay if there is one.
fn trigger_fits(scope: &Scope<'_>, carried: &Numbered<'_>, trigger: RegTrigger) -> bool
    requires scope { IsScope scope.now }
    requires carried { IsNumbered scope.now.types.now carried.now }
    requires trigger { TriggerWithin (sizes_in scope.now) trigger }
    ensures { result ≡ carried_fits (text_in scope.now) carried.now.ty.now (trigger_text (naming_in scope.now) trigger) }
{
    if !scope.has_number(trigger.value, carried) {
        return false;
    }
    if !has_bit(scope, trigger.trigger) {
        return false;
    }
    if !may_have_bit(scope, trigger.gate) {
        return false;
    }
    may_have_time(scope, trigger.after)
}

/// The triggers of a signal that carries this type.
fn carried_triggers_fit(scope: &Scope<'_>, carried: &Numbered<'_>, triggers: &[RegTrigger]) -> bool
    requires scope { IsScope scope.now }
    requires carried { IsNumbered scope.now.types.now carried.now }
    requires triggers { Each (TriggerWithin (sizes_in scope.now)) triggers.now }
    ensures { result ≡ list_all (carried_fits (text_in scope.now) carried.now.ty.now) (map (trigger_text (naming_in scope.now)) triggers.now) }
{
    for trigger in triggers {
        if !trigger_fits(scope, carried, *trigger) {
            return false;
        }
    }
    true
}

/// Whether triggers fit a type, whose number is that of the first value's type.
fn typed_triggers_fit(scope: &Scope<'_>, ty: &Ty, triggers: &[RegTrigger]) -> bool
    requires scope { IsScope scope.now }
    requires triggers { Each (TriggerWithin (sizes_in scope.now)) triggers.now }
    ensures { result ≡ list_all (carried_fits (text_in scope.now) ty.now) (map (trigger_text (naming_in scope.now)) triggers.now) }
{
    match triggers.split_first() {
        None => true,
        Some((first, _)) => match scope.number_if(first.value, ty) {
            None => false,
            Some(number) => carried_triggers_fit(scope, &Numbered { ty, number }, triggers),
        },
    }
}

/// `reg`: a signal, and triggers that fit it.
fn register_fits(scope: &Scope<'_>, to: &Typed, triggers: &[RegTrigger]) -> bool
    requires scope { IsScope scope.now }
    requires to { OperandWithin (sizes_in scope.now) to.now }
    requires triggers { Each (TriggerWithin (sizes_in scope.now)) triggers.now }
    ensures { let f = naming_in scope.now in result ≡ spec.types_fit (text_in scope.now) (reg_text (operand_text f to.now) (map (trigger_text f) triggers.now)) }
{
    match to.ty.get() {
        None => false,
        Some(ty) => match ty.kind() {
            TyKind::Signal(of) => {
                if !has_type(scope, to.value, ty) {
                    return false;
                }
                typed_triggers_fit(scope, of, triggers)
            }
            _ => false,
        },
    }
}

/// `inst`: each argument agrees with what is written before it.
fn ports_fit(scope: &Scope<'_>, inputs: &[Typed], outputs: &[Typed]) -> bool
    requires scope { IsScope scope.now }
    requires inputs { Each (OperandWithin (sizes_in scope.now)) inputs.now }
    requires outputs { Each (OperandWithin (sizes_in scope.now)) outputs.now }
    ensures { let f = naming_in scope.now in result ≡ (spec.all_agree (text_in scope.now) (map (operand_text f) inputs.now) && spec.all_agree (text_in scope.now) (map (operand_text f) outputs.now)) }
{
    if !all_agree(scope, inputs) {
        return false;
    }
    all_agree(scope, outputs)
}

/// Whether each operand has this type.
fn edges_have(scope: &Scope<'_>, of: &Numbered<'_>, edges: &[PhiEdge]) -> bool
    requires scope { IsScope scope.now }
    requires number { IsNumbered scope.now.types.now of.now }
    requires edges { Each (EdgeWithin (sizes_in scope.now)) edges.now }
    ensures { result ≡ list_all (text_edge_fits (text_in scope.now) of.now.ty.now) (map (edge_text (naming_in scope.now)) edges.now) }
{
    for edge in edges {
        if !scope.has_number(edge.value, of) {
            return false;
        }
    }
    true
}

/// Whether edges fit a type, whose number is that of the first operand's type.
fn edges_fit(scope: &Scope<'_>, ty: &Ty, edges: &[PhiEdge]) -> bool
    requires scope { IsScope scope.now }
    requires edges { Each (EdgeWithin (sizes_in scope.now)) edges.now }
    ensures { result ≡ list_all (text_edge_fits (text_in scope.now) ty.now) (map (edge_text (naming_in scope.now)) edges.now) }
{
    match edges.split_first() {
        None => true,
        Some((first, _)) => match scope.number_if(first.value, ty) {
            None => false,
            Some(number) => edges_have(scope, &Numbered { ty, number }, edges),
        },
    }
}

/// `phi`: a data type or time, which each operand has.
fn phi_fits(scope: &Scope<'_>, ty: &Ty, edges: &[PhiEdge]) -> bool
    requires scope { IsScope scope.now }
    requires edges { Each (EdgeWithin (sizes_in scope.now)) edges.now }
    ensures { result ≡ spec.types_fit (text_in scope.now) (phi_text ty.now (map (edge_text (naming_in scope.now)) edges.now)) }
{
    if !ty.is_value_type() {
        return false;
    }
    edges_fit(scope, ty, edges)
}

/// `ret` without a value, which fits a function whose result is `void`.
fn returns_nothing(scope: &Scope<'_>) -> bool
    requires scope { IsScope scope.now }
    ensures { result ≡ spec.types_fit (text_in scope.now) (ret_text None) }
{
    match scope.result_type() {
        Some(ty) => ty.is_void(),
        None => true,
    }
}

/// `ret` with a value, which has the result type of the function.
fn returns_value(scope: &Scope<'_>, value: &Typed) -> bool
    requires scope { IsScope scope.now }
    requires value { OperandWithin (sizes_in scope.now) value.now }
    ensures { result ≡ spec.types_fit (text_in scope.now) (ret_text (Some (operand_text (naming_in scope.now) value.now))) }
{
    match scope.result_type() {
        Some(ty) => has_result_type(scope, value, ty),
        None => true,
    }
}
