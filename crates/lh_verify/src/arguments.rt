//! Fault 8: the arguments of `inst` and `call` differ from the parameters of the unit. And the result type that a
//! `call` writes, which fault 3 asks.
ghost use Rattle.std.specs.Prelude.{◌≡◌, ◌<◌, [], List, Some, not, map, filter, slice_get};
ghost use Rattle.lh_unit.specs.Contents.{OperandText, call_text, child_text};
ghost use Rattle.lh_unit.specs.Naming.{Naming, value_text, operand_text, arg_text, inst_text};
ghost use Rattle.lh_unit.specs.Within.{Each, ValueWithin, OperandWithin, InstWithin};
ghost use Rattle.lh_unit.specs.WellFormed as spec;
ghost use Rattle.lh_unit.specs.WellFormed.{arguments_fit, assert_args};
ghost use Rattle.lh_unit.specs.TypingRows.{has_type};
ghost use Rattle.lh_verify.specs.OperandTests.{on_side};
ghost use Rattle.lh_verify_values.specs.Numbers.{AreNumbersOf};
ghost use Rattle.lh_verify_values.specs.Facts.{IsScope, items_in, text_in, naming_in, sizes_in};

use crate::units::is_defined;
use lh_types::ty::Ty;
use lh_unit::inst::{Arg, Inst, Typed, UnitId, ValueId};
use lh_verify_types::has_bit;
use lh_verify_values::numbers::Numbered;
use lh_verify_values::scope::Scope;

/// The parameters among which an argument stands.
#[derive(Clone, Copy)]
enum Side {
    Inputs,
    Outputs,
    All,
}

fn is_on(side: Side, param: &Arg) -> bool
    ensures { (f : Naming) → result ≡ on_side side (arg_text f param.now) }
{
    match side {
        Side::Inputs => !param.output,
        Side::Outputs => param.output,
        Side::All => true,
    }
}

/// Whether arguments are as many as the parameters of one side, and of their types, which have these numbers.
fn side_fits(scope: &Scope<'_>, args: &[Typed], params: &[Arg], numbers: &[u32], side: Side) -> bool
    requires scope { IsScope scope.now }
    requires within { Each (OperandWithin (sizes_in scope.now)) args.now }
    requires numbers { AreNumbersOf scope.now.types.now params.now numbers.now }
    ensures { (f : Naming) → result ≡ arguments_fit (text_in scope.now) (map (operand_text (naming_in scope.now)) args.now) (filter (on_side side) (map (arg_text f) params.now)) }
{
    let mut rest = args;
    for (k, param) in params.iter().enumerate() {
        if is_on(side, param) {
            match rest.split_first() {
                Some((arg, more)) if has_param(scope, arg.value, param, numbers[k]) => rest = more,
                _ => return false,
            }
        }
    }
    fits_nothing(scope, rest)
}

/// Whether a value has the type of a parameter, which has this number.
fn has_param(scope: &Scope<'_>, value: ValueId, param: &Arg, number: u32) -> bool
    requires scope { IsScope scope.now }
    requires within { ValueWithin (sizes_in scope.now) value }
    requires number { slice_get scope.now.types.now number ≡ Some param.now.ty }
    ensures { result ≡ has_type (text_in scope.now) param.now.ty (value_text (naming_in scope.now) value) }
{
    let of = Numbered {
        ty: &param.ty,
        number,
    };
    scope.has_number(value, &of)
}

/// Whether there are no arguments, as there are no parameters.
fn fits_nothing(scope: &Scope<'_>, args: &[Typed]) -> bool
    ensures { result ≡ arguments_fit (text_in scope.now) (map (operand_text (naming_in scope.now)) args.now) [] }
{
    args.is_empty()
}

/// Whether arguments fit the one parameter of `@llhd.assert`.
fn fits_assert(scope: &Scope<'_>, args: &[Typed]) -> bool
    requires scope { IsScope scope.now }
    requires within { Each (OperandWithin (sizes_in scope.now)) args.now }
    ensures { result ≡ arguments_fit (text_in scope.now) (map (operand_text (naming_in scope.now)) args.now) assert_args }
{
    match args.split_first() {
        None => false,
        Some((arg, more)) => has_bit(scope, arg.value) && fits_nothing(scope, more),
    }
}

/// Whether the arguments of `inst` fit the inputs and outputs of a unit, where it is defined.
fn ports_fit(scope: &Scope<'_>, unit: UnitId, inputs: &[Typed], outputs: &[Typed]) -> bool
    requires scope { IsScope scope.now }
    requires unit { unit.0 < (sizes_in scope.now).units }
    requires inputs { Each (OperandWithin (sizes_in scope.now)) inputs.now }
    requires outputs { Each (OperandWithin (sizes_in scope.now)) outputs.now }
    ensures { let f = naming_in scope.now in not result ≡ spec.arguments_differ (items_in scope.now) (text_in scope.now) (child_text (f.unit_name unit.0) (map (operand_text f) inputs.now) (map (operand_text f) outputs.now)) }
{
    if scope.module.unit_name(unit).is_assert() {
        if !fits_assert(scope, inputs) {
            return false;
        }
        return fits_nothing(scope, outputs);
    }
    if !is_defined(scope, unit) {
        return true;
    }
    let params = scope.module.args(unit);
    let numbers = scope.params_of(unit);
    if !side_fits(scope, inputs, params, numbers, Side::Inputs) {
        return false;
    }
    side_fits(scope, outputs, params, numbers, Side::Outputs)
}

/// Whether the arguments of `call` fit the parameters of a unit, where it is defined.
fn call_fits(scope: &Scope<'_>, unit: UnitId, ty: &Ty, args: &[Typed]) -> bool
    requires scope { IsScope scope.now }
    requires unit { unit.0 < (sizes_in scope.now).units }
    requires args { Each (OperandWithin (sizes_in scope.now)) args.now }
    ensures { let f = naming_in scope.now in not result ≡ spec.arguments_differ (items_in scope.now) (text_in scope.now) (call_text (f.unit_name unit.0) ty.now (map (operand_text f) args.now)) }
{
    if scope.module.unit_name(unit).is_assert() {
        return fits_assert(scope, args);
    }
    if !is_defined(scope, unit) {
        return true;
    }
    let params = scope.module.args(unit);
    side_fits(scope, args, params, scope.params_of(unit), Side::All)
}

/// Whether the arguments of an instruction differ from the parameters of the unit that it names.
pub fn arguments_differ(scope: &Scope<'_>, inst: &Inst) -> bool
    requires scope { IsScope scope.now }
    requires within { InstWithin (sizes_in scope.now) inst.now }
    ensures { result ≡ spec.arguments_differ (items_in scope.now) (text_in scope.now) (inst_text (naming_in scope.now) inst.now) }
{
    match inst {
        Inst::Child {
            unit,
            inputs,
            outputs,
        } => !ports_fit(scope, *unit, inputs.as_slice(), outputs.as_slice()),
        Inst::Call { unit, result, args } => !call_fits(scope, *unit, result, args.as_slice()),
        _ => false,
    }
}

/// Whether the type that a `call` writes is the result of the function, where it is defined.
fn call_result_fits(scope: &Scope<'_>, unit: UnitId, ty: &Ty) -> bool
    requires scope { IsScope scope.now }
    requires unit { unit.0 < (sizes_in scope.now).units }
    ensures { (args : List OperandText) → result ≡ spec.result_fits (items_in scope.now) (call_text ((naming_in scope.now).unit_name unit.0) ty.now args) }
{
    if scope.module.unit_name(unit).is_assert() {
        return ty.is_void();
    }
    match scope.module.result(unit) {
        Some(of) => *ty == *of,
        None => true,
    }
}

/// Whether the type that a `call` writes is the result of the function; true of any other instruction.
pub fn result_fits(scope: &Scope<'_>, inst: &Inst) -> bool
    requires scope { IsScope scope.now }
    requires within { InstWithin (sizes_in scope.now) inst.now }
    ensures { result ≡ spec.result_fits (items_in scope.now) (inst_text (naming_in scope.now) inst.now) }
{
    match inst {
        Inst::Call { unit, result, .. } => call_result_fits(scope, *unit, result),
        _ => true,
    }
}
