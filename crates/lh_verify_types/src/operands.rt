//! Tests of the type of an operand.
ghost use Rattle.std.specs.Prelude.{◌≡◌, ◌&&◌, map};
ghost use Rattle.std.specs.List.{list_all};
ghost use Rattle.lh_types.specs.Types.{time_type, same_type};
ghost use Rattle.lh_types.specs.Faults.{is_data};
ghost use Rattle.lh_unit.specs.Naming.{value_text, maybe_text, operand_text};
ghost use Rattle.lh_unit.specs.Typing.{is_value_type as test_value_type};
ghost use Rattle.lh_unit.specs.TypingRows as spec;
ghost use Rattle.lh_unit.specs.TypingRows.{bit, has_some_type, may_have_type, type_satisfies, driven_type, stored_type, written_fits};
ghost use Rattle.lh_unit.specs.Within.{Each, ValueWithin, MaybeWithin, OperandWithin};
ghost use Rattle.lh_verify_values.specs.Numbers.{IsNumbered};
ghost use Rattle.lh_verify_values.specs.Facts.{IsScope, text_in, naming_in, sizes_in};

use lh_types::ty::{Ty, TyKind, carries_data};
use lh_unit::inst::{Typed, ValueId};
use lh_verify_values::numbers::Numbered;
use lh_verify_values::scope::Scope;

/// Whether a value has this type.
pub fn has_type(scope: &Scope<'_>, value: ValueId, ty: &Ty) -> bool
    requires scope { IsScope scope.now }
    requires within { ValueWithin (sizes_in scope.now) value }
    ensures { result ≡ spec.has_type (text_in scope.now) ty.now (value_text (naming_in scope.now) value) }
{
    match scope.type_of(value) {
        Some(of) => *of == *ty,
        None => false,
    }
}

/// Whether a value has the type of a truth value.
pub fn has_bit(scope: &Scope<'_>, value: ValueId) -> bool
    requires scope { IsScope scope.now }
    requires within { ValueWithin (sizes_in scope.now) value }
    ensures { result ≡ spec.has_type (text_in scope.now) bit (value_text (naming_in scope.now) value) }
{
    match scope.type_of(value) {
        Some(of) => of.is_bit(),
        None => false,
    }
}

/// Whether a value has the type of delays.
pub fn has_time(scope: &Scope<'_>, value: ValueId) -> bool
    requires scope { IsScope scope.now }
    requires within { ValueWithin (sizes_in scope.now) value }
    ensures { result ≡ spec.has_type (text_in scope.now) time_type (value_text (naming_in scope.now) value) }
{
    match scope.type_of(value) {
        Some(of) => of.is_time(),
        None => false,
    }
}

/// Whether a value that may be absent has the type of a truth value.
pub fn may_have_bit(scope: &Scope<'_>, value: Option<ValueId>) -> bool
    requires scope { IsScope scope.now }
    requires within { MaybeWithin (sizes_in scope.now) value }
    ensures { result ≡ may_have_type (text_in scope.now) bit (maybe_text (naming_in scope.now) value) }
{
    match value {
        Some(value) => has_bit(scope, value),
        None => true,
    }
}

/// Whether a value that may be absent has the type of delays.
pub fn may_have_time(scope: &Scope<'_>, value: Option<ValueId>) -> bool
    requires scope { IsScope scope.now }
    requires within { MaybeWithin (sizes_in scope.now) value }
    ensures { result ≡ may_have_type (text_in scope.now) time_type (maybe_text (naming_in scope.now) value) }
{
    match value {
        Some(value) => has_time(scope, value),
        None => true,
    }
}

/// Whether a value is an integer of any width.
pub fn has_integer(scope: &Scope<'_>, value: ValueId) -> bool
    requires scope { IsScope scope.now }
    requires within { ValueWithin (sizes_in scope.now) value }
    ensures { result ≡ type_satisfies (text_in scope.now) spec.is_integer (value_text (naming_in scope.now) value) }
{
    match scope.type_of(value) {
        Some(of) => of.is_integer(),
        None => false,
    }
}

/// Whether a value is an array whose elements have this type.
pub fn has_array_of(scope: &Scope<'_>, value: ValueId, element: &Ty) -> bool
    requires scope { IsScope scope.now }
    requires within { ValueWithin (sizes_in scope.now) value }
    ensures { result ≡ type_satisfies (text_in scope.now) (spec.is_array_of element.now) (value_text (naming_in scope.now) value) }
{
    match scope.type_of(value) {
        Some(of) => of.is_array_of(element),
        None => false,
    }
}

/// Whether a type that is written before an operand is the operand's.
pub fn agrees(scope: &Scope<'_>, operand: &Typed) -> bool
    requires scope { IsScope scope.now }
    requires within { OperandWithin (sizes_in scope.now) operand.now }
    ensures { result ≡ spec.agrees (text_in scope.now) (operand_text (naming_in scope.now) operand.now) }
{
    match operand.ty.get() {
        Some(ty) => has_type(scope, operand.value, ty),
        None => true,
    }
}

/// Whether each operand agrees with what is written before it.
pub fn all_agree(scope: &Scope<'_>, operands: &[Typed]) -> bool
    requires scope { IsScope scope.now }
    requires within { Each (OperandWithin (sizes_in scope.now)) operands.now }
    ensures { result ≡ spec.all_agree (text_in scope.now) (map (operand_text (naming_in scope.now)) operands.now) }
{
    for operand in operands {
        if !agrees(scope, operand) {
            return false;
        }
    }
    true
}

/// Whether an operand has this type, and agrees with what is written before it.
pub fn has_and_agrees(scope: &Scope<'_>, ty: &Ty, operand: &Typed) -> bool
    requires scope { IsScope scope.now }
    requires within { OperandWithin (sizes_in scope.now) operand.now }
    ensures { let o = operand_text (naming_in scope.now) operand.now in result ≡ (spec.has_type (text_in scope.now) ty.now o.value && spec.agrees (text_in scope.now) o) }
{
    if !has_type(scope, operand.value, ty) {
        return false;
    }
    agrees(scope, operand)
}

/// Whether an operand has this type, whose number is known, and agrees with what is written.
fn has_number_and_agrees(scope: &Scope<'_>, of: &Numbered<'_>, operand: &Typed) -> bool
    requires scope { IsScope scope.now }
    requires number { IsNumbered scope.now.types.now of.now }
    requires within { OperandWithin (sizes_in scope.now) operand.now }
    ensures { let o = operand_text (naming_in scope.now) operand.now in result ≡ (spec.has_type (text_in scope.now) of.now.ty.now o.value && spec.agrees (text_in scope.now) o) }
{
    if !scope.has_number(operand.value, of) {
        return false;
    }
    agrees(scope, operand)
}

/// Whether each operand has this type, of which the number is known, and agrees with what is written before it.
fn all_have_number(scope: &Scope<'_>, of: &Numbered<'_>, operands: &[Typed]) -> bool
    requires scope { IsScope scope.now }
    requires number { IsNumbered scope.now.types.now of.now }
    requires within { Each (OperandWithin (sizes_in scope.now)) operands.now }
    ensures { result ≡ spec.all_have (text_in scope.now) of.now.ty.now (map (operand_text (naming_in scope.now)) operands.now) }
{
    for operand in operands {
        if !has_number_and_agrees(scope, of, operand) {
            return false;
        }
    }
    true
}

/// Whether each operand has this type, and agrees with what is written before it.
pub fn all_have(scope: &Scope<'_>, ty: &Ty, operands: &[Typed]) -> bool
    requires scope { IsScope scope.now }
    requires within { Each (OperandWithin (sizes_in scope.now)) operands.now }
    ensures { result ≡ spec.all_have (text_in scope.now) ty.now (map (operand_text (naming_in scope.now)) operands.now) }
{
    match operands.split_first() {
        None => true,
        Some((first, _)) => match scope.number_if(first.value, ty) {
            None => false,
            Some(number) => all_have_number(scope, &Numbered { ty, number }, operands),
        },
    }
}

/// Whether a value has the type that a signal carries, as it is written before the signal.
pub fn has_carried(scope: &Scope<'_>, to: &Typed, value: ValueId) -> bool
    requires scope { IsScope scope.now }
    requires within { ValueWithin (sizes_in scope.now) value }
    ensures { result ≡ has_some_type (text_in scope.now) (driven_type (operand_text (naming_in scope.now) to.now)) (value_text (naming_in scope.now) value) }
{
    match to.ty.get() {
        None => false,
        Some(ty) => match ty.kind() {
            TyKind::Signal(of) => has_type(scope, value, of),
            _ => false,
        },
    }
}

/// Whether a value has the type that a pointer points to, as it is written before the pointer.
pub fn has_pointed(scope: &Scope<'_>, to: &Typed, value: ValueId) -> bool
    requires scope { IsScope scope.now }
    requires within { ValueWithin (sizes_in scope.now) value }
    ensures { result ≡ has_some_type (text_in scope.now) (stored_type (operand_text (naming_in scope.now) to.now)) (value_text (naming_in scope.now) value) }
{
    match to.ty.get() {
        None => false,
        Some(ty) => match ty.kind() {
            TyKind::Pointer(of) => has_type(scope, value, of),
            _ => false,
        },
    }
}

/// Whether a data type or time is written before an operand, and the operand has it.
pub fn has_value_type(scope: &Scope<'_>, operand: &Typed) -> bool
    requires scope { IsScope scope.now }
    requires within { OperandWithin (sizes_in scope.now) operand.now }
    ensures { result ≡ written_fits (text_in scope.now) test_value_type (operand_text (naming_in scope.now) operand.now) }
{
    match operand.ty.get() {
        None => false,
        Some(ty) => ty.is_value_type() && has_type(scope, operand.value, ty),
    }
}

/// Whether a data type is written before an operand, and the operand has it.
pub fn has_data_type(scope: &Scope<'_>, operand: &Typed) -> bool
    requires scope { IsScope scope.now }
    requires within { OperandWithin (sizes_in scope.now) operand.now }
    ensures { result ≡ written_fits (text_in scope.now) is_data (operand_text (naming_in scope.now) operand.now) }
{
    match operand.ty.get() {
        None => false,
        Some(ty) => carries_data(ty) && has_type(scope, operand.value, ty),
    }
}

/// Whether a pointer is written before an operand, and the operand has this type.
pub fn has_pointer_type(scope: &Scope<'_>, operand: &Typed) -> bool
    requires scope { IsScope scope.now }
    requires within { OperandWithin (sizes_in scope.now) operand.now }
    ensures { result ≡ written_fits (text_in scope.now) spec.is_pointer (operand_text (naming_in scope.now) operand.now) }
{
    match operand.ty.get() {
        None => false,
        Some(ty) => ty.is_pointer() && has_type(scope, operand.value, ty),
    }
}

/// Whether a signal is written before an operand, and the operand has this type.
pub fn has_signal_type(scope: &Scope<'_>, operand: &Typed) -> bool
    requires scope { IsScope scope.now }
    requires within { OperandWithin (sizes_in scope.now) operand.now }
    ensures { result ≡ written_fits (text_in scope.now) spec.is_signal (operand_text (naming_in scope.now) operand.now) }
{
    match operand.ty.get() {
        None => false,
        Some(ty) => ty.is_signal() && has_type(scope, operand.value, ty),
    }
}

/// Whether the result type of a function is written before an operand, and the operand has it.
pub fn has_result_type(scope: &Scope<'_>, operand: &Typed, result_type: &Ty) -> bool
    requires scope { IsScope scope.now }
    requires within { OperandWithin (sizes_in scope.now) operand.now }
    ensures { result ≡ written_fits (text_in scope.now) (λ t. test_value_type t && same_type t result_type.now) (operand_text (naming_in scope.now) operand.now) }
{
    match operand.ty.get() {
        None => false,
        Some(ty) => {
            ty.is_value_type() && *ty == *result_type && has_type(scope, operand.value, ty)
        }
    }
}
