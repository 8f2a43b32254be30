//! The rows of the operations, by the type that is written first.
ghost use Rattle.std.specs.Prelude.{◌≡◌, map};
ghost use Rattle.std.specs.List.{list_all};
ghost use Rattle.lh_unit.specs.Naming.{operand_text};
ghost use Rattle.lh_unit.specs.Typing.{first_type};
ghost use Rattle.lh_unit.specs.TypingRows as spec;
ghost use Rattle.lh_unit.specs.TypingRows.{shifts, selects, class_row, operation_row};
ghost use Rattle.lh_unit.specs.Within.{Each, OperandWithin};
ghost use Rattle.lh_verify_types.specs.Fitting.{field_fits as text_field_fits};
ghost use Rattle.lh_verify_values.specs.Facts.{IsScope, text_in, naming_in, sizes_in};

use crate::operands::{agrees, all_have, has_and_agrees, has_array_of, has_integer, has_type};
use crate::types::is_part_of;
use lh_types::op::{Op, OpClass};
use lh_types::part::Step;
use lh_types::ty::{Ty, carries_data};
use lh_unit::inst::Typed;
use lh_verify_values::scope::Scope;

/// Whether the operands fit the row of their operation.
pub fn operation_fits(scope: &Scope<'_>, op: Op, args: &[Typed]) -> bool
    requires scope { IsScope scope.now }
    requires within { Each (OperandWithin (sizes_in scope.now)) args.now }
    ensures { let os = map (operand_text (naming_in scope.now)) args.now in result ≡ spec.operation_fits (text_in scope.now) (operation_row op) (first_type os) os }
{
    match args.split_first() {
        None => false,
        Some((first, _)) => match first.ty.get() {
            None => false,
            Some(ty) => row_fits(scope, op.class(), ty, args),
        },
    }
}

/// Whether the operands fit the row of their class, by the type that is written first.
fn row_fits(scope: &Scope<'_>, class: OpClass, ty: &Ty, args: &[Typed]) -> bool
    requires scope { IsScope scope.now }
    requires within { Each (OperandWithin (sizes_in scope.now)) args.now }
    ensures { result ≡ spec.row_fits (text_in scope.now) (class_row class) ty.now (map (operand_text (naming_in scope.now)) args.now) }
{
    match class {
        OpClass::Unary | OpClass::Binary | OpClass::Relation => {
            ty.is_integer() && all_have(scope, ty, args)
        }
        OpClass::Equality | OpClass::Array | OpClass::Repeat(_) => {
            carries_data(ty) && all_have(scope, ty, args)
        }
        OpClass::Shift => shift_fits(scope, ty, args),
        OpClass::Select => mux_fits(scope, ty, args),
        OpClass::TakePart(step) => part_fits(scope, step, ty, args),
        OpClass::PutPart(step) => insertion_fits(scope, step, ty, args),
        OpClass::Tuple => fields_fit(scope, args),
    }
}

/// `shl` and `shr`: the first two operands of the type, the third an integer.
fn shift_fits(scope: &Scope<'_>, ty: &Ty, args: &[Typed]) -> bool
    requires scope { IsScope scope.now }
    requires within { Each (OperandWithin (sizes_in scope.now)) args.now }
    ensures { result ≡ spec.row_fits (text_in scope.now) shifts ty.now (map (operand_text (naming_in scope.now)) args.now) }
{
    match args {
        [base, hidden, amount] => {
            ty.is_integer()
                && has_and_agrees(scope, ty, base)
                && has_and_agrees(scope, ty, hidden)
                && has_integer(scope, amount.value)
                && agrees(scope, amount)
        }
        _ => false,
    }
}

/// `mux`: an array of the type, and an integer.
fn mux_fits(scope: &Scope<'_>, ty: &Ty, args: &[Typed]) -> bool
    requires scope { IsScope scope.now }
    requires within { Each (OperandWithin (sizes_in scope.now)) args.now }
    ensures { result ≡ spec.row_fits (text_in scope.now) selects ty.now (map (operand_text (naming_in scope.now)) args.now) }
{
    match args {
        [array, selector] => {
            carries_data(ty)
                && has_array_of(scope, array.value, ty)
                && has_integer(scope, selector.value)
        }
        _ => false,
    }
}

/// `extf` and `exts`: the part of the operand has the type.
fn part_fits(scope: &Scope<'_>, step: Step, ty: &Ty, args: &[Typed]) -> bool
    requires scope { IsScope scope.now }
    requires within { Each (OperandWithin (sizes_in scope.now)) args.now }
    ensures { result ≡ spec.row_fits (text_in scope.now) (spec.takes_part step) ty.now (map (operand_text (naming_in scope.now)) args.now) }
{
    match args {
        [whole] => match scope.type_of(whole.value) {
            Some(of) => is_part_of(of.kind(), step, ty),
            None => false,
        },
        _ => false,
    }
}

/// `insf` and `inss`: the first operand has the type, and the second that of the part.
fn insertion_fits(scope: &Scope<'_>, step: Step, ty: &Ty, args: &[Typed]) -> bool
    requires scope { IsScope scope.now }
    requires within { Each (OperandWithin (sizes_in scope.now)) args.now }
    ensures { result ≡ spec.row_fits (text_in scope.now) (spec.puts_part step) ty.now (map (operand_text (naming_in scope.now)) args.now) }
{
    match args {
        [whole, part] => {
            if !carries_data(ty) || !has_type(scope, whole.value, ty) {
                return false;
            }
            match scope.type_of(part.value) {
                Some(of) => is_part_of(ty.kind(), step, of),
                None => false,
            }
        }
        _ => false,
    }
}

/// A field of a struct: a data type is written before it, and it has the type.
fn field_fits(scope: &Scope<'_>, operand: &Typed) -> bool
    requires scope { IsScope scope.now }
    requires within { OperandWithin (sizes_in scope.now) operand.now }
    ensures { result ≡ text_field_fits (text_in scope.now) (operand_text (naming_in scope.now) operand.now) }
{
    match operand.ty.get() {
        Some(ty) => carries_data(ty) && has_type(scope, operand.value, ty),
        None => false,
    }
}

/// A struct: each field fits.
fn fields_fit(scope: &Scope<'_>, args: &[Typed]) -> bool
    requires scope { IsScope scope.now }
    requires within { Each (OperandWithin (sizes_in scope.now)) args.now }
    ensures { result ≡ list_all (text_field_fits (text_in scope.now)) (map (operand_text (naming_in scope.now)) args.now) }
{
    for operand in args {
        if !field_fits(scope, operand) {
            return false;
        }
    }
    true
}
