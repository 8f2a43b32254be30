//! Fault 2: an operand is of another of the four kinds than its row needs. And of no kind at all, which fault 3 asks.
ghost use Rattle.std.specs.Prelude.{◌≡◌, map};
ghost use Rattle.std.specs.List.{list_any};
ghost use Rattle.lh_unit.specs.Kinds.{takes as takes_kind};
ghost use Rattle.lh_unit.specs.WellFormed as spec;
ghost use Rattle.lh_unit.specs.Within.{Each};
ghost use Rattle.lh_verify.specs.OperandTests.{names_nothing as use_names_nothing};
ghost use Rattle.lh_verify_operands.specs.Operands.{UseWithin};
ghost use Rattle.lh_verify_values.specs.Facts.{IsScope, kind_as, text_in, naming_in, sizes_in};
ghost use Rattle.lh_verify_operands.specs.Uses.{use_text, need_as};

use lh_verify_operands::uses::{Need, Use};
use lh_verify_values::scope::{Scope, ValueKind};

/// Whether a place takes a value of this kind.
fn takes(need: Need, kind: ValueKind) -> bool
    ensures { result ≡ takes_kind (need_as need) (kind_as kind) }
{
    match (need, kind) {
        (Need::Data, ValueKind::Datum)
        | (Need::Time, ValueKind::Time)
        | (Need::Signal, ValueKind::Signal)
        | (Need::Pointer, ValueKind::Pointer)
        | (Need::DataOrTime, ValueKind::Datum)
        | (Need::DataOrTime, ValueKind::Time)
        | (Need::DataOrSignal, ValueKind::Datum)
        | (Need::DataOrSignal, ValueKind::Signal) => true,
        _ => false,
    }
}

/// Whether an operand is of one of the four kinds, and its row takes another.
fn has_wrong_kind(scope: &Scope<'_>, operand: Use) -> bool
    requires scope { IsScope scope.now }
    requires within { UseWithin (sizes_in scope.now) operand }
    ensures { result ≡ spec.has_wrong_kind (text_in scope.now) (use_text (naming_in scope.now) operand) }
{
    match scope.kind_of(operand.value) {
        Some(kind) => !takes(operand.need, kind),
        None => false,
    }
}

/// Whether an operand is of none of the four kinds.
fn has_no_kind(scope: &Scope<'_>, operand: Use) -> bool
    requires scope { IsScope scope.now }
    requires within { UseWithin (sizes_in scope.now) operand }
    ensures { result ≡ spec.has_no_kind (text_in scope.now) (use_text (naming_in scope.now) operand) }
{
    scope.kind_of(operand.value).is_none()
}

/// Whether the value of an operand is defined nowhere in the unit.
fn names_nothing(scope: &Scope<'_>, operand: Use) -> bool
    requires scope { IsScope scope.now }
    requires within { UseWithin (sizes_in scope.now) operand }
    ensures { result ≡ use_names_nothing (text_in scope.now) (use_text (naming_in scope.now) operand) }
{
    !scope.defines(operand.value)
}

/// Whether some operand is of another kind than its row takes.
pub fn any_has_wrong_kind(scope: &Scope<'_>, operands: &[Use]) -> bool
    requires scope { IsScope scope.now }
    requires within { Each (UseWithin (sizes_in scope.now)) operands.now }
    ensures { result ≡ list_any (spec.has_wrong_kind (text_in scope.now)) (map (use_text (naming_in scope.now)) operands.now) }
{
    for operand in operands {
        if has_wrong_kind(scope, *operand) {
            return true;
        }
    }
    false
}

/// Whether some operand is of no kind.
pub fn any_has_no_kind(scope: &Scope<'_>, operands: &[Use]) -> bool
    requires scope { IsScope scope.now }
    requires within { Each (UseWithin (sizes_in scope.now)) operands.now }
    ensures { result ≡ list_any (spec.has_no_kind (text_in scope.now)) (map (use_text (naming_in scope.now)) operands.now) }
{
    for operand in operands {
        if has_no_kind(scope, *operand) {
            return true;
        }
    }
    false
}

/// Whether the value of some operand is defined nowhere in the unit.
pub fn any_names_nothing(scope: &Scope<'_>, operands: &[Use]) -> bool
    requires scope { IsScope scope.now }
    requires within { Each (UseWithin (sizes_in scope.now)) operands.now }
    ensures { result ≡ list_any (use_names_nothing (text_in scope.now)) (map (use_text (naming_in scope.now)) operands.now) }
{
    for operand in operands {
        if names_nothing(scope, *operand) {
            return true;
        }
    }
    false
}
