//! The units that instructions name.
ghost use Rattle.std.specs.Prelude.{◌≡◌, ◌<◌, ◌||◌, not};
ghost use Rattle.std.specs.Option.{is_some};
ghost use Rattle.lh_unit.specs.Arena.{IsArena, kind_at};
ghost use Rattle.lh_unit.specs.Contents.{defines_unit};
ghost use Rattle.lh_unit_names.specs.UnitNames.{is_assert};
ghost use Rattle.lh_unit.specs.WellFormed.{is_function_name};
ghost use Rattle.lh_verify.specs.OperandTests.{is_function_kind};
ghost use Rattle.lh_verify_values.specs.Facts.{IsScope, items_in, naming_in, sizes_in};

use lh_unit::inst::{UnitId, UnitKind};
use lh_verify_values::scope::Scope;

/// Whether a unit is defined.
pub fn is_defined(scope: &Scope<'_>, unit: UnitId) -> bool
    requires { unit.0 < (sizes_in scope.now).units }
    ensures defined { result ≡ is_some (kind_at scope.now.module.now unit.0) }
    ensures sound { IsArena scope.now.module.now }
{
    scope.module.kind(unit).is_some()
}

/// Whether a unit is defined nowhere, and is not `@llhd.assert`.
pub fn is_missing(scope: &Scope<'_>, unit: UnitId) -> bool
    requires scope { IsScope scope.now }
    requires within { unit.0 < (sizes_in scope.now).units }
    ensures { let n = (naming_in scope.now).unit_name unit.0 in result ≡ not (defines_unit n (items_in scope.now) || is_assert n) }
{
    if is_defined(scope, unit) {
        return false;
    }
    !scope.module.unit_name(unit).is_assert()
}

/// Whether a unit is a defined function, or `@llhd.assert`.
pub fn names_function(scope: &Scope<'_>, unit: UnitId) -> bool
    requires scope { IsScope scope.now }
    requires within { unit.0 < (sizes_in scope.now).units }
    ensures { result ≡ is_function_name (items_in scope.now) ((naming_in scope.now).unit_name unit.0) }
{
    if is_function(scope.module.kind(unit)) {
        return true;
    }
    scope.module.unit_name(unit).is_assert()
}

/// Whether a unit of this kind is a function.
fn is_function(kind: Option<UnitKind>) -> bool
    ensures { result ≡ is_function_kind kind }
{
    matches!(kind, Some(UnitKind::Func))
}
