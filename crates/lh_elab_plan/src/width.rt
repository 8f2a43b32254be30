//! How many bits a signal of a type has.
ghost use Rattle.std.specs.Prelude.{◌≡◌};
ghost use Rattle.lh_types.specs.Types.{bit_count};
ghost use Rattle.lh_unit.specs.Hierarchy.{type_or_void};

use lh_types::ty::{Ty, TyKind, bits};
use lh_types::written::WrittenTy;

/// How many bits a signal of a written type has.
pub fn width(ty: &WrittenTy) -> u32
    ensures { result ≡ bit_count (type_or_void ty.now) }
{
    match ty.get() {
        Some(ty) => width_of(ty),
        None => 0,
    }
}

/// How many bits a value of a type has, or what a signal of it carries; none has what carries no bits.
pub fn width_of(ty: &Ty) -> u32
    ensures { result ≡ bit_count ty.now }
{
    match ty.kind() {
        TyKind::Signal(of) => bits(of),
        TyKind::Time | TyKind::Void | TyKind::Pointer(_) => 0,
        _ => bits(ty),
    }
}
