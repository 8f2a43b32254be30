//! Tests of the type of a part.
ghost use Rattle.std.specs.Prelude.{◌≡◌, ◌&&◌, false};
ghost use Rattle.std.specs.Option.{option_map_or};
ghost use Rattle.lh_types.specs.Types.{int_type, array_type, same_type, row_of};
ghost use Rattle.lh_types.specs.Kind.{type_of_kind};
ghost use Rattle.lh_types.specs.Parts.{step_part, field_part};
ghost use Rattle.lh_unit.specs.TypingRows.{part_type};
ghost use Rattle.lh_verify_types.specs.Parts.{is_part};

use lh_types::part::{Step, is_slice};
use lh_types::ty::{Ty, TyKind};

/// Whether the part of a data type that a step leads to has this type.
fn is_data_part(of: TyKind<'_>, step: Step, ty: &Ty) -> bool
    ensures { result ≡ is_part (step_part (type_of_kind of.entry) step) ty.now }
{
    match (of, step) {
        (TyKind::Array(n, element), Step::Field(k)) => k < n && *ty == *element,
        (TyKind::Tuple(fields), Step::Field(k)) => is_field_type(fields, k, ty),
        (TyKind::Int(n), Step::Slice { at, len }) => is_slice(n, at, len)
            && is_of_width(ty.kind(), len),
        (TyKind::Array(n, element), Step::Slice { at, len }) => {
            is_slice(n, at, len) && is_array(ty.kind(), len, element)
        }
        _ => false,
    }
}

fn is_of_width(ty: TyKind<'_>, width: u32) -> bool
    ensures { result ≡ same_type (type_of_kind ty.entry) (int_type width) }
{
    match ty {
        TyKind::Int(n) => n == width,
        _ => false,
    }
}

fn is_array(ty: TyKind<'_>, len: u32, of: &Ty) -> bool
    ensures { result ≡ same_type (type_of_kind ty.entry) (array_type len of.now) }
{
    match ty {
        TyKind::Array(n, element) => n == len && *element == *of,
        _ => false,
    }
}

/// Whether field `k` of a struct has this type.
fn is_field_type(fields: &[Ty], k: u32, ty: &Ty) -> bool
    ensures { result ≡ is_part (field_part (row_of fields.now) k) ty.now }
{
    if k as usize >= fields.len() {
        return false;
    }
    *ty == fields[k as usize]
}

/// Whether the part that a step leads to has this type; the part of a signal is a signal.
pub fn is_part_of(of: TyKind<'_>, step: Step, ty: &Ty) -> bool
    ensures { result ≡ option_map_or (same_type ty.now) (part_type step (type_of_kind of.entry)) false }
{
    match of {
        TyKind::Signal(carried) => match ty.kind() {
            TyKind::Signal(part) => is_data_part(carried.kind(), step, part),
            _ => false,
        },
        _ => is_data_part(of, step, ty),
    }
}
