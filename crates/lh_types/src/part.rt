//! Parts of a data type: by steps from the whole, and as a range of its bits.
ghost use Rattle.std.specs.Prelude.{◌≡◌, ◌+◌, ◌≤◌, ◌&&◌, nat_le, option_map};
ghost use Rattle.lh_types.specs.Types.{IsData, AreData, bit_count, bit_count_row, row_of};
ghost use Rattle.lh_types.specs.Kind.{type_of_kind};
ghost use Rattle.lh_types.specs.Parts.{range_of, step_part, field_part};
ghost use Rattle.lh_types.specs.PartViews.{part_of_view};

use crate::list::ListOf;
use crate::ty::{Ty, TyKind, bits, bits_of_fields};

/// A step from a data type into a part of it.
#[derive(Clone, Copy, Debug, PartialEq, Eq)]
pub enum Step {
    /// The element of an array, or the field of a struct, of this number from 0.
    Field(u32),
    /// The `len` bits of an integer, or elements of an array, from `at` on; `len` is at least 1.
    Slice { at: u32, len: u32 },
}

/// A range of bits: `len` bits from bit `lo` on.
#[derive(Clone, Copy, Debug, PartialEq, Eq)]
pub struct Range {
    pub lo: u32,
    pub len: u32,
}

/// A list of ranges.
pub type RangeList = ListOf<Range>;

/// The bits of the part of `t` that the steps lead to, each from the part before it.
///
/// `None` exactly where a step does not fit: a field past the end or of what has none, or a slice
/// that is empty, ends outside, or is of a struct.
pub fn range_of(t: &Ty, steps: &[Step]) -> Option<Range>
    requires { IsData t.now }
    ensures { result ≡ range_of t.now steps.now }
{
    let mut part = PartView {
        lo: 0,
        of: t.kind(),
    };
    for step in steps {
        let next = step_into(part.of, *step)?;
        part = PartView {
            lo: part.lo + next.lo,
            of: next.of,
        };
    }
    Some(Range {
        lo: part.lo,
        len: width(part.of),
    })
}

/// A part on the way: its lowest bit within the whole, and one level of its type.
#[derive(Clone, Copy)]
struct PartView<'a> {
    lo: u32,
    of: TyKind<'a>,
}

/// The part that one step leads to.
fn step_into(of: TyKind<'_>, step: Step) -> Option<PartView<'_>>
    requires { IsData (type_of_kind of) }
    ensures { option_map part_of_view result ≡ step_part (type_of_kind of.entry) step }
{
    match (of, step) {
        (TyKind::Array(n, t), Step::Field(k)) if k < n => Some(PartView {
            lo: k * bits(t),
            of: t.kind(),
        }),
        (TyKind::Tuple(fields), Step::Field(k)) => field(fields, k),
        (TyKind::Int(n), Step::Slice { at, len }) if is_slice(n, at, len) => Some(PartView {
            lo: at,
            of: TyKind::Int(len),
        }),
        (TyKind::Array(n, t), Step::Slice { at, len }) if is_slice(n, at, len) => Some(PartView {
            lo: at * bits(t),
            of: TyKind::Array(len, t),
        }),
        _ => None,
    }
}

/// Whether `len` items from `at` on are some, and within `n` items.
pub fn is_slice(n: u32, at: u32, len: u32) -> bool
    ensures { result ≡ (nat_le 1 len && nat_le (at + len) n) }
{
    1 <= len && at <= n && len <= n - at
}

/// Field `k` of a struct.
fn field(fields: &[Ty], k: u32) -> Option<PartView<'_>>
    requires data { AreData (row_of fields.now) }
    requires narrow { bit_count_row (row_of fields.now) ≤ 65536 }
    ensures { option_map part_of_view result ≡ field_part (row_of fields.now) k }
{
    let mut lo = 0;
    for (i, t) in fields.iter().enumerate() {
        if i == k as usize {
            return Some(PartView { lo, of: t.kind() });
        }
        lo += bits(t);
    }
    None
}

/// How many bits a value of a data type has.
fn width(of: TyKind<'_>) -> u32
    requires { IsData (type_of_kind of) }
    ensures { result ≡ bit_count (type_of_kind of.entry) }
{
    match of {
        TyKind::Int(n) => n,
        TyKind::Array(n, t) => n * bits(t),
        TyKind::Tuple(fields) => bits_of_fields(fields),
        _ => unreachable!(),
    }
}
