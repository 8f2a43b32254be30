//! The type of a value, and of what a row gives.
ghost use Rattle.std.specs.Prelude.{◌≡◌, IfOk};
ghost use Rattle.lh_types.specs.Values.{array_value, tuple_value, data_row};
ghost use Rattle.lh_types.specs.ValueOf.{datum_of};
ghost use Rattle.lh_types.specs.Types.{row_of};
ghost use Rattle.lh_term.specs.Types as spec;

use lh_types::ty::{Ty, TyFault, TyKind, TyList};
use lh_types::val::{Val, ValList};
use std::alloc::Global;

/// The type of a value; the fault of its type where it is of none.
#[cycle(value_type)]
pub(crate) fn value_type(alloc: Global, v: &Val) -> Result<Ty, TyFault>
    ensures { IfOk result (λ t. t ≡ spec.value_type (datum_of v.now)) }
{
    match v {
        Val::Int { width, .. } => Ty::int(*width),
        Val::Time(_) => Ok(Ty::time()),
        Val::Array(vs) => array_type(alloc, vs),
        Val::Tuple(vs) => tuple_type(alloc, vs),
    }
}

/// The type of the array of these elements, by the first.
#[cycle(value_type)]
fn array_type(alloc: Global, vs: &ValList) -> Result<Ty, TyFault>
    ensures { IfOk result (λ t. t ≡ spec.value_type (array_value (data_row vs.now))) }
{
    let vs = vs.as_slice();
    if vs.len() > 65536 {
        return Err(TyFault::TooManyBits);
    }
    match vs.first() {
        Some(first) => {
            let of = value_type(alloc, first)?;
            Ty::array(alloc, vs.len() as u32, of)
        }
        None => Err(TyFault::Empty),
    }
}

/// The type of the struct of these fields.
#[cycle(value_type)]
fn tuple_type(alloc: Global, vs: &ValList) -> Result<Ty, TyFault>
    ensures { IfOk result (λ t. t ≡ spec.value_type (tuple_value (data_row vs.now))) }
{
    let mut fields = TyList::new(alloc);
    for v in vs.as_slice() {
        let of = value_type(alloc, v)?;
        fields.push(of)?;
    }
    Ty::tuple(fields)
}

/// The type of an element.
pub(crate) fn element_type(of: &Ty) -> Result<Ty, TyFault>
    ensures { IfOk result (λ t. t ≡ spec.element_of of.now) }
{
    match of.kind() {
        TyKind::Array(_, t) => Ok(t.copy()?),
        _ => Err(TyFault::WrongPart),
    }
}

/// The type of element or field `k`.
pub(crate) fn field_type(of: &Ty, k: u32) -> Result<Ty, TyFault>
    ensures { IfOk result (λ t. t ≡ spec.field_type of.now k) }
{
    match of.kind() {
        TyKind::Array(_, t) => Ok(t.copy()?),
        TyKind::Tuple(ts) => type_in_list(ts, k),
        _ => Err(TyFault::WrongPart),
    }
}

fn type_in_list(ts: &[Ty], k: u32) -> Result<Ty, TyFault>
    ensures { IfOk result (λ t. t ≡ spec.type_in_row (row_of ts.now) k) }
{
    match ts.get(k as usize) {
        Some(t) => Ok(t.copy()?),
        None => Err(TyFault::WrongPart),
    }
}

/// The type of `len` bits or elements.
pub(crate) fn slice_type(alloc: Global, of: &Ty, len: u32) -> Result<Ty, TyFault>
    ensures { IfOk result (λ t. t ≡ spec.slice_type of.now len) }
{
    match of.kind() {
        TyKind::Int(_) => Ty::int(len),
        TyKind::Array(_, t) => {
            let t = t.copy()?;
            Ty::array(alloc, len, t)
        }
        _ => Err(TyFault::WrongPart),
    }
}
