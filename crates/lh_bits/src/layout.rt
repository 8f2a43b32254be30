//! The bits of a value, and the value that bits are.
ghost use Rattle.std.specs.Prelude.{◌≡◌, ◌≤◌, ◌<◌, ◌+◌, ◌*◌, ◌^◌, ◌++◌, length, take, drop, OnOk, IfOk};
ghost use Rattle.lh_types.specs.Types.{IsData, AreData, bit_count, bit_count_row, row_of};
ghost use Rattle.lh_types.specs.Values.{array_value, tuple_value, data_row};
ghost use Rattle.lh_types.specs.ValueOf.{datum_of};
ghost use Rattle.lh_types.specs.Fits.{FitsData};
ghost use Rattle.lh_types.specs.Bits.{value_bits, row_bits, number_bits, bits_number, value_from_bits, row_from_bits, repeat_parts};

use crate::bits::Bits;
use lh_types::memory::NoMemory;
use lh_types::ty::{Ty, TyKind, bits};
use lh_types::val::{Val, ValList};
use std::alloc::Global;

/// The bits of a value of a data type: an integer least significant first, arrays and structs part
/// by part.
pub fn to_bits(alloc: Global, v: &Val) -> Result<Bits, NoMemory>
    requires { FitsData (datum_of v.now) }
    ensures { IfOk result (λ bs. bs ≡ value_bits (datum_of v.now)) }
{
    let mut to = Bits::zeros(alloc, 0)?;
    append_value(v, &mut to)?;
    Ok(to)
}

#[cycle(append)]
fn append_value(v: &Val, to: &mut Bits) -> Result<(), NoMemory>
    requires { length to.old + length (value_bits (datum_of v.now)) < 2 ^ 32 }
    ensures { OnOk result (to.new ≡ to.old ++ value_bits (datum_of v.now)) }
{
    match v {
        Val::Int { width, bits } => to.push_int(*width, *bits),
        Val::Time(_) => Ok(()),
        Val::Array(vs) | Val::Tuple(vs) => append_values(vs, to),
    }
}

#[cycle(append)]
fn append_values(vs: &ValList, to: &mut Bits) -> Result<(), NoMemory>
    requires { length to.old + length (row_bits (data_row vs.now)) < 2 ^ 32 }
    ensures { OnOk result (to.new ≡ to.old ++ row_bits (data_row vs.now)) }
{
    for v in vs.as_slice() {
        append_value(v, to)?;
    }
    Ok(())
}

/// The value of type `t` whose bits stand in `b` from bit `lo` on.
pub fn from_bits(alloc: Global, t: &Ty, b: &Bits, lo: u32) -> Result<Val, NoMemory>
    requires data { IsData t.now }
    requires within { lo + bit_count t.now ≤ length b.now }
    ensures { IfOk result (λ v. datum_of v ≡ value_from_bits t.now (drop lo b.now)) }
{
    b.is_short();
    value_at(alloc, t, b, lo)
}

#[cycle(value_at)]
fn value_at(alloc: Global, t: &Ty, b: &Bits, lo: u32) -> Result<Val, NoMemory>
    requires short { length b.now < 2 ^ 32 }
    requires data { IsData t.now }
    requires within { lo + bit_count t.now ≤ length b.now }
    ensures { IfOk result (λ v. datum_of v ≡ value_from_bits t.now (drop lo b.now)) }
{
    match t.kind() {
        TyKind::Int(width) => Ok(Val::Int {
            width,
            bits: b.int_at(lo, width),
        }),
        TyKind::Array(n, of) => {
            let elements = elements_at(alloc, n, of, b, lo)?;
            Ok(Val::Array(elements))
        }
        TyKind::Tuple(fields) => {
            let values = fields_at(alloc, fields, b, lo)?;
            Ok(Val::Tuple(values))
        }
        _ => unreachable!(),
    }
}

#[cycle(value_at)]
fn elements_at(alloc: Global, n: u32, of: &Ty, b: &Bits, lo: u32) -> Result<ValList, NoMemory>
    requires short { length b.now < 2 ^ 32 }
    requires data { IsData of.now }
    requires within { lo + n * bit_count of.now ≤ length b.now }
    ensures { IfOk result
        (λ vs. data_row vs ≡ repeat_parts n (value_from_bits of.now) (bit_count of.now) (drop lo b.now)) }
{
    let size = bits(of);
    let mut to = ValList::new(alloc);
    for i in 0..n {
        let element = value_at(alloc, of, b, lo + i * size)?;
        to.push(element)?;
    }
    Ok(to)
}

#[cycle(value_at)]
fn fields_at(alloc: Global, fields: &[Ty], b: &Bits, lo: u32) -> Result<ValList, NoMemory>
    requires short { length b.now < 2 ^ 32 }
    requires data { AreData (row_of fields.now) }
    requires within { lo + bit_count_row (row_of fields.now) ≤ length b.now }
    ensures { IfOk result (λ vs. data_row vs ≡ row_from_bits (row_of fields.now) (drop lo b.now)) }
{
    let mut to = ValList::new(alloc);
    let mut at = lo;
    for field in fields {
        let value = value_at(alloc, field, b, at)?;
        to.push(value)?;
        let size = bits(field);
        at += size;
    }
    Ok(to)
}
