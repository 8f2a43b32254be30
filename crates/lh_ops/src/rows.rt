//! The rows on values: integers of one width, equality, shifts, and the parts of arrays and structs.
ghost use Rattle.std.specs.Prelude.{◌≡◌, ◌+◌, ◌^◌, ◌<◌, ◌≤◌, length, map, min, IfOk};
ghost use Rattle.lh_types.specs.Values.{int_value, array_value, tuple_value, data_row};
ghost use Rattle.lh_types.specs.ValueOf.{datum_of};
ghost use Rattle.lh_types.specs.ApplyInt.{integer_row, row_width, IsIntegerRow, moved_up, moved_down};
ghost use Rattle.lh_types.specs.Apply.{bit_value, equality, integer_result, repeated, shifted, selected, field_at, slice_at, with_field, with_slice};
ghost use Rattle.lh_types.specs.ApplyTypes.{FitsOp, TakesIntegers};
ghost use Rattle.lh_ops.specs.Operands.{number_of};

use crate::integers::{apply_int, result_width};
use crate::parts::{copies, number, parts, repeats, width, with_part, with_parts};
use crate::shifts::{bits_at, shift_down, shift_up, with_bits};
use lh_types::memory::NoMemory;
use lh_types::op::Op;
use lh_types::val::Val;
use std::alloc::Global;

/// The integer that a row from `Not` to `Uge` gives.
fn integer(op: &Op, width: u32, a: u128, b: u128) -> Val
    requires row { IsIntegerRow op.now }
    requires width { (1 ≤ width) × (width ≤ 128) }
    requires fits { (a < 2 ^ width) × (b < 2 ^ width) }
    ensures { datum_of result ≡ int_value (row_width op.now width) (integer_row op.now width a b) }
{
    Val::Int {
        width: result_width(op, width),
        bits: apply_int(op, width, a, b),
    }
}

/// A row that takes integers of one width.
#[tactic(auto, using(crate::proofs::FitLemmas::integer_args))]
pub(crate) fn integers(op: &Op, args: &[Val]) -> Val
    requires row { TakesIntegers op.now }
    requires fits { FitsOp op.now (map datum_of args.now) }
    ensures { datum_of result ≡ integer_result op.now (map datum_of args.now) }
{
    let first = &args[0];
    let (of, a) = (width(first), number(first));
    if args.len() == 1 {
        return integer(op, of, a, 0);
    }
    integer(op, of, a, number(&args[1]))
}

/// A truth value as an integer of one bit.
pub(crate) fn truth(holds: bool) -> Val
    ensures { datum_of result ≡ bit_value holds }
{
    Val::Int {
        width: 1,
        bits: holds as u128,
    }
}

/// Whether the two values are equal, part by part.
pub(crate) fn equal(args: &[Val]) -> bool
    requires { length args.now ≡ 2 }
    ensures { result ≡ equality (map datum_of args.now) }
{
    args[0] == args[1]
}

/// The amount of a shift, cut to the width.
fn cut_amount(amount: &Val, width: u32) -> u32
    ensures { result ≡ min (number_of (datum_of amount.now)) width }
{
    number(amount).min(width as u128) as u32
}

/// The funnel shift up of a base, what comes in, and an amount that is cut to the width.
pub(crate) fn shl(args: &[Val]) -> Val
    requires { FitsOp Op.Shl (map datum_of args.now) }
    ensures { datum_of result ≡ shifted moved_up (map datum_of args.now) }
{
    let width = width(&args[0]);
    let by = cut_amount(&args[2], width);
    Val::Int {
        width,
        bits: shift_up(width, number(&args[0]), number(&args[1]), by),
    }
}

/// The funnel shift down of a base, what comes in, and an amount that is cut to the width.
pub(crate) fn shr(args: &[Val]) -> Val
    requires { FitsOp Op.Shr (map datum_of args.now) }
    ensures { datum_of result ≡ shifted moved_down (map datum_of args.now) }
{
    let width = width(&args[0]);
    let by = cut_amount(&args[2], width);
    Val::Int {
        width,
        bits: shift_down(width, number(&args[0]), number(&args[1]), by),
    }
}

/// The element that the selector names; past the end, the last element.
pub(crate) fn mux(args: &[Val]) -> Result<Val, NoMemory>
    requires { FitsOp Op.Mux (map datum_of args.now) }
    ensures { IfOk result (λ v. datum_of v ≡ selected (map datum_of args.now)) }
{
    let elements = parts(&args[0]);
    let last = elements.len() - 1;
    let at = number(&args[1]).min(last as u128) as usize;
    elements[at].copy()
}

/// Element or field `k`.
pub(crate) fn extf(args: &[Val], k: u32) -> Result<Val, NoMemory>
    requires { FitsOp (Op.Extf k) (map datum_of args.now) }
    ensures { IfOk result (λ v. datum_of v ≡ field_at k (map datum_of args.now)) }
{
    let part = &parts(&args[0])[k as usize];
    part.copy()
}

/// The `len` bits or elements from `at`.
pub(crate) fn exts(alloc: Global, args: &[Val], at: u32, len: u32) -> Result<Val, NoMemory>
    requires { FitsOp (Op.Exts at len) (map datum_of args.now) }
    ensures { IfOk result (λ v. datum_of v ≡ slice_at at len (map datum_of args.now)) }
{
    match &args[0] {
        Val::Int { bits, .. } => Ok(Val::Int {
            width: len,
            bits: bits_at(*bits, at, len),
        }),
        Val::Array(elements) => {
            let part = &elements.as_slice()[at as usize..at as usize + len as usize];
            Ok(Val::Array(copies(alloc, part)?))
        }
        _ => unreachable!(),
    }
}

/// The whole with element or field `k` replaced.
pub(crate) fn insf(alloc: Global, args: &[Val], k: u32) -> Result<Val, NoMemory>
    requires { FitsOp (Op.Insf k) (map datum_of args.now) }
    ensures { IfOk result (λ v. datum_of v ≡ with_field k (map datum_of args.now)) }
{
    let new = &args[1];
    match &args[0] {
        Val::Array(elements) => {
            let whole = with_part(alloc, elements.as_slice(), k as usize, new)?;
            Ok(Val::Array(whole))
        }
        Val::Tuple(fields) => {
            let whole = with_part(alloc, fields.as_slice(), k as usize, new)?;
            Ok(Val::Tuple(whole))
        }
        _ => unreachable!(),
    }
}

/// The whole with the `len` bits or elements from `at` replaced.
pub(crate) fn inss(alloc: Global, args: &[Val], at: u32, len: u32) -> Result<Val, NoMemory>
    requires { FitsOp (Op.Inss at len) (map datum_of args.now) }
    ensures { IfOk result (λ v. datum_of v ≡ with_slice at len (map datum_of args.now)) }
{
    let new = &args[1];
    match &args[0] {
        Val::Int { width, bits } => Ok(Val::Int {
            width: *width,
            bits: with_bits(*width, *bits, number(new), at, len),
        }),
        Val::Array(elements) => {
            let (from, to) = (at as usize, at as usize + len as usize);
            let whole = with_parts(alloc, elements.as_slice(), parts(new), from, to)?;
            Ok(Val::Array(whole))
        }
        _ => unreachable!(),
    }
}

/// The array of the values in order.
pub(crate) fn array(alloc: Global, args: &[Val]) -> Result<Val, NoMemory>
    ensures { IfOk result (λ v. datum_of v ≡ array_value (data_row (map datum_of args.now))) }
{
    Ok(Val::Array(copies(alloc, args)?))
}

/// The array of `n` copies of the one value.
pub(crate) fn repeat(alloc: Global, args: &[Val], n: u32) -> Result<Val, NoMemory>
    requires { length args.now ≡ 1 }
    ensures { IfOk result (λ v. datum_of v ≡ repeated n (map datum_of args.now)) }
{
    Ok(Val::Array(repeats(alloc, &args[0], n)?))
}

/// The struct of the values in order.
pub(crate) fn tuple(alloc: Global, args: &[Val]) -> Result<Val, NoMemory>
    ensures { IfOk result (λ v. datum_of v ≡ tuple_value (data_row (map datum_of args.now))) }
{
    Ok(Val::Tuple(copies(alloc, args)?))
}
