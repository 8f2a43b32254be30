//! Values by their parts: accessors, and lists of copies.
ghost use Rattle.std.specs.Prelude.{◌≡◌, ◌+◌, ◌<◌, ◌≤◌, ◌++◌, map, length, take, drop, replicate, slice_set, IfOk, OnOk};
ghost use Rattle.lh_types.specs.ValueOf.{datum_of};
ghost use Rattle.lh_ops.specs.Operands.{width_of, number_of, parts_within};

use lh_types::memory::NoMemory;
use lh_types::val::{Val, ValList};
use std::alloc::Global;

/// The width of an integer, 0 of anything else.
pub(crate) fn width(v: &Val) -> u32
    ensures { result ≡ width_of (datum_of v.now) }
{
    match v {
        Val::Int { width, .. } => *width,
        _ => 0,
    }
}

/// The number that an integer is, 0 of anything else.
pub(crate) fn number(v: &Val) -> u128
    ensures { result ≡ number_of (datum_of v.now) }
{
    match v {
        Val::Int { bits, .. } => *bits,
        _ => 0,
    }
}

/// The parts of an array or struct, none of anything else.
pub(crate) fn parts(v: &Val) -> &[Val]
    ensures { map datum_of result.now ≡ parts_within (datum_of v.now) }
{
    match v {
        Val::Array(vs) => vs.as_slice(),
        Val::Tuple(vs) => vs.as_slice(),
        _ => &[],
    }
}

/// Adds copies of values at the end of a list.
fn append(to: &mut ValList, from: &[Val]) -> Result<(), NoMemory>
    ensures { OnOk result (to.new ≡ to.old ++ map datum_of from.now) }
{
    for v in from {
        let v = v.copy()?;
        to.push(v)?;
    }
    Ok(())
}

/// A list of copies of values.
pub(crate) fn copies(alloc: Global, from: &[Val]) -> Result<ValList, NoMemory>
    ensures { IfOk result (λ vs. vs ≡ map datum_of from.now) }
{
    let mut list = ValList::new(alloc);
    append(&mut list, from)?;
    Ok(list)
}

/// A list of `n` copies of one value.
pub(crate) fn repeats(alloc: Global, v: &Val, n: u32) -> Result<ValList, NoMemory>
    ensures { IfOk result (λ vs. vs ≡ replicate n (datum_of v.now)) }
{
    let mut list = ValList::new(alloc);
    for _ in 0..n {
        let v = v.copy()?;
        list.push(v)?;
    }
    Ok(list)
}

/// Copies of values, with `new` in place of the one at `k`.
pub(crate) fn with_part(
    alloc: Global,
    from: &[Val],
    k: usize,
    new: &Val,
) -> Result<ValList, NoMemory>
    requires { k < length from.now }
    ensures { IfOk result (λ vs. vs ≡ slice_set (map datum_of from.now) k (datum_of new.now)) }
{
    let mut list = copies(alloc, &from[..k])?;
    let new = new.copy()?;
    list.push(new)?;
    append(&mut list, &from[k + 1..])?;
    Ok(list)
}

/// Copies of values, with `new` in place of those from `at` up to `to`.
pub(crate) fn with_parts(
    alloc: Global,
    from: &[Val],
    new: &[Val],
    at: usize,
    to: usize,
) -> Result<ValList, NoMemory>
    requires { (at ≤ to) × (to ≤ length from.now) }
    ensures { IfOk result (λ vs. vs ≡ take at (map datum_of from.now) ++ map datum_of new.now ++ drop to (map datum_of from.now)) }
{
    let mut list = copies(alloc, &from[..at])?;
    append(&mut list, new)?;
    append(&mut list, &from[to..])?;
    Ok(list)
}
