//! How a region ends.
ghost use Rattle.std.specs.Prelude.{◌≡◌, ◌++◌, IfOk, OnOk};
ghost use Rattle.lh_region.specs.Stands.{way_text};
ghost use Rattle.lh_term_cover.specs.Bits.{same_bits};
ghost use Rattle.lh_region_def.specs.Regions as regions;
ghost use Rattle.lh_shape.specs.Reasons as spec;
ghost use Rattle.lh_shape.specs.ByIds as ids;

use lh_region::{EndRow, Way};
use lh_term::part::{Part, PartList};
use lh_term_cover::Cover;
use lh_types::memory::NoMemory;
use std::alloc::Global;

/// Whether every end is at `halt`.
pub(crate) fn all_halt(ends: &[EndRow]) -> bool
    ensures { result ≡ ids.every_way spec.is_halt ends.now }
{
    for end in ends {
        if !is_halt(&end.way) {
            return false;
        }
    }
    true
}

/// Whether some end is at `halt`.
pub(crate) fn some_halts(ends: &[EndRow]) -> bool
    ensures { result ≡ ids.some_way spec.is_halt ends.now }
{
    for end in ends {
        if is_halt(&end.way) {
            return true;
        }
    }
    false
}

/// Whether some end is at a `wait` with a time.
pub(crate) fn some_is_timed(ends: &[EndRow]) -> bool
    ensures { result ≡ ids.some_way spec.is_timed ends.now }
{
    for end in ends {
        if is_timed(&end.way) {
            return true;
        }
    }
    false
}

/// Whether some end is at a `wait`.
pub(crate) fn some_waits(ends: &[EndRow]) -> bool
    ensures { result ≡ ids.some_way spec.is_wait ends.now }
{
    for end in ends {
        if is_wait(&end.way) {
            return true;
        }
    }
    false
}

/// Whether ends differ in where they lead or in the bits that they wait on.
pub(crate) fn are_mixed(alloc: Global, ends: &[EndRow]) -> Result<bool, NoMemory>
    ensures { IfOk result (λ mixed. mixed ≡ ids.mixed ends.now) }
{
    match ends {
        [first, others @ ..] => some_is_other(alloc, &first.way, others),
        [] => Ok(false),
    }
}

/// Whether some end is no `wait` for the same block on the same bits.
fn some_is_other(alloc: Global, way: &Way, ends: &[EndRow]) -> Result<bool, NoMemory>
    ensures { IfOk result (λ other. other ≡ ids.some_way (ids.is_other_wait (way_text way.now)) ends.now) }
{
    for end in ends {
        if !is_same_wait(alloc, way, &end.way)? {
            return Ok(true);
        }
    }
    Ok(false)
}

/// Whether both are a `wait` for one block, on the same bits.
fn is_same_wait(alloc: Global, way: &Way, other: &Way) -> Result<bool, NoMemory>
    ensures { IfOk result (λ same. same ≡ spec.is_same_wait (way_text way.now) (way_text other.now)) }
{
    match (way, other) {
        (
            Way::Wait { target, parts, .. },
            Way::Wait {
                target: to,
                parts: on,
                ..
            },
        ) => {
            let same = are_same_bits(alloc, parts, on)?;
            Ok(*target == *to && same)
        }
        _ => Ok(false),
    }
}

/// Whether parts have the same bits.
fn are_same_bits(alloc: Global, parts: &PartList, others: &PartList) -> Result<bool, NoMemory>
    ensures { IfOk result (λ same. same ≡ same_bits parts.now others.now) }
{
    let cover = Cover::new(alloc, parts)?;
    let other = Cover::new(alloc, others)?;
    Ok(cover.is_same(&other))
}

/// Whether the first end waits for the head.
pub(crate) fn head_is_next(ends: &[EndRow]) -> bool
    ensures { result ≡ ids.head_is_next ends.now }
{
    match ends {
        [first, ..] => goes_to_head(&first.way),
        [] => false,
    }
}

/// The parts on which ends wait, one after the other.
pub(crate) fn waited_parts(alloc: Global, ends: &[EndRow]) -> Result<PartList, NoMemory>
    ensures { IfOk result (λ parts. parts ≡ ids.parts_on ends.now) }
{
    let mut waited = PartList::new(alloc);
    for end in ends {
        add_waited(&mut waited, &end.way)?;
    }
    Ok(waited)
}

/// Adds the parts on which an end waits.
fn add_waited(waited: &mut PartList, way: &Way) -> Result<(), NoMemory>
    ensures { OnOk result (waited.new ≡ waited.old ++ regions.waited_parts (way_text way.now)) }
{
    match way {
        Way::Wait { parts, .. } => add_parts(waited, parts.as_slice()),
        Way::Halt | Way::Head => Ok(()),
    }
}

/// Adds parts.
fn add_parts(waited: &mut PartList, parts: &[Part]) -> Result<(), NoMemory>
    ensures { OnOk result (waited.new ≡ waited.old ++ parts.now) }
{
    for part in parts {
        let part = part.copy()?;
        waited.push(part)?;
    }
    Ok(())
}

fn is_halt(way: &Way) -> bool
    ensures { result ≡ spec.is_halt (way_text way.now) }
{
    match way {
        Way::Halt => true,
        _ => false,
    }
}

fn is_timed(way: &Way) -> bool
    ensures { result ≡ spec.is_timed (way_text way.now) }
{
    match way {
        Way::Wait { timed, .. } => *timed,
        _ => false,
    }
}

fn is_wait(way: &Way) -> bool
    ensures { result ≡ spec.is_wait (way_text way.now) }
{
    match way {
        Way::Wait { .. } => true,
        _ => false,
    }
}

fn goes_to_head(way: &Way) -> bool
    ensures { result ≡ spec.goes_to_head (way_text way.now) }
{
    match way {
        Way::Wait { to_head, .. } => *to_head,
        _ => false,
    }
}
