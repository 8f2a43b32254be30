//! Why rows have no shape.
ghost use Rattle.std.specs.Prelude.{◌≡◌, IfOk};
ghost use Rattle.std.specs.List.{list_any};
ghost use Rattle.lh_term.specs.Make as table;
ghost use Rattle.lh_term.specs.Arena.{trees, tree_at, IsIn};
ghost use Rattle.lh_shape.specs.ByIds as ids;
ghost use Rattle.lh_shape.specs.Reasons as spec;

use crate::ends::{
    all_halt, are_mixed, head_is_next, some_halts, some_is_timed, some_waits, waited_parts,
};
use crate::pasts::some_drives_past;
use crate::reason::Reason;
use lh_region::{DriveRow, Regions, Rows};
use lh_term::part::{Part, PartList};
use lh_term::term::{Term, TermId};
use lh_term::terms::Terms;
use lh_term_cover::Cover;
use lh_types::memory::NoMemory;
use std::alloc::Global;

/// Whether a process always halts, probes nothing and asserts nothing.
pub(crate) fn is_once(first: &Rows) -> bool
    ensures { result ≡ ids.once_only first.now }
{
    all_halt(first.ends.as_slice()) && first.probes.len() == 0 && first.asserts.len() == 0
}

/// The first reason that the rows give before the conditions of the second region are looked at, if one does.
pub(crate) fn reason_of(
    alloc: Global,
    terms: &Terms,
    regions: &Regions,
) -> Result<Option<Reason>, NoMemory>
    requires { ids.RegionsFit terms.now regions.now }
    ensures { IfOk result (λ reason. reason ≡ spec.first_holding (ids.reasons_told terms.now regions.now)) }
{
    let first = &regions.first;
    if has_halt(regions) {
        return Ok(Some(Reason::Halts));
    }
    if has_assert(regions) {
        return Ok(Some(Reason::Asserts));
    }
    if some_is_timed(first.ends.as_slice()) {
        return Ok(Some(Reason::TimedWait));
    }
    if are_mixed(alloc, first.ends.as_slice())? {
        return Ok(Some(Reason::MixedWaits));
    }
    if is_deaf(alloc, first)? {
        return Ok(Some(Reason::NotSensitive));
    }
    if has_varying_delay(terms, regions) {
        return Ok(Some(Reason::DelayNotConstant));
    }
    if drives_early(first) {
        return Ok(Some(Reason::DrivesBeforeWait));
    }
    if waits_twice(regions) {
        return Ok(Some(Reason::WaitsTwice));
    }
    if past_is_driven(alloc, terms, regions)? {
        return Ok(Some(Reason::PastValueDriven));
    }
    Ok(None)
}

/// Whether a region ends at `halt`.
fn has_halt(regions: &Regions) -> bool
    ensures { result ≡ ids.in_either ids.has_halt regions.now }
{
    let later = match &regions.second {
        Some(second) => some_halts(second.ends.as_slice()),
        None => false,
    };
    some_halts(regions.first.ends.as_slice()) || later
}

/// Whether a region has an assertion.
fn has_assert(regions: &Regions) -> bool
    ensures { result ≡ ids.in_either ids.has_assert regions.now }
{
    let later = match &regions.second {
        Some(second) => second.asserts.len() > 0,
        None => false,
    };
    regions.first.asserts.len() > 0 || later
}

/// Whether a region waits for the head, and probes a bit that it does not wait on.
fn is_deaf(alloc: Global, first: &Rows) -> Result<bool, NoMemory>
    ensures { IfOk result (λ deaf. deaf ≡ ids.is_deaf first.now) }
{
    let waited = waited_parts(alloc, first.ends.as_slice())?;
    let hidden = some_is_uncovered(alloc, &waited, first.probes.as_slice())?;
    Ok(head_is_next(first.ends.as_slice()) && hidden)
}

/// Whether some part has a bit that others have not.
fn some_is_uncovered(alloc: Global, on: &PartList, parts: &[Part]) -> Result<bool, NoMemory>
    ensures { IfOk result (λ hidden. hidden ≡ list_any (ids.is_uncovered on.now) parts.now) }
{
    let cover = Cover::new(alloc, on)?;
    for part in parts {
        if !cover.has(part) {
            return Ok(true);
        }
    }
    Ok(false)
}

/// Whether some drive of a region has a delay that is no constant.
fn has_varying_delay(terms: &Terms, regions: &Regions) -> bool
    requires { ids.RegionsFit terms.now regions.now }
    ensures { result ≡ ids.in_either (ids.has_varying_delay terms.now) regions.now }
{
    let later = match &regions.second {
        Some(second) => some_delay_varies(terms, second.drives.as_slice()),
        None => false,
    };
    some_delay_varies(terms, regions.first.drives.as_slice()) || later
}

/// Whether some drive has a delay that is no constant.
fn some_delay_varies(terms: &Terms, drives: &[DriveRow]) -> bool
    requires { ids.DrivesFit terms.now drives.now }
    ensures { result ≡ list_any (ids.delay_varies terms.now) drives.now }
{
    for drive in drives {
        if !is_constant(terms, drive.delay) {
            return true;
        }
    }
    false
}

fn is_constant(terms: &Terms, t: TermId) -> bool
    requires { IsIn terms.now t }
    ensures { result ≡ table.is_constant (tree_at (trees terms.now) t) }
{
    match terms.view(t) {
        Term::Konst(_) => true,
        _ => false,
    }
}

/// Whether a region waits elsewhere than for the head, and drives.
fn drives_early(first: &Rows) -> bool
    ensures { result ≡ ids.drives_early first.now }
{
    !head_is_next(first.ends.as_slice()) && first.drives.len() > 0
}

/// Whether the second region ends at a `wait`.
fn waits_twice(regions: &Regions) -> bool
    ensures { result ≡ ids.some_way spec.is_wait (ids.later_ends regions.now) }
{
    match &regions.second {
        Some(second) => some_waits(second.ends.as_slice()),
        None => false,
    }
}

/// Whether what the second region drives has a value before in it.
fn past_is_driven(alloc: Global, terms: &Terms, regions: &Regions) -> Result<bool, NoMemory>
    requires { ids.RegionsFit terms.now regions.now }
    ensures { IfOk result (λ past. past ≡ list_any (ids.drives_past terms.now) (ids.later_drives regions.now)) }
{
    match &regions.second {
        Some(second) => some_drives_past(alloc, terms, second.drives.as_slice()),
        None => Ok(false),
    }
}
