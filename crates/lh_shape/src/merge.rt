//! Drives of one part after one delay that follow each other, as one.
ghost use Rattle.std.specs.Prelude.{◌≡◌, IfOk, OnOk};
ghost use Rattle.lh_region_joins.specs.Joins.{IsConditionAt};
ghost use Rattle.lh_term.specs.Arena.{trees, tree_at, StandsForTree, Grows};
ghost use Rattle.lh_region.specs.Stands.{IsDrive, AreDrives};
ghost use Rattle.lh_region_def.specs.Adjacent.{beyond, drive_merged};
ghost use Rattle.lh_shape.specs.ByIds.{drive_at, drives_at, DriveRowFits, DrivesFit};
ghost use Rattle.lh_shape.specs.Merging as spec;
ghost use Rattle.lh_shape.specs.Merged.{MergesDrive};

use lh_region::{DriveList, DriveRow};
use lh_region_joins::edge::Edge;
use lh_region_joins::joins::{Shared, conjunction};
use lh_region_joins::logic::or;
use lh_term::term::TermId;
use lh_term::terms::Terms;
use lh_types::memory::NoMemory;
use std::alloc::Global;

/// The drives, of which those are merged, from the left, that follow each other and drive one part after one delay.
pub fn merged(alloc: Global, terms: &mut Terms, drives: &[DriveRow]) -> Result<DriveList, NoMemory>
    requires { DrivesFit terms.old drives.now }
    ensures are { IfOk result (λ merged. AreDrives terms.new merged (spec.merged_drives (drives_at terms.old drives.now))) }
    ensures kept { Grows terms.old terms.new }
{
    match drives {
        [first, rest @ ..] => merged_from(alloc, terms, first, rest),
        [] => Ok(DriveList::new(alloc)),
    }
}

/// A drive and those that follow it, merged from the left.
fn merged_from(
    alloc: Global,
    terms: &mut Terms,
    first: &DriveRow,
    rest: &[DriveRow],
) -> Result<DriveList, NoMemory>
    requires first_fits { DriveRowFits terms.old first.now }
    requires rest_fits { DrivesFit terms.old rest.now }
    ensures are { IfOk result (λ merged. AreDrives terms.new merged (spec.merged_from (drive_at terms.old first.now) (drives_at terms.old rest.now))) }
    ensures kept { Grows terms.old terms.new }
{
    let mut merged = DriveList::new(alloc);
    let mut last = copy_of(first)?;
    for drive in rest {
        last = take(alloc, terms, &mut merged, last, drive)?;
    }
    merged.push(last)?;
    Ok(merged)
}

/// Merges a drive with the last one, or puts the last one to the others. It gives what is the last one then.
fn take(
    alloc: Global,
    terms: &mut Terms,
    merged: &mut DriveList,
    last: DriveRow,
    drive: &DriveRow,
) -> Result<DriveRow, NoMemory>
    requires last_fits { DriveRowFits terms.old last }
    requires drive_fits { DriveRowFits terms.old drive.now }
    ensures takes { IfOk result (λ next. MergesDrive terms.old terms.new merged.old last drive.now merged.new next) }
    ensures kept { Grows terms.old terms.new }
{
    if are_alike(terms, &last, drive) {
        let mut both = last;
        return match join(alloc, terms, &mut both, drive) {
            Ok(()) => Ok(both),
            Err(fault) => {
                drop(both);
                Err(fault)
            }
        };
    }
    let next = copy_of(drive)?;
    merged.push(last)?;
    Ok(next)
}

/// Whether two drives drive one part after one delay.
fn are_alike(terms: &Terms, a: &DriveRow, b: &DriveRow) -> bool
    requires a_fits { DriveRowFits terms.now a.now }
    requires b_fits { DriveRowFits terms.now b.now }
    ensures { result ≡ spec.are_alike (drive_at terms.now a.now) (drive_at terms.now b.now) }
{
    a.part == b.part && terms.same(a.delay, b.delay)
}

/// Makes a drive one for two of one part: the value of the second where that holds, else its own.
fn join(
    alloc: Global,
    terms: &mut Terms,
    first: &mut DriveRow,
    second: &DriveRow,
) -> Result<(), NoMemory>
    requires first_fits { DriveRowFits terms.old first.old }
    requires second_fits { DriveRowFits terms.old second.now }
    requires alike { second.now.part ≡ first.old.part }
    ensures is { OnOk result (IsDrive terms.new first.new (drive_merged (drive_at terms.old first.old) (drive_at terms.old second.now))) }
    ensures kept { Grows terms.old terms.new }
{
    let beyond = selector(alloc, terms, first.cond, second.cond)?;
    let value = terms.choice(beyond, first.value, second.value)?;
    let cond = or(terms, first.cond, second.cond)?;
    first.cond = cond;
    first.value = value;
    Ok(())
}

/// The conjunction of the conjuncts of the second condition that the first one lacks.
fn selector(
    alloc: Global,
    terms: &mut Terms,
    first: TermId,
    second: TermId,
) -> Result<TermId, NoMemory>
    requires first_is { IsConditionAt terms.old first }
    requires second_is { IsConditionAt terms.old second }
    ensures made { IfOk result (λ t. StandsForTree terms.new t (beyond (tree_at (trees terms.old) first) (tree_at (trees terms.old) second))) }
    ensures kept { Grows terms.old terms.new }
{
    let edge = Edge {
        from: 0,
        block: 0,
        cond: first,
    };
    let had = Shared::new(alloc, terms, &[edge])?;
    let others = had.others(alloc, terms, second)?;
    conjunction(terms, others.as_slice())
}

/// An equal drive.
fn copy_of(drive: &DriveRow) -> Result<DriveRow, NoMemory>
    ensures { IfOk result (λ copy. copy ≡ drive.now) }
{
    let part = drive.part.copy()?;
    Ok(DriveRow {
        cond: drive.cond,
        part,
        value: drive.value,
        delay: drive.delay,
    })
}
