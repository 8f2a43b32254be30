//! The shape of a process by its rows.
ghost use Rattle.std.specs.Prelude.{◌≡◌, false, None, IfOk, IfSome};
ghost use Rattle.lh_types.specs.Types.{int_type};
ghost use Rattle.lh_term.specs.Types.{type_of};
ghost use Rattle.lh_term.specs.Arena.{trees, tree_at, IsIn, Grows};
ghost use Rattle.lh_region_def.specs.Regions.{Regions as RegionsOf};
ghost use Rattle.lh_region.specs.Stands.{AreRegions};
ghost use Rattle.lh_shape.specs.Answers.{IsShape, IsShapeOf, Finds, AddsFound, AreRegisters};
ghost use Rattle.lh_shape.specs.ByIds as ids;
ghost use Rattle.lh_shape.specs.ByIds.{drives_at, later_drives, DrivesFit, RegionsFit};
ghost use Rattle.lh_shape.specs.Reasons.{first_holding};
ghost use Rattle.lh_shape.specs.Shapes.{shape_by_rows};

use crate::ends::{head_is_next, waited_parts};
use crate::kinds::Shape;
use crate::merge::merged;
use crate::reason::Reason;
use crate::reasons::{is_once, reason_of};
use lh_edge::{EdgeFault, EdgeRow, EdgeRowList, Trigger, TriggerList, edges};
use lh_region::{DriveRow, Regions, Rows};
use lh_term::part::PartList;
use lh_term::term::TermId;
use lh_term::terms::Terms;
use lh_types::memory::NoMemory;
use std::alloc::Global;

/// The registers of a process.
#[derive(Drop)]
enum Registers {
    /// A row for each drive.
    Rows(EdgeRowList),
    /// None, since the process stays.
    Left(Reason),
}

/// A condition and what the analysis of its edges gave.
#[derive(Drop)]
struct Found {
    cond: TermId,
    triggers: Result<TriggerList, EdgeFault>,
}

/// What became of a drive.
enum Added {
    /// Its row was added.
    Row,
    /// Its condition is not edge-shown.
    Hidden,
    /// Its condition has too many atoms.
    TooMany,
}

/// The shape of a process by the rows of its regions: the first reason why it stays, if there is one.
///
/// When memory runs out the terms made before keep their ids.
pub fn shape_of_regions(
    alloc: Global,
    terms: &mut Terms,
    regions: Regions,
) -> Result<Shape, NoMemory>
    requires { RegionsFit terms.old regions }
    ensures is { IfOk result (λ shape. (x : RegionsOf) → AreRegions terms.old regions x → IsShape terms.new shape (shape_by_rows x)) }
    ensures kept { Grows terms.old terms.new }
{
    if is_once(&regions.first) {
        let Regions { first, .. } = regions;
        return Ok(Shape::Once(first.drives));
    }
    let shape = by_reasons(alloc, terms, &regions);
    drop(regions);
    shape
}

/// The shape of a process that does not run once.
fn by_reasons(alloc: Global, terms: &mut Terms, regions: &Regions) -> Result<Shape, NoMemory>
    requires fits { RegionsFit terms.old regions.now }
    requires later { ids.once_only regions.now.first ≡ false }
    ensures is { IfOk result (λ shape. (x : RegionsOf) → AreRegions terms.old regions.now x → IsShape terms.new shape (shape_by_rows x)) }
    ensures kept { Grows terms.old terms.new }
{
    match reason_of(alloc, terms, regions)? {
        Some(reason) => Ok(Shape::Left(reason)),
        None => by_conditions(alloc, terms, regions),
    }
}

/// The shape of a process for which the rows give no reason before the conditions of its second region are looked at.
fn by_conditions(alloc: Global, terms: &mut Terms, regions: &Regions) -> Result<Shape, NoMemory>
    requires fits { RegionsFit terms.old regions.now }
    requires later { ids.once_only regions.now.first ≡ false }
    requires none { first_holding (ids.reasons_told terms.old regions.now) ≡ None }
    ensures is { IfOk result (λ shape. (x : RegionsOf) → AreRegions terms.old regions.now x → IsShape terms.new shape (shape_by_rows x)) }
    ensures kept { Grows terms.old terms.new }
{
    let waited = waited_parts(alloc, regions.first.ends.as_slice())?;
    match later_registers(alloc, terms, &waited, regions)? {
        Registers::Rows(rows) => {
            let shape = by_target(alloc, terms, waited, rows, &regions.first)?;
            Ok(shape)
        }
        Registers::Left(reason) => Ok(Shape::Left(reason)),
    }
}

/// Combinational where the region waits for the head, else these registers.
fn by_target(
    alloc: Global,
    terms: &mut Terms,
    waited: PartList,
    rows: EdgeRowList,
    first: &Rows,
) -> Result<Shape, NoMemory>
    requires { DrivesFit terms.old first.now.drives }
    ensures is { IfOk result (λ shape. IsShapeOf (ids.head_is_next first.now.ends) terms.old terms.new waited first.now.drives rows shape) }
    ensures kept { Grows terms.old terms.new }
{
    if head_is_next(first.ends.as_slice()) {
        let drives = merged(alloc, terms, first.drives.as_slice())?;
        return Ok(Shape::Comb { waited, drives });
    }
    Ok(Shape::Edge(rows))
}

/// The registers of the second region; none where it is not built.
fn later_registers(
    alloc: Global,
    terms: &mut Terms,
    waited: &PartList,
    regions: &Regions,
) -> Result<Registers, NoMemory>
    requires { RegionsFit terms.old regions.now }
    ensures are { IfOk result (λ registers. AreRegisters terms.new waited.now (drives_at terms.old (later_drives regions.now)) registers) }
    ensures kept { Grows terms.old terms.new }
{
    match &regions.second {
        Some(second) => registers_of(alloc, terms, waited, second.drives.as_slice()),
        None => registers_of(alloc, terms, waited, &[]),
    }
}

/// A row of registers for each drive. Too many atoms of one of them come before a condition that is not edge-shown.
///
/// What was found for a drive is kept for the next, since the drives under one `if` have one condition and its analysis walks all
/// terms.
fn registers_of(
    alloc: Global,
    terms: &mut Terms,
    waited: &PartList,
    drives: &[DriveRow],
) -> Result<Registers, NoMemory>
    requires { DrivesFit terms.old drives.now }
    ensures are { IfOk result (λ registers. AreRegisters terms.new waited.now (drives_at terms.old drives.now) registers) }
    ensures kept { Grows terms.old terms.new }
{
    let mut rows = EdgeRowList::new(alloc);
    let mut last = None;
    let mut is_hidden = false;
    for drive in drives {
        let found = found_for(alloc, terms, waited, drive.cond, last);
        match add_registers(alloc, drive, &found.triggers, &mut rows)? {
            Added::Row => {}
            Added::Hidden => is_hidden = true,
            Added::TooMany => return Ok(Registers::Left(Reason::TooManyAtoms)),
        }
        last = Some(found);
    }
    if is_hidden {
        return Ok(Registers::Left(Reason::NoEdge));
    }
    Ok(Registers::Rows(rows))
}

/// What the analysis of a condition gives: what was found last, where that was for the same condition.
fn found_for(
    alloc: Global,
    terms: &mut Terms,
    waited: &PartList,
    cond: TermId,
    last: Option<Found>,
) -> Found
    requires is_in { IsIn terms.old cond }
    requires bit { type_of (tree_at (trees terms.old) cond) ≡ int_type 1 }
    requires last { IfSome last (λ found. Finds terms.old waited.now found) }
    ensures finds { Finds terms.new waited.now result }
    ensures same { result.cond ≡ cond }
    ensures kept { Grows terms.old terms.new }
{
    match last {
        Some(found) if found.cond.0 == cond.0 => found,
        _ => Found {
            cond,
            triggers: edges(alloc, terms, cond, waited),
        },
    }
}

/// Adds the row of a drive, where triggers were found for its condition.
fn add_registers(
    alloc: Global,
    drive: &DriveRow,
    found: &Result<TriggerList, EdgeFault>,
    rows: &mut EdgeRowList,
) -> Result<Added, NoMemory>
    ensures { IfOk result (λ added. AddsFound drive.now found.now rows.old added rows.new) }
{
    match found {
        Ok(triggers) => {
            let row = row_of(alloc, drive, triggers.as_slice())?;
            rows.push(row)?;
            Ok(Added::Row)
        }
        Err(EdgeFault::NoEdge) => Ok(Added::Hidden),
        Err(EdgeFault::TooManyAtoms) => Ok(Added::TooMany),
        Err(EdgeFault::OutOfMemory) => Err(NoMemory),
    }
}

/// A drive at the edges of triggers.
fn row_of(alloc: Global, drive: &DriveRow, triggers: &[Trigger]) -> Result<EdgeRow, NoMemory>
    ensures { IfOk result (λ row. row ≡ record { part = drive.now.part; value = drive.now.value; delay = drive.now.delay; triggers = triggers.now }) }
{
    let part = drive.part.copy()?;
    let triggers = copy_triggers(alloc, triggers)?;
    Ok(EdgeRow {
        part,
        value: drive.value,
        delay: drive.delay,
        triggers,
    })
}

/// Equal triggers.
fn copy_triggers(alloc: Global, triggers: &[Trigger]) -> Result<TriggerList, NoMemory>
    ensures { IfOk result (λ list. list ≡ triggers.now) }
{
    let mut to = TriggerList::with_room(alloc, triggers.len())?;
    for trigger in triggers {
        let trigger = copy_trigger(trigger)?;
        to.push(trigger)?;
    }
    Ok(to)
}

/// An equal trigger.
fn copy_trigger(trigger: &Trigger) -> Result<Trigger, NoMemory>
    ensures { IfOk result (λ copy. copy ≡ trigger.now) }
{
    let part = trigger.part.copy()?;
    Ok(Trigger {
        rise: trigger.rise,
        part,
        gate: trigger.gate,
    })
}
