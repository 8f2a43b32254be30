//! What instructions do besides giving values: they probe, drive and assert, and they end a region.
ghost use Rattle.std.specs.Prelude.{◌≡◌, ◌<◌, ◌++◌, ◌∷◌, [], length, Some, IsSome, IfOk, OnOk};
ghost use Rattle.lh_types.specs.Types.{IsData};
ghost use Rattle.lh_term.specs.Arena.{StandsForTree, Grows};
ghost use Rattle.lh_flat_parts.specs.Steps.{part_at};
ghost use Rattle.lh_region_joins.specs.Joins.{IsConditionAt};
ghost use Rattle.lh_region_places.specs.Asked.{SamePlaces};
ghost use Rattle.lh_region.specs.Taken as taken;
ghost use Rattle.lh_region.specs.Effects as effects;

use crate::ahead::EdgeList;
use crate::rows::{DriveRow, EndRow, Rows, Way};
use crate::taking::{ask_all, asks_at};
use lh_flat_parts::PartTable;
use lh_region_joins::Edge;
use lh_region_joins::logic::never_holds;
use lh_region_places::asking::value_at;
use lh_region_places::places::Places;
use lh_term::part::Part;
use lh_term::term::TermId;
use lh_term::terms::Terms;
use lh_types::memory::NoMemory;
use lh_unit::inst::{TypedList, ValueId};
use std::alloc::Global;

/// The part that a value is, where it is one.
pub fn part_of(parts: &PartTable, value: ValueId) -> Result<Part, NoMemory>
    requires within { value.0 < length parts.now.parts.items }
    requires there { IsSome (part_at parts.now.parts.items value.0) }
    ensures { IfOk result (λ part. part_at parts.now.parts.items value.0 ≡ Some part) }
{
    match parts.part(value) {
        Some(part) => part.copy(),
        None => unreachable!(),
    }
}

/// Probes a part: its value at an earlier activation, or now.
pub fn probe(
    terms: &mut Terms,
    rows: &mut Rows,
    part: Part,
    is_past: bool,
) -> Result<TermId, NoMemory>
    requires { IsData part.ty }
    ensures kept { Grows terms.old terms.new }
    ensures rows { OnOk result (effects.IsProbed terms.old rows.old terms.new rows.new part) }
    ensures made { IfOk result (λ t. StandsForTree terms.new t (effects.probed is_past part)) }
{
    let term = value_of(terms, &part, is_past)?;
    rows.probes.push(part)?;
    Ok(term)
}

fn value_of(terms: &mut Terms, part: &Part, is_past: bool) -> Result<TermId, NoMemory>
    requires { IsData part.now.ty }
    ensures kept { Grows terms.old terms.new }
    ensures made { IfOk result (λ t. StandsForTree terms.new t (effects.probed is_past part.now)) }
{
    if is_past {
        terms.past(part)
    } else {
        terms.now(part)
    }
}

/// A drive at a place: on which condition it happens, with which value and after which delay.
#[derive(Clone, Copy)]
pub struct DriveAt {
    pub place: usize,
    pub cond: TermId,
    pub value: u32,
    pub after: u32,
}

/// Drives a part, unless that never happens.
pub fn drive(
    alloc: Global,
    terms: &mut Terms,
    places: &mut Places,
    rows: &mut Rows,
    drives: DriveAt,
    part: Part,
) -> Result<(), NoMemory>
    requires cond { IsConditionAt terms.old drives.cond }
    requires is_in { drives.place < length places.old.items }
    requires told { effects.CanDrive terms.old places.old.items drives }
    ensures kept { Grows terms.old terms.new }
    ensures same { OnOk result (SamePlaces places.old.items places.new.items) }
    ensures still { OnOk result (effects.StillDriven terms.old places.old.items terms.new places.new.items drives) }
    ensures rows { OnOk result (effects.IsDriven terms.old places.old.items rows.old terms.new rows.new drives part) }
{
    if never_holds(terms, drives.cond) {
        return Ok(());
    }
    let value = value_at(alloc, terms, places, drives.place, drives.value)?;
    let delay = value_at(alloc, terms, places, drives.place, drives.after)?;
    let row = DriveRow {
        cond: drives.cond,
        part,
        value,
        delay,
    };
    rows.drives.push(row)
}

/// Asserts the operands of a call at a place.
pub fn assert_at(
    alloc: Global,
    terms: &mut Terms,
    places: &mut Places,
    rows: &mut Rows,
    at: usize,
    args: &TypedList,
) -> Result<(), NoMemory>
    requires { taken.CanAskAll terms.old places.old.items (taken.asks_at at args.now) }
    ensures kept { Grows terms.old terms.new }
    ensures same { OnOk result (SamePlaces places.old.items places.new.items) }
    ensures still { OnOk result (taken.StillToldAll terms.old places.old.items terms.new places.new.items (taken.asks_at at args.now)) }
    ensures rows { OnOk result (effects.AreAsserted terms.old places.old.items rows.old terms.new rows.new at args.now) }
{
    let asks = asks_at(alloc, at, args.as_slice())?;
    let conds = ask_all(alloc, terms, places, asks.as_slice())?;
    add_asserts(rows, conds.as_slice())?;
    Ok(())
}

fn add_asserts(rows: &mut Rows, conds: &[TermId]) -> Result<(), NoMemory>
    ensures { OnOk result (effects.IsWithAsserts rows.old conds.now rows.new) }
{
    for cond in conds {
        rows.asserts.push(*cond)?;
    }
    Ok(())
}

/// An end of a region, and the edge by which it goes on from there.
pub fn end(rows: &mut Rows, sources: &mut EdgeList, from: Edge, way: Way) -> Result<(), NoMemory>
    ensures sources { OnOk result (sources.new ≡ sources.old ++ from ∷ []) }
    ensures rows { OnOk result (effects.IsEnded rows.old rows.new from.cond way) }
{
    sources.push(from)?;
    let row = EndRow {
        cond: from.cond,
        way,
    };
    rows.ends.push(row)
}
