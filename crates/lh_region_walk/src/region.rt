//! The regions of a process.
ghost use Rattle.std.specs.Prelude.{◌≡◌, ◌<◌, ◌^◌, ◌∷◌, [], length, false, IfOk, IfErr};
ghost use Rattle.lh_unit.specs.Naming.{Naming};
ghost use Rattle.lh_flat.specs.Reads.{flat_text};
ghost use Rattle.lh_term.specs.Arena.{Grows};
ghost use Rattle.lh_region_def.specs.Regions.{regions_of};
ghost use Rattle.lh_region.specs.Forms.{HasForm, Names};
ghost use Rattle.lh_region.specs.Stands.{RegionsOrReason, RegionsFit};
ghost use Rattle.lh_region_walk.specs.Both as both;

use crate::turns::walk_from;
use crate::walk::{Region, Walk, WalkPoint};
use lh_flat::Flat;
use lh_flat_parts::PartTable;
use lh_region::ahead::EdgeList;
use lh_region::beginning::begin;
use lh_region::head::{begins_with_phi, head_of};
use lh_region::rows::{RegionFault, Regions, Rows};
use lh_region::start::start_of;
use lh_region::target::one_target;
use lh_region_joins::logic::bit;
use lh_region_places::places::Places;
use lh_term::terms::Terms;
use lh_types::memory::NoMemory;
use std::alloc::Global;

/// The regions of a flat text. The second one is built exactly where every end of the first is a wait without time, all for one
/// block that is not the head, and all on the same set of bits.
pub fn regions(alloc: Global, flat: &Flat, terms: &mut Terms) -> Result<Regions, RegionFault>
    requires form { HasForm flat.now }
    ensures kept { Grows terms.old terms.new }
    ensures answer { (f : Naming) → Names flat.now f → RegionsOrReason terms.new (regions_of (flat_text f flat.now)) result }
    ensures fit { IfOk result (λ regions. RegionsFit terms.new regions) }
{
    // More blocks or arguments than there are ids: no memory has room for them.
    if flat.blocks.len() > u32::MAX as usize {
        return Err(RegionFault::OutOfMemory);
    }
    if flat.args.len() > u32::MAX as usize {
        return Err(RegionFault::OutOfMemory);
    }
    let head = head_of(flat);
    if begins_with_phi(&flat.blocks.as_slice()[head as usize]) {
        return Err(RegionFault::HeadPhi);
    }
    let parts = PartTable::new(alloc, flat)?;
    let region = Region {
        flat,
        parts: &parts,
        head,
        is_past: false,
        ends_at_head: false,
    };
    both_regions(alloc, &region, terms)
}

/// Both regions, where the head begins with no `phi`.
fn both_regions(
    alloc: Global,
    region: &Region<'_>,
    terms: &mut Terms,
) -> Result<Regions, RegionFault>
    requires few { length region.now.flat.now.blocks < 2 ^ 32 }
    requires here { both.IsHere region.now }
    requires goes_on { region.now.ends_at_head ≡ false }
    ensures kept { Grows terms.old terms.new }
    ensures answer { (f : Naming) → Names region.now.flat.now f → RegionsOrReason terms.new (regions_of (flat_text f region.now.flat.now)) result }
    ensures fit { IfOk result (λ regions. RegionsFit terms.new regions) }
{
    let first = first_rows(alloc, region, terms)?;
    let found = one_target(alloc, &first)?;
    let Some(target) = found else {
        return Ok(Regions {
            first,
            second: None,
        });
    };
    let second = second_rows(alloc, region, terms, target)?;
    Ok(Regions {
        first,
        second: Some(second),
    })
}

/// The rows of the region that starts at the head.
fn first_rows(alloc: Global, region: &Region<'_>, terms: &mut Terms) -> Result<Rows, RegionFault>
    requires few { length region.now.flat.now.blocks < 2 ^ 32 }
    requires region { both.HasRegion region.now }
    requires goes_on { region.now.ends_at_head ≡ false }
    ensures kept { Grows terms.old terms.new }
    ensures rows { IfOk result (λ rows. both.FirstRows region.now terms.new rows) }
    ensures cause { IfErr result (λ fault. both.FirstStops region.now fault) }
{
    let Walk { rows, .. } = first_walk(alloc, region, terms)?;
    Ok(rows)
}

/// The walk through the region that starts at the head.
fn first_walk(alloc: Global, region: &Region<'_>, terms: &mut Terms) -> Result<Walk, RegionFault>
    requires few { length region.now.flat.now.blocks < 2 ^ 32 }
    requires region { both.HasRegion region.now }
    requires goes_on { region.now.ends_at_head ≡ false }
    ensures kept { Grows terms.old terms.new }
    ensures through { IfOk result (λ walk. both.GoesFirst region.now terms.new walk) }
    ensures cause { IfErr result (λ fault. both.FirstStops region.now fault) }
{
    let start = start_of(alloc, region.flat, region.head, terms)?;
    let places = Places::only(alloc, start)?;
    let cond = bit(terms, true)?;
    walk_from(
        alloc,
        region,
        terms,
        places,
        WalkPoint {
            place: 0,
            block: region.head,
            turns: 0,
            cond,
        },
    )
}

/// The rows of the region that starts at the target of the ends of the first one: what is known there are the values of the first
/// region at the last activation.
fn second_rows(
    alloc: Global,
    region: &Region<'_>,
    terms: &mut Terms,
    target: u32,
) -> Result<Rows, RegionFault>
    requires few { length region.now.flat.now.blocks < 2 ^ 32 }
    requires target { both.HasTarget region.now target }
    requires now { region.now.is_past ≡ false }
    requires goes_on { region.now.ends_at_head ≡ false }
    ensures kept { Grows terms.old terms.new }
    ensures rows { IfOk result (λ rows. both.SecondRows region.now target terms.new rows) }
    ensures cause { IfErr result (λ fault. both.SecondStops region.now target fault) }
{
    let past = Region {
        is_past: true,
        ..*region
    };
    let first = first_walk(alloc, &past, terms)?;
    let (places, at) = place_behind(alloc, first, terms, target)?;
    let again = Region {
        ends_at_head: true,
        ..*region
    };
    let Walk { rows, .. } = walk_from(alloc, &again, terms, places, at)?;
    Ok(rows)
}

/// The places of a walk with a further one behind them, which stands for the target of its ends; and that one.
fn place_behind(
    alloc: Global,
    walk: Walk,
    terms: &mut Terms,
    target: u32,
) -> Result<(Places, WalkPoint), NoMemory>
    ensures kept { Grows terms.old terms.new }
    ensures behind { IfOk result (λ x. both.SecondPlaceIsBehind walk target terms.new x.0.items x.1) }
{
    let Walk {
        mut places,
        sources,
        ..
    } = walk;
    let place = places.len();
    begin(alloc, &mut places, target, sources)?;
    let cond = bit(terms, true)?;
    let at = WalkPoint {
        place,
        block: target,
        turns: 0,
        cond,
    };
    Ok((places, at))
}
