//! The one block for which all ends of a region wait.
ghost use Rattle.std.specs.Prelude.{◌≡◌, ◌&&◌, List, None, Some, IfOk, MatchOption};
ghost use Rattle.lh_term.specs.declared.part.Part.{Part as PartOf};
ghost use Rattle.lh_term_cover.specs.Bits.{same_bits};
ghost use Rattle.lh_term_cover.specs.Runs.{IsCover};
ghost use Rattle.lh_region_def.specs.Regions as texts;
ghost use Rattle.lh_region.specs.Stands.{way_text};
ghost use Rattle.lh_region.specs.Targets.{ways_of, target_by};

use crate::rows::{EndRow, Rows, Way};
use lh_term::part::PartList;
use lh_term_cover::Cover;
use lh_types::memory::NoMemory;
use std::alloc::Global;

/// The block for which every end waits, where that is not the head, no end names a time, and all wait on the same bits.
pub fn one_target(alloc: Global, rows: &Rows) -> Result<Option<u32>, NoMemory>
    ensures { IfOk result (λ target. target ≡ target_by (ways_of rows.now.ends)) }
{
    let [first, others @ ..] = rows.ends.as_slice() else {
        return Ok(None);
    };
    let Some((target, parts)) = waits_for(first) else {
        return Ok(None);
    };
    let cover = Cover::new(alloc, parts)?;
    for end in others {
        if !waits_alike(alloc, end, target, &cover)? {
            return Ok(None);
        }
    }
    Ok(Some(target))
}

/// The block for which an end waits, where that is not the head and the end names no time, and the parts that it waits on.
fn waits_for(end: &EndRow) -> Option<(u32, &PartList)>
    ensures target { MatchOption result (texts.waits_for (way_text end.now.way) ≡ None) (λ found. texts.waits_for (way_text end.now.way) ≡ Some found.0) }
    ensures parts { MatchOption result (texts.waits_for (way_text end.now.way) ≡ None) (λ found. found.1.now ≡ texts.waited_parts (way_text end.now.way)) }
{
    match &end.way {
        Way::Wait {
            target,
            to_head: false,
            parts,
            timed: false,
        } => Some((*target, parts)),
        _ => None,
    }
}

/// Whether an end waits for this block too, on the bits of this set.
fn waits_alike(alloc: Global, end: &EndRow, target: u32, cover: &Cover) -> Result<bool, NoMemory>
    ensures { (parts : List PartOf) → IsCover cover.now parts → IfOk result (λ alike. alike ≡ (texts.is_that target (texts.waits_for (way_text end.now.way)) && same_bits parts (texts.waited_parts (way_text end.now.way)))) }
{
    match waits_for(end) {
        Some((to, on)) if to == target => {
            let other = Cover::new(alloc, on)?;
            Ok(cover.is_same(&other))
        }
        _ => Ok(false),
    }
}
