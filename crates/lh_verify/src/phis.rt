//! Fault 6: where a `phi` stands, and which blocks its edges name.
ghost use Rattle.std.specs.Prelude.{◌≡◌, ◌<◌, ◌++◌, ◌∷◌, [], map, length, replicate, slice_index_or, IfOk, OnOk};
ghost use Rattle.lh_unit.specs.Within.{Each};
ghost use Rattle.lh_unit.specs.Table.{Table};
ghost use Rattle.lh_unit.specs.Arena.{unit_count, label_count, inst_count, table_at, blocks_at};
ghost use Rattle.lh_unit.specs.declared.inst.PhiEdge.{PhiEdge};
ghost use Rattle.lh_verify.specs.Counting.{CountsEdges, EdgesWithin, all_named_once};
ghost use Rattle.lh_verify.specs.PhisById.{phi_is_wrong as wrong_phi, wrong_phi_at};
ghost use Rattle.lh_verify.specs.Predecessors.{IsPredecessors};
ghost use Rattle.lh_verify.specs.SpotsWithin.{SpotWithin};

use crate::predecessors::{BlockList, predecessors};
use crate::spots::Spot;
use lh_types::memory::NoMemory;
use lh_unit::inst::{BlockId, Inst, PhiEdge, UnitId};
use lh_unit::module::Module;
use std::alloc::Global;

/// By the places of a unit, whether the instruction there is a `phi` that stands after another kind of instruction, or in
/// the entry block, or does not name each predecessor of its block once.
///
/// Work grows with the number of labels, of places, and of the edges of all `phi`.
pub fn wrong_phis(
    alloc: Global,
    m: &Module,
    unit: UnitId,
    places: &[Spot],
) -> Result<Vec<bool>, NoMemory>
    requires unit { unit.0 < unit_count m.now }
    requires within { Each (SpotWithin (inst_count m.now unit.0)) places.now }
    ensures { IfOk result (λ wrong. wrong.items ≡ map (wrong_phi_at (table_at m.now unit.0)) places.now) }
{
    let rows = predecessors(alloc, m, unit)?;
    let mut counts = no_counts(alloc, m.labels(unit))?;
    test_places(alloc, &rows, &mut counts, m, unit, places)
}

/// Counts of which each is zero.
fn no_counts(alloc: Global, labels: u32) -> Result<Vec<usize>, NoMemory>
    ensures { IfOk result (λ counts. counts.items ≡ replicate labels 0) }
{
    Ok(vec![in alloc; 0usize; labels as usize]?)
}

fn test_places(
    alloc: Global,
    rows: &[BlockList],
    counts: &mut [usize],
    m: &Module,
    unit: UnitId,
    places: &[Spot],
) -> Result<Vec<bool>, NoMemory>
    requires unit { unit.0 < unit_count m.now }
    requires within { Each (SpotWithin (inst_count m.now unit.0)) places.now }
    requires rows { IsPredecessors (table_at m.now unit.0) (blocks_at m.now unit.0) (label_count m.now unit.0) rows.now }
    requires counts { CountsEdges (label_count m.now unit.0) [] counts.old }
    ensures { IfOk result (λ wrong. wrong.items ≡ map (wrong_phi_at (table_at m.now unit.0)) places.now) }
{
    let mut wrong = Vec::with_capacity(alloc, places.len())?;
    put_tests(&mut wrong, rows, counts, m, unit, places)?;
    Ok(wrong)
}

/// Adds the tests of all places to none.
fn put_tests(
    wrong: &mut Vec<bool>,
    rows: &[BlockList],
    counts: &mut [usize],
    m: &Module,
    unit: UnitId,
    places: &[Spot],
) -> Result<(), NoMemory>
    requires none { wrong.old.items ≡ [] }
    requires unit { unit.0 < unit_count m.now }
    requires within { Each (SpotWithin (inst_count m.now unit.0)) places.now }
    requires rows { IsPredecessors (table_at m.now unit.0) (blocks_at m.now unit.0) (label_count m.now unit.0) rows.now }
    requires counts { CountsEdges (label_count m.now unit.0) [] counts.old }
    ensures { OnOk result (wrong.new.items ≡ map (wrong_phi_at (table_at m.now unit.0)) places.now) }
{
    for place in places {
        put_test(wrong, rows, counts, m, unit, *place)?;
    }
    Ok(())
}

/// Adds the test of a place.
fn put_test(
    wrong: &mut Vec<bool>,
    rows: &[BlockList],
    counts: &mut [usize],
    m: &Module,
    unit: UnitId,
    place: Spot,
) -> Result<(), NoMemory>
    requires unit { unit.0 < unit_count m.now }
    requires within { SpotWithin (inst_count m.now unit.0) place }
    requires rows { IsPredecessors (table_at m.now unit.0) (blocks_at m.now unit.0) (label_count m.now unit.0) rows.now }
    requires counts { CountsEdges (label_count m.now unit.0) [] counts.old }
    ensures wrong { OnOk result (wrong.new.items ≡ wrong.old.items ++ wrong_phi_at (table_at m.now unit.0) place ∷ []) }
    ensures counts { CountsEdges (label_count m.now unit.0) [] counts.new }
{
    let is_wrong = phi_is_wrong(rows, counts, place, m.inst(unit, place.inst));
    wrong.push(is_wrong)?;
    Ok(())
}

/// Whether an instruction is a `phi` with fault 6, where `rows` are the predecessors of each label, and no edge is counted
/// yet or afterwards.
fn phi_is_wrong(rows: &[BlockList], counts: &mut [usize], spot: Spot, inst: &Inst) -> bool
    requires within { EdgesWithin (length counts.old) inst.now }
    requires counts { CountsEdges (length counts.old) [] counts.old }
    ensures wrong { (t : Table) → IsPredecessors t t.blocks (length rows.now) rows.now → result ≡ wrong_phi t spot inst.now }
    ensures counts { CountsEdges (length counts.old) [] counts.new }
{
    match inst {
        Inst::Phi { ty: _, edges } => {
            if spot.after_other || spot.in_entry {
                return true;
            }
            !are_named_once(blocks_in(rows, spot.block), counts, edges.as_slice())
        }
        _ => false,
    }
}

/// The predecessors of a block.
fn blocks_in(rows: &[BlockList], block: BlockId) -> &[BlockId]
    ensures { result.now ≡ slice_index_or rows.now block.0 [] }
{
    match rows.get(block.0 as usize) {
        Some(blocks) => blocks.as_slice(),
        None => &[],
    }
}

/// Whether each of these blocks is named by one edge.
fn are_named_once(blocks: &[BlockId], counts: &mut [usize], edges: &[PhiEdge]) -> bool
    requires within { Each (λ (e : PhiEdge). e.block.0 < length counts.old) edges.now }
    requires counts { CountsEdges (length counts.old) [] counts.old }
    ensures once { result ≡ all_named_once edges.now blocks.now }
    ensures counts { CountsEdges (length counts.old) [] counts.new }
{
    count(counts, edges);
    let once = all_counted_once(counts, blocks, edges);
    forget(counts, edges);
    once
}

/// Counts the edges by the ids of the labels that they name.
fn count(counts: &mut [usize], edges: &[PhiEdge])
    requires within { Each (λ (e : PhiEdge). e.block.0 < length counts.old) edges.now }
    requires counts { CountsEdges (length counts.old) [] counts.old }
    ensures { CountsEdges (length counts.old) edges.now counts.new }
{
    for edge in edges {
        counts[edge.block.0 as usize] += 1;
    }
}

/// Whether the edges that name each of these blocks were counted as one.
fn all_counted_once(counts: &[usize], blocks: &[BlockId], edges: &[PhiEdge]) -> bool
    requires { CountsEdges (length counts.now) edges.now counts.now }
    ensures { result ≡ all_named_once edges.now blocks.now }
{
    for block in blocks {
        if count_of(counts, *block) != 1 {
            return false;
        }
    }
    true
}

fn count_of(counts: &[usize], block: BlockId) -> usize
    ensures { result ≡ slice_index_or counts.now block.0 0 }
{
    match counts.get(block.0 as usize) {
        Some(count) => *count,
        None => 0,
    }
}

/// Takes the edges off again, so that the next `phi` finds no count.
fn forget(counts: &mut [usize], edges: &[PhiEdge])
    requires within { Each (λ (e : PhiEdge). e.block.0 < length counts.old) edges.now }
    requires counts { CountsEdges (length counts.old) edges.now counts.old }
    ensures { CountsEdges (length counts.old) [] counts.new }
{
    for edge in edges {
        counts[edge.block.0 as usize] -= 1;
    }
}
