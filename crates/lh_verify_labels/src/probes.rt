//! Which values of a unit come from a `prb`.
ghost use Rattle.std.specs.Prelude.{◌≡◌, ◌<◌, ◌+◌, ◌∷◌, List, length, replicate, false, slice_index_or, IfOk, IfSome, OnOk, IsTrue};
ghost use Rattle.std.specs.List.{list_any};
ghost use Rattle.lh_unit.specs.Table.{line_at};
ghost use Rattle.lh_unit.specs.Arena.{unit_count, value_count, inst_count, table_at};
ghost use Rattle.lh_unit.specs.declared.table.TableLine.{TableLine};
ghost use Rattle.lh_verify_labels.specs.Marking.{MarksProbed, Reaches, Advances, comes_from as inst_comes_from};
ghost use Rattle.lh_verify_labels.specs.Turns.{turn_of as value_turn, is_before, comes_by, result_led, all_led, with_turns};
ghost use Rattle.lh_verify_values.specs.Facts.{any_sig};

use crate::turns::turns_of;
use lh_types::memory::NoMemory;
use lh_unit::inst::{Inst, InstId, UnitId, ValueId};
use lh_unit::module::Module;
use lh_verify_operands::uses::{Use, uses};
use lh_verify_values::facts::no_marks;
use std::alloc::Global;

/// In a unit that has a `sig` and this many instructions: by the ids of values, whether the value comes from a `prb` by its
/// operands. Of a unit without a `sig`, where nothing asks, the marks say nothing.
pub fn probed(alloc: Global, m: &Module, unit: UnitId, insts: u32) -> Result<Vec<bool>, NoMemory>
    requires unit { unit.0 < unit_count m.now }
    requires insts { insts ≡ inst_count m.now unit.0 }
    ensures { IfOk result (λ marks. MarksProbed m.now unit.0 marks.items) }
{
    if !has_sig(m, unit, insts) {
        return no_marks(alloc, m.values(unit));
    }
    let turns = turns_of(alloc, m, unit, insts)?;
    match by_turns(alloc, m, unit, insts, &turns)? {
        Some(marks) => Ok(marks),
        None => rounds(alloc, m, unit, insts),
    }
}

/// The marks of the values that have a turn, where the turns are right: each such value comes from a `prb` or from one of an earlier
/// turn, and a round adds none.
fn by_turns(
    alloc: Global,
    m: &Module,
    unit: UnitId,
    insts: u32,
    turns: &[u32],
) -> Result<Option<Vec<bool>>, NoMemory>
    requires unit { unit.0 < unit_count m.now }
    requires insts { insts ≡ inst_count m.now unit.0 }
    ensures { IfOk result (λ found. IfSome found (λ marks. Reaches m.now unit.0 (inst_count m.now unit.0 + 1) marks.items)) }
{
    let marks = marks_of(alloc, turns)?;
    if marks.len() != m.values(unit) as usize || !are_led(alloc, m, unit, insts, turns)? {
        return Ok(None);
    }
    let next = round(alloc, m, unit, insts, &marks)?;
    if are_same(&marks, &next) {
        return Ok(Some(marks));
    }
    Ok(None)
}

/// Which values have a turn.
fn marks_of(alloc: Global, turns: &[u32]) -> Result<Vec<bool>, NoMemory>
    ensures { IfOk result (λ marks. marks.items ≡ with_turns turns.now) }
{
    let mut marks = Vec::with_capacity(alloc, turns.len())?;
    for turn in turns {
        marks.push(*turn != 0)?;
    }
    Ok(marks)
}

/// Whether each result with a turn comes from a `prb`, or from an operand of an earlier turn.
fn are_led(
    alloc: Global,
    m: &Module,
    unit: UnitId,
    insts: u32,
    turns: &[u32],
) -> Result<bool, NoMemory>
    requires unit { unit.0 < unit_count m.now }
    requires insts { insts ≡ inst_count m.now unit.0 }
    ensures { IfOk result (λ b. b ≡ all_led insts turns.now (table_at m.now unit.0).lines) }
{
    for i in 0..insts {
        if !is_led(
            alloc,
            insts,
            turns,
            m.result_of(unit, InstId(i)),
            m.inst(unit, InstId(i)),
        )? {
            return Ok(false);
        }
    }
    Ok(true)
}

fn is_led(
    alloc: Global,
    insts: u32,
    turns: &[u32],
    gives: Option<ValueId>,
    inst: &Inst,
) -> Result<bool, NoMemory>
    ensures { IfOk result (λ b. b ≡ result_led insts turns.now gives inst.now) }
{
    let Some(value) = gives else {
        return Ok(true);
    };
    let turn = turn_of(turns, value);
    if turn == 0 {
        return Ok(true);
    }
    Ok(turn <= insts && leads(alloc, turns, turn, inst)?)
}

/// Whether an instruction is a `prb`, or has an operand of a turn before this one.
fn leads(alloc: Global, turns: &[u32], turn: u32, inst: &Inst) -> Result<bool, NoMemory>
    ensures { IfOk result (λ b. b ≡ comes_by (is_before turns.now turn) inst.now) }
{
    if let Inst::Prb(_) = inst {
        return Ok(true);
    }
    let list = uses(alloc, inst)?;
    Ok(any_is_before(turns, turn, list.as_slice()))
}

fn any_is_before(turns: &[u32], turn: u32, operands: &[Use]) -> bool
    ensures { result ≡ list_any (λ x. is_before turns.now turn x.value) operands.now }
{
    for operand in operands {
        let of_operand = turn_of(turns, operand.value);
        if of_operand != 0 && of_operand < turn {
            return true;
        }
    }
    false
}

fn turn_of(turns: &[u32], value: ValueId) -> u32
    ensures { result ≡ value_turn turns.now value }
{
    match turns.get(value.0 as usize) {
        Some(turn) => *turn,
        None => 0,
    }
}

/// Whether one of the instructions of a unit is a `sig`.
fn has_sig(m: &Module, unit: UnitId, insts: u32) -> bool
    requires unit { unit.0 < unit_count m.now }
    requires insts { insts ≡ inst_count m.now unit.0 }
    ensures { result ≡ any_sig (table_at m.now unit.0).lines }
{
    for i in 0..insts {
        if m.inst(unit, InstId(i)).is_sig() {
            return true;
        }
    }
    false
}

/// In each round the values that come from a `prb` by one instruction more are marked, until no value is added.
fn rounds(alloc: Global, m: &Module, unit: UnitId, insts: u32) -> Result<Vec<bool>, NoMemory>
    requires unit { unit.0 < unit_count m.now }
    requires insts { insts ≡ inst_count m.now unit.0 }
    ensures { IfOk result (λ marks. Reaches m.now unit.0 (inst_count m.now unit.0 + 1) marks.items) }
{
    let mut marks = no_marks(alloc, m.values(unit))?;
    for _ in 0..insts + 1 {
        let next = round(alloc, m, unit, insts, &marks)?;
        if are_same(&marks, &next) {
            return Ok(next);
        }
        marks = next;
    }
    Ok(marks)
}

/// Whether marks are the same.
fn are_same(marks: &[bool], other: &[bool]) -> bool
    requires { length marks.now ≡ length other.now }
    ensures { IsTrue result → marks.now ≡ other.now }
{
    for (i, mark) in marks.iter().enumerate() {
        if *mark != other[i] {
            return false;
        }
    }
    true
}

/// One round: the values of which the instruction is a `prb` or has a marked operand.
fn round(
    alloc: Global,
    m: &Module,
    unit: UnitId,
    insts: u32,
    marks: &[bool],
) -> Result<Vec<bool>, NoMemory>
    requires unit { unit.0 < unit_count m.now }
    requires insts { insts ≡ inst_count m.now unit.0 }
    requires long { length marks.now ≡ value_count m.now unit.0 }
    ensures { IfOk result (λ next. Advances (table_at m.now unit.0).lines marks.now (value_count m.now unit.0) next.items) }
{
    let mut next = no_marks(alloc, m.values(unit))?;
    mark_insts(alloc, m, unit, insts, marks, &mut next)?;
    Ok(next)
}

/// Marks the results of all instructions; of two that give one value, the first decides.
fn mark_insts(
    alloc: Global,
    m: &Module,
    unit: UnitId,
    insts: u32,
    marks: &[bool],
    next: &mut [bool],
) -> Result<(), NoMemory>
    requires unit { unit.0 < unit_count m.now }
    requires insts { insts ≡ inst_count m.now unit.0 }
    requires long { length marks.now ≡ value_count m.now unit.0 }
    requires next { next.old ≡ replicate (value_count m.now unit.0) false }
    ensures { OnOk result (Advances (table_at m.now unit.0).lines marks.now (value_count m.now unit.0) next.new) }
{
    for i in (0..insts).rev() {
        mark_inst(alloc, m, unit, InstId(i), marks, next)?;
    }
    Ok(())
}

fn mark_inst(
    alloc: Global,
    m: &Module,
    unit: UnitId,
    inst: InstId,
    marks: &[bool],
    next: &mut [bool],
) -> Result<(), NoMemory>
    requires unit { unit.0 < unit_count m.now }
    requires inst { inst.0 < inst_count m.now unit.0 }
    requires long { length marks.now ≡ value_count m.now unit.0 }
    requires next { length next.old ≡ value_count m.now unit.0 }
    ensures { (ls : List TableLine) → Advances ls marks.now (value_count m.now unit.0) next.old → OnOk result (Advances (line_at (table_at m.now unit.0) inst.0 ∷ ls) marks.now (value_count m.now unit.0) next.new) }
{
    match m.result_of(unit, inst) {
        None => Ok(()),
        Some(value) => {
            let place = value.0 as usize;
            next[place] = comes_from(alloc, marks, m.inst(unit, inst))?;
            Ok(())
        }
    }
}

/// Whether an instruction is a `prb`, or one of its operands is marked.
fn comes_from(alloc: Global, marks: &[bool], inst: &Inst) -> Result<bool, NoMemory>
    ensures { IfOk result (λ b. b ≡ inst_comes_from marks.now inst.now) }
{
    if let Inst::Prb(_) = inst {
        return Ok(true);
    }
    let list = uses(alloc, inst)?;
    Ok(any_is_marked(marks, list.as_slice()))
}

fn any_is_marked(marks: &[bool], operands: &[Use]) -> bool
    ensures { result ≡ list_any (λ x. slice_index_or marks.now x.value.0 false) operands.now }
{
    for operand in operands {
        if is_marked(marks, operand.value) {
            return true;
        }
    }
    false
}

fn is_marked(marks: &[bool], value: ValueId) -> bool
    ensures { result ≡ slice_index_or marks.now value.0 false }
{
    match marks.get(value.0 as usize) {
        Some(mark) => *mark,
        None => false,
    }
}
