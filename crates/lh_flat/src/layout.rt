//! How many blocks copies have, and where the blocks of a copy stand.
ghost use Rattle.std.specs.Prelude.{◌≡◌, ◌+◌, ◌^◌, ◌<◌, slice_set, replicate, IfOk};
ghost use Rattle.lh_unit.specs.Arena.{block_insts_at};
ghost use Rattle.lh_flat.specs.Graph.{BlockPlaced, CalleeWithin};
ghost use Rattle.lh_flat.specs.Building.{insts_room, unit_room, call_room, spans_of};
ghost use Rattle.lh_flat.specs.Renames.{no_span};

use crate::calls::callee;
use crate::rename::{Span, SpanList};
use lh_types::list::ListOf;
use lh_types::memory::NoMemory;
use lh_unit::inst::{BlockId, UnitId};
use lh_unit::module::Module;
use lh_unit::view::UnitView;
use std::alloc::Global;

/// How many blocks a copy of a unit has, in which at most `depth` calls nest.
#[cycle(room)]
pub fn unit_room(depth: u32, view: UnitView<'_>) -> u32
    requires { unit_room (call_room depth view.module.now) view.module.now view.unit.0 < 2 ^ 32 }
    ensures { let a = view.entry.module.now in result ≡ unit_room (call_room depth a) a view.entry.unit.0 }
{
    let mut room = 0;
    for block in view.blocks() {
        let calls = insts_room(depth, view, *block);
        room += calls + 1;
    }
    room
}

/// How many blocks the calls of a block add to its own.
#[cycle(room)]
fn insts_room(depth: u32, view: UnitView<'_>, block: BlockId) -> u32
    requires placed { BlockPlaced view.module.now view.unit.0 block }
    requires few { let a = view.module.now in insts_room (call_room depth a) a view.unit.0 (block_insts_at a view.unit.0 block.0) < 2 ^ 32 }
    ensures { let a = view.entry.module.now in result ≡ insts_room (call_room depth a) a view.entry.unit.0 (block_insts_at a view.entry.unit.0 block.0) }
{
    let mut room = 0;
    for inst in view.insts(block) {
        let function = callee(view, view.inst(*inst));
        room += call_room(depth, view.module(), function);
    }
    room
}

/// How many blocks a call adds: those of the copy, and the piece that goes on after it.
#[cycle(room)]
fn call_room(depth: u32, m: &Module, function: Option<UnitId>) -> u32
    requires within { CalleeWithin m.now function }
    requires few { call_room depth m.now function < 2 ^ 32 }
    ensures { result ≡ call_room depth m.now function }
{
    let Some(function) = function else {
        return 0;
    };
    if depth == 0 {
        return 0;
    }
    unit_room(depth - 1, m.unit(function)) + 1
}

/// Room for the pieces of this many blocks.
fn spans_for(alloc: Global, labels: u32) -> Result<Vec<Span>, NoMemory>
    ensures { IfOk result (λ spans. spans.items ≡ replicate labels no_span) }
{
    let spans = vec![in alloc; Span::nowhere(); labels as usize]?;
    Ok(spans)
}

/// Sets the pieces of a block. An entity's block has no label, and so none.
fn set_span(spans: &mut Vec<Span>, block: BlockId, span: Span)
    ensures { spans.new.items ≡ slice_set spans.old.items block.0 span }
{
    let at = block.0 as usize;
    if at < spans.len() {
        spans[at] = span;
    }
}

/// The pieces of the blocks of a unit, by the ids of its labels, where its first block stands at place `at`. Each call leaves room for
/// the blocks of its copy.
pub fn layout(alloc: Global, depth: u32, view: UnitView<'_>, at: u32) -> Result<SpanList, NoMemory>
    requires { at + unit_room (call_room depth view.module.now) view.module.now view.unit.0 < 2 ^ 32 }
    ensures { let a = view.entry.module.now in IfOk result (λ spans. spans ≡ spans_of (call_room depth a) a view.entry.unit.0 at) }
{
    let mut spans = spans_for(alloc, view.labels())?;
    let mut next = at;
    for block in view.blocks() {
        let last = next + insts_room(depth, view, *block);
        let span = Span {
            first: BlockId(next),
            last: BlockId(last),
        };
        set_span(&mut spans, *block, span);
        next = last + 1;
    }
    Ok(ListOf::from_vec(spans))
}
