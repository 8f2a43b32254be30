//! Where a process starts.
ghost use Rattle.std.specs.Prelude.{◌≡◌, [], None, IfOk, OnOk};
ghost use Rattle.lh_unit.specs.Within.{Each};
ghost use Rattle.lh_flat.specs.declared.flat.FlatInst.{FlatInst as Line};
ghost use Rattle.lh_term.specs.Arena.{Grows};
ghost use Rattle.lh_region.specs.Starts.{GivesValueWithin, lines_left, KnowsConstants, TakesConstant};

use lh_flat::{Flat, FlatInst};
use lh_region_places::state::PlaceState;
use lh_term::terms::Terms;
use lh_types::memory::NoMemory;
use lh_unit::inst::Inst;
use std::alloc::Global;

/// The start of a process: the head, with the constants of an entry that is left.
pub fn start_of(
    alloc: Global,
    flat: &Flat,
    head: u32,
    terms: &mut Terms,
) -> Result<PlaceState, NoMemory>
    requires { Each (λ (l : Line). GivesValueWithin l.result l.inst) (lines_left flat.now.blocks head) }
    ensures kept { Grows terms.old terms.new }
    ensures block { IfOk result (λ place. place.block ≡ head) }
    ensures edges { IfOk result (λ place. place.edges.items ≡ []) }
    ensures selectors { IfOk result (λ place. place.selectors ≡ None) }
    ensures known { IfOk result (λ place. KnowsConstants terms.new place (lines_left flat.now.blocks head)) }
{
    let mut start = PlaceState::new(alloc, head);
    for line in lines_left(flat, head) {
        take_constant(terms, &mut start, line)?;
    }
    Ok(start)
}

/// The instructions of the entry, where the process does not start there.
fn lines_left(flat: &Flat, head: u32) -> &[FlatInst]
    ensures { result.now ≡ lines_left flat.now.blocks head }
{
    match flat.blocks.as_slice() {
        [entry, ..] if head != 0 => entry.insts.as_slice(),
        _ => &[],
    }
}

/// Makes the constant known that an instruction is, if it is one.
fn take_constant(terms: &mut Terms, start: &mut PlaceState, line: &FlatInst) -> Result<(), NoMemory>
    requires { GivesValueWithin line.now.result line.now.inst }
    ensures kept { Grows terms.old terms.new }
    ensures taken { OnOk result (TakesConstant terms.new start.old line.now start.new) }
{
    match (&line.inst, line.result) {
        (Inst::Const(value), Some(result)) => {
            let term = terms.konst(value.value()?)?;
            start.set(result.0, term)
        }
        _ => Ok(()),
    }
}
