//! One pass of an entity.
ghost use Rattle.std.specs.Prelude.{◌≡◌, ◌<◌, ◌^◌, length, Some, IfOk};
ghost use Rattle.lh_types.specs.Raised.{raised};
ghost use Rattle.lh_unit.specs.Arena.{IsArena, unit_count, kind_at, contents, unit_text_at, block_insts_at};
ghost use Rattle.lh_unit.specs.Pass.{pass};
ghost use Rattle.lh_unit.specs.WellFormed.{IsWellFormed};
ghost use Rattle.lh_eval_laws.specs.Ranges.{InstanceFits};
ghost use Rattle.lh_react.specs.Standing.{Reacts};
ghost use Rattle.lh_react.specs.TriggerBits.{TriggersFit};

use crate::kept::Kept;
use crate::pass::{PassRun, run_insts};
use crate::places::triggers_of;
use crate::quiet::quiet;
use crate::state::{EntState, state_after};
use lh_bits::bits::Bits;
use lh_bits::mostly_one::MostlyOne;
use lh_bits::writes::DueWrites;
use lh_eval::begin::begin;
use lh_eval::instance::Instance;
use lh_eval::wishes::Wishes;
use lh_time::Instant;
use lh_types::list::{BoolList, ListOf};
use lh_types::memory::NoMemory;
use lh_types::part::Range;
use lh_types::tally::Tally;
use lh_unit::inst::{InstId, UnitId, UnitKind};
use lh_unit::module::Module;
use std::alloc::Global;

/// What a run of an entity gives: its next state, and the bits that it wishes, by the instants at which they are due.
#[derive(Drop)]
pub struct EntAct {
    pub next: EntState,
    pub wishes: DueWrites,
}

/// One pass of an entity of a well-formed module at an instant, where the signals have these bits: its instructions in text
/// order. The tally is raised by one, whatever the answer is.
///
/// The next state has the value of each trigger of the entity's registers in this run, and the wishes are exactly those of
/// its drives and registers: the instants at which they are due strictly rise, and at each of them something is written, no bit
/// twice, and only bits of the signals.
/// After `NoMemory` only the tally has changed.
pub fn react<T: Tally>(
    alloc: Global,
    m: &Module,
    i: &Instance,
    s: &EntState,
    now: &Bits,
    at: Instant,
    tally: &mut T,
) -> Result<EntAct, NoMemory>
    requires formed { IsWellFormed (contents m.now) }
    requires unit { i.now.unit.0 < unit_count m.now }
    requires entity { kind_at m.now i.now.unit.0 ≡ Some UnitKind.Entity }
    requires fits { InstanceFits (unit_text_at m.now i.now.unit.0) i.now.args i.now.sigs (length now.now) }
    requires triggers { TriggersFit (unit_text_at m.now i.now.unit.0) i.now.args s.now.triggers }
    ensures act { IfOk result (Reacts (unit_text_at m.now i.now.unit.0) i.now.args (length now.now) (pass (unit_text_at m.now i.now.unit.0) i.now.args i.now.sigs now.now s.now.memory at)) }
    ensures tick { T.count tally.new ≡ raised (T.count tally.old) 1 }
{
    tally.tick();
    let (args, sigs) = (i.args.as_slice(), i.sigs.as_slice());
    run_entity(alloc, m, i.unit, args, sigs, now, s, at)
}

/// One pass of an entity: where its triggers tell that nothing is driven, by them alone.
fn run_entity(
    alloc: Global,
    m: &Module,
    unit: UnitId,
    args: &[Range],
    sigs: &[Range],
    now: &Bits,
    state: &EntState,
    at: Instant,
) -> Result<EntAct, NoMemory>
    requires unit { unit.0 < unit_count m.now }
    requires entity { kind_at m.now unit.0 ≡ Some UnitKind.Entity }
    requires formed { IsWellFormed (contents m.now) }
    requires fits { InstanceFits (unit_text_at m.now unit.0) args.now sigs.now (length now.now) }
    requires triggers { TriggersFit (unit_text_at m.now unit.0) args.now state.now.triggers }
    ensures { IfOk result (Reacts (unit_text_at m.now unit.0) args.now (length now.now) (pass (unit_text_at m.now unit.0) args.now sigs.now now.now state.now.memory at)) }
{
    in_place(m);
    if let Some(next) = quiet(state, now)? {
        return Ok(EntAct {
            next,
            wishes: MostlyOne::new(alloc),
        });
    }
    run_each(alloc, m, unit, args, sigs, now, state, at)
}

/// One pass of an entity, instruction by instruction.
fn run_each(
    alloc: Global,
    m: &Module,
    unit: UnitId,
    args: &[Range],
    sigs: &[Range],
    now: &Bits,
    state: &EntState,
    at: Instant,
) -> Result<EntAct, NoMemory>
    requires unit { unit.0 < unit_count m.now }
    requires entity { kind_at m.now unit.0 ≡ Some UnitKind.Entity }
    requires formed { IsWellFormed (contents m.now) }
    requires fits { InstanceFits (unit_text_at m.now unit.0) args.now sigs.now (length now.now) }
    requires triggers { TriggersFit (unit_text_at m.now unit.0) args.now state.now.triggers }
    ensures { IfOk result (Reacts (unit_text_at m.now unit.0) args.now (length now.now) (pass (unit_text_at m.now unit.0) args.now sigs.now now.now state.now.memory at)) }
{
    few_bits(now);
    let insts = insts_of(m, unit);
    let slots = begin(alloc, m, unit, insts, args, sigs)?;
    let mut run = PassRun {
        slots,
        seen: ListOf::new(alloc),
        wishes: Wishes::new(alloc),
    };
    run_insts(alloc, m, unit, insts, now, state, at, &mut run)?;
    let PassRun { seen, wishes, .. } = run;
    let next = next_state(alloc, m, unit, args, state, seen)?;
    let wishes = wishes.into_writes()?;
    Ok(EntAct { next, wishes })
}

/// The state after a pass in which the triggers had these values. The first pass finds which bits they are, and then that is kept.
fn next_state(
    alloc: Global,
    m: &Module,
    unit: UnitId,
    args: &[Range],
    state: &EntState,
    seen: BoolList,
) -> Result<EntState, NoMemory>
    requires unit { unit.0 < unit_count m.now }
    requires entity { kind_at m.now unit.0 ≡ Some UnitKind.Entity }
    requires formed { IsWellFormed (contents m.now) }
    requires triggers { TriggersFit (unit_text_at m.now unit.0) args.now state.now.triggers }
    ensures memory { IfOk result (λ s. s.memory ≡ Some seen) }
    ensures triggers { IfOk result (λ s. TriggersFit (unit_text_at m.now unit.0) args.now s.triggers) }
{
    if let Some((known, second)) = state.known() {
        return state_after(alloc, known, second, seen);
    }
    let triggers = match triggers_of(alloc, m, unit, insts_of(m, unit), args)? {
        Some(bits) => Some(Kept::new(alloc, bits)?),
        None => None,
    };
    EntState::first(alloc, seen, triggers)
}

/// The instructions of an entity.
fn insts_of(m: &Module, unit: UnitId) -> &[InstId]
    requires unit { unit.0 < unit_count m.now }
    requires entity { kind_at m.now unit.0 ≡ Some UnitKind.Entity }
    ensures insts { result.now ≡ block_insts_at m.now unit.0 0 }
    ensures arena { IsArena m.now }
{
    let block = m.blocks(unit)[0];
    m.insts(unit, block)
}

/// All ids of a module are in place.
fn in_place(m: &Module)
    ensures { IsArena m.now }
{
    let _items = m.items();
}

/// There are fewer than 2 ^ 32 bits.
fn few_bits(bits: &Bits)
    ensures { length bits.now < 2 ^ 32 }
{
    let _len = bits.len();
}
