//! An activation of a process.
ghost use Rattle.std.specs.Prelude.{◌≡◌, ◌<◌, ◌^◌, ℕ, List, length, Option, Some, IfOk, IfSome};
ghost use Rattle.lh_time.specs.declared.Instant.{Instant as When};
ghost use Rattle.lh_types.specs.Raised.{raised};
ghost use Rattle.lh_unit.specs.Activation.{ProcessState, Activated, activate as activation};
ghost use Rattle.lh_types.specs.declared.part.Range.{Range as Bounds};
ghost use Rattle.lh_unit.specs.Arena.{Arena, IsArena, unit_count, kind_at, contents, unit_text_at};
ghost use Rattle.lh_unit.specs.WellFormed.{IsWellFormed};
ghost use Rattle.lh_eval_laws.specs.Ranges.{RangesFit, arg_types};
ghost use Rattle.lh_exec.specs.Standing.{scene_of};
ghost use Rattle.lh_exec.specs.States.{StandsForState, StandsBy, ProcStateFits, FitsBy, ActivationOrRunaway, GivesMaybe, WakesLater};
ghost use Rattle.lh_exec.specs.Sound.{Finishes, EndHolds, stood};

use crate::begin::begin;
use crate::machine::{Flow, Machine, UnitFrame};
use crate::state::{Parked, Pause, ProcState, Stand};
use lh_bits::bits::Bits;
use lh_bits::writes::DueWrites;
use lh_eval::instance::Instance;
use lh_time::Instant;
use lh_types::list::BoolList;
use lh_types::memory::NoMemory;
use lh_types::part::Range;
use lh_types::tally::Tally;
use lh_unit::inst::{UnitId, UnitKind};
use lh_unit::module::Module;
use std::alloc::Global;
use thiserror::Error;

/// At most so many instructions are executed in one activation.
const MAX_INSTRUCTIONS: u32 = 1_000_000;

/// What an activation of a process gives: its next state, the bits that it wishes, by the instants at which they are due, and
/// whether each assertion passed.
#[derive(Drop)]
pub struct Act {
    pub next: ProcState,
    pub wishes: DueWrites,
    pub outcomes: BoolList,
}

/// Why there is no activation.
#[derive(Clone, Copy, Debug, PartialEq, Eq, Error)]
pub enum ExecFault {
    /// A million instructions do not come to an end, or more than 256 calls would be open at once.
    #[error("an activation does not end")]
    Runaway,
    /// Memory ran out.
    #[error("out of memory")]
    OutOfMemory,
}

impl From<NoMemory> for ExecFault {
    ghost use Rattle.lh_exec.specs.declared.process.ExecFault.TheVariants.{OutOfMemory};

    ghost from_gives = { λ _ e. e ≡ OutOfMemory };

    fn from(_: NoMemory) -> ExecFault {
        ExecFault::OutOfMemory
    }
}

/// One activation of a process of a well-formed module at an instant, where the signals have these bits: from its entry block
/// or from its `wait` to the next `wait` or `halt`. The tally is raised by one, whatever the answer is.
///
/// `Runaway` comes exactly where no list of at most 1,000,000 executed instructions with at most 256 open calls leads there,
/// and of a state that has halted. The next state holds every value that the process was ever given, and fits; the
/// wishes are exactly those of its drives: the instants at which they are due strictly rise, and at each of them something is
/// written, no bit twice, and only bits of the signals. A process that waits for an instant waits for one later than `at`, and
/// for parts within the signals. After a fault only the tally has changed.
pub fn activate<T: Tally>(
    alloc: Global,
    m: &Module,
    i: &Instance,
    s: &ProcState,
    now: &Bits,
    at: Instant,
    tally: &mut T,
) -> Result<Act, ExecFault>
    requires formed { IsWellFormed (contents m.now) }
    requires unit { i.now.unit.0 < unit_count m.now }
    requires process { kind_at m.now i.now.unit.0 ≡ Some UnitKind.Proc }
    requires args { RangesFit (length now.now) i.now.args (arg_types (unit_text_at m.now i.now.unit.0).args) }
    requires fits { ProcStateFits m.now i.now.unit.0 (length now.now) s.now }
    ensures act { (p : ProcessState) → StandsForState m.now i.now.unit.0 i.now.args s.now p → ActivationOrRunaway m.now i.now.unit.0 i.now.args (length now.now) result (activation 1000000 (scene_of m.now now.now at) (unit_text_at m.now i.now.unit.0) p) }
    ensures late { IfOk result (λ act. WakesLater at act.next) }
    ensures tick { T.count tally.new ≡ raised (T.count tally.old) 1 }
{
    tally.tick();
    let args = i.args.as_slice();
    let given = activate_within(alloc, m, now, at, i.unit, args, &s.stand, MAX_INSTRUCTIONS)?;
    answered(given)
}

/// The answer where memory did not run out.
fn answered(given: Option<Act>) -> Result<Act, ExecFault>
    ensures act { (a : Arena) (u w : ℕ) (args : List Bounds) (done : Option Activated) → GivesMaybe a u args w given done → ActivationOrRunaway a u args w result done }
    ensures late { (t : When) → IfSome given (λ act. WakesLater t act.next) → IfOk result (λ act. WakesLater t act.next) }
{
    match given {
        Some(act) => Ok(act),
        None => Err(ExecFault::Runaway),
    }
}

/// An activation of at most so many instructions; `None` where there is none.
fn activate_within(
    alloc: Global,
    m: &Module,
    now: &Bits,
    at: Instant,
    unit: UnitId,
    args: &[Range],
    stand: &Stand,
    limit: u32,
) -> Result<Option<Act>, NoMemory>
    requires formed { IsWellFormed (contents m.now) }
    requires unit { unit.0 < unit_count m.now }
    requires process { kind_at m.now unit.0 ≡ Some UnitKind.Proc }
    requires args { RangesFit (length now.now) args.now (arg_types (unit_text_at m.now unit.0).args) }
    requires fits { FitsBy m.now unit.0 (length now.now) stand.now }
    ensures act { (p : ProcessState) → StandsBy m.now unit.0 args.now stand.now p → IfOk result (λ r. GivesMaybe m.now unit.0 args.now (length now.now) r (activation limit (scene_of m.now now.now at) (unit_text_at m.now unit.0) p)) }
    ensures late { IfOk result (λ r. IfSome r (λ act. WakesLater at act.next)) }
{
    in_order(m, now);
    match begin(alloc, m, now, unit, args, stand)? {
        Some(mut machine) => {
            let flow = machine.run(alloc, m, now, at, limit)?;
            finish(alloc, machine, flow)
        }
        None => Ok(None),
    }
}

/// What a machine that has come to an end gives.
fn finish(alloc: Global, machine: Machine, flow: Flow) -> Result<Option<Act>, NoMemory>
    ensures act { (a : Arena) (u w : ℕ) (t : When) (args : List Bounds) (done : Option Activated) → IsArena a → u < unit_count a → Finishes a u w t machine flow done → EndHolds (unit_text_at a u) done → IfOk result (λ r. GivesMaybe a u args w r done) }
    ensures late { (a : Arena) (u w : ℕ) (t : When) (done : Option Activated) → Finishes a u w t machine flow done → IfOk result (λ r. IfSome r (λ act. WakesLater t act.next)) }
{
    let Some(stand) = stand_at(alloc, machine.frame, flow)? else {
        return Ok(None);
    };
    let wishes = machine.wishes.into_writes()?;
    Ok(Some(Act {
        next: ProcState { stand },
        wishes,
        outcomes: machine.outcomes,
    }))
}

/// Where a process stands whose activation ends in this frame.
fn stand_at(alloc: Global, frame: UnitFrame, flow: Flow) -> Result<Option<Stand>, NoMemory>
    ensures { IfOk result (λ s. s ≡ stood frame flow) }
{
    match flow {
        Flow::Waits { to, on } => {
            let parked = Parked::new(
                alloc,
                Pause {
                    block: frame.block,
                    to,
                    slots: frame.slots,
                    on,
                },
            )?;
            Ok(Some(Stand::Waits(parked)))
        }
        Flow::Halts => Ok(Some(Stand::Halted)),
        _ => Ok(None),
    }
}

/// The module is in order, and there are fewer than 2 ^ 32 bits.
fn in_order(m: &Module, now: &Bits)
    ensures arena { IsArena m.now }
    ensures few { length now.now < 2 ^ 32 }
{
    let _sizes = (m.units(), now.len());
}
