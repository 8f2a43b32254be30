//! Where an activation begins.
ghost use Rattle.std.specs.Prelude.{◌≡◌, ◌<◌, [], length, Some, IfOk};
ghost use Rattle.lh_types.specs.Wish.{no_wish};
ghost use Rattle.lh_unit.specs.Activation.{ProcessState, control_at};
ghost use Rattle.lh_unit.specs.Arena.{IsArena, unit_count, kind_at, contents, unit_text_at};
ghost use Rattle.lh_unit.specs.WellFormed.{IsWellFormed};
ghost use Rattle.lh_exec.specs.States.{StandsBy, FitsBy, PauseFits};
ghost use Rattle.lh_unit.specs.World.{begun};
ghost use Rattle.lh_exec.specs.Sound.{BeginsAt};

use crate::calls::first_frame;
use crate::machine::{Flow, Machine, UnitFrame};
use crate::state::{Pause, Stand};
use lh_bits::bits::Bits;
use lh_eval::begin::hold_args;
use lh_eval::held::Slots;
use lh_eval::wishes::Wishes;
use lh_types::list::ListOf;
use lh_types::memory::NoMemory;
use lh_types::part::Range;
use lh_unit::inst::{UnitId, UnitKind};
use lh_unit::module::Module;
use std::alloc::Global;

/// The machine where an activation of a process begins, of which the arguments have these bits.
pub(crate) fn begin(
    alloc: Global,
    m: &Module,
    now: &Bits,
    unit: UnitId,
    args: &[Range],
    stand: &Stand,
) -> Result<Option<Machine>, NoMemory>
    requires arena { IsArena m.now }
    requires unit { unit.0 < unit_count m.now }
    requires process { kind_at m.now unit.0 ≡ Some UnitKind.Proc }
    requires formed { IsWellFormed (contents m.now) }
    requires fits { FitsBy m.now unit.0 (length now.now) stand.now }
    ensures { (p : ProcessState) → StandsBy m.now unit.0 args.now stand.now p → IfOk result (λ r. BeginsAt m.now r (control_at (unit_text_at m.now unit.0) p)) }
{
    match stand {
        Stand::New => begin_new(alloc, m, unit, args),
        Stand::Waits(parked) => begin_from(alloc, m, now, unit, parked.pause()),
        Stand::Halted => Ok(None),
    }
}

/// In the entry block, where the arguments are held.
fn begin_new(
    alloc: Global,
    m: &Module,
    unit: UnitId,
    args: &[Range],
) -> Result<Option<Machine>, NoMemory>
    requires arena { IsArena m.now }
    requires unit { unit.0 < unit_count m.now }
    requires process { kind_at m.now unit.0 ≡ Some UnitKind.Proc }
    ensures { IfOk result (λ r. BeginsAt m.now r (control_at (unit_text_at m.now unit.0) (begun (unit_text_at m.now unit.0) args.now))) }
{
    let mut slots = Slots::new(alloc, m.values(unit))?;
    hold_args(m.args(unit), args, &mut slots);
    match first_frame(m, unit, slots) {
        Some(frame) => Ok(Some(machine_at(alloc, frame))),
        None => Ok(None),
    }
}

/// On the edge from a `wait`.
fn begin_from(
    alloc: Global,
    m: &Module,
    now: &Bits,
    unit: UnitId,
    pause: &Pause,
) -> Result<Option<Machine>, NoMemory>
    requires arena { IsArena m.now }
    requires unit { unit.0 < unit_count m.now }
    requires process { kind_at m.now unit.0 ≡ Some UnitKind.Proc }
    requires formed { IsWellFormed (contents m.now) }
    requires fits { PauseFits m.now unit.0 (length now.now) pause.now }
    ensures { (p : ProcessState) → StandsBy m.now unit.0 [] (Stand.Waits pause.now) p → IfOk result (λ r. BeginsAt m.now r (control_at (unit_text_at m.now unit.0) p)) }
{
    let slots = pause.slots.copy(alloc)?;
    let mut machine = machine_at(
        alloc,
        UnitFrame {
            unit,
            block: pause.block,
            next: 0,
            slots,
        },
    );
    match machine.enter(m, pause.to)? {
        Flow::Goes => Ok(Some(machine)),
        _ => Ok(None),
    }
}

/// A machine in this frame, with no open call, which has given nothing yet.
fn machine_at(alloc: Global, frame: UnitFrame) -> Machine
    ensures frame { result.frame ≡ frame }
    ensures callers { result.callers.items ≡ [] }
    ensures wishes { result.wishes ≡ no_wish }
    ensures outcomes { result.outcomes ≡ [] }
{
    Machine {
        frame,
        callers: Vec::new(alloc),
        wishes: Wishes::new(alloc),
        outcomes: ListOf::new(alloc),
        taken: Vec::new(alloc),
    }
}
