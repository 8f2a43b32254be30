//! What an activation has come to.
ghost use Rattle.std.specs.Prelude.{◌≡◌, ◌<◌, ℕ, length, IfOk, Option};
ghost use Rattle.lh_unit.specs.Activation as act;
ghost use Rattle.lh_unit.specs.Activation.{Point, gives};
ghost use Rattle.lh_unit.specs.Arena.{Arena, naming};
ghost use Rattle.lh_unit.specs.Naming.{maybe_text};
ghost use Rattle.lh_unit.specs.Held.{Held as Content};
ghost use Rattle.lh_eval.specs.HeldOf.{maybe_held};
ghost use Rattle.lh_eval.specs.Holding.{MaybeIn};
ghost use Rattle.lh_exec.specs.Standing.{MachineIs, InstLeads, goes_on};

use crate::state::WaitOn;
use lh_eval::held::{Held, Slots};
use lh_eval::wishes::Wishes;
use lh_types::list::BoolList;
use lh_types::val::Val;
use lh_unit::inst::{BlockId, UnitId, ValueId};

/// A unit in execution: the block, how many of its instructions were executed, and what is held.
#[derive(Drop)]
pub(crate) struct UnitFrame {
    pub unit: UnitId,
    pub block: BlockId,
    pub next: usize,
    pub slots: Slots,
}

/// An open call: where it goes on, and the value that names its result.
#[derive(Drop)]
pub(crate) struct Call {
    pub frame: UnitFrame,
    pub result: Option<ValueId>,
}

/// A value that a `phi` takes, and the value that names it.
#[derive(Drop)]
pub(crate) struct Taken {
    pub name: ValueId,
    pub value: Val,
}

/// What an activation has come to: the unit in execution, the open calls with the last one at the end, and what was given
/// so far. The list of values that the `phi` of a block take is empty between two instructions.
#[derive(Drop)]
pub(crate) struct Machine {
    pub frame: UnitFrame,
    pub callers: Vec<Call>,
    pub wishes: Wishes,
    pub outcomes: BoolList,
    pub taken: Vec<Taken>,
}

/// What an instruction leads to: the next instruction, the end of the activation in `wait` or `halt`, or nothing where it
/// cannot be executed.
#[derive(Drop)]
pub(crate) enum Flow {
    Goes,
    Waits { to: BlockId, on: WaitOn },
    Halts,
    Lost,
}

impl Machine {
    /// Holds by this name what an instruction gives, if it gives something.
    pub(crate) fn give(&mut self, name: Option<ValueId>, held: Option<Held>) -> Flow
        requires { MaybeIn self.old.frame.slots name }
        ensures { (a : Arena) (p : Point) (h : Option Content) → MachineIs a self.old p → maybe_held held ≡ h → InstLeads a self.new result p.control.unit (gives p (maybe_text (naming a self.old.frame.unit.0) name) h) }
    {
        match held {
            Some(held) => {
                self.frame.slots.give(name, Some(held));
                Flow::Goes
            }
            None => Flow::Lost,
        }
    }
}

impl Flow {
    /// Whether an instruction comes next.
    pub(crate) fn goes(&self) -> bool
        ensures { result ≡ goes_on self.now }
    {
        match self {
            Flow::Goes => true,
            _ => false,
        }
    }
}
