//! The rows that an entity says.
ghost use Rattle.std.specs.Prelude.{◌≡◌, []};

use lh_region::DriveList;
use lh_term::part::{Part, PartList};
use lh_term::term::TermId;
use lh_types::list::ListOf;
use lh_unit::inst::Mode;
use std::alloc::Global;

/// What an entity says: the parts that it probes, its drives and its registers, each in the order of the text.
#[derive(Drop)]
pub struct EntityRows {
    pub probes: PartList,
    pub drives: DriveList,
    pub registers: RegisterList,
}

/// A register: the part that it drives, and its triggers in order.
#[derive(Drop)]
pub struct RegisterRow {
    pub part: Part,
    pub triggers: RegisterTriggerList,
}

/// A trigger of a register: what it looks for in the value of its operand where its gate is 1, and what it drives after which delay.
#[derive(Clone, Copy)]
pub struct RegisterTrigger {
    pub mode: Mode,
    pub operand: TermId,
    pub gate: TermId,
    pub value: TermId,
    pub delay: TermId,
}

/// Triggers in order.
pub type RegisterTriggerList = ListOf<RegisterTrigger>;

/// Registers in order.
pub type RegisterList = ListOf<RegisterRow>;

impl EntityRows {
    /// No rows.
    pub(crate) fn new(alloc: Global) -> EntityRows
        ensures probes { result.probes ≡ [] }
        ensures drives { result.drives ≡ [] }
        ensures registers { result.registers ≡ [] }
    {
        EntityRows {
            probes: PartList::new(alloc),
            drives: DriveList::new(alloc),
            registers: RegisterList::new(alloc),
        }
    }
}
