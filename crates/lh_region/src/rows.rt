//! The rows of a region: its probes, drives, assertions and ends, in the order of places and of text.
ghost use Rattle.std.specs.Prelude.{◌≡◌, []};

use lh_term::part::{Part, PartList};
use lh_term::term::{TermId, TermList};
use lh_types::list::ListOf;
use lh_types::memory::NoMemory;
use std::alloc::Global;
use thiserror::Error;

/// What a process does before it waits first, and from there until it waits again, where that is asked for.
#[derive(Drop)]
pub struct Regions {
    /// From the head of the process on.
    pub first: Rows,
    /// From the one block for which the first region waits on, where this is not the head.
    pub second: Option<Rows>,
}

/// The rows of a region.
#[derive(Drop)]
pub struct Rows {
    /// The parts that are probed.
    pub probes: PartList,
    pub drives: DriveList,
    /// The conditions that are asserted.
    pub asserts: TermList,
    pub ends: EndList,
}

/// A drive, under a condition.
#[derive(Drop)]
pub struct DriveRow {
    pub cond: TermId,
    pub part: Part,
    pub value: TermId,
    pub delay: TermId,
}

/// Drives in order.
pub type DriveList = ListOf<DriveRow>;

/// An end of a region, under a condition.
#[derive(Drop)]
pub struct EndRow {
    pub cond: TermId,
    pub way: Way,
}

/// Ends in order.
pub type EndList = ListOf<EndRow>;

/// How a region ends.
#[derive(Drop)]
pub enum Way {
    /// At `halt`.
    Halt,
    /// By entering the head, which only the second region does.
    Head,
    /// At `wait`: the block that it goes on with, whether this is the head, the parts that it waits on, and whether it names a time.
    Wait {
        target: u32,
        to_head: bool,
        parts: PartList,
        timed: bool,
    },
}

/// Why a process has no regions: what is met first, the first region before the second.
#[derive(Clone, Copy, Debug, PartialEq, Eq, Error)]
pub enum RegionFault {
    /// The head begins with a `phi`.
    #[error("the head begins with a phi")]
    HeadPhi,
    /// An edge would lead to 257 turns.
    #[error("too many turns")]
    TooManyTurns,
    /// The places of a region have more than 65,536 instructions.
    #[error("a region is too large")]
    RegionTooLarge,
    /// Memory ran out.
    #[error("out of memory")]
    OutOfMemory,
}

impl From<NoMemory> for RegionFault {
    ghost use Rattle.std.specs.Prelude.{◌≡◌};
    ghost use Rattle.lh_region.specs.declared.rows.RegionFault.TheVariants.{OutOfMemory};

    ghost from_gives = { λ _ e. e ≡ OutOfMemory };

    fn from(_: NoMemory) -> RegionFault {
        RegionFault::OutOfMemory
    }
}

impl Rows {
    /// No rows.
    pub fn new(alloc: Global) -> Rows
        ensures probes { result.probes ≡ [] }
        ensures drives { result.drives ≡ [] }
        ensures asserts { result.asserts ≡ [] }
        ensures ends { result.ends ≡ [] }
    {
        Rows {
            probes: PartList::new(alloc),
            drives: DriveList::new(alloc),
            asserts: TermList::new(alloc),
            ends: EndList::new(alloc),
        }
    }
}
