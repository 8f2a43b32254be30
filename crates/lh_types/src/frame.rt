//! What shows of a simulation at one instant.

use crate::list::ListOf;
use crate::val::Val;
use lh_time::Instant;

/// A signal that is shown in a frame: in the first frame every signal, in a later one those that
/// differ from the frame before.
#[derive(Drop)]
pub struct Change {
    /// The signal's number.
    pub signal: u32,
    /// How many of its bits differ from the frame before; 0 in the first frame.
    pub toggled: u32,
    /// Its value in this frame.
    pub value: Val,
}

/// What an assertion of an instance came to.
#[derive(Clone, Copy, Debug, PartialEq, Eq)]
pub struct Outcome {
    pub instance: u32,
    pub passed: bool,
}

/// A list of changes.
pub type ChangeList = ListOf<Change>;

/// A list of outcomes.
pub type OutcomeList = ListOf<Outcome>;

/// What shows at an instant: the changes by number of the signal, and the outcomes by instance and
/// then in the order of execution.
#[derive(Drop)]
pub struct Frame {
    pub at: Instant,
    pub changes: ChangeList,
    pub outcomes: OutcomeList,
}
