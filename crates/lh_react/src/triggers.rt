//! Triggers that are bits of the signals.
use lh_types::part::Range;
use lh_unit::inst::Mode;

/// What is known of the gate of a trigger.
#[derive(Clone, Copy)]
pub(crate) enum Gate {
    /// Nothing: it may be 1 in any pass.
    Unknown,
    /// It is this bit of the signals.
    Bit(u32),
    /// It is whether the integers of two parts of the signals are the same, which are as long as each other.
    Same(Range, Range),
}

/// A trigger that is a bit of the signals.
#[derive(Clone, Copy)]
pub(crate) struct TriggerBit {
    pub mode: Mode,
    /// The place of the bit.
    pub at: u32,
    pub gate: Gate,
}
