//! An instance of a unit in a design.
use lh_types::part::RangeList;
use lh_unit::inst::UnitId;

/// An instance of a unit: its number's parent, and the bits of its arguments and of its own signals.
#[derive(Drop)]
pub struct Instance {
    /// The unit.
    pub unit: UnitId,
    /// The number of the instance in which it stands; `None` of the top.
    pub parent: Option<u32>,
    /// The signal bits of each argument, in order.
    pub args: RangeList,
    /// The signal bits of each `sig` instruction, in text order.
    pub sigs: RangeList,
}
