//! Why a unit has no measure.

use lh_types::memory::NoMemory;
use lh_unit::inst::UnitId;
use thiserror::Error;

/// Why a unit has no measure.
#[derive(Clone, Copy, Debug, Error)]
pub enum DescentFault {
    /// A unit that it reaches reaches itself: the target of the first edge, depth first, that leads to an open unit.
    #[error("a unit reaches itself")]
    Cycle(UnitId),
    /// Memory ran out.
    #[error("out of memory")]
    OutOfMemory,
}

impl From<NoMemory> for DescentFault {
    ghost use Rattle.std.specs.Prelude.{◌≡◌};
    ghost use Rattle.lh_unit_graph.specs.declared.fault.DescentFault.TheVariants.{OutOfMemory};

    ghost from_gives = { λ _ e. e ≡ OutOfMemory };

    fn from(_: NoMemory) -> DescentFault {
        DescentFault::OutOfMemory
    }
}
