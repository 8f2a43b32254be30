//! Why a process has no flat text.

use lh_types::memory::NoMemory;
use lh_unit::inst::UnitId;
use lh_unit_graph::DescentFault;
use thiserror::Error;

/// Why a process has no flat text: the first that holds, in this order.
#[derive(Clone, Copy, Debug, Error)]
pub enum FlatFault {
    /// The target of the first call, depth first, that names an open function: the one in which it stands, or one in which that is
    /// called.
    #[error("a function calls itself")]
    RecursiveCall(UnitId),
    /// More than 64 calls nest.
    #[error("too many calls nest")]
    CallTooDeep,
    /// The flat text has more than 65,536 instructions.
    #[error("the flat text is too large")]
    FlatTooLarge,
    /// Memory ran out.
    #[error("out of memory")]
    OutOfMemory,
}

impl From<NoMemory> for FlatFault {
    ghost use Rattle.std.specs.Prelude.{◌≡◌};
    ghost use Rattle.lh_flat.specs.declared.fault.FlatFault.TheVariants.{OutOfMemory};

    ghost from_gives = { λ _ e. e ≡ OutOfMemory };

    fn from(_: NoMemory) -> FlatFault {
        FlatFault::OutOfMemory
    }
}

impl From<DescentFault> for FlatFault {
    ghost use Rattle.std.specs.Prelude.{◌≡◌};
    ghost use Rattle.lh_flat.specs.Measures.{fault_of};

    ghost from_gives = { λ f e. e ≡ fault_of f };

    fn from(fault: DescentFault) -> FlatFault {
        match fault {
            DescentFault::Cycle(unit) => FlatFault::RecursiveCall(unit),
            DescentFault::OutOfMemory => FlatFault::OutOfMemory,
        }
    }
}
