//! Why a top unit has no design.

use lh_types::memory::NoMemory;
use lh_unit::inst::UnitId;
use lh_unit_graph::DescentFault;
use thiserror::Error;

/// Why a top unit has no design: the first that holds, in this order.
#[derive(Clone, Copy, Debug, PartialEq, Eq, Error)]
pub enum ElabFault {
    /// The top is a function, which has no signals.
    #[error("the top is a function")]
    TopIsFunction,
    /// The target of the first `inst`, depth first, that names an open unit: the unit in which it stands, or one in which that is instantiated.
    #[error("a unit is instantiated in itself")]
    InstCycle(UnitId),
    /// More than 64 instances nest, the top counted.
    #[error("too many instances nest")]
    TooDeep,
    /// There are more than 65,536 instances.
    #[error("too many instances")]
    TooManyInstances,
    /// The signals have more than 16,777,216 bits.
    #[error("too many bits")]
    TooManyBits,
    /// Memory ran out.
    #[error("out of memory")]
    OutOfMemory,
}

impl From<NoMemory> for ElabFault {
    ghost use Rattle.std.specs.Prelude.{◌≡◌};
    ghost use Rattle.lh_elab.specs.declared.fault.ElabFault.TheVariants.{OutOfMemory};

    ghost from_gives = { λ _ e. e ≡ OutOfMemory };

    fn from(_: NoMemory) -> ElabFault {
        ElabFault::OutOfMemory
    }
}

impl From<DescentFault> for ElabFault {
    ghost use Rattle.std.specs.Prelude.{◌≡◌};
    ghost use Rattle.lh_elab.specs.Measures.{fault_of};

    ghost from_gives = { λ f e. e ≡ fault_of f };

    fn from(fault: DescentFault) -> ElabFault {
        match fault {
            DescentFault::Cycle(unit) => ElabFault::InstCycle(unit),
            DescentFault::OutOfMemory => ElabFault::OutOfMemory,
        }
    }
}
