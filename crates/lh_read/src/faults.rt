//! Why a line is faulty.
use lh_read_pieces::fault::ScanFault;
use lh_types::memory::NoMemory;
use lh_unit::inst::UnitFault;

/// Why a line is faulty.
#[derive(Clone, Copy, Debug, PartialEq, Eq)]
pub enum LineFault {
    /// It spells nothing in its place.
    Syntax,
    /// It is the 65,537th instruction of its unit.
    UnitTooLarge,
    /// It defines a name that is defined.
    DuplicateName,
    /// Memory ran out.
    OutOfMemory,
}

impl From<NoMemory> for LineFault {
    ghost use Rattle.std.specs.Prelude.{◌≡◌};
    ghost use Rattle.lh_read.specs.declared.faults.LineFault.TheVariants.{OutOfMemory};

    ghost from_gives = { λ _ e. e ≡ OutOfMemory };

    fn from(_: NoMemory) -> LineFault {
        LineFault::OutOfMemory
    }
}

/// Tokens that spell nothing are a line that does.
impl From<ScanFault> for LineFault {
    ghost use Rattle.std.specs.Prelude.{◌≡◌};
    ghost use Rattle.lh_read.specs.FaultOf.{spelling_fault};

    ghost from_gives = { λ f e. e ≡ spelling_fault f };

    fn from(fault: ScanFault) -> LineFault {
        match fault {
            ScanFault::NotSpelled => LineFault::Syntax,
            ScanFault::OutOfMemory => LineFault::OutOfMemory,
        }
    }
}

/// A refusal of the module is a fault of the line.
impl From<UnitFault> for LineFault {
    ghost use Rattle.std.specs.Prelude.{◌≡◌};
    ghost use Rattle.lh_read.specs.FaultOf.{fault_of};

    ghost from_gives = { λ f e. e ≡ fault_of f };

    fn from(fault: UnitFault) -> LineFault {
        match fault {
            UnitFault::UnitTooLarge => LineFault::UnitTooLarge,
            UnitFault::DuplicateName => LineFault::DuplicateName,
            UnitFault::OutOfMemory => LineFault::OutOfMemory,
        }
    }
}
