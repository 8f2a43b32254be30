//! Why nothing was read.
ghost use Rattle.std.specs.Prelude.{◌≡◌};
ghost use Rattle.lh_read_pieces.specs.declared.fault.ScanFault.TheVariants as fault;

use lh_types::memory::NoMemory;
use thiserror::Error;

/// Why nothing was read in front of the tokens.
#[derive(Clone, Copy, Debug, PartialEq, Eq, Error)]
pub enum ScanFault {
    /// The tokens do not begin so.
    #[error("not spelled so")]
    NotSpelled,
    /// Memory ran out.
    #[error("out of memory")]
    OutOfMemory,
}

impl From<NoMemory> for ScanFault {
    ghost from_gives = { λ _ e. e ≡ fault.OutOfMemory };

    fn from(_: NoMemory) -> ScanFault {
        ScanFault::OutOfMemory
    }
}
