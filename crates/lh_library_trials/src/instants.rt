//! Instants that tests name.
ghost use Rattle.std.specs.Prelude.{◌≡◌};

use lh_time::Instant;

/// The instant after so many femtoseconds, in the delta cycle of this number, at its first epsilon step.
pub fn instant(fs: u64, delta: u64) -> Instant
    ensures time { result.fs ≡ fs }
    ensures cycle { result.delta ≡ delta }
    ensures first { result.eps ≡ 0 }
{
    Instant { fs, delta, eps: 0 }
}
