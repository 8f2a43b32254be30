//! Sources and sinks of bytes, and what their calls mean.
//!
//! A source or a sink in memory tells its bytes to contracts; one over the system's streams tells none.
//! Each tells a count of its faults, so that every failure has its cause.
ghost use Rattle.std.specs.Prelude.{◌≡◌, ◌≤◌, ◌<◌, ◌++◌, ℕ, List, [], Option, Some, Ok, IfOk, OnErr, IfSome, length, take};
ghost use Rattle.lh_types.specs.Raised.{raised};
ghost use Rattle.lh_io.specs.Streams.{Rose, FillsFront, Appends};

use thiserror::Error;

/// A read or a write failed. The count of faults of the source or the sink rose.
#[derive(Clone, Copy, Debug, PartialEq, Eq, Error)]
#[error("a read or a write failed")]
pub struct Failed;

/// Where bytes come from.
///
/// Contracts see the bytes that are `left`, where the source tells them, the number of bytes `taken` so far,
/// and the number of `faults`. The two counts stay at 2^64 - 1.
pub trait Source {
    ghost left: { Self → Option (List ℕ) };

    ghost taken: { Self → ℕ };

    ghost faults: { Self → ℕ };

    /// Puts the next bytes in front of `room` and answers how many. It answers 0 for room that is not empty
    /// only where nothing is left. After `Failed` nothing was taken, and of `room` nothing is said.
    fn read(&mut self, room: &mut [u8]) -> Result<usize, Failed>
        ensures within { IfOk result (λ n. n ≤ length room.old) }
        ensures bytes { IfOk result (λ n. IfSome (left self.old) (λ was. FillsFront was (left self.new) room.old room.new n)) }
        ensures counted { IfOk result (λ n. taken self.new ≡ raised (taken self.old) n) }
        ensures end { result ≡ Ok 0 → 0 < length room.old → IfSome (left self.old) (λ was. was ≡ []) }
        ensures failed { OnErr result ((left self.new ≡ left self.old) × (taken self.new ≡ taken self.old)) }
        ensures rose { OnErr result (Rose (faults self.old) (faults self.new)) }
        ensures never_fall { faults self.old ≤ faults self.new };
}

/// Where bytes go to.
///
/// Contracts see the bytes that were `written`, where the sink tells them, and the number of `faults`,
/// which stays at 2^64 - 1.
pub trait Sink {
    ghost written: { Self → Option (List ℕ) };

    ghost faults: { Self → ℕ };

    /// Appends the first bytes of `piece` and answers how many: at least one, where `piece` is not empty.
    /// After `Failed` nothing was appended.
    fn write(&mut self, piece: &[u8]) -> Result<usize, Failed>
        ensures within { IfOk result (λ n. n ≤ length piece.now) }
        ensures progress { IfOk result (λ n. 0 < length piece.now → 0 < n) }
        ensures bytes { IfOk result (λ n. Appends (written self.old) (written self.new) (take n piece.now)) }
        ensures failed { OnErr result (written self.new ≡ written self.old) }
        ensures rose { OnErr result (Rose (faults self.old) (faults self.new)) }
        ensures never_fall { faults self.old ≤ faults self.new };
}
