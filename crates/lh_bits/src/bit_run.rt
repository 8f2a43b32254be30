//! What bits in a row become.
ghost use Rattle.std.specs.Prelude.{ℕ, ◌+◌, ◌<◌, ◌≤◌, ◌^◌, length};

use crate::bits::Bits;

/// Bits in a row, from bit `lo` of the signals on, with what they become: at least one, and each has a number below 2^32.
#[derive(Drop)]
pub struct BitRun {
    /// The number of the lowest bit.
    pub lo: u32,
    /// What the bits become, that of the lowest first.
    pub bits: Bits,
    ghost filled: { 0 < length bits },
    ghost fits: { lo + length bits ≤ 2 ^ 32 },
}

impl BitRun {
    ghost use Rattle.std.specs.Prelude.{◌≡◌};
    ghost use Rattle.lh_bits.specs.Writes.{numbered, written, BitsWithin};

    /// Writes its bits.
    pub(crate) fn set(&self, now: &mut Bits)
        requires { BitsWithin (length now.old) (numbered self.now.lo self.now.bits) }
        ensures { now.new ≡ written (numbered self.now.lo self.now.bits) now.old }
    {
        now.put_part(self.lo, &self.bits, 0, self.bits.len());
    }
}
