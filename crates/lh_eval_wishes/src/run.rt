//! Bits in a row that are wished for one instant.
ghost use Rattle.std.specs.Prelude.{ℕ, ◌+◌, ◌<◌, ◌^◌, length};

use crate::cuts::{first_bits, other_bits};
use lh_bits::bits::Bits;
use lh_time::Instant;
use lh_types::memory::NoMemory;
use std::cmp::Ordering;

/// Bits in a row that are due at one instant, from bit `lo` of the signals on.
#[derive(Drop)]
pub(crate) struct WishRun {
    pub due: Instant,
    pub lo: u32,
    pub bits: Bits,
    ghost fits: { lo + length bits < 2 ^ 32 },
}

impl WishRun {
    ghost use Rattle.std.specs.Prelude.{◌≡◌, take, drop, IsTrue, IfOk};
    ghost use Rattle.lh_types.specs.Wish.{due_bit};
    ghost use Rattle.lh_eval_wishes.specs.Runs.{run_wish, below, above, AllBelow, AllFrom};

    /// Whether all of it is below a bit at an instant.
    pub(crate) fn is_below(&self, due: Instant, lo: u32) -> bool
        ensures { IsTrue result → AllBelow (due_bit due lo) (run_wish self.now) }
    {
        match self.due.cmp(&due) {
            Ordering::Less => true,
            Ordering::Equal => self.lo <= lo && self.bits.len() <= lo - self.lo,
            Ordering::Greater => false,
        }
    }

    /// Whether none of it is below a bit at an instant.
    pub(crate) fn is_from(&self, due: Instant, hi: u32) -> bool
        ensures { IsTrue result → AllFrom (due_bit due hi) (run_wish self.now) }
    {
        match self.due.cmp(&due) {
            Ordering::Less => false,
            Ordering::Equal => hi <= self.lo,
            Ordering::Greater => true,
        }
    }

    /// What of it is below a bit at an instant.
    pub(crate) fn low_part(&self, due: Instant, lo: u32) -> Result<WishRun, NoMemory>
        ensures { IfOk result (λ r. run_wish r ≡ below (due_bit due lo) (run_wish self.now)) }
    {
        let n = match self.due.cmp(&due) {
            Ordering::Less => self.bits.len(),
            Ordering::Equal => lo.saturating_sub(self.lo),
            Ordering::Greater => 0,
        };
        let bits = first_bits(&self.bits, n)?;
        Ok(WishRun {
            due: self.due,
            lo: self.lo,
            bits,
        })
    }

    /// What of it is at a bit at an instant, or comes later.
    pub(crate) fn high_part(&self, due: Instant, hi: u32) -> Result<WishRun, NoMemory>
        ensures { IfOk result (λ r. run_wish r ≡ above (due_bit due hi) (run_wish self.now)) }
    {
        let (lo, n) = match self.due.cmp(&due) {
            Ordering::Less => (hi, self.bits.len()),
            Ordering::Equal => {
                if self.lo < hi {
                    (hi, hi - self.lo)
                } else {
                    (self.lo, 0)
                }
            }
            Ordering::Greater => (self.lo, 0),
        };
        let bits = other_bits(&self.bits, n)?;
        Ok(WishRun {
            due: self.due,
            lo,
            bits,
        })
    }
}
