//! A wish as a queue holds it: what one instance wished at one instant for one due instant.
ghost use Rattle.std.specs.Prelude.{◌≡◌, length};
ghost use Rattle.lh_bits.specs.Writes.{written, BitsWithin};
ghost use Rattle.lh_queue.specs.Queued.{is_before};
ghost use Rattle.lh_time.specs.Order.{instant_eq};

use lh_bits::bits::Bits;
use lh_bits::writes::BitWrites;
use lh_time::Instant;

/// The part of an instance's wish that is due at one instant: these bits of the signals become so.
#[derive(Drop)]
pub struct Wish {
    /// The instant at which the instance wished it.
    pub made: Instant,
    /// The number of the instance.
    pub instance: u32,
    /// The instant at which it is due.
    pub due: Instant,
    /// The signal bits with what they become.
    pub bits: BitWrites,
}

impl Wish {
    /// Whether it comes before another one: by due instant, then made instant, then instance.
    pub(crate) fn is_before(&self, other: &Wish) -> bool
        ensures { result ≡ is_before self.now other.now }
    {
        self.due
            .cmp(&other.due)
            .then(self.made.cmp(&other.made))
            .then(self.instance.cmp(&other.instance))
            .is_lt()
    }

    /// Whether it is due at an instant.
    pub(crate) fn is_due(&self, at: Instant) -> bool
        ensures { result ≡ instant_eq self.now.due at }
    {
        self.due.cmp(&at).is_eq()
    }

    /// Sets its bits.
    pub(crate) fn set(&self, now: &mut Bits)
        requires { BitsWithin (length now.old) self.now.bits }
        ensures { now.new ≡ written self.now.bits now.old }
    {
        self.bits.set(now);
    }
}
