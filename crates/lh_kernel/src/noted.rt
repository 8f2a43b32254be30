//! Who senses which signal and who wakes by itself when: what is noted of all instances, and how it moves.
ghost use Rattle.std.specs.Prelude.{◌≡◌, ◌<◌, ℕ, List, length, IfOk, OnErr};
ghost use Rattle.lh_design.specs.declared.Signal.{Signal};
ghost use Rattle.lh_kernel_wakes.specs.Rising.{IsOneOf};
ghost use Rattle.lh_kernel.specs.Moves.{MovesKnown, AreFresh, HasEntered, HasEnteredSome, HasLeft, IsSameNoted};
ghost use Rattle.lh_kernel.specs.Noting.{HasNoted, HasNotedSome, HasForgotten};

use lh_kernel_wakes::rising::Rising;
use lh_kernel_wakes::sensing::Index;
use lh_kernel_wakes::wakes::Wakes;
use lh_time::Instant;
use lh_types::memory::NoMemory;

/// Which instances sense each signal, and when instances wake by themselves.
#[derive(Drop)]
pub(crate) struct Noted {
    pub index: Index,
    pub wakes: Wakes,
}

/// What changes of what is noted of one instance when its state changes: the signals that it comes to sense and those that it
/// senses no more, and the instant at which it comes to wake by itself and the one at which it does no more.
#[derive(Drop)]
pub(crate) struct Move {
    pub instance: u32,
    pub came: Rising,
    pub gone: Rising,
    pub wake_came: Option<Instant>,
    pub wake_gone: Option<Instant>,
}

impl Noted {
    /// Notes what instances come to, beside all that is noted; none of it may be noted. After `NoMemory` the same is noted as before.
    pub fn enter(&mut self, moves: &[Move]) -> Result<(), NoMemory>
        requires known { (signals : List Signal) × (length self.old.index ≡ length signals) × MovesKnown signals moves.now }
        requires fresh { AreFresh moves.now self.old }
        ensures entered { IfOk result (λ done. HasEntered moves.now self.old self.new) }
        ensures err { OnErr result (IsSameNoted self.old self.new) }
    {
        for (number, entry) in moves.iter().enumerate() {
            if self
                .note(entry.instance, &entry.came, entry.wake_came)
                .is_err()
            {
                self.take_back(&moves[..number + 1]);
                return Err(NoMemory);
            }
        }
        Ok(())
    }

    /// Takes out what instances go from. It takes no memory.
    pub fn leave(&mut self, moves: &[Move])
        requires known { (signals : List Signal) × (length self.old.index ≡ length signals) × MovesKnown signals moves.now }
        ensures left { HasLeft moves.now self.old self.new }
    {
        // From the last one on: the numbers of instances rise from move to move, and one at the end of a list leaves at once.
        for number in (0..moves.len()).rev() {
            let entry = &moves[number];
            self.forget(entry.instance, &entry.gone, entry.wake_gone);
        }
    }

    /// Takes out again what instances came to, all of it or some: the same is then noted as before they came. It takes no memory.
    pub fn take_back(&mut self, moves: &[Move])
        requires known { (signals : List Signal) × (length self.old.index ≡ length signals) × MovesKnown signals moves.now }
        ensures all { (before : Noted) → AreFresh moves.now before → HasEntered moves.now before self.old → IsSameNoted before self.new }
        ensures some { (before : Noted) → AreFresh moves.now before → HasEnteredSome moves.now before self.old → IsSameNoted before self.new }
    {
        // From the last one on, as where they leave.
        for number in (0..moves.len()).rev() {
            let entry = &moves[number];
            self.forget(entry.instance, &entry.came, entry.wake_came);
        }
    }

    /// Notes of one instance that it senses these signals and wakes by itself at this instant. After `NoMemory` some of it is noted.
    pub fn note(
        &mut self,
        instance: u32,
        signals: &Rising,
        wake: Option<Instant>,
    ) -> Result<(), NoMemory>
        requires known { (s : ℕ) → IsOneOf s signals.now → s < length self.old.index }
        ensures noted { IfOk result (λ done. HasNoted instance signals.now wake self.old self.new) }
        ensures err { OnErr result (HasNotedSome instance signals.now wake self.old self.new) }
    {
        for &signal in signals.as_slice() {
            self.index.enter(signal, instance)?;
        }
        if let Some(at) = wake {
            self.wakes.enter(at, instance)?;
        }
        Ok(())
    }

    /// Forgets of one instance that it senses these signals and wakes by itself at this instant. It takes no memory.
    fn forget(&mut self, instance: u32, signals: &Rising, wake: Option<Instant>)
        requires known { (s : ℕ) → IsOneOf s signals.now → s < length self.old.index }
        ensures { HasForgotten instance signals.now wake self.old self.new }
    {
        for &signal in signals.as_slice() {
            self.index.leave(signal, instance);
        }
        if let Some(at) = wake {
            self.wakes.leave(at, instance);
        }
    }
}
