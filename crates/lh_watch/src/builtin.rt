//! The watchers that come with the program.
ghost use Rattle.std.specs.Prelude.{◌≡◌, ◌+◌, ◌∷◌, [], not, sum_by, count_by};
ghost use Rattle.lh_types.specs.Pictures.{showing_of};
ghost use Rattle.lh_types.specs.Raised.{raised};
ghost use Rattle.lh_watch.specs.Members.{member};
ghost use Rattle.lh_watch.specs.Builtin.{toggles, asserts, until_fail, has_failed};

use crate::watcher::{Next, Watcher};
use lh_time::Instant;
use lh_types::frame::{Change, Outcome};
use lh_types::memory::NoMemory;
use lh_types::text::{put, put_number};

/// Sums the bits that toggle, up to 2^64 - 1.
#[derive(Drop)]
pub struct Toggles {
    bits: u64,
}

impl Toggles {
    /// None toggled yet.
    pub fn new() -> Toggles
        ensures { ⟦<Toggles as Watcher>⟧.member result ≡ member toggles (0 ∷ []) }
    {
        Toggles { bits: 0 }
    }
}

impl Watcher for Toggles {
    ghost member = { λ w. member toggles (w.bits ∷ []) };

    fn title(&self) -> &str {
        "toggles"
    }

    fn frame(
        &mut self,
        _at: Instant,
        changes: &[Change],
        _outcomes: &[Outcome],
    ) -> Result<Next, NoMemory> {
        for c in changes {
            self.bits = self.bits.saturating_add(c.toggled.into());
        }
        Ok(Next::Go)
    }

    fn report(&self, to: &mut Vec<u8>) -> Result<(), NoMemory> {
        put(to, b"toggles ")?;
        put_number(to, self.bits)?;
        put(to, b"\n")
    }
}

/// Counts the assertions that pass and those that fail, each up to 2^64 - 1.
#[derive(Drop)]
pub struct Asserts {
    passed: u64,
    failed: u64,
}

impl Asserts {
    /// None counted yet.
    pub fn new() -> Asserts
        ensures { ⟦<Asserts as Watcher>⟧.member result ≡ member asserts (0 ∷ 0 ∷ []) }
    {
        Asserts {
            passed: 0,
            failed: 0,
        }
    }
}

impl Watcher for Asserts {
    ghost member = { λ w. member asserts (w.passed ∷ w.failed ∷ []) };

    fn title(&self) -> &str {
        "asserts"
    }

    fn frame(
        &mut self,
        _at: Instant,
        _changes: &[Change],
        outcomes: &[Outcome],
    ) -> Result<Next, NoMemory> {
        for o in outcomes {
            if o.passed {
                self.passed = self.passed.saturating_add(1);
            } else {
                self.failed = self.failed.saturating_add(1);
            }
        }
        Ok(Next::Go)
    }

    fn report(&self, to: &mut Vec<u8>) -> Result<(), NoMemory> {
        put(to, b"asserts ")?;
        put_number(to, self.passed)?;
        put(to, b" ok ")?;
        put_number(to, self.failed)?;
        put(to, b" failed\n")
    }
}

/// Counts the frames in which an assertion failed, up to 2^64 - 1, and says stop at each.
#[derive(Drop)]
pub struct UntilFail {
    frames: u64,
}

impl UntilFail {
    /// None counted yet.
    pub fn new() -> UntilFail
        ensures { ⟦<UntilFail as Watcher>⟧.member result ≡ member until_fail (0 ∷ []) }
    {
        UntilFail { frames: 0 }
    }
}

impl Watcher for UntilFail {
    ghost member = { λ w. member until_fail (w.frames ∷ []) };

    fn title(&self) -> &str {
        "untilfail"
    }

    fn frame(
        &mut self,
        _at: Instant,
        _changes: &[Change],
        outcomes: &[Outcome],
    ) -> Result<Next, NoMemory> {
        if any_failed(outcomes) {
            self.frames = self.frames.saturating_add(1);
            Ok(Next::Stop)
        } else {
            Ok(Next::Go)
        }
    }

    fn report(&self, to: &mut Vec<u8>) -> Result<(), NoMemory> {
        put(to, b"untilfail ")?;
        put_number(to, self.frames)?;
        put(to, b"\n")
    }
}

/// Whether an assertion failed, by the outcomes of those that were asked.
pub fn any_failed(outcomes: &[Outcome]) -> bool
    ensures { result ≡ has_failed outcomes.now }
{
    outcomes.iter().any(|o| !o.passed)
}
