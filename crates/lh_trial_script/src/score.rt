//! What trials came to.
ghost use Rattle.std.specs.Prelude.{◌≡◌, if◌then◌else◌};
ghost use Rattle.lh_types.specs.Raised.{raised};

use lh_types::memory::NoMemory;
use lh_types::text::{put, put_number};
use std::alloc::Global;

/// How many trials of a group had the answer that is said, how many had another, and what is to be told.
#[derive(Drop)]
pub struct Score {
    passed: u64,
    failed: u64,
    all_failed: u64,
    report: Vec<u8>,
}

impl Score {
    /// No trial was run.
    pub fn new(alloc: Global) -> Score {
        Score {
            passed: 0,
            failed: 0,
            all_failed: 0,
            report: Vec::new(alloc),
        }
    }

    /// How many trials had another answer, of all groups.
    pub fn failed(&self) -> u64 {
        self.all_failed
    }

    /// What is to be told.
    pub fn report(&self) -> &str {
        match str::from_utf8(self.report.as_slice()) {
            Ok(text) => text,
            Err(_) => "bytes that are no text\n",
        }
    }

    /// Takes the answer that came in a trial beside the one that is said.
    pub fn take(&mut self, group: &[u8], came: &[u8], said: &[u8]) -> Result<(), NoMemory> {
        let is_as_said = came == said;
        self.count(is_as_said);
        if is_as_said {
            return Ok(());
        }
        put(&mut self.report, group)?;
        put(&mut self.report, b", trial ")?;
        put_number(&mut self.report, self.passed.saturating_add(self.failed))?;
        put(&mut self.report, b": this came\n")?;
        put(&mut self.report, came)?;
        put(&mut self.report, b"in place of\n")?;
        put(&mut self.report, said)
    }

    /// Counts a trial by whether its answer is the one that is said.
    fn count(&mut self, is_as_said: bool)
        ensures passed { self.new.passed ≡ if is_as_said then raised self.old.passed 1 else self.old.passed }
        ensures failed { self.new.failed ≡ if is_as_said then self.old.failed else raised self.old.failed 1 }
    {
        if is_as_said {
            self.passed = self.passed.saturating_add(1);
        } else {
            self.failed = self.failed.saturating_add(1);
        }
    }

    /// Ends a group.
    pub fn end_group(&mut self, group: &[u8]) -> Result<(), NoMemory> {
        if self.passed == 0 && self.failed == 0 {
            return Ok(());
        }
        put(&mut self.report, group)?;
        put(&mut self.report, b": ")?;
        put_number(&mut self.report, self.passed)?;
        put(&mut self.report, b" as said")?;
        if self.failed > 0 {
            put(&mut self.report, b", ")?;
            put_number(&mut self.report, self.failed)?;
            put(&mut self.report, b" not")?;
        }
        self.all_failed = self.all_failed.saturating_add(self.failed);
        self.passed = 0;
        self.failed = 0;
        put(&mut self.report, b"\n")
    }
}
