//! How a run went, and the summary of two runs.
ghost use Rattle.std.specs.Prelude.{◌≡◌, ◌++◌, ◌∷◌, [], List, OnOk, count_by, length, nat_eq, not, if◌then◌else◌};
ghost use Rattle.lh_types.specs.Pictures.{Picture, picture};
ghost use Rattle.lh_types.specs.Raised.{raised};
ghost use Rattle.lh_selftest_design.specs.Summary as text;
ghost use Rattle.lh_selftest_design.specs.Summary.{counts_of, ending_word, units_line, course_line};

use lh_types::frame::{Frame, Outcome};
use lh_types::memory::NoMemory;
use lh_types::text::{put, put_number};

/// How a run ended: nothing was to come, the bound on frames was reached, or an instance ran away.
#[derive(Clone, Copy)]
pub enum RunEnd {
    Quiet,
    Steps,
    Runaway,
}

/// What shows in the frames of a run: how many there are, the changes of signals from the second frame on, the assertions that passed
/// and those that failed. Each count stays at 2^64 - 1.
#[derive(Clone, Copy)]
pub struct Counts {
    pub frames: u64,
    pub changes: u64,
    pub passed: u64,
    pub failed: u64,
}

impl Counts {
    /// No frame seen yet.
    pub fn new() -> Counts
        ensures { result ≡ counts_of [] }
    {
        Counts {
            frames: 0,
            changes: 0,
            passed: 0,
            failed: 0,
        }
    }

    /// Counts one more frame.
    pub fn see(&mut self, frame: &Frame)
        ensures { (seen : List Picture) → self.old ≡ counts_of seen → self.new ≡ counts_of (seen ++ picture frame.now ∷ []) }
    {
        let changes = self.changes_counted(frame);
        self.changes = self.changes.saturating_add(changes);
        self.frames = self.frames.saturating_add(1);
        self.see_outcomes(frame.outcomes.as_slice());
    }

    /// How many changes of the next frame count: of the first frame none.
    fn changes_counted(&self, frame: &Frame) -> u64
        ensures { result ≡ (if nat_eq self.now.frames 0 then 0 else length frame.now.changes) }
    {
        if self.frames == 0 {
            0
        } else {
            frame.changes.len() as u64
        }
    }

    /// Counts the outcomes of a frame.
    fn see_outcomes(&mut self, outcomes: &[Outcome])
        ensures frames { self.new.frames ≡ self.old.frames }
        ensures changes { self.new.changes ≡ self.old.changes }
        ensures passed { self.new.passed ≡ raised self.old.passed (count_by (λ o. o.passed) outcomes.now) }
        ensures failed { self.new.failed ≡ raised self.old.failed (count_by (λ o. not o.passed) outcomes.now) }
    {
        for o in outcomes {
            if o.passed {
                self.passed = self.passed.saturating_add(1);
            } else {
                self.failed = self.failed.saturating_add(1);
            }
        }
    }
}

/// How a run went: what its frames show, and how it ended.
#[derive(Clone, Copy)]
pub struct RunSummary {
    pub counts: Counts,
    pub ending: RunEnd,
}

/// How many units a module has, how many of them became entities, and how many processes were left as they were.
#[derive(Clone, Copy)]
pub struct Units {
    pub all: u64,
    pub lowered: u64,
    pub left: u64,
}

/// Puts the summary of the runs of a module and of the lowered module at the end of a text. After `NoMemory` nothing is said of the
/// text.
pub fn put_summary(
    to: &mut Vec<u8>,
    units: Units,
    original: &RunSummary,
    lowered: &RunSummary,
) -> Result<(), NoMemory>
    ensures { OnOk result (to.new.items ≡ to.old.items ++ text.summary units original.now lowered.now) }
{
    put_units(to, units)?;
    put_course(to, b"original", original)?;
    put_course(to, b"lowered", lowered)
}

/// Puts the line of units at the end of a text.
fn put_units(to: &mut Vec<u8>, units: Units) -> Result<(), NoMemory>
    ensures { OnOk result (to.new.items ≡ to.old.items ++ units_line units) }
{
    put(to, b"units ")?;
    put_number(to, units.all)?;
    put(to, b" lowered ")?;
    put_number(to, units.lowered)?;
    put(to, b" left ")?;
    put_number(to, units.left)?;
    put(to, b"\n")
}

/// Puts the line of a run at the end of a text.
fn put_course(to: &mut Vec<u8>, name: &[u8], course: &RunSummary) -> Result<(), NoMemory>
    ensures { OnOk result (to.new.items ≡ to.old.items ++ course_line name.now course.now) }
{
    put(to, name)?;
    put(to, b" frames ")?;
    put_number(to, course.counts.frames)?;
    put(to, b" changes ")?;
    put_number(to, course.counts.changes)?;
    put(to, b" ok ")?;
    put_number(to, course.counts.passed)?;
    put(to, b" failed ")?;
    put_number(to, course.counts.failed)?;
    put(to, b" ")?;
    put_ending(to, course.ending)?;
    put(to, b"\n")
}

/// Puts the word of an ending at the end of a text.
fn put_ending(to: &mut Vec<u8>, ending: RunEnd) -> Result<(), NoMemory>
    ensures { OnOk result (to.new.items ≡ to.old.items ++ ending_word ending) }
{
    match ending {
        RunEnd::Quiet => put(to, b"quiet"),
        RunEnd::Steps => put(to, b"steps"),
        RunEnd::Runaway => put(to, b"runaway"),
    }
}
