//! What a watcher is, to whoever shows it frames.
ghost use Rattle.std.specs.Prelude.{◌≡◌, ◌++◌, IfOk, OnErr, OnOk};
ghost use Rattle.lh_types.specs.Pictures.{pictured};
ghost use Rattle.lh_watch.specs.Members.{Member, TookFrame, report_of};

use lh_time::Instant;
use lh_types::frame::{Change, Outcome};
use lh_types::memory::NoMemory;

/// What a watcher answers at a frame.
#[derive(Clone, Copy, Debug, PartialEq, Eq)]
pub enum Next {
    /// Show me the next frame.
    Go,
    /// I have seen enough: take my report and let me go.
    Done,
    /// End the run after this frame.
    Stop,
}

/// A watcher holds numbers. Its rule makes of them and of each frame the next numbers and an answer;
/// its title and its rule never change.
pub trait Watcher: Drop {
    ghost member: { Self → Member };

    /// The name by which it is asked for.
    fn title(&self) -> &str
        ensures { result.now ≡ (member self.now).rule.title };

    /// Takes a frame. When memory runs out it is as it was.
    fn frame(
        &mut self,
        at: Instant,
        changes: &[Change],
        outcomes: &[Outcome],
    ) -> Result<Next, NoMemory>
        ensures ok { IfOk result (TookFrame (pictured at changes.now outcomes.now) (member self.old) (member self.new)) }
        ensures err { OnErr result (member self.new ≡ member self.old) };

    /// Appends its report, a text of its numbers.
    fn report(&self, to: &mut Vec<u8>) -> Result<(), NoMemory>
        ensures { OnOk result (to.new.items ≡ to.old.items ++ report_of (member self.now)) };
}

/// A box of any kind of watcher is a watcher.
impl Watcher for Box<dyn Watcher> {
    ghost member = { λ b. (Watcher-box b).member b.value };

    fn title(&self) -> &str {
        (**self).title()
    }

    fn frame(
        &mut self,
        at: Instant,
        changes: &[Change],
        outcomes: &[Outcome],
    ) -> Result<Next, NoMemory> {
        (**self).frame(at, changes, outcomes)
    }

    fn report(&self, to: &mut Vec<u8>) -> Result<(), NoMemory> {
        (**self).report(to)
    }
}
