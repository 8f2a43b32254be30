//! The top call.
ghost use Rattle.std.specs.Prelude.{◌≡◌, ◌≤◌, ◌↔◌, ℕ, List, IfSome, map};
ghost use Rattle.lh_io.specs.Streams.{Rose};
ghost use Rattle.lh_io.specs.Whole.{TakesBytes};
ghost use Rattle.lh_result.specs.Called.{AskSelfTest, IsMisuse};
ghost use Rattle.lh_run.specs.Faithful.{LowersFaithfully};
ghost use Rattle.lh_result.specs.Account.{use_of, OfSource, IsCountFor, IsReadToEndFor, Performs, Account, HasOneResult, IsResultOrNoMemory};

use crate::command::carry_out;
use crate::selftest::test_itself;
use lh_args::command::Command;
use lh_io::stream::{Sink, Source};
use lh_result::called::called;
use lh_result::load::load;
use lh_result::status::Status;
use lh_selftest_laws::laws::reading_law;
use lh_types::list::TextList;
use lh_watch::watcher::Watcher;
use std::alloc::Global;

// Does what the words ask for; all of a run but its status line.
fn perform<S: Source, O: Sink, L: Sink, W: Watcher>(
    alloc: Global,
    words: &TextList,
    src: &mut S,
    out: &mut O,
    log: &mut L,
    watchers: &mut Vec<W>,
) -> Status
    ensures usage { (result ≡ Status.Usage) ↔ IsMisuse words.now (map W.member watchers.old.items) }
    ensures untouched { result ≡ Status.Usage → (src.new ≡ src.old) × (out.new ≡ out.old) × (watchers.new ≡ watchers.old) }
    ensures performs { OfSource (S.left src.old) (λ bytes. Performs words.now bytes (map W.member watchers.old.items) result (use_of (O.written out.old) (O.written out.new) (O.faults out.old) (O.faults out.new)) (use_of (L.written log.old) (L.written log.new) (L.faults log.old) (L.faults log.new)) (map W.member watchers.new.items)) }
    ensures reads_nothing { AskSelfTest words.now → (src.new ≡ src.old) × (watchers.new ≡ watchers.old) }
    ensures came { (n : ℕ) × IsCountFor result n × TakesBytes (S.left src.old) (S.left src.new) (S.taken src.old) (S.taken src.new) n }
    ensures to_the_end { IsReadToEndFor words.now result (S.left src.old) (S.left src.new) }
    ensures rose { result ≡ Status.ReadFault → Rose (S.faults src.old) (S.faults src.new) }
    ensures one_result { (bytes : List ℕ) → HasOneResult words.now bytes (map W.member watchers.old.items) }
    ensures faithful { OfSource (S.left src.old) (λ bytes. LowersFaithfully words.now bytes result (use_of (O.written out.old) (O.written out.new) (O.faults out.old) (O.faults out.new)) (use_of (L.written log.old) (L.written log.new) (L.faults log.old) (L.faults log.new))) }
    ensures never_fall { L.faults log.old ≤ L.faults log.new }
{
    reading_law();
    let Some(command) = called(words, watchers.as_slice()) else {
        return Status::Usage;
    };
    let on_file = match command {
        Command::Selftest(links) => return test_itself(alloc, links, out),
        Command::OnFile(on_file) => on_file,
    };
    let file = match load(alloc, src) {
        Ok(file) => file,
        Err(status) => return status,
    };
    carry_out(alloc, on_file, &file, out, log, watchers)
}

/// Does what the words ask for, writes the status line to `log`, and answers the status.
///
/// `simulate` keeps the watchers whose titles the words name and drops the others, and shows them the frames. A failure of the
/// status line changes no status.
pub fn run<S: Source, O: Sink, L: Sink>(
    alloc: Global,
    words: &TextList,
    src: &mut S,
    out: &mut O,
    log: &mut L,
    watchers: &mut Vec<Box<dyn Watcher>>,
) -> Status
    // The result by the words, the bytes of the source and the watchers, what came to the sinks, and which watchers are left.
    ensures account { OfSource (S.left src.old) (λ bytes. Account words.now bytes (map ⟦<Box<dyn Watcher> as Watcher>⟧.member watchers.old.items) result (use_of (O.written out.old) (O.written out.new) (O.faults out.old) (O.faults out.new)) (use_of (L.written log.old) (L.written log.new) (L.faults log.old) (L.faults log.new)) (map ⟦<Box<dyn Watcher> as Watcher>⟧.member watchers.new.items)) }
    ensures one_result { (bytes : List ℕ) → HasOneResult words.now bytes (map ⟦<Box<dyn Watcher> as Watcher>⟧.member watchers.old.items) }
    ensures complete { IfSome (S.left src.old) (λ bytes. ¬ Rose (S.faults src.old) (S.faults src.new) → ¬ Rose (O.faults out.old) (O.faults out.new) → ¬ Rose (L.faults log.old) (L.faults log.new) → IsResultOrNoMemory words.now bytes (map ⟦<Box<dyn Watcher> as Watcher>⟧.member watchers.old.items) result) }

    // What `lower` writes reads back, is well formed, and has for every top and every number of frames the trace of what it read.
    ensures faithful { OfSource (S.left src.old) (λ bytes. LowersFaithfully words.now bytes result (use_of (O.written out.old) (O.written out.new) (O.faults out.old) (O.faults out.new)) (use_of (L.written log.old) (L.written log.new) (L.faults log.old) (L.faults log.new))) }

    // Usage comes by the words and the titles of the watchers alone, with nothing read.
    ensures usage { (result ≡ Status.Usage) ↔ IsMisuse words.now (map ⟦<Box<dyn Watcher> as Watcher>⟧.member watchers.old.items) }
    ensures untouched { result ≡ Status.Usage → (src.new ≡ src.old) × (out.new ≡ out.old) × (watchers.new ≡ watchers.old) }

    // What was taken from the source.
    ensures reads_nothing { AskSelfTest words.now → (src.new ≡ src.old) × (watchers.new ≡ watchers.old) }
    ensures came { (n : ℕ) × IsCountFor result n × TakesBytes (S.left src.old) (S.left src.new) (S.taken src.old) (S.taken src.new) n }
    ensures to_the_end { IsReadToEndFor words.now result (S.left src.old) (S.left src.new) }
    ensures read_fault { result ≡ Status.ReadFault → Rose (S.faults src.old) (S.faults src.new) }
{
    let status = perform(alloc, words, src, out, log, watchers);
    let _ = status.write_line(log);
    status
}
