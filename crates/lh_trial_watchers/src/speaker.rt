//! Watchers that say a word at a frame.
ghost use Rattle.std.specs.Prelude.{◌≡◌, ◌∷◌, []};
ghost use Rattle.lh_watch.specs.Members.{member};
ghost use Rattle.lh_trial_watchers.specs.Scripted.{scripted, title_of};

use lh_time::Instant;
use lh_types::frame::{Change, Outcome};
use lh_types::memory::NoMemory;
use lh_types::text::{put, put_number};
use lh_watch::watcher::{Next, Watcher};
use std::alloc::Global;

/// The title of a watcher of the trials.
#[derive(Clone, Copy)]
enum Title {
    A,
    B,
    C,
}

/// A watcher that counts the frames that it has seen, and says its word at one of them; it may find no memory there instead.
#[derive(Drop)]
pub struct Speaker {
    title: Title,
    turn: u64,
    word: Next,
    finds_memory: bool,
    seen: u64,
}

impl Watcher for Speaker {
    ghost member = { λ w. member (scripted w.title w.turn w.word) (w.seen ∷ []) };

    fn title(&self) -> &str {
        title_of(self.title)
    }

    fn frame(
        &mut self,
        _at: Instant,
        _changes: &[Change],
        _outcomes: &[Outcome],
    ) -> Result<Next, NoMemory> {
        let seen = self.seen.saturating_add(1);
        if seen != self.turn {
            self.seen = seen;
            return Ok(Next::Go);
        }
        if !self.finds_memory {
            return Err(NoMemory);
        }
        self.seen = seen;
        Ok(self.word)
    }

    fn report(&self, to: &mut Vec<u8>) -> Result<(), NoMemory> {
        put(to, title_of(self.title).as_bytes())?;
        put_number(to, self.seen)
    }
}

fn title_of<'a>(title: Title) -> &'a str
    ensures { result.now ≡ title_of title }
{
    match title {
        Title::A => "A",
        Title::B => "B",
        Title::C => "C",
    }
}

/// Watchers by their titles, words and turns, in order: `A go 3` has the title `A` and says go at the third frame. The titles are `A`, `B` and `C`,
/// the words `go`, `done`, `stop`, and `none` of one that finds no memory then. Each other title counts as `C`, each other word as `go`,
/// and a turn that is no number as 1.
pub fn speakers(alloc: Global, words: &str) -> Result<Vec<Speaker>, NoMemory> {
    let words: Vec<&str> = words.split_whitespace().collect(alloc)?;
    let mut watchers = Vec::new(alloc);
    for said in words.as_slice().chunks_exact(3) {
        if let [title, word, turn] = said {
            let turn = turn.parse::<u32>().unwrap_or(1);
            watchers.push(speaker_of(*title, *word, turn))?;
        }
    }
    Ok(watchers)
}

fn speaker_of(title: &str, word: &str, turn: u32) -> Speaker {
    let title = match title {
        "A" => Title::A,
        "B" => Title::B,
        _ => Title::C,
    };
    let said = match word {
        "done" => Next::Done,
        "stop" => Next::Stop,
        _ => Next::Go,
    };
    Speaker {
        title,
        turn: turn as u64,
        word: said,
        finds_memory: word != "none",
        seen: 0,
    }
}
