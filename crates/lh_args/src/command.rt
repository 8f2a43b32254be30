//! What the words of the command line ask for.
ghost use Rattle.std.specs.Prelude.{◌≡◌, ◌++◌, ◌∷◌, [], ℕ, List, IfSome, IfNone, IsTrue, ◌↔◌, codes};
ghost use Rattle.std.specs.Iterator.{YieldsFirstRef, item_count};
ghost use Rattle.lh_args.specs.Forms.{FileRequest, WordsAskFor, WordsAskForSelfTest, HasNoForm, Simulates, SimulateRequest, name_meant};
ghost use Rattle.lh_args.specs.Meant.{IsMeant, meant, simulation_of, top_of, titles_left};

use crate::choice::{Setting, first_choice};
use crate::found::found_in;
use crate::number::count_of;
use lh_types::list::{ByteList, TextList};

/// The most frames that a simulation may be asked for.
const MOST_STEPS: u32 = 1_000_000;

/// The most links that a self-test may be asked for.
const MOST_LINKS: u32 = 1_000;

/// What the program is asked to do.
#[derive(Clone, Copy)]
pub enum Command<'a> {
    /// Read a file, and do this with it.
    OnFile(FileCommand<'a>),
    /// Lower and simulate a chain of this many links, from 1 to 1,000, and write how it went.
    Selftest(u32),
}

/// What the program is asked to do with a file.
#[derive(Clone, Copy)]
pub enum FileCommand<'a> {
    /// Read a file and write its canonical text.
    Check,
    /// Read a file and write the text of the lowered module, and what became of each process.
    Lower,
    /// Read a file and write the trace of a top unit, or its waveform.
    Simulate(Simulate<'a>),
}

/// A simulation that is asked for.
#[derive(Clone, Copy)]
pub struct Simulate<'a> {
    /// The unit at the top.
    pub top: Top<'a>,
    /// At most this many frames, from 1 to 1,000,000.
    pub steps: u32,
    /// Whether a waveform is asked for, in place of the trace.
    pub vcd: bool,
    // The words behind `simulate`.
    options: &'a [ByteList],
}

/// The name of the unit at the top: any bytes, since a name that no unit has is still a name.
#[derive(Clone, Copy)]
pub struct Top<'a> {
    /// `@` or `%`.
    pub sigil: u8,
    /// The name behind it.
    pub name: &'a [u8],
}

/// The titles of the watchers that are asked for, in the order of the words.
#[derive(Clone, Copy)]
pub struct Titles<'a> {
    words: &'a [ByteList],
}

/// What the words ask for, without memory; none exactly where they have none of the forms.
pub fn command_of(words: &TextList) -> Option<Command<'_>>
    ensures some { IfSome result (λ c. IsMeant words.now c) }
    ensures none { IfNone result (HasNoForm words.now) }
{
    if let Some(links) = links_asked(words.as_slice()) {
        return Some(Command::Selftest(links));
    }
    let on_file = file_command_of(words.as_slice())?;
    Some(Command::OnFile(on_file))
}

// What the words ask for of a file.
fn file_command_of(words: &[ByteList]) -> Option<FileCommand<'_>>
    ensures some { IfSome result (λ c. WordsAskFor words.now (meant c)) }
    ensures none { IfNone result ((a : FileRequest) → WordsAskFor words.now a → ⊥) }
{
    if is_one(words, b"check") {
        return Some(FileCommand::Check);
    }
    if is_one(words, b"lower") {
        return Some(FileCommand::Lower);
    }
    let options = behind(words, b"simulate")?;
    let asked = simulation_of_options(options)?;
    Some(FileCommand::Simulate(asked))
}

// The links of the self-test that the words ask for.
fn links_asked(words: &[ByteList]) -> Option<u32>
    ensures some { IfSome result (WordsAskForSelfTest words.now) }
    ensures none { IfNone result ((links : ℕ) → WordsAskForSelfTest words.now links → ⊥) }
{
    let numbers = behind(words, b"selftest")?;
    let (number, more) = numbers.split_first()?;
    if !more.is_empty() {
        return None;
    }
    count_of(number.as_slice(), MOST_LINKS)
}

// Whether the words are this one word.
fn is_one(words: &[ByteList], word: &[u8]) -> bool
    ensures { IsTrue result ↔ (words.now ≡ word.now ∷ []) }
{
    words.len() == 1 && words[0].as_slice() == word
}

// The words behind this one, where it is the first.
fn behind<'a>(words: &'a [ByteList], word: &[u8]) -> Option<&'a [ByteList]>
    ensures some { IfSome result (λ more. words.now ≡ word.now ∷ more.now) }
    ensures none { IfNone result ((more : List (List ℕ)) → words.now ≡ word.now ∷ more → ⊥) }
{
    let (first, more) = words.split_first()?;
    if first.as_slice() == word {
        Some(more)
    } else {
        None
    }
}

// The simulation that the words behind `simulate` ask for.
fn simulation_of_options(options: &[ByteList]) -> Option<Simulate<'_>>
    ensures some { IfSome result (λ s. Simulates (codes "simulate" ∷ options.now) (simulation_of s)) }
    ensures none { IfNone result ((s : SimulateRequest) → Simulates (codes "simulate" ∷ options.now) s → ⊥) }
{
    let found = found_in(options)?;
    let top = found.top?;
    let number = found.steps?;
    let steps = count_of(number, MOST_STEPS)?;
    Some(Simulate {
        top: top_meant(top),
        steps,
        vcd: found.vcd,
        options,
    })
}

// The unit that a word behind `--top` means.
fn top_meant(word: &[u8]) -> Top<'_>
    ensures { top_of result ≡ name_meant word.now }
{
    match word.split_first() {
        Some((sigil, name)) if *sigil == b'@' || *sigil == b'%' => Top {
            sigil: *sigil,
            name,
        },
        _ => Top {
            sigil: b'@',
            name: word,
        },
    }
}

impl<'a> Simulate<'a> {
    /// The titles of the watchers that are asked for.
    pub fn titles(&self) -> Titles<'a>
        ensures { titles_left result ≡ (simulation_of self.now).titles }
    {
        Titles {
            words: self.options,
        }
    }
}

impl<'a> Iterator for Titles<'a> {
    type Item = &'a [u8];

    ghost next_gives = { YieldsFirstRef titles_left };

    ghost remaining = { item_count titles_left };

    fn next(&mut self) -> Option<&'a [u8]> {
        while let Some((setting, rest)) = first_choice(self.words) {
            self.words = rest;
            if let Setting::Watch(title) = setting {
                return Some(title);
            }
        }
        None
    }
}
