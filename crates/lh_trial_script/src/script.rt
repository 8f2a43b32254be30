//! The form of a file of trials.
//!
//! The first byte of a line says what the line is; a space behind it is left out.
//!
//! | First byte | The line |
//! |---|---|
//! | `#` | is for the reader |
//! | `=` | begins a group of trials of this name |
//! | `:` | has the words by which the texts behind it are run |
//! | `+` | stands before each text of the group |
//! | `-` | stands behind each text of the group |
//! | `>` | is a line of the answer to the text before it; with nothing behind it the answer may have no line |
//! | `?` | has the answer to each further line, which is a text by itself; with nothing behind it no more |
//! | `<` | stands for the file of this name, in the text |
//! | `*` | with a number: the lines up to the next `*` stand so many times, in which `<i>` is 0, 1 and so on, and `<j>` is one more |
//! | `&` | with a number and a text: the text stands so many times in the text of the trial, without a line end |
//! | `\` | is a line of the text, without this byte |
//! | any other | is a line of the text |
use crate::group::{Group, put_line};
use crate::score::Score;
use lh_types::memory::NoMemory;
use lh_types::text::put;
use std::alloc::Global;

/// What answers the texts of trials.
pub trait Answers: Drop {
    /// The answer to a text, by the words by which it is run.
    fn answer(&self, alloc: Global, how: &[u8], text: &[u8]) -> Result<Vec<u8>, NoMemory>;
}

/// A file of trials, up to a line, with what answers its texts.
#[derive(Drop)]
pub struct Script<A: Answers> {
    alloc: Global,
    answers: A,
    group: Group,
    text: Vec<u8>,
    said: Vec<u8>,
    is_said: bool,
    times: u32,
    body: String,
    score: Score,
}

impl<A: Answers> Script<A> {
    /// Nothing was taken.
    pub fn new(alloc: Global, answers: A) -> Script<A> {
        Script {
            alloc,
            answers,
            group: Group::new(alloc),
            text: Vec::new(alloc),
            said: Vec::new(alloc),
            is_said: false,
            times: 0,
            body: String::new(alloc),
            score: Score::new(alloc),
        }
    }

    /// Takes the next line.
    pub fn take(&mut self, line: &str) -> Result<(), NoMemory> {
        if let Some(times) = line.strip_prefix('*') {
            return self.repeat(times);
        }
        if self.times > 0 {
            return push_line(&mut self.body, line);
        }
        self.take_one(line.as_bytes())
    }

    /// Begins a repetition, or ends it and takes its lines.
    fn repeat(&mut self, times: &str) -> Result<(), NoMemory> {
        if let Ok(times) = times.trim().parse::<u32>() {
            self.times = times;
            self.body.clear();
            return Ok(());
        }
        for i in 0..self.times {
            let lines = numbered(self.alloc, self.body.as_str(), i)?;
            self.take_all(lines.as_str())?;
        }
        self.times = 0;
        Ok(())
    }

    /// Takes lines.
    fn take_all(&mut self, lines: &str) -> Result<(), NoMemory> {
        for line in lines.lines() {
            self.take_one(line.as_bytes())?;
        }
        Ok(())
    }

    /// Takes a line that is no repetition.
    fn take_one(&mut self, line: &[u8]) -> Result<(), NoMemory> {
        let Some((first, rest)) = line.split_first() else {
            return Ok(());
        };
        let said = rest.strip_prefix(b" ").unwrap_or(rest);
        match *first {
            b'#' => Ok(()),
            b'=' => self.begin_group(said),
            b':' => self.run_by(said),
            b'+' => put_line(&mut self.group.head, said),
            b'-' => put_line(&mut self.group.tail, said),
            b'>' => self.say(said),
            b'?' => self.say_of_each(said),
            b'&' => self.add_often(said),
            b'\\' => self.add_line(rest),
            _ => self.add_line(line),
        }
    }

    /// Begins a group.
    fn begin_group(&mut self, name: &[u8]) -> Result<(), NoMemory> {
        self.end_group()?;
        self.group = Group::new(self.alloc);
        put(&mut self.group.name, name)
    }

    /// Ends a group.
    fn end_group(&mut self) -> Result<(), NoMemory> {
        self.end_trial()?;
        self.score.end_group(&self.group.name)
    }

    /// The texts from here on are run by these words.
    fn run_by(&mut self, words: &[u8]) -> Result<(), NoMemory> {
        self.end_trial()?;
        self.group.how.clear();
        put(&mut self.group.how, words)
    }

    /// Adds a line of the answer.
    fn say(&mut self, line: &[u8]) -> Result<(), NoMemory> {
        self.is_said = true;
        if line.is_empty() {
            return Ok(());
        }
        put_line(&mut self.said, line)
    }

    /// From here on each line is a text by itself, with this answer.
    fn say_of_each(&mut self, line: &[u8]) -> Result<(), NoMemory> {
        self.end_trial()?;
        self.group.each.clear();
        put(&mut self.group.each, line)
    }

    /// Adds a line of the text.
    fn add_line(&mut self, line: &[u8]) -> Result<(), NoMemory> {
        if self.is_said {
            self.end_trial()?;
        }
        put_line(&mut self.text, line)?;
        if self.group.each.is_empty() {
            return Ok(());
        }
        self.is_said = true;
        put_line(&mut self.said, &self.group.each)
    }

    /// Adds what stands behind a number so many times, without a line end.
    fn add_often(&mut self, line: &[u8]) -> Result<(), NoMemory> {
        if self.is_said {
            self.end_trial()?;
        }
        let line = str::from_utf8(line).unwrap_or("");
        let (times, part) = line.split_once(' ').unwrap_or((line, ""));
        for _ in 0..times.parse::<u32>().unwrap_or(0) {
            put(&mut self.text, part.as_bytes())?;
        }
        Ok(())
    }

    /// Adds a file to the text.
    pub fn add_file(&mut self, file: &[u8]) -> Result<(), NoMemory> {
        if self.is_said {
            self.end_trial()?;
        }
        put(&mut self.text, file)
    }

    /// Runs the text, if its answer was said.
    fn end_trial(&mut self) -> Result<(), NoMemory> {
        if self.is_said {
            let whole = self.group.whole(self.alloc, &self.text)?;
            let came = self.answers.answer(self.alloc, &self.group.how, &whole)?;
            self.score.take(&self.group.name, &came, &self.said)?;
        }
        self.text.clear();
        self.said.clear();
        self.is_said = false;
        Ok(())
    }

    /// What the trials came to.
    pub fn finish(mut self) -> Result<Score, NoMemory> {
        self.end_group()?;
        let Script { score, .. } = self;
        Ok(score)
    }
}

fn push_line(to: &mut String, line: &str) -> Result<(), NoMemory> {
    to.push_str(line)?;
    to.push('\n')?;
    Ok(())
}

/// The lines of a repetition with this number in them.
fn numbered(alloc: Global, lines: &str, i: u32) -> Result<String, NoMemory> {
    let here = format!(in alloc; "{i}")?;
    let next = format!(in alloc; "{}", i.saturating_add(1))?;
    let lines = lines.replace(alloc, "<i>", here.as_str())?;
    let lines = lines.replace(alloc, "<j>", next.as_str())?;
    Ok(lines)
}
