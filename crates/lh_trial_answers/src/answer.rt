//! The answer to a text, by the words by which it is run.
//!
//! | Words | The answer |
//! |---|---|
//! | `check`, `lower`, `simulate ..` | what the program writes by these words, and then its log; without the log where an instance ran away, which the trace says too |
//! | `run ..` | the code with which the program ends by the words behind it, what it writes, and then its log |
//! | `log ..` | as `run`, without the output |
//! | `size ..` | as `run`, with how many bytes the output has in place of it |
//! | `faults ..` | what the program leaves by the words behind it, and what it leaves where each call of a stream fails in turn, each of at most 50 bytes |
//! | `narrow HOLD PIECE ..` | as `run`, where the output holds HOLD bytes, and a call of a stream moves at most PIECE bytes |
//! | `long N ..` | by the words behind it on N bytes `!`: the code with which the program ends, and how many bytes of the source are left |
//! | `verify` | whether the file is well formed, or the first fault, without a name |
//! | `same` | whether the program writes the text as it is |
//! | `both simulate ..` | whether the lowered file shows what the file shows, by the same words |
//! | `print` | the canonical text of a text that need only read |
//! | `line N` | line N of the canonical text |
//! | `cut` | how many bytes of the text read when no more are there |
//! | `design TOP` | how many instances, signals and bits there are |
//! | `definition TOP N` | whether the first N frames are those of the definition; where not, both |
//! | `senses TOP N` | of the first N frames the instants, the activations so far, and the instances that sense each signal then |
//! | `watch TOP N A go N ..` | at most N frames with watchers that say a word at a frame; how the run ended, who is left, and the reports |
//!
//! Where a text does not read, is not well formed, or has no such top, the answer is what the program says of it.
use crate::design::{file_of, of_top};
use crate::faults::{each_fault, narrow, on_long_text};
use crate::program::{Program, Ran, SOUND, Streams};
use lh_print::print;
use lh_types::memory::NoMemory;
use lh_types::text::{put, put_number};
use std::alloc::Global;

/// The code with which the program ends where an instance ran away.
const RUNAWAY: u8 = 10;

/// More bytes than a file may have that `lower` writes.
const LONGEST: usize = 70_000_000;

/// The answer to a text.
pub fn answer<P: Program>(
    alloc: Global,
    program: &P,
    how: &[u8],
    text: &[u8],
) -> Result<Vec<u8>, NoMemory> {
    match str::from_utf8(how) {
        Ok(how) => answer_to(alloc, program, how, text),
        Err(_) => said(alloc, b"these words are no text\n"),
    }
}

fn answer_to<P: Program>(
    alloc: Global,
    program: &P,
    how: &str,
    text: &[u8],
) -> Result<Vec<u8>, NoMemory> {
    let (word, rest) = how.split_once(' ').unwrap_or((how, ""));
    match word {
        "check" | "lower" | "simulate" => shown(alloc, program, how, text),
        "run" => left(alloc, program, SOUND, rest, text),
        "log" => told(alloc, program, false, rest, text),
        "size" => told(alloc, program, true, rest, text),
        "faults" => each_fault(alloc, program, rest, text),
        "narrow" => {
            let (streams, rest) = narrow(rest);
            left(alloc, program, streams, rest, text)
        }
        "long" => on_long_text(alloc, program, rest),
        "verify" => verified(alloc, program, text),
        "same" => compared(alloc, program, text),
        "both" => beside_lowered(alloc, program, rest, text),
        "print" => printed(alloc, program, text),
        "line" => line_of(alloc, program, number(rest), text),
        "cut" => cut(alloc, text),
        "design" | "definition" | "senses" | "watch" => of_top(alloc, program, word, rest, text),
        _ => said(alloc, b"there are no such words\n"),
    }
}

/// The number that a word says, or 1.
pub fn number(word: &str) -> u32 {
    word.parse::<u32>().unwrap_or(1)
}

/// A line by itself.
pub fn said(alloc: Global, line: &[u8]) -> Result<Vec<u8>, NoMemory> {
    Ok(Vec::from_slice(alloc, line)?)
}

/// Whether two are the same.
fn said_alike(alloc: Global, alike: bool) -> Result<Vec<u8>, NoMemory> {
    said(alloc, if alike { b"the same\n" } else { b"another\n" })
}

/// What the program writes, and then its log.
pub fn shown<P: Program>(
    alloc: Global,
    program: &P,
    words: &str,
    text: &[u8],
) -> Result<Vec<u8>, NoMemory> {
    let ran = program.run(alloc, words, text, SOUND)?;
    let answer = shown_by(alloc, &ran);
    drop(ran);
    answer
}

fn shown_by(alloc: Global, ran: &Ran) -> Result<Vec<u8>, NoMemory> {
    let mut answer = Vec::from_slice(alloc, ran.out.written())?;
    if ran.code != RUNAWAY {
        put(&mut answer, ran.log.written())?;
    }
    Ok(answer)
}

/// The code with which the program ends, what it writes, and its log.
fn left<P: Program>(
    alloc: Global,
    program: &P,
    streams: Streams,
    words: &str,
    text: &[u8],
) -> Result<Vec<u8>, NoMemory> {
    let ran = program.run(alloc, words, text, streams)?;
    let answer = left_by(alloc, &ran);
    drop(ran);
    answer
}

fn left_by(alloc: Global, ran: &Ran) -> Result<Vec<u8>, NoMemory> {
    let mut answer = Vec::new(alloc);
    put_left(&mut answer, ran)?;
    Ok(answer)
}

fn put_left(to: &mut Vec<u8>, ran: &Ran) -> Result<(), NoMemory> {
    put(to, b"status ")?;
    put_number(to, ran.code as u64)?;
    put(to, b"\n")?;
    put(to, ran.out.written())?;
    put(to, b"log\n")?;
    put(to, ran.log.written())
}

/// The code with which the program ends, how many bytes it writes if that is asked for, and its log.
fn told<P: Program>(
    alloc: Global,
    program: &P,
    has_size: bool,
    words: &str,
    text: &[u8],
) -> Result<Vec<u8>, NoMemory> {
    let streams = Streams {
        hold: LONGEST,
        ..SOUND
    };
    let ran = program.run(alloc, words, text, streams)?;
    let mut answer = Vec::new(alloc);
    let is_put = put_told(&mut answer, has_size, &ran);
    drop(ran);
    is_put?;
    Ok(answer)
}

fn put_told(to: &mut Vec<u8>, has_size: bool, ran: &Ran) -> Result<(), NoMemory> {
    put(to, b"status ")?;
    put_number(to, ran.code as u64)?;
    if has_size {
        put(to, b", output ")?;
        put_number(to, ran.out.written().len() as u64)?;
    }
    put(to, b"\n")?;
    put(to, ran.log.written())
}

/// Whether a file is well formed.
fn verified<P: Program>(alloc: Global, program: &P, text: &[u8]) -> Result<Vec<u8>, NoMemory> {
    let ran = program.run(alloc, "check", text, SOUND)?;
    let answer = verdict_of(alloc, &ran);
    drop(ran);
    answer
}

/// What the program says of a file that it checks.
fn verdict_of(alloc: Global, ran: &Ran) -> Result<Vec<u8>, NoMemory> {
    if ran.code == 0 {
        return said(alloc, b"well formed\n");
    }
    match str::from_utf8(ran.log.written()) {
        Ok(line) => without_name(alloc, line),
        Err(_) => said(alloc, b"the log is no text\n"),
    }
}

/// A status line, without the name of a fault that stands behind its number.
fn without_name(alloc: Global, line: &str) -> Result<Vec<u8>, NoMemory> {
    match line.rsplit_once(' ') {
        Some((front, _)) if front.starts_with("unit ") => {
            Ok(format!(in alloc; "{front}\n")?.into_bytes())
        }
        _ => said(alloc, line.as_bytes()),
    }
}

/// Whether the program writes a text as it is.
fn compared<P: Program>(alloc: Global, program: &P, text: &[u8]) -> Result<Vec<u8>, NoMemory> {
    let ran = program.run(alloc, "check", text, SOUND)?;
    let alike = ran.out.written() == text;
    drop(ran);
    said_alike(alloc, alike)
}

/// Whether the lowered file shows what the file shows, where that is something.
fn beside_lowered<P: Program>(
    alloc: Global,
    program: &P,
    words: &str,
    text: &[u8],
) -> Result<Vec<u8>, NoMemory> {
    let lowered = program.run(alloc, "lower", text, SOUND)?;
    let alike = show_alike(alloc, program, words, text, lowered.out.written());
    drop(lowered);
    said_alike(alloc, alike?)
}

/// Whether two files show the same, where that is something.
fn show_alike<P: Program>(
    alloc: Global,
    program: &P,
    words: &str,
    text: &[u8],
    other: &[u8],
) -> Result<bool, NoMemory> {
    let one = program.run(alloc, words, text, SOUND)?;
    let alike = shows_this(alloc, program, words, other, &one);
    drop(one);
    alike
}

fn shows_this<P: Program>(
    alloc: Global,
    program: &P,
    words: &str,
    text: &[u8],
    one: &Ran,
) -> Result<bool, NoMemory> {
    let other = program.run(alloc, words, text, SOUND)?;
    let alike = are_alike(one, &other);
    drop(other);
    Ok(alike)
}

fn are_alike(one: &Ran, other: &Ran) -> bool {
    let shown = one.out.written();
    !shown.is_empty() && shown == other.out.written() && one.log.written() == other.log.written()
}

/// The canonical text of a text that reads. It has to be its own canonical text.
fn printed<P: Program>(alloc: Global, program: &P, text: &[u8]) -> Result<Vec<u8>, NoMemory> {
    let Some(once) = canonical(alloc, text)? else {
        return shown(alloc, program, "check", text);
    };
    let Some(twice) = canonical(alloc, &once)? else {
        return said(alloc, b"the canonical text does not read\n");
    };
    if twice.as_slice() != once.as_slice() {
        return said(alloc, b"the canonical text has another\n");
    }
    Ok(once)
}

/// The canonical text of a text, if it reads.
fn canonical(alloc: Global, text: &[u8]) -> Result<Option<Vec<u8>>, NoMemory> {
    match file_of(alloc, text) {
        Some(module) => {
            let text = print(alloc, &module);
            drop(module);
            Ok(Some(text?))
        }
        None => Ok(None),
    }
}

/// Whether a text reads.
fn reads(alloc: Global, text: &[u8]) -> bool {
    match file_of(alloc, text) {
        Some(module) => {
            drop(module);
            true
        }
        None => false,
    }
}

/// A line of the canonical text.
fn line_of<P: Program>(
    alloc: Global,
    program: &P,
    number: u32,
    text: &[u8],
) -> Result<Vec<u8>, NoMemory> {
    if !reads(alloc, text) {
        return shown(alloc, program, "check", text);
    }
    let printed = printed(alloc, program, text)?;
    let line = line_in(alloc, number, &printed);
    drop(printed);
    line
}

/// A line of a text.
fn line_in(alloc: Global, number: u32, text: &[u8]) -> Result<Vec<u8>, NoMemory> {
    let before = number.saturating_sub(1) as usize;
    let line = str::from_utf8(text)
        .unwrap_or("")
        .lines()
        .nth(before)
        .unwrap_or("there is no such line");
    Ok(format!(in alloc; "{line}\n")?.into_bytes())
}

/// How many bytes of the text read when no more are there.
fn cut(alloc: Global, text: &[u8]) -> Result<Vec<u8>, NoMemory> {
    let mut answer = Vec::new(alloc);
    for n in 0..text.len() + 1 {
        if let Some(front) = text.get(..n) {
            if reads(alloc, front) {
                put_length(&mut answer, n as u64)?;
            }
        }
    }
    Ok(answer)
}

fn put_length(to: &mut Vec<u8>, length: u64) -> Result<(), NoMemory> {
    put_number(to, length)?;
    put(to, b"\n")
}
