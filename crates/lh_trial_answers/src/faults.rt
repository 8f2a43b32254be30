//! Runs in which a call of a stream fails, each in turn.
use crate::program::{Program, ROOM, Ran, SOUND, Streams};
use lh_types::memory::NoMemory;
use lh_types::text::{put, put_number};
use std::alloc::Global;

/// How many bytes a call moves.
const PIECE: usize = 50;

/// The most calls of a stream that fail in turn.
const MOST: u64 = 200;

/// A stream of the program.
#[derive(Clone, Copy)]
enum Stream {
    Source,
    Output,
    Log,
}

impl Stream {
    fn name(self) -> &'static [u8] {
        match self {
            Stream::Source => b"source",
            Stream::Output => b"output",
            Stream::Log => b"log",
        }
    }

    /// Streams of which the call of this number fails.
    fn failing(self, call: u64) -> Streams {
        let sound = Streams {
            piece: PIECE,
            ..SOUND
        };
        match self {
            Stream::Source => Streams {
                read: call,
                ..sound
            },
            Stream::Output => Streams {
                write: call,
                ..sound
            },
            Stream::Log => Streams { log: call, ..sound },
        }
    }
}

/// What a run leaves where no call fails, and where each call of the source, of the output and of the log does.
pub fn each_fault<P: Program>(
    alloc: Global,
    program: &P,
    words: &str,
    text: &[u8],
) -> Result<Vec<u8>, NoMemory> {
    let whole = program.run(alloc, words, text, Stream::Log.failing(0))?;
    let answer = beside(alloc, program, (words, text), &whole);
    drop(whole);
    answer
}

/// The runs with faults beside the one without.
fn beside<P: Program>(
    alloc: Global,
    program: &P,
    of: (&str, &[u8]),
    whole: &Ran,
) -> Result<Vec<u8>, NoMemory> {
    let mut answer = Vec::from_slice(alloc, b"no fault")?;
    put_ran(&mut answer, whole, whole)?;
    for stream in [Stream::Source, Stream::Output, Stream::Log] {
        put_stream(alloc, program, of, whole, stream, &mut answer)?;
    }
    Ok(answer)
}

/// Puts what is left where each call of a stream fails, up to the first that the run does not make.
fn put_stream<P: Program>(
    alloc: Global,
    program: &P,
    (words, text): (&str, &[u8]),
    whole: &Ran,
    stream: Stream,
    to: &mut Vec<u8>,
) -> Result<(), NoMemory> {
    for call in 1..=MOST {
        let ran = program.run(alloc, words, text, stream.failing(call))?;
        let is_made = ran.faults > 0;
        let is_put = put_fault(to, stream, call, &ran, whole);
        drop(ran);
        is_put?;
        if !is_made {
            return Ok(());
        }
    }
    Ok(())
}

/// Puts what a run leaves in which this call of a stream failed; nothing where it was not made.
fn put_fault(
    to: &mut Vec<u8>,
    stream: Stream,
    call: u64,
    ran: &Ran,
    whole: &Ran,
) -> Result<(), NoMemory> {
    if ran.faults == 0 {
        return Ok(());
    }
    put(to, stream.name())?;
    put(to, b" ")?;
    put_number(to, call)?;
    put_ran(to, ran, whole)
}

/// Puts what a run leaves, its output by what it is of the whole one.
fn put_ran(to: &mut Vec<u8>, ran: &Ran, whole: &Ran) -> Result<(), NoMemory> {
    put(to, b": status ")?;
    put_number(to, ran.code as u64)?;
    put(to, b", output ")?;
    put(to, share(ran.out.written(), whole.out.written()))?;
    put(to, b", watchers ")?;
    put_number(to, ran.watchers as u64)?;
    put(to, b", log ")?;
    put_number(to, ran.log.written().len() as u64)?;
    put(to, b"\n")?;
    put(to, ran.log.written())?;
    let is_open = ran.log.written().last().is_some_and(|last| *last != b'\n');
    put(to, if is_open { b"\n" } else { b"" })
}

/// What an output is of the whole one.
fn share(part: &[u8], whole: &[u8]) -> &'static [u8] {
    if part == whole {
        b"whole"
    } else if part.is_empty() {
        b"empty"
    } else if whole.starts_with(part) {
        b"cut off"
    } else {
        b"another"
    }
}

/// Streams of which the output holds a number of bytes, and a call of each moves at most a number of bytes: `HOLD PIECE`, and the words behind them.
pub fn narrow(words: &str) -> (Streams, &str) {
    let (hold, rest) = words.split_once(' ').unwrap_or((words, ""));
    let (piece, rest) = rest.split_once(' ').unwrap_or((rest, ""));
    let streams = Streams {
        hold: hold.parse::<usize>().unwrap_or(ROOM).min(ROOM),
        piece: piece.parse::<usize>().unwrap_or(ROOM).min(ROOM),
        ..SOUND
    };
    (streams, rest)
}

/// The code with which a run ends on a text of this many bytes, which is none of the language, and how many of them are not taken.
pub fn on_long_text<P: Program>(
    alloc: Global,
    program: &P,
    words: &str,
) -> Result<Vec<u8>, NoMemory> {
    let (length, words) = words.split_once(' ').unwrap_or((words, ""));
    let length = length.parse::<usize>().unwrap_or(0).min(100_000_000);
    let text = vec![in alloc; b'!'; length]?;
    let ran = program.run(alloc, words, &text, SOUND)?;
    let answer = format!(in alloc; "status {}, unread {}\n", ran.code, ran.unread);
    drop(ran);
    Ok(answer?.into_bytes())
}
