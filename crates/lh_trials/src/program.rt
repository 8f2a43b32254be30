//! Runs of the program in memory.
use lh_io::memory::{MemSink, MemSource};
use lh_run::top::run;
use lh_trial_answers::program::{Program, ROOM, Ran, Streams, sink};
use lh_types::list::{ByteList, TextList};
use lh_types::memory::NoMemory;
use lh_watch::builtin::{Asserts, Toggles, UntilFail};
use lh_watch::watcher::Watcher;
use std::alloc::Global;

/// The program with one watcher of each kind that comes with it.
#[derive(Drop)]
pub struct InMemory;

impl Program for InMemory {
    fn run(
        &self,
        alloc: Global,
        words: &str,
        text: &[u8],
        streams: Streams,
    ) -> Result<Ran, NoMemory> {
        let words = words_of(alloc, words)?;
        let text = Vec::from_slice(alloc, text)?;
        let fails = Vec::from_slice(alloc, &[streams.read])?;
        let mut src = MemSource::new(text, streams.piece.max(1), fails);
        let mut out = sink(alloc, streams.hold, streams.piece, streams.write)?;
        let mut log = sink(alloc, ROOM, streams.piece, streams.log)?;
        let (code, watchers) = run_on(alloc, &words, &mut src, &mut out, &mut log)?;
        Ok(left_by((code, watchers), &src, out, log))
    }
}

/// What a run leaves.
fn left_by((code, watchers): (u8, usize), src: &MemSource, out: MemSink, log: MemSink) -> Ran {
    let faults = src.faults().max(out.faults()).max(log.faults());
    Ran {
        code,
        out,
        log,
        faults,
        unread: src.left().len(),
        watchers,
    }
}

/// The code with which the program ends, and how many watchers it leaves.
fn run_on(
    alloc: Global,
    words: &TextList,
    src: &mut MemSource,
    out: &mut MemSink,
    log: &mut MemSink,
) -> Result<(u8, usize), NoMemory> {
    let mut watchers: Vec<Box<dyn Watcher>> = Vec::new(alloc);
    watchers.push(Box::new(alloc, Toggles::new())?)?;
    watchers.push(Box::new(alloc, Asserts::new())?)?;
    watchers.push(Box::new(alloc, UntilFail::new())?)?;
    let status = run(alloc, words, src, out, log, &mut watchers);
    Ok((status.code(), watchers.len()))
}

/// The words of a command line.
fn words_of(alloc: Global, words: &str) -> Result<TextList, NoMemory> {
    let mut list = TextList::new(alloc);
    for word in words.split_whitespace() {
        list.push(ByteList::from_vec(Vec::from_slice(alloc, word.as_bytes())?))?;
    }
    Ok(list)
}
