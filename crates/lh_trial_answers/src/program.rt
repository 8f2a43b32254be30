//! Runs of the program in memory, which a caller provides.
use lh_io::memory::MemSink;
use lh_types::memory::NoMemory;
use std::alloc::Global;

/// The most bytes of an output and of a log.
pub const ROOM: usize = 2_000_000;

/// The streams of a run: which of their calls fail, and how many bytes a call moves.
#[derive(Clone, Copy)]
pub struct Streams {
    /// The number of the call of the source that fails, from 1; 0 is none.
    pub read: u64,
    /// The number of the call of the output that fails.
    pub write: u64,
    /// The number of the call of the log that fails.
    pub log: u64,
    /// How many bytes a call moves at most.
    pub piece: usize,
    /// How many bytes the output takes in all.
    pub hold: usize,
}

/// Streams of which no call fails, and of which each call moves all that there is.
pub const SOUND: Streams = Streams {
    read: 0,
    write: 0,
    log: 0,
    piece: ROOM,
    hold: ROOM,
};

/// What a run leaves: the code of its status, its output, its log, how many calls failed, how many bytes of the source were not taken, and
/// how many watchers there are.
#[derive(Drop)]
pub struct Ran {
    pub code: u8,
    pub out: MemSink,
    pub log: MemSink,
    pub faults: u64,
    pub unread: usize,
    pub watchers: usize,
}

/// What runs the program.
pub trait Program {
    /// A run by the words of a command line on a text.
    fn run(
        &self,
        alloc: Global,
        words: &str,
        text: &[u8],
        streams: Streams,
    ) -> Result<Ran, NoMemory>;
}

/// A sink that holds `hold` bytes, of which a call takes at most `piece`; the call of this number fails.
pub fn sink(alloc: Global, hold: usize, piece: usize, fails: u64) -> Result<MemSink, NoMemory> {
    let fails = Vec::from_slice(alloc, &[fails])?;
    Ok(MemSink::new(alloc, hold, piece.max(1), fails)?)
}
