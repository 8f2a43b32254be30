//! Sources and sinks over the readers and writers of std. To whoever is generic in sources and sinks they tell nothing of their bytes:
//! a source counts those that it took, and both count faults. Of a reader or a writer whose bytes are known, what goes through is told
//! all the same: nothing is lost, repeated or made up, and a failure is no end.
ghost use Rattle.std.specs.Prelude.{◌≡◌, ◌≤◌, ◌<◌, None, IfOk, OnErr, length};
ghost use Rattle.std.specs.Io.KnownBytes.{ReadConsumes, WriteAppends};
ghost use Rattle.lh_types.specs.Raised.{raised};
ghost use Rattle.lh_io.specs.Streams.{Rose};

use crate::stream::{Failed, Sink, Source};
use std::io::{Read, Write};

/// A source over a reader of std.
#[derive(Drop)]
pub struct StdSource<R> {
    inner: R,
    taken: u64,
    faults: u64,
}

impl<R: Read> StdSource<R> {
    /// A source that reads from `inner`; both its counts are 0.
    pub fn new(inner: R) -> StdSource<R>
        ensures taken { ⟦<StdSource<R> as Source>⟧.taken result ≡ 0 }
        ensures faults { ⟦<StdSource<R> as Source>⟧.faults result ≡ 0 }
    {
        StdSource {
            inner,
            taken: 0,
            faults: 0,
        }
    }

    /// Reads once, and counts the bytes that came or the fault.
    fn take(&mut self, room: &mut [u8]) -> Result<usize, Failed>
        ensures told { ReadConsumes (R.remaining self.old.inner) (R.remaining self.new.inner) result room.new }
        ensures within { IfOk result (λ n. n ≤ length room.old) }
        ensures counted { IfOk result (λ n. self.new.taken ≡ raised self.old.taken n) }
        ensures failed { OnErr result (self.new.taken ≡ self.old.taken) }
        ensures rose { OnErr result (Rose self.old.faults self.new.faults) }
        ensures never_fall { self.old.faults ≤ self.new.faults }
    {
        match self.inner.read(room) {
            Ok(n) => {
                self.taken = self.taken.saturating_add(n as u64);
                Ok(n)
            }
            Err(_) => {
                self.faults = self.faults.saturating_add(1);
                Err(Failed)
            }
        }
    }
}

impl<R: Read> Source for StdSource<R> {
    ghost left = { λ _. None };

    ghost taken = { λ s. s.taken };

    ghost faults = { λ s. s.faults };

    fn read(&mut self, room: &mut [u8]) -> Result<usize, Failed> {
        self.take(room)
    }
}

/// A sink over a writer of std. A writer that takes nothing of a piece that is not empty counts as a fault.
#[derive(Drop)]
pub struct StdSink<W> {
    inner: W,
    faults: u64,
}

impl<W: Write> StdSink<W> {
    /// A sink that writes to `inner`; its count of faults is 0.
    pub fn new(inner: W) -> StdSink<W>
        ensures { ⟦<StdSink<W> as Sink>⟧.faults result ≡ 0 }
    {
        StdSink { inner, faults: 0 }
    }

    /// Writes once, and counts the fault where the writer fails or takes nothing of a piece that is not empty.
    fn put(&mut self, piece: &[u8]) -> Result<usize, Failed>
        ensures told { WriteAppends (W.contents self.old.inner) (W.contents self.new.inner) result piece.now }
        ensures within { IfOk result (λ n. n ≤ length piece.now) }
        ensures progress { IfOk result (λ n. 0 < length piece.now → 0 < n) }
        ensures rose { OnErr result (Rose self.old.faults self.new.faults) }
        ensures never_fall { self.old.faults ≤ self.new.faults }
    {
        match self.inner.write(piece) {
            Ok(n) if n > 0 || piece.is_empty() => Ok(n),
            _ => {
                self.faults = self.faults.saturating_add(1);
                Err(Failed)
            }
        }
    }
}

impl<W: Write> Sink for StdSink<W> {
    ghost written = { λ _. None };

    ghost faults = { λ s. s.faults };

    fn write(&mut self, piece: &[u8]) -> Result<usize, Failed> {
        self.put(piece)
    }
}
