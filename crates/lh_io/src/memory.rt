//! A source and a sink in memory, whose calls fail where they are told to.
ghost use Rattle.std.specs.Prelude.{◌≡◌, ◌≤◌, ◌<◌, ◌-◌, ◌++◌, ◌↔◌, ◌⊎◌, [], Some, Ok, IfOk, OnErr, IsErr, Contains, length, take, drop, min};
ghost use Rattle.lh_types.specs.Raised.{raised};
ghost use Rattle.lh_io.specs.Streams.{Rose, FillsFront, Appends};

use crate::stream::{Failed, Sink, Source};
use lh_types::memory::NoMemory;
use std::alloc::Global;
use std::marker::Model;

/// A source over bytes in memory. It gives at most `piece` bytes a read, and the reads of the numbers in `fails`,
/// counted from 1, fail.
#[derive(Drop)]
pub struct MemSource {
    bytes: Vec<u8>,
    at: usize,
    piece: usize,
    fails: Vec<u64>,
    calls: u64,
    taken: u64,
    faults: u64,
}

impl Model for MemSource {
    ghost use Rattle.std.specs.Prelude.{◌≤◌, ◌<◌, drop, vec_len};
    ghost use Rattle.lh_io.specs.Memory.{ByteSource};

    ghost Value = { ByteSource };

    ghost view = { λ s. record { left = drop s.at s.bytes.items; piece = s.piece; fails = s.fails.items; calls = s.calls; taken = s.taken; faults = s.faults } };

    ghost invariant = { λ s. (s.at ≤ vec_len s.bytes) × (0 < s.piece) };
}

impl MemSource {
    /// A source of these bytes, from which nothing was taken yet.
    pub fn new(bytes: Vec<u8>, piece: usize, fails: Vec<u64>) -> MemSource
        requires { 0 < piece }
        ensures { result ≡ record { left = bytes.items; piece = piece; fails = fails.items; calls = 0; taken = 0; faults = 0 } }
    {
        MemSource {
            bytes,
            at: 0,
            piece,
            fails,
            calls: 0,
            taken: 0,
            faults: 0,
        }
    }

    /// How many reads failed, at most 2^64 - 1.
    pub fn faults(&self) -> u64
        ensures { result ≡ self.now.faults }
    {
        self.faults
    }

    /// The bytes that no read has taken yet.
    pub fn left(&self) -> &[u8]
        ensures { result.now ≡ self.now.left }
    {
        &self.bytes[self.at..]
    }
}

impl Source for MemSource {
    ghost left = { λ s. Some s.left };

    ghost taken = { λ s. s.taken };

    ghost faults = { λ s. s.faults };

    fn read(&mut self, room: &mut [u8]) -> Result<usize, Failed>
        ensures within { IfOk result (λ n. n ≤ length room.old) }
        ensures bytes { IfOk result (λ n. FillsFront self.old.left (Some self.new.left) room.old room.new n) }
        ensures counted { IfOk result (λ n. self.new.taken ≡ raised self.old.taken n) }
        ensures end { result ≡ Ok 0 → 0 < length room.old → self.old.left ≡ [] }
        ensures failed { OnErr result ((Some self.new.left ≡ Some self.old.left) × (self.new.taken ≡ self.old.taken)) }
        ensures rose { OnErr result (Rose self.old.faults self.new.faults) }
        ensures never_fall { self.old.faults ≤ self.new.faults }

        // Which reads fail, how many bytes the others give, and all that changes.
        ensures fails { IsErr result ↔ Contains self.old.fails (raised self.old.calls 1) }
        ensures amount { IfOk result (λ n. n ≡ min self.old.piece (min (length room.old) (length self.old.left))) }
        ensures given { IfOk result (λ n. self.new ≡ record self.old { left = drop n self.old.left; calls = raised self.old.calls 1; taken = raised self.old.taken n }) }
        ensures fault { OnErr result (self.new ≡ record self.old { calls = raised self.old.calls 1; faults = raised self.old.faults 1 }) }
    {
        self.calls = self.calls.saturating_add(1);
        if self.fails.contains(&self.calls) {
            self.faults = self.faults.saturating_add(1);
            return Err(Failed);
        }
        let n = self.piece.min(room.len()).min(self.bytes.len() - self.at);
        room[..n].copy_from_slice(&self.bytes[self.at..self.at + n]);
        self.at += n;
        self.taken = self.taken.saturating_add(n as u64);
        Ok(n)
    }
}

/// A sink into memory, which holds a number of bytes from the start. It takes at most `piece` bytes a write,
/// and the writes of the numbers in `fails`, counted from 1, fail; so does a write into a sink that is full.
#[derive(Drop)]
pub struct MemSink {
    bytes: Vec<u8>,
    hold: usize,
    piece: usize,
    fails: Vec<u64>,
    calls: u64,
    faults: u64,
}

impl Model for MemSink {
    ghost use Rattle.std.specs.Prelude.{◌≤◌, ◌<◌, vec_len, vec_capacity};
    ghost use Rattle.lh_io.specs.Memory.{ByteSink};

    ghost Value = { ByteSink };

    ghost view = { λ s. record { written = s.bytes.items; hold = s.hold; piece = s.piece; fails = s.fails.items; calls = s.calls; faults = s.faults } };

    ghost invariant = { λ s. (vec_len s.bytes ≤ s.hold) × (s.hold ≤ vec_capacity s.bytes) × (0 < s.piece) };
}

impl MemSink {
    /// An empty sink with room for `hold` bytes; its writes take no memory.
    pub fn new(
        alloc: Global,
        hold: usize,
        piece: usize,
        fails: Vec<u64>,
    ) -> Result<MemSink, NoMemory>
        requires { 0 < piece }
        ensures { IfOk result (λ s. s ≡ record { written = []; hold = hold; piece = piece; fails = fails.items; calls = 0; faults = 0 }) }
    {
        let bytes = Vec::with_capacity(alloc, hold)?;
        Ok(MemSink {
            bytes,
            hold,
            piece,
            fails,
            calls: 0,
            faults: 0,
        })
    }

    /// How many writes failed, at most 2^64 - 1.
    pub fn faults(&self) -> u64
        ensures { result ≡ self.now.faults }
    {
        self.faults
    }

    /// The bytes that were written.
    pub fn written(&self) -> &[u8]
        ensures { result.now ≡ self.now.written }
    {
        self.bytes.as_slice()
    }
}

impl Sink for MemSink {
    ghost written = { λ s. Some s.written };

    ghost faults = { λ s. s.faults };

    fn write(&mut self, piece: &[u8]) -> Result<usize, Failed>
        ensures within { IfOk result (λ n. n ≤ length piece.now) }
        ensures progress { IfOk result (λ n. 0 < length piece.now → 0 < n) }
        ensures bytes { IfOk result (λ n. Appends (Some self.old.written) (Some self.new.written) (take n piece.now)) }
        ensures failed { OnErr result (Some self.new.written ≡ Some self.old.written) }
        ensures rose { OnErr result (Rose self.old.faults self.new.faults) }
        ensures never_fall { self.old.faults ≤ self.new.faults }

        // Which writes fail, how many bytes the others take, and all that changes.
        ensures fails { IsErr result ↔ (Contains self.old.fails (raised self.old.calls 1) ⊎ ((0 < length piece.now) × (length self.old.written ≡ self.old.hold))) }
        ensures amount { IfOk result (λ n. n ≡ min self.old.piece (min (length piece.now) (self.old.hold - length self.old.written))) }
        ensures taken { IfOk result (λ n. self.new ≡ record self.old { written = self.old.written ++ take n piece.now; calls = raised self.old.calls 1 }) }
        ensures fault { OnErr result (self.new ≡ record self.old { calls = raised self.old.calls 1; faults = raised self.old.faults 1 }) }
    {
        self.calls = self.calls.saturating_add(1);
        if self.fails.contains(&self.calls) {
            self.faults = self.faults.saturating_add(1);
            return Err(Failed);
        }
        if piece.len() > 0 && self.bytes.len() == self.hold {
            self.faults = self.faults.saturating_add(1);
            return Err(Failed);
        }
        let n = self
            .piece
            .min(piece.len())
            .min(self.hold - self.bytes.len());
        match self.bytes.extend_from_slice(&piece[..n]) {
            Ok(()) => Ok(n),
            Err(_) => unreachable!(),
        }
    }
}
