//! Bits that are to be written, and when.
ghost use Rattle.std.specs.Prelude.{◌≡◌, ◌<◌, ◌≤◌, ◌+◌, ◌^◌, [], ◌∷◌, ◌++◌, length, OnOk, OnErr, IfOk, Some, slice_get};
ghost use Rattle.lh_bits.specs.Writes.{numbered, bits_of, written, BitsWithin};

use crate::bit_run::BitRun;
use crate::bits::Bits;
use crate::mostly_one::MostlyOne;
use lh_time::Instant;
use lh_types::memory::NoMemory;
use std::alloc::Global;
use std::marker::Model;

/// A list of bits to be written: the number of a bit, and what it becomes. Bits in a row are kept as one run.
#[derive(Drop)]
pub struct BitWrites {
    runs: MostlyOne<BitRun>,
    len: usize,
}

impl Model for BitWrites {
    ghost use Rattle.std.specs.Prelude.{ℕ, Bool, List};
    ghost use Rattle.lh_bits.specs.Writes.{bits_of, AreCounted};

    ghost Value = { List (ℕ × Bool) };

    ghost view = { λ w. bits_of w.runs };

    ghost invariant = { λ w. AreCounted w.len w.runs };
}

impl BitWrites {
    /// An empty list, which takes no memory yet.
    pub fn new(alloc: Global) -> BitWrites
        ensures { result ≡ [] }
    {
        BitWrites {
            runs: MostlyOne::new(alloc),
            len: 0,
        }
    }

    /// How many bits are written.
    pub fn len(&self) -> usize
        ensures { result ≡ length self.now }
    {
        self.len
    }

    /// Write `k` in order, from 0.
    pub fn get(&self, k: usize) -> (u32, bool)
        requires { k < length self.now }
        ensures { slice_get self.now k ≡ Some result }
    {
        write_at(self.runs.as_slice(), k)
    }

    /// The writes as runs: the bits of one run after those of the run before.
    pub fn runs(&self) -> &[BitRun]
        ensures { bits_of result.now ≡ self.now }
    {
        self.runs.as_slice()
    }

    /// Adds a write at the end; when memory runs out the list stays as it was.
    pub fn push(&mut self, write: (u32, bool)) -> Result<(), NoMemory>
        ensures ok { OnOk result (self.new ≡ self.old ++ write ∷ []) }
        ensures err { OnErr result (self.new ≡ self.old) }
    {
        let (bit, value) = write;
        let bits = one_bit(self.runs.allocator(), value)?;
        self.push_run(bit, bits)
    }

    /// Adds writes of bits in a row at the end, from bit `lo` on; when memory runs out the list stays as it was.
    pub fn push_run(&mut self, lo: u32, bits: Bits) -> Result<(), NoMemory>
        requires { lo + length bits ≤ 2 ^ 32 }
        ensures ok { OnOk result (self.new ≡ self.old ++ numbered lo bits) }
        ensures err { OnErr result (self.new ≡ self.old) }
    {
        if bits.len() == 0 {
            return Ok(());
        }
        let Some(len) = self.len.checked_add(bits.len() as usize) else {
            return Err(NoMemory);
        };
        self.runs.push(BitRun { lo, bits })?;
        self.len = len;
        Ok(())
    }

    /// Writes the bits, one after another.
    pub fn set(&self, now: &mut Bits)
        requires { BitsWithin (length now.old) self.now }
        ensures { now.new ≡ written self.now now.old }
    {
        for run in self.runs.as_slice() {
            run.set(now);
        }
    }
}

/// One bit.
fn one_bit(alloc: Global, value: bool) -> Result<Bits, NoMemory>
    ensures { IfOk result (λ bits. bits ≡ value ∷ []) }
{
    let mut bits = Bits::zeros(alloc, 1)?;
    bits.set(0, value);
    Ok(bits)
}

/// Write `k` of what runs write.
fn write_at(runs: &[BitRun], k: usize) -> (u32, bool)
    requires { k < length (bits_of runs.now) }
    ensures { slice_get (bits_of runs.now) k ≡ Some result }
{
    let mut rest = k;
    for run in runs {
        let n = run.bits.len() as usize;
        if rest < n {
            let i = rest as u32;
            return (run.lo + i, run.bits.get(i));
        }
        rest -= n;
    }
    unreachable!()
}

/// A list of instants with the bits to be written when each is due.
pub type DueWrites = MostlyOne<(Instant, BitWrites)>;
