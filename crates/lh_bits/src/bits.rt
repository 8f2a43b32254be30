//! Packed lists of truth values, 64 in a word.
ghost use Rattle.std.specs.Prelude.{OnOk, OnErr, ◌++◌, ◌≡◌, ℕ, ◌+◌, ◌<◌, ◌≤◌, ◌^◌, ◌↔◌, length, replicate, false, Some, IfOk, IsTrue, slice_get, slice_set};
ghost use Rattle.lh_bits.specs.Flags.{flags};
ghost use Rattle.lh_types.specs.Bits.{number_bits, bits_number, differing};
ghost use Rattle.lh_types.specs.Parts.{bits_within, bits_with};
ghost use Rattle.lh_bits.specs.Packed.{IsPacked};

use crate::run::{copy_run, differing_run, grow, number_run, put_number_run, same_run};
use crate::word::{put_window, window};
use lh_types::memory::NoMemory;
use smallvec::{SmallVec, smallvec};
use std::alloc::Global;
use std::marker::Model;

/// A list of bits, fewer than 2^32 of them. Up to 128 lie in place, without memory of their own.
#[derive(Drop)]
pub struct Bits {
    words: SmallVec<u64, 2>,
    len: u32,
}

impl Model for Bits {
    ghost use Rattle.std.specs.Prelude.{Bool, List};
    ghost use Rattle.lh_bits.specs.Flags.{flags};
    ghost use Rattle.lh_bits.specs.Packed.{IsPacked};

    ghost Value = { List Bool };

    ghost view = { λ b. flags b.len 0 b.words.items };

    ghost invariant = { λ b. IsPacked b.len b.words.items };
}

impl Bits {
    /// This many bits, all 0.
    pub fn zeros(alloc: Global, len: u32) -> Result<Bits, NoMemory>
        ensures { IfOk result (λ b. b ≡ replicate len false) }
    {
        let words = smallvec![in alloc; 0; (len as usize).div_ceil(64)]?;
        Ok(Bits { words, len })
    }

    /// A list of the same bits, with memory of its own.
    pub fn copy(&self) -> Result<Bits, NoMemory>
        ensures { IfOk result (λ b. b ≡ self.now) }
    {
        let words = SmallVec::from_slice(*self.words.allocator(), self.words.as_slice())?;
        Ok(Bits {
            words,
            len: self.len,
        })
    }

    /// The `len` bits from bit `at` on, as a list of their own.
    pub fn part(&self, at: u32, len: u32) -> Result<Bits, NoMemory>
        requires { at + len ≤ length self.now }
        ensures { IfOk result (λ b. b ≡ bits_within at len self.now) }
    {
        let mut part = Bits::zeros(*self.words.allocator(), len)?;
        part.put_part(0, self, at, len);
        Ok(part)
    }

    /// There are fewer than 2^32 bits.
    pub(crate) fn is_short(&self)
        ensures { length self.now < 2 ^ 32 }
    {
        let _ = &self.len;
    }

    /// How many bits there are.
    pub fn len(&self) -> u32
        ensures { result ≡ length self.now }
    {
        self.len
    }

    /// The bits by 64 in a word, the first the lowest; the rest of the last word is 0.
    pub fn words(&self) -> &[u64]
        ensures packed { IsPacked (length self.now) result.now }
        ensures bits { flags (length self.now) 0 result.now ≡ self.now }
    {
        self.words.as_slice()
    }

    /// Bit `i`.
    pub fn get(&self, i: u32) -> bool
        requires { i < length self.now }
        ensures { slice_get self.now i ≡ Some result }
    {
        window(self.words.as_slice(), i, 1) == 1
    }

    /// Makes bit `i` the given one; all others stay.
    pub fn set(&mut self, i: u32, b: bool)
        requires { i < length self.old }
        ensures { self.new ≡ slice_set self.old i b }
    {
        put_window(self.words.as_mut_slice(), i, 1, u64::from(b));
    }

    /// The `len` bits from `lo` on become those of `from` from `at` on; all others stay.
    pub fn put_part(&mut self, lo: u32, from: &Bits, at: u32, len: u32)
        requires within { lo + len ≤ length self.old }
        requires from_within { at + len ≤ length from.now }
        ensures { self.new ≡ bits_with lo (bits_within at len from.now) self.old }
    {
        copy_run(
            self.words.as_mut_slice(),
            lo,
            from.words.as_slice(),
            at,
            len,
        );
    }

    /// Whether the `len` bits from `lo` on are those of `other`.
    pub fn same_part(&self, other: &Bits, lo: u32, len: u32) -> bool
        requires within { lo + len ≤ length self.now }
        requires other_within { lo + len ≤ length other.now }
        ensures { IsTrue result ↔ (bits_within lo len self.now ≡ bits_within lo len other.now) }
    {
        same_run(self.words.as_slice(), other.words.as_slice(), lo, len)
    }

    /// How many of the `len` bits from `lo` on differ from those of `other`.
    pub fn toggled(&self, other: &Bits, lo: u32, len: u32) -> u32
        requires within { lo + len ≤ length self.now }
        requires other_within { lo + len ≤ length other.now }
        ensures { result ≡ differing (bits_within lo len self.now) (bits_within lo len other.now) }
    {
        differing_run(self.words.as_slice(), other.words.as_slice(), lo, len)
    }

    /// The number of `width` bits from bit `lo` on, least significant first.
    pub fn int_at(&self, lo: u32, width: u32) -> u128
        requires narrow { width ≤ 128 }
        requires within { lo + width ≤ length self.now }
        ensures { result ≡ bits_number (bits_within lo width self.now) }
    {
        number_run(self.words.as_slice(), lo, width)
    }

    /// Adds the lowest `width` bits of the number at the end, least significant first; without
    /// memory the list stays as it was.
    pub fn push_int(&mut self, width: u32, number: u128) -> Result<(), NoMemory>
        requires { length self.old + width < 2 ^ 32 }
        ensures ok { OnOk result (self.new ≡ self.old ++ number_bits width number) }
        ensures err { OnErr result (self.new ≡ self.old) }
    {
        let len = self.len + width;
        grow(&mut self.words, (len as usize).div_ceil(64))?;
        put_number_run(self.words.as_mut_slice(), self.len, width, number);
        self.len = len;
        Ok(())
    }
}
