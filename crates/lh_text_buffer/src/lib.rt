//! A text that is written part by part.
//!
//! Whoever writes a text of many parts asks once, at its end, whether there was memory for all of it.
#![tactic(auto)]

ghost use Rattle.std.specs.Prelude.{◌≡◌, ◌∷◌, [], ◌++◌, true, false, decimal, length, take, drop, reverse, IfOk, OnErr};
ghost use Rattle.lh_text_buffer.specs.Writing.{Writes};

use lh_types::memory::NoMemory;
use lh_types::text;
use std::alloc::Global;
use std::marker::Model;

/// A text to which parts are written, each behind the one before, until memory wants. From then on it is no longer whole, whatever is
/// written to it, and `finish` says so.
#[derive(Drop)]
pub struct Text {
    bytes: Vec<u8>,
    is_whole: bool,
}

impl Model for Text {
    ghost use Rattle.lh_text_buffer.specs.Writing.{Written};

    ghost Value = { Written };

    ghost view = { λ t. record { items = t.bytes.items; is_whole = t.is_whole } };
}

impl Text {
    /// A text without parts, which allocates nothing until the first is written.
    pub fn new(alloc: Global) -> Text
        ensures empty { result.items ≡ [] }
        ensures whole { result.is_whole ≡ true }
    {
        Text {
            bytes: Vec::new(alloc),
            is_whole: true,
        }
    }

    /// Writes these bytes behind what stands there.
    #[inline]
    pub fn put(&mut self, bytes: &[u8])
        ensures { Writes self.old self.new bytes.now }
    {
        if text::put(&mut self.bytes, bytes).is_err() {
            self.is_whole = false;
        }
    }

    /// Writes the decimal digits of a number, without a leading zero.
    pub fn put_number(&mut self, n: u64)
        ensures { Writes self.old self.new (decimal n) }
    {
        if text::put_number(&mut self.bytes, n).is_err() {
            self.is_whole = false;
        }
    }

    /// Writes the digits of a number as wide as the widest integer.
    pub fn put_integer(&mut self, n: u128)
        ensures { Writes self.old self.new (decimal n) }
    {
        if text::put_integer(&mut self.bytes, n).is_err() {
            self.is_whole = false;
        }
    }

    /// Writes one byte.
    #[inline]
    pub fn put_byte(&mut self, byte: u8)
        ensures { Writes self.old self.new (byte ∷ []) }
    {
        if self.bytes.push(byte).is_err() {
            self.is_whole = false;
        }
    }

    /// How many bytes stand there.
    pub fn len(&self) -> usize
        ensures { result ≡ length self.now.items }
    {
        self.bytes.len()
    }

    /// Turns the bytes from this place on round: the last of them stands first.
    pub fn reverse_from(&mut self, start: usize)
        ensures items { self.new.items ≡ take start self.old.items ++ reverse (drop start self.old.items) }
        ensures whole { self.new.is_whole ≡ self.old.is_whole }
    {
        if start < self.bytes.len() {
            self.bytes[start..].reverse();
        }
    }

    /// The bytes of the whole text, which stay its own; `NoMemory` where memory ran out at some part of it.
    pub fn as_bytes(&self) -> Result<&[u8], NoMemory>
        ensures whole { IfOk result (λ _. self.now.is_whole ≡ true) }
        ensures bytes { IfOk result (λ b. b.now ≡ self.now.items) }
        ensures short { OnErr result (self.now.is_whole ≡ false) }
    {
        if self.is_whole {
            Ok(&self.bytes)
        } else {
            Err(NoMemory)
        }
    }

    /// Takes all bytes away and keeps their room. A text that is not whole stays so.
    pub fn clear(&mut self)
        ensures empty { self.new.items ≡ [] }
        ensures whole { self.new.is_whole ≡ self.old.is_whole }
    {
        self.bytes.clear();
    }

    /// Gives the text up: it is no longer whole. For whoever has no memory for one of its parts.
    pub fn abandon(&mut self)
        ensures { self.new.is_whole ≡ false }
    {
        self.is_whole = false;
    }

    /// The bytes of the whole text; `NoMemory` where memory ran out at some part of it.
    pub fn finish(self) -> Result<Vec<u8>, NoMemory>
        ensures whole { IfOk result (λ _. self.is_whole ≡ true) }
        ensures bytes { IfOk result (λ v. v.items ≡ self.items) }
        ensures short { OnErr result (self.is_whole ≡ false) }
    {
        if self.is_whole {
            Ok(self.bytes)
        } else {
            Err(NoMemory)
        }
    }
}
