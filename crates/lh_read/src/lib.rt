//! Reads the text of a file into a module.
//!
//! `read` goes line by line: the tokens of a line, what they say, and the module that takes it.
#![tactic(auto)]

ghost use Rattle.std.specs.Prelude.{◌≡◌, ◌≤◌, ℕ, List, length, IfOk, IfErr};
ghost use Rattle.lh_unit.specs.Contents.{ItemText};
ghost use Rattle.lh_unit.specs.Arena.{contents};
ghost use Rattle.lh_unit.specs.Reads.{Reads};
ghost use Rattle.lh_read.specs.Mentions.{EachNamed};
ghost use Rattle.lh_read.specs.Reading.{ModuleOrNoMemory, NamesFirstFault, ModuleOrFault, ReadsOrIsBad, text_fault};

mod faults;
mod ids;
mod insts;
mod known;
mod lines;
mod places;
mod reader;
mod taken;
mod units;

use crate::faults::LineFault;
use crate::lines::{next_line, read_line};
use crate::reader::Reader;
use lh_unit::module::Module;
use std::alloc::Global;
use thiserror::Error;

/// Why a text is not read: its first faulty line, counted from 1, with its first fault.
#[derive(Clone, Copy, Debug, PartialEq, Eq, Error)]
pub enum TextFault {
    /// The line spells nothing in its place; or it is the line after the last, and a unit is open there.
    #[error("line {0}: syntax")]
    Syntax(u32),
    /// The line is the 65,537th instruction of its unit.
    #[error("line {0}: unit too large")]
    UnitTooLarge(u32),
    /// The line defines a name that is defined already, or a unit `@llhd.assert`.
    #[error("line {0}: duplicate name")]
    DuplicateName(u32),
    /// Memory ran out.
    #[error("out of memory")]
    OutOfMemory,
}

/// A fault of the line of this number.
fn fault_at(number: u32, fault: LineFault) -> TextFault
    ensures { result ≡ text_fault number fault }
{
    match fault {
        LineFault::Syntax => TextFault::Syntax(number),
        LineFault::UnitTooLarge => TextFault::UnitTooLarge(number),
        LineFault::DuplicateName => TextFault::DuplicateName(number),
        LineFault::OutOfMemory => TextFault::OutOfMemory,
    }
}

/// Reads the text of a file, of at most 64 MiB, into a module.
///
/// A file is a list of lines, each ended by byte 10, and each line says at most one item. The answer is the module of
/// these items, or the first faulty line; `OutOfMemory` says nothing of the text.
pub fn read(alloc: Global, text: &[u8]) -> Result<Module, TextFault>
    requires { length text.now ≤ 67108864 }
    // What is read reads so.
    ensures ok { IfOk result (λ m. Reads text.now (contents m)) }
    // What reads is read, unless memory runs out.
    ensures only { (items : List ItemText) → Reads text.now items → ModuleOrNoMemory result items }
    // A fault names the first faulty line.
    ensures fault { IfErr result (λ e. NamesFirstFault e text.now) }
    // The module has no entry but those that some line names.
    ensures named { IfOk result EachNamed }
{
    read_exact(alloc, text)
}

/// Reads the text of a file, or names its first faulty line.
fn read_exact(alloc: Global, text: &[u8]) -> Result<Module, TextFault>
    requires { length text.now ≤ 67108864 }
    ensures reads { ModuleOrFault result text.now }
    ensures named { IfOk result EachNamed }
{
    let mut reader = Reader::new(alloc);
    let mut rest = text;
    let mut number: u32 = 1;
    while !rest.is_empty() {
        let (first, more) = next_line(rest);
        if let Err(fault) = read_line(alloc, &mut reader, first) {
            return Err(fault_at(number, fault));
        }
        rest = more;
        number += 1;
    }
    if reader.place.is_inside() {
        return Err(TextFault::Syntax(number));
    }
    Ok(reader.resolver.module)
}

/// Every text reads as exactly one list of items, or has exactly one first faulty line, and never both.
pub fn reading_law()
    ensures { (text : List ℕ) → ReadsOrIsBad text }
{}
