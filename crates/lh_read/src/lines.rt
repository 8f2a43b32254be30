//! The lines of a text, one after another.
ghost use Rattle.std.specs.Prelude.{◌≡◌, ◌≤◌, ◌<◌, ◌∷◌, length, OnOk};
ghost use Rattle.lh_unit.specs.Lines.{lines_of};
ghost use Rattle.lh_read.specs.Building.{TakesOrIsBad};
ghost use Rattle.lh_read.specs.InOrder.{ReaderIsInOrder, state_of};

use crate::faults::LineFault;
use crate::reader::Reader;
use lh_read_lines::item;
use lh_read_pieces::tokens::Tokens;
use memchr::memchr;
use std::alloc::Global;

/// The first line without its end, and what follows it.
pub fn next_line(text: &[u8]) -> (&[u8], &[u8])
    requires { 0 < length text.now }
    ensures lines { lines_of text.now ≡ result.0.now ∷ lines_of result.1.now }
    ensures shorter { length result.1.now < length text.now }
    ensures within { length result.0.now ≤ length text.now }
{
    match memchr(b'\n', text) {
        Some(i) => (&text[..i], &text[i + 1..]),
        None => (text, &text[text.len()..]),
    }
}

/// Reads one line.
pub fn read_line(alloc: Global, reader: &mut Reader, text: &[u8]) -> Result<(), LineFault>
    requires short { length text.now ≤ 67108864 }
    requires order { ReaderIsInOrder reader.old }
    ensures step { TakesOrIsBad result (state_of reader.old) text.now (state_of reader.new) }
    ensures order { OnOk result (ReaderIsInOrder reader.new) }
{
    let tokens = Tokens::of(text);
    let said = item(alloc, &tokens)?;
    reader.take(said)
}
