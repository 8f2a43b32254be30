//! Reads one line: the item that its tokens spell, or that they spell none.
#![tactic(auto)]

ghost use Rattle.std.specs.Prelude.{◌≡◌, IfOk, Some, None, Err};
ghost use Rattle.lh_read_pieces.specs.declared.fault.ScanFault.TheVariants as fault;
ghost use Rattle.lh_read_lines.specs.SpelledBy.{SpelledBy};
ghost use Rattle.lh_read_phrases.specs.SyntaxOf.{item_of};

mod headers;
mod insts;
mod line;

use crate::line::line_item;
use lh_read_phrases::syntax::LineSyntax;
use lh_read_pieces::fault::ScanFault;
use lh_read_pieces::tokens::Tokens;
use std::alloc::Global;

/// What the tokens of a line say, with names where they stand in the line: the one item that they spell, or `NotSpelled`
/// where they spell none. The answer speaks of this line alone, and not of where it may stand.
pub fn item<'a>(alloc: Global, tokens: &Tokens<'a>) -> Result<LineSyntax<'a>, ScanFault>
    ensures said { IfOk result (λ r. SpelledBy tokens.now (Some (item_of r))) }
    ensures nothing { result ≡ Err fault.NotSpelled → SpelledBy tokens.now None }
{
    line_item(alloc, tokens)
}
