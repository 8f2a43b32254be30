//! Lists by comma.
ghost use Rattle.std.specs.Prelude.{◌≡◌, ◌<◌, ◌+◌, length, List, Option, Some};
ghost use Rattle.lh_unit.specs.Lexemes.{Lexeme};
ghost use Rattle.lh_read_pieces.specs.Found.{ReadsAsFound};
ghost use Rattle.lh_read_pieces.specs.Pieces.{parts_at, list_at, behind_at};

use crate::fault::ScanFault::{self, NotSpelled};
use crate::tokens::{NameText, Tokens};
use crate::types::ty;
use lh_types::list::ListOf;
use lh_types::ty::Ty;
use std::alloc::Global;

/// What may be a part of a list.
pub trait ListPart<'a>: Sized + Drop {
    ghost part_at: { List Lexeme → Option (Self × List Lexeme) };

    /// The part in front, and what follows it.
    fn part(alloc: Global, tokens: &Tokens<'a>) -> Result<(Self, Tokens<'a>), ScanFault>
        ensures { ReadsAsFound result (part_at tokens.now) };

    ghost shorter: { (ts : List Lexeme) → (a : Self) → (us : List Lexeme) → part_at ts ≡ Some (a, us) → length us < length ts };
}

/// Parts by comma before a closing mark, or none, and what follows them.
///
/// The mark is not taken; that it stands there is looked for only before the first part.
pub fn list<'a, P: ListPart<'a>>(
    alloc: Global,
    tokens: &Tokens<'a>,
    close: u8,
) -> Result<(ListOf<P>, Tokens<'a>), ScanFault>
    ensures { ReadsAsFound result (list_at P.part_at close tokens.now) }
{
    if tokens.punct(close).is_some() {
        return Ok((ListOf::new(alloc), tokens.copy()));
    }
    parts(alloc, tokens)
}

/// Parts with a comma before each, or none, and what follows them.
pub fn behind<'a, P: ListPart<'a>>(
    alloc: Global,
    tokens: &Tokens<'a>,
) -> Result<(ListOf<P>, Tokens<'a>), ScanFault>
    ensures { ReadsAsFound result (behind_at P.part_at tokens.now) }
{
    match tokens.punct(b',') {
        Some(rest) => parts(alloc, &rest),
        None => Ok((ListOf::new(alloc), tokens.copy())),
    }
}

/// One or more parts by comma, and what follows them.
pub fn parts<'a, P: ListPart<'a>>(
    alloc: Global,
    tokens: &Tokens<'a>,
) -> Result<(ListOf<P>, Tokens<'a>), ScanFault>
    ensures { ReadsAsFound result (parts_at P.part_at (length tokens.now) tokens.now) }
{
    let mut parts = ListOf::new(alloc);
    let mut rest = tokens.copy();
    loop {
        let (part, more) = P::part(alloc, &rest)?;
        parts.push(part)?;
        match more.punct(b',') {
            Some(next) => rest = next,
            None => return Ok((parts, more)),
        }
    }
}

/// A name behind `%`.
impl<'a> ListPart<'a> for NameText<'a> {
    ghost use Rattle.lh_read_pieces.specs.Pieces.{local_at};
    ghost use Rattle.lh_read_pieces.specs.Shorter.{local_part-shorter};

    ghost part_at = { local_at };

    fn part(alloc: Global, tokens: &Tokens<'a>) -> Result<(NameText<'a>, Tokens<'a>), ScanFault> {
        tokens.local().ok_or(NotSpelled)
    }

    ghost shorter = { local_part-shorter };
}

/// A type.
impl<'a> ListPart<'a> for Ty {
    ghost use Rattle.lh_read_pieces.specs.Types.{type_at};
    ghost use Rattle.lh_read_pieces.specs.Shorter.{type_part-shorter};

    ghost part_at = { type_at };

    fn part(alloc: Global, tokens: &Tokens<'a>) -> Result<(Ty, Tokens<'a>), ScanFault> {
        ty(alloc, tokens)
    }

    ghost shorter = { type_part-shorter };
}
