//! The operations that have a word.
ghost use Rattle.std.specs.Prelude.{◌≡◌};
ghost use Rattle.lh_read_pieces.specs.Found.{FindsAs};
ghost use Rattle.lh_read_phrases.specs.SyntaxOf.{inst_of};
ghost use Rattle.lh_read_phrases.specs.Operations.{behind_number_at, one_number_at, two_numbers_at, numbered_at, word_op_at};

use crate::operands::columns;
use crate::syntax::InstSyntax;
use crate::words::Columns;
use lh_read_pieces::fault::ScanFault::{self, NotSpelled};
use lh_read_pieces::numbers::count;
use lh_read_pieces::tokens::Tokens;
use lh_types::op::Op;
use std::alloc::Global;

/// A comma and a number, and what follows them.
#[tactic(auto, unfolding(crate::specs::Operations::behind_number_at))]
fn behind_number<'a>(tokens: &Tokens<'a>) -> Option<(u32, Tokens<'a>)>
    ensures { result ≡ behind_number_at tokens.now }
{
    let rest = tokens.punct(b',')?;
    count(&rest)
}

/// The one number that ends the line.
#[tactic(auto, unfolding(crate::specs::Operations::one_number_at))]
fn one_number(tokens: &Tokens) -> Option<u32>
    ensures { result ≡ one_number_at tokens.now }
{
    let (k, rest) = behind_number(tokens)?;
    rest.end()?;
    Some(k)
}

/// The two numbers that end the line.
#[tactic(auto, unfolding(crate::specs::Operations::two_numbers_at))]
fn two_numbers(tokens: &Tokens) -> Option<(u32, u32)>
    ensures { result ≡ two_numbers_at tokens.now }
{
    let (at, rest) = behind_number(tokens)?;
    let len = one_number(&rest)?;
    Some((at, len))
}

/// The operation with the numbers that end the line, in place of those it has.
fn numbered(op: Op, tokens: &Tokens) -> Option<Op>
    ensures { result ≡ numbered_at op tokens.now }
{
    match op {
        Op::Extf(_) => Some(Op::Extf(one_number(tokens)?)),
        Op::Insf(_) => Some(Op::Insf(one_number(tokens)?)),
        Op::Exts { .. } => {
            let (at, len) = two_numbers(tokens)?;
            Some(Op::Exts { at, len })
        }
        Op::Inss { .. } => {
            let (at, len) = two_numbers(tokens)?;
            Some(Op::Inss { at, len })
        }
        _ => {
            tokens.end()?;
            Some(op)
        }
    }
}

/// An operation, behind its word.
#[tactic(auto, unfolding(crate::specs::Operations::word_op_at))]
pub fn word_op<'a>(
    alloc: Global,
    op: Op,
    written: Columns,
    tokens: &Tokens<'a>,
) -> Result<InstSyntax<'a>, ScanFault>
    ensures { FindsAs inst_of result (word_op_at op written tokens.now) }
{
    let (args, rest) = columns(alloc, written, tokens)?;
    let op = numbered(op, &rest).ok_or(NotSpelled)?;
    Ok(InstSyntax::Pure { op, args })
}
