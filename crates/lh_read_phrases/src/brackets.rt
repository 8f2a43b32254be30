//! Arrays and structs, which brackets spell.
ghost use Rattle.std.specs.Prelude.{◌≡◌, IfOk, option_map, length, Some};
ghost use Rattle.lh_read_pieces.specs.Found.{FindsAs};
ghost use Rattle.lh_read_phrases.specs.SyntaxOf.{inst_of};
ghost use Rattle.lh_read_phrases.specs.Operations.{last_mark_at, fits_array, repeated_of, repeat_at, all_bare, element_of, array_at, bracket_at, fields_of, fits_tuple, tuple_at};

use crate::operands::typed;
use crate::syntax::{InstSyntax, Operand};
use lh_read_pieces::fault::ScanFault::{self, NotSpelled};
use lh_read_pieces::list::parts;
use lh_read_pieces::numbers::count;
use lh_read_pieces::tokens::Tokens;
use lh_types::few::FewOf;
use lh_types::memory::NoMemory;
use lh_types::op::Op;
use lh_types::ty::{Ty, TyFault, TyList};
use std::alloc::Global;

/// Whether the tokens are this one mark.
#[tactic(auto, unfolding(crate::specs::Operations::last_mark_at))]
pub fn last_mark(tokens: &Tokens, mark: u8) -> Option<()>
    ensures { result ≡ last_mark_at mark tokens.now }
{
    tokens.punct(mark)?.end()
}

/// Whether so many of a type are an array.
fn is_array(alloc: Global, len: u32, of: &Ty) -> Result<bool, NoMemory>
    ensures { IfOk result (λ b. b ≡ fits_array len (Some of.now)) }
{
    match Ty::array(alloc, len, of.copy()?) {
        Ok(_) => Ok(true),
        Err(TyFault::OutOfMemory) => Err(NoMemory),
        Err(_) => Ok(false),
    }
}

/// `N x D %a]`
#[tactic(auto, unfolding(crate::specs::Operations::repeat_at))]
fn repeat<'a>(alloc: Global, tokens: &Tokens<'a>) -> Result<InstSyntax<'a>, ScanFault>
    ensures { FindsAs inst_of result (repeat_at tokens.now) }
{
    let (len, rest) = count(tokens).ok_or(NotSpelled)?;
    let rest = rest.word(b"x").ok_or(NotSpelled)?;
    let (operand, rest) = typed(alloc, &rest)?;
    last_mark(&rest, b']').ok_or(NotSpelled)?;
    repeated(alloc, len, operand)
}

/// Whether so many of an operand are an array, where its type is there.
fn are_array(alloc: Global, len: u32, operand: &Operand) -> Result<bool, NoMemory>
    ensures { IfOk result (λ b. b ≡ fits_array len operand.now.ty) }
{
    match &operand.ty {
        Some(of) => is_array(alloc, len, of),
        None => Ok(false),
    }
}

/// The array of this many of an operand, where there is its type.
fn repeated<'a>(alloc: Global, len: u32, operand: Operand<'a>) -> Result<InstSyntax<'a>, ScanFault>
    ensures { FindsAs inst_of result (repeated_of len operand.entry) }
{
    if !are_array(alloc, len, &operand)? {
        drop(operand);
        return Err(NotSpelled);
    }
    let op = Op::Repeat(len);
    let args = FewOf::one(alloc, operand);
    Ok(InstSyntax::Pure { op, args })
}

/// Whether no operand has a type.
fn are_bare(operands: &[Operand]) -> bool
    ensures { result ≡ all_bare operands.now }
{
    operands.iter().all(|operand| operand.ty.is_none())
}

/// The type before the first operand, where it is the only one.
fn element<'b, 'a>(operands: &'b [Operand<'a>]) -> Option<&'b Ty>
    ensures { option_map (λ t. t.now) result ≡ element_of operands.now }
{
    let (first, rest) = operands.split_first()?;
    if are_bare(rest) {
        first.ty.as_ref()
    } else {
        None
    }
}

/// Whether these operands are the elements of an array.
fn are_elements(alloc: Global, operands: &[Operand]) -> Result<bool, NoMemory>
    ensures { IfOk result (λ b. b ≡ fits_array (length operands.now) (element_of operands.now)) }
{
    let Some(of) = element(operands) else {
        return Ok(false);
    };
    if operands.len() > u32::MAX as usize {
        return Ok(false);
    }
    is_array(alloc, operands.len() as u32, of)
}

/// `D %a, %b]`
#[tactic(auto, unfolding(crate::specs::Operations::array_at))]
fn array<'a>(alloc: Global, tokens: &Tokens<'a>) -> Result<InstSyntax<'a>, ScanFault>
    ensures { FindsAs inst_of result (array_at tokens.now) }
{
    let (args, rest) = parts(alloc, tokens)?;
    if last_mark(&rest, b']').is_none() || !are_elements(alloc, args.as_slice())? {
        drop(args);
        return Err(NotSpelled);
    }
    let op = Op::Array;
    let args = FewOf::from_list(args);
    Ok(InstSyntax::Pure { op, args })
}

/// An array, behind `[`.
#[tactic(auto, unfolding(crate::specs::Operations::bracket_at))]
pub fn bracket<'a>(alloc: Global, tokens: &Tokens<'a>) -> Result<InstSyntax<'a>, ScanFault>
    ensures { FindsAs inst_of result (bracket_at tokens.now) }
{
    match repeat(alloc, tokens) {
        Err(NotSpelled) => array(alloc, tokens),
        read => read,
    }
}

/// The types before the operands, where each has one.
fn fields(alloc: Global, mut operands: &[Operand]) -> Result<Option<TyList>, NoMemory>
    ensures { IfOk result (λ r. r ≡ fields_of operands.entry.now) }
{
    let mut fields = TyList::with_room(alloc, operands.len())?;
    while let [operand, rest @ ..] = operands {
        let Some(ty) = &operand.ty else {
            return Ok(None);
        };
        fields.push(ty.copy()?)?;
        operands = rest;
    }
    Ok(Some(fields))
}

/// Whether these operands are the fields of a struct.
fn are_fields(alloc: Global, operands: &[Operand]) -> Result<bool, NoMemory>
    ensures { IfOk result (λ b. b ≡ fits_tuple (fields_of operands.now)) }
{
    let Some(fields) = fields(alloc, operands)? else {
        return Ok(false);
    };
    match Ty::tuple(fields) {
        Ok(_) => Ok(true),
        Err(TyFault::OutOfMemory) => Err(NoMemory),
        Err(_) => Ok(false),
    }
}

/// A struct, behind `{`.
#[tactic(auto, unfolding(crate::specs::Operations::tuple_at))]
pub fn tuple<'a>(alloc: Global, tokens: &Tokens<'a>) -> Result<InstSyntax<'a>, ScanFault>
    ensures { FindsAs inst_of result (tuple_at tokens.now) }
{
    let (args, rest) = parts(alloc, tokens)?;
    if last_mark(&rest, b'}').is_none() || !are_fields(alloc, args.as_slice())? {
        drop(args);
        return Err(NotSpelled);
    }
    let op = Op::Tuple;
    let args = FewOf::from_list(args);
    Ok(InstSyntax::Pure { op, args })
}
