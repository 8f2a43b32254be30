//! The operands in front of the tokens, and the other parts of which lists are made.
ghost use Rattle.std.specs.Prelude.{◌≡◌, ◌++◌, ◌∷◌, [], IfOk};
ghost use Rattle.lh_read_pieces.specs.Found.{ReadsAsFound};
ghost use Rattle.lh_read_phrases.specs.Operands.{typed_at, bare_at, free_at, one_at, next_bare_at, next_free_at, two_at, and_free_at, shift_at, columns_at, maybe_at, trigger_at, edge_at, param_at};

use crate::syntax::{EdgeSyntax, Operand, Param, TriggerSyntax};
use crate::words::{Columns, find_mode};
use lh_read_pieces::fault::ScanFault::{self, NotSpelled};
use lh_read_pieces::list::ListPart;
use lh_read_pieces::tokens::{NameText, Tokens};
use lh_read_pieces::types::ty;
use lh_types::few::FewOf;
use lh_types::list::ListOf;
use lh_types::memory::NoMemory;
use std::alloc::Global;

/// Operands, and what follows them.
pub type OperandsAt<'a> = Result<(ListOf<Operand<'a>>, Tokens<'a>), ScanFault>;

/// The operands of an operation, and what follows them.
pub type FewOperandsAt<'a> = Result<(FewOf<Operand<'a>>, Tokens<'a>), ScanFault>;

/// `T %a`, and what follows it.
#[tactic(auto, unfolding(crate::specs::Operands::typed_at))]
pub fn typed<'a>(alloc: Global, tokens: &Tokens<'a>) -> Result<(Operand<'a>, Tokens<'a>), ScanFault>
    ensures { ReadsAsFound result (typed_at tokens.now) }
{
    let (ty, rest) = ty(alloc, tokens)?;
    let (value, rest) = rest.local().ok_or(NotSpelled)?;
    let ty = Some(ty);
    Ok((Operand { value, ty }, rest))
}

/// `%a`, and what follows it.
#[tactic(auto, unfolding(crate::specs::Operands::bare_at))]
pub fn bare<'a>(tokens: &Tokens<'a>) -> Option<(Operand<'a>, Tokens<'a>)>
    ensures { result ≡ bare_at tokens.now }
{
    let (value, rest) = tokens.local()?;
    Some((Operand { value, ty: None }, rest))
}

/// `?T %a`, and what follows it.
#[tactic(auto, unfolding(crate::specs::Operands::free_at))]
pub fn free<'a>(alloc: Global, tokens: &Tokens<'a>) -> Result<(Operand<'a>, Tokens<'a>), ScanFault>
    ensures { ReadsAsFound result (free_at tokens.now) }
{
    if let Some(operand) = bare(tokens) {
        return Ok(operand);
    }
    typed(alloc, tokens)
}

impl<'a> ListPart<'a> for Operand<'a> {
    ghost use Rattle.lh_read_phrases.specs.Operands.{free_at};
    ghost use Rattle.lh_read_phrases.specs.Shorter.{free_at-shorter};

    ghost part_at = { free_at };

    fn part(alloc: Global, tokens: &Tokens<'a>) -> Result<(Operand<'a>, Tokens<'a>), ScanFault> {
        free(alloc, tokens)
    }

    ghost shorter = { free_at-shorter };
}

/// `D %a`, and what follows it.
#[tactic(auto, unfolding(crate::specs::Operands::one_at))]
fn one<'a>(alloc: Global, tokens: &Tokens<'a>) -> FewOperandsAt<'a>
    ensures { ReadsAsFound result (one_at tokens.now) }
{
    let (a, rest) = typed(alloc, tokens)?;
    Ok((FewOf::one(alloc, a), rest))
}

/// `, %a`, and what follows it.
fn next_bare<'a>(tokens: &Tokens<'a>) -> Option<(Operand<'a>, Tokens<'a>)>
    ensures { result ≡ next_bare_at tokens.now }
{
    let rest = tokens.punct(b',')?;
    bare(&rest)
}

/// `D %a, %b`, and what follows it.
#[tactic(auto, unfolding(crate::specs::Operands::two_at))]
fn two<'a>(alloc: Global, tokens: &Tokens<'a>) -> FewOperandsAt<'a>
    ensures { ReadsAsFound result (two_at tokens.now) }
{
    let (a, rest) = typed(alloc, tokens)?;
    match next_bare(&rest) {
        Some((b, rest)) => Ok((FewOf::two(alloc, a, b), rest)),
        None => {
            drop(a);
            Err(NotSpelled)
        }
    }
}

/// `, ?%a`, and what follows it.
fn next_free<'a>(alloc: Global, tokens: &Tokens<'a>) -> Result<(Operand<'a>, Tokens<'a>), ScanFault>
    ensures { ReadsAsFound result (next_free_at tokens.now) }
{
    let rest = tokens.punct(b',').ok_or(NotSpelled)?;
    free(alloc, &rest)
}

/// Operands and one more.
fn with<'a>(
    mut operands: ListOf<Operand<'a>>,
    operand: Operand<'a>,
) -> Result<ListOf<Operand<'a>>, NoMemory>
    ensures { IfOk result (λ list. list ≡ operands.entry ++ operand.entry ∷ []) }
{
    if operands.push(operand).is_err() {
        drop(operands);
        return Err(NoMemory);
    }
    Ok(operands)
}

/// `D %a` in a list with room for three, and what follows it.
#[tactic(auto, unfolding(crate::specs::Operands::one_at))]
fn first_of_three<'a>(alloc: Global, tokens: &Tokens<'a>) -> OperandsAt<'a>
    ensures { ReadsAsFound result (one_at tokens.now) }
{
    let operands = ListOf::with_room(alloc, 3)?;
    match typed(alloc, tokens) {
        Ok((a, rest)) => Ok((with(operands, a)?, rest)),
        Err(fault) => {
            drop(operands);
            Err(fault)
        }
    }
}

/// These operands and `, ?%a`, and what follows it.
#[tactic(auto, unfolding(crate::specs::Operands::and_free_at))]
fn and_free<'a>(alloc: Global, operands: ListOf<Operand<'a>>, tokens: &Tokens<'a>) -> OperandsAt<'a>
    ensures { ReadsAsFound result (and_free_at operands.entry tokens.now) }
{
    match next_free(alloc, tokens) {
        Ok((operand, rest)) => Ok((with(operands, operand)?, rest)),
        Err(fault) => {
            drop(operands);
            Err(fault)
        }
    }
}

/// `D %b, ?%h, ?%n`, and what follows it.
#[tactic(auto, unfolding(crate::specs::Operands::shift_at, crate::specs::Operands::one_at, crate::specs::Operands::and_free_at))]
fn shift<'a>(alloc: Global, tokens: &Tokens<'a>) -> FewOperandsAt<'a>
    ensures { ReadsAsFound result (shift_at tokens.now) }
{
    let (base, rest) = first_of_three(alloc, tokens)?;
    let (both, rest) = and_free(alloc, base, &rest)?;
    let (all, rest) = and_free(alloc, both, &rest)?;
    Ok((FewOf::from_list(all), rest))
}

/// The operands of an operation, and what follows them.
pub fn columns<'a>(alloc: Global, columns: Columns, tokens: &Tokens<'a>) -> FewOperandsAt<'a>
    ensures { ReadsAsFound result (columns_at columns tokens.now) }
{
    match columns {
        Columns::One => one(alloc, tokens),
        Columns::Two => two(alloc, tokens),
        Columns::Shift => shift(alloc, tokens),
    }
}

/// A word and `%a`, or nothing; and what follows.
#[tactic(auto, unfolding(crate::specs::Operands::maybe_at))]
pub fn maybe<'a>(keyword: &[u8], tokens: &Tokens<'a>) -> Option<(Option<NameText<'a>>, Tokens<'a>)>
    ensures { result ≡ maybe_at keyword.now tokens.now }
{
    match tokens.word(keyword) {
        None => Some((None, tokens.copy())),
        Some(rest) => {
            let (name, rest) = rest.local()?;
            Some((Some(name), rest))
        }
    }
}

/// `[%v, mode %t if %g after %d]`, and what follows it.
#[tactic(auto, unfolding(crate::specs::Operands::trigger_at))]
fn trigger<'a>(tokens: &Tokens<'a>) -> Option<(TriggerSyntax<'a>, Tokens<'a>)>
    ensures { result ≡ trigger_at tokens.now }
{
    let (value, rest) = tokens.punct(b'[')?.local()?;
    let (word, rest) = rest.punct(b',')?.any_word()?;
    let mode = find_mode(word)?;
    let (trigger, rest) = rest.local()?;
    let (gate, rest) = maybe(b"if", &rest)?;
    let (after, rest) = maybe(b"after", &rest)?;
    let rest = rest.punct(b']')?;
    let trigger = TriggerSyntax {
        value,
        mode,
        trigger,
        gate,
        after,
    };
    Some((trigger, rest))
}

impl<'a> ListPart<'a> for TriggerSyntax<'a> {
    ghost use Rattle.lh_read_phrases.specs.Operands.{trigger_at};
    ghost use Rattle.lh_read_phrases.specs.Shorter.{trigger_at-shorter};

    ghost part_at = { trigger_at };

    fn part(
        alloc: Global,
        tokens: &Tokens<'a>,
    ) -> Result<(TriggerSyntax<'a>, Tokens<'a>), ScanFault> {
        trigger(tokens).ok_or(NotSpelled)
    }

    ghost shorter = { trigger_at-shorter };
}

/// `[%v, %b]`, and what follows it.
#[tactic(auto, unfolding(crate::specs::Operands::edge_at))]
fn edge<'a>(tokens: &Tokens<'a>) -> Option<(EdgeSyntax<'a>, Tokens<'a>)>
    ensures { result ≡ edge_at tokens.now }
{
    let (value, rest) = tokens.punct(b'[')?.local()?;
    let (block, rest) = rest.punct(b',')?.local()?;
    let rest = rest.punct(b']')?;
    Some((EdgeSyntax { value, block }, rest))
}

impl<'a> ListPart<'a> for EdgeSyntax<'a> {
    ghost use Rattle.lh_read_phrases.specs.Operands.{edge_at};
    ghost use Rattle.lh_read_phrases.specs.Shorter.{edge_at-shorter};

    ghost part_at = { edge_at };

    fn part(alloc: Global, tokens: &Tokens<'a>) -> Result<(EdgeSyntax<'a>, Tokens<'a>), ScanFault> {
        edge(tokens).ok_or(NotSpelled)
    }

    ghost shorter = { edge_at-shorter };
}

impl<'a> ListPart<'a> for Param<'a> {
    ghost use Rattle.lh_read_phrases.specs.Operands.{param_at};
    ghost use Rattle.lh_read_phrases.specs.Shorter.{param_at-shorter};

    ghost part_at = { param_at };

    #[tactic(auto, unfolding(crate::specs::Operands::param_at))]
    fn part(alloc: Global, tokens: &Tokens<'a>) -> Result<(Param<'a>, Tokens<'a>), ScanFault> {
        let (ty, rest) = ty(alloc, tokens)?;
        let (name, rest) = rest.local().ok_or(NotSpelled)?;
        Ok((Param { ty, name }, rest))
    }

    ghost shorter = { param_at-shorter };
}
