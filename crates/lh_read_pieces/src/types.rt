//! The type that stands in front of the tokens.
//!
//! The recursion stops at the depth limit of types, whatever the tokens nest.
ghost use Rattle.std.specs.Prelude.{◌≡◌, ◌≤◌, IfSome, length, Option};
ghost use Rattle.lh_types.specs.Types.{TypeTree, int_type as int_tree, signal_type, pointer_type};
ghost use Rattle.lh_types.specs.Faults.{signal_fault, pointer_fault, MakesType};
ghost use Rattle.lh_types.specs.declared.ty.TyFault.{TyFault};
ghost use Rattle.lh_read_pieces.specs.Found.{ReadsAsFound};
ghost use Rattle.lh_read_pieces.specs.Pieces.{parts_at};
ghost use Rattle.lh_unit.specs.Typing.{if_made};
ghost use Rattle.lh_read_pieces.specs.Types.{followed, int_width as width_in, int_before, marked_in, array_in, tuple_in, data_at, base_at, suffix_at, type_at};

use crate::fault::ScanFault::{self, NotSpelled};
use crate::numbers::{count, number};
use crate::tokens::{Lex, Tokens};
use lh_types::ty::{Ty, TyFault, TyList};
use std::alloc::Global;

/// How deep a data type nests at most.
const MOST_DEEP: u32 = 16;

/// The width in a word `iN`, from 1 to 128.
fn int_width(word: &[u8]) -> Option<u32>
    ensures value { result ≡ width_in word.now }
    ensures within { IfSome result (λ n. (1 ≤ n) × (n ≤ 128)) }
{
    let (first, digits) = word.split_first()?;
    if *first != b'i' {
        return None;
    }
    let n = number(digits)?;
    if 1 <= n && n <= 128 {
        Some(n as u32)
    } else {
        None
    }
}

/// The integer type of a width.
fn int(width: u32) -> Ty
    requires low { 1 ≤ width }
    requires high { width ≤ 128 }
    ensures { result ≡ int_tree width }
{
    match Ty::int(width) {
        Ok(ty) => ty,
        Err(_) => unreachable!(),
    }
}

/// The integer type that a word says, and what follows it.
fn int_type<'a>(word: &[u8], rest: Tokens<'a>) -> Option<(Ty, Tokens<'a>)>
    ensures { result ≡ int_before (width_in word.now) rest.entry }
{
    let width = int_width(word)?;
    Some((int(width), rest))
}

/// The type that was made, if it has no fault.
fn faultless(made: Result<Ty, TyFault>) -> Result<Ty, ScanFault>
    ensures { (fault : Option TyFault) → (t : TypeTree) → MakesType made fault t → ReadsAsFound result (if_made fault t) }
{
    match made {
        Ok(ty) => Ok(ty),
        Err(TyFault::OutOfMemory) => Err(ScanFault::OutOfMemory),
        Err(_) => Err(NotSpelled),
    }
}

/// A data type in front that nests at most `deep` levels, and what follows it.
#[cycle(data)]
fn data<'a>(alloc: Global, deep: u32, tokens: &Tokens<'a>) -> Result<(Ty, Tokens<'a>), ScanFault>
    ensures { ReadsAsFound result (data_at deep tokens.now) }
{
    if deep == 0 {
        return Err(NotSpelled);
    }
    let (first, rest) = tokens.first().ok_or(NotSpelled)?;
    match first {
        Lex::Word(word) => int_type(word, rest).ok_or(NotSpelled),
        Lex::Punct(mark) => marked(alloc, deep - 1, mark, &rest),
        _ => Err(NotSpelled),
    }
}

/// What a bracket or a brace begins, and what follows it.
#[cycle(data)]
fn marked<'a>(
    alloc: Global,
    deep: u32,
    mark: u8,
    tokens: &Tokens<'a>,
) -> Result<(Ty, Tokens<'a>), ScanFault>
    ensures { ReadsAsFound result (marked_in (data_at deep) mark tokens.now) }
{
    if mark == b'[' {
        return array(alloc, deep, tokens);
    }
    if mark == b'{' {
        return tuple(alloc, deep, tokens);
    }
    Err(NotSpelled)
}

/// `N x T]`, and what follows it.
#[cycle(data)]
#[tactic(auto, unfolding(crate::specs::Types::array_in))]
fn array<'a>(alloc: Global, deep: u32, tokens: &Tokens<'a>) -> Result<(Ty, Tokens<'a>), ScanFault>
    ensures { ReadsAsFound result (array_in (data_at deep) tokens.now) }
{
    let (len, rest) = count(tokens).ok_or(NotSpelled)?;
    let rest = rest.word(b"x").ok_or(NotSpelled)?;
    let (of, rest) = data(alloc, deep, &rest)?;
    let rest = rest.punct(b']').ok_or(NotSpelled)?;
    let ty = faultless(Ty::array(alloc, len, of))?;
    Ok((ty, rest))
}

/// `T1, T2}`, and what follows it.
#[cycle(data)]
#[tactic(auto, unfolding(crate::specs::Types::tuple_in))]
fn tuple<'a>(alloc: Global, deep: u32, tokens: &Tokens<'a>) -> Result<(Ty, Tokens<'a>), ScanFault>
    ensures { ReadsAsFound result (tuple_in (data_at deep) tokens.now) }
{
    let (fields, rest) = fields(alloc, deep, tokens)?;
    let rest = rest.punct(b'}').ok_or(NotSpelled)?;
    let ty = faultless(Ty::tuple(fields))?;
    Ok((ty, rest))
}

/// One or more data types by comma, and what follows them.
#[cycle(data)]
fn fields<'a>(
    alloc: Global,
    deep: u32,
    tokens: &Tokens<'a>,
) -> Result<(TyList, Tokens<'a>), ScanFault>
    ensures { ReadsAsFound result (parts_at (data_at deep) (length tokens.now) tokens.now) }
{
    let mut fields = TyList::new(alloc);
    let mut rest = tokens.copy();
    loop {
        let (field, more) = data(alloc, deep, &rest)?;
        fields.push(field)?;
        match more.punct(b',') {
            Some(next) => rest = next,
            None => return Ok((fields, more)),
        }
    }
}

/// `time`, `void` or a data type, and what follows it.
#[tactic(auto, unfolding(crate::specs::Types::base_at))]
fn base<'a>(alloc: Global, tokens: &Tokens<'a>) -> Result<(Ty, Tokens<'a>), ScanFault>
    ensures { ReadsAsFound result (base_at tokens.now) }
{
    if let Some(rest) = tokens.word(b"time") {
        return Ok((Ty::time(), rest));
    }
    if let Some(rest) = tokens.word(b"void") {
        return Ok((Ty::void(), rest));
    }
    data(alloc, MOST_DEEP, tokens)
}

/// The signal of a type, and what follows it.
fn signal<'a>(alloc: Global, of: Ty, rest: Tokens<'a>) -> Result<(Ty, Tokens<'a>), ScanFault>
    ensures { ReadsAsFound result (followed (if_made (signal_fault of) (signal_type of)) rest.entry) }
{
    let ty = faultless(Ty::signal(alloc, of))?;
    Ok((ty, rest))
}

/// The pointer to a type, and what follows it.
fn pointer<'a>(alloc: Global, of: Ty, rest: Tokens<'a>) -> Result<(Ty, Tokens<'a>), ScanFault>
    ensures { ReadsAsFound result (followed (if_made (pointer_fault of) (pointer_type of)) rest.entry) }
{
    let ty = faultless(Ty::pointer(alloc, of))?;
    Ok((ty, rest))
}

/// The type and the `$` or `*` behind it, if one stands there, and what follows.
#[tactic(auto, unfolding(crate::specs::Types::suffix_at))]
fn suffixed<'a>(alloc: Global, ty: Ty, tokens: Tokens<'a>) -> Result<(Ty, Tokens<'a>), ScanFault>
    ensures { ReadsAsFound result (suffix_at ty tokens.entry) }
{
    if let Some(rest) = tokens.punct(b'$') {
        return signal(alloc, ty, rest);
    }
    if let Some(rest) = tokens.punct(b'*') {
        return pointer(alloc, ty, rest);
    }
    Ok((ty, tokens))
}

/// The type in front within its limits, and what follows it: `iN`, `time`, `void`, `[N x T]` or `{T1, T2}`, and
/// then at most one `$` or `*`.
#[tactic(auto, unfolding(crate::specs::Types::type_at))]
pub fn ty<'a>(alloc: Global, tokens: &Tokens<'a>) -> Result<(Ty, Tokens<'a>), ScanFault>
    ensures { ReadsAsFound result (type_at tokens.now) }
{
    let (ty, rest) = base(alloc, tokens)?;
    suffixed(alloc, ty, rest)
}
