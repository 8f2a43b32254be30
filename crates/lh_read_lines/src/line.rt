//! What the tokens of a line say.
ghost use Rattle.std.specs.Prelude.{◌≡◌, option_map};
ghost use Rattle.lh_read_pieces.specs.Found.{FindsAs};
ghost use Rattle.lh_unit.specs.SpellsInst as spec;
ghost use Rattle.lh_read_phrases.specs.SyntaxOf.{inst_of, item_of};
ghost use Rattle.lh_read_lines.specs.Items.{label_at, word_label_at, assigned_at, alone_at, behind_local_at, behind_word_at, item_at};

use crate::headers::{LineAt, headed};
use crate::insts::{inst, worded};
use lh_read_phrases::syntax::{InstSyntax, LineSyntax};
use lh_read_phrases::words::find_head;
use lh_read_pieces::fault::ScanFault::NotSpelled;
use lh_read_pieces::tokens::{Lex, NameText, Tokens};
use std::alloc::Global;

/// Whether the instruction gives a value.
fn gives_value(inst: &InstSyntax) -> bool
    ensures { result ≡ spec.gives_value (inst_of inst.now) }
{
    match inst {
        InstSyntax::Const(_)
        | InstSyntax::Pure { .. }
        | InstSyntax::Var(_)
        | InstSyntax::Ld(_)
        | InstSyntax::Sig(_)
        | InstSyntax::Prb(_)
        | InstSyntax::Phi { .. } => true,
        InstSyntax::Call { result, .. } => !result.is_void(),
        _ => false,
    }
}

/// Whether it may stand without `%r = `: what gives no value, and every call.
fn may_stand_alone(inst: &InstSyntax) -> bool
    ensures { result ≡ spec.may_stand_alone (inst_of inst.now) }
{
    match inst {
        InstSyntax::Call { .. } => true,
        _ => !gives_value(inst),
    }
}

/// A label, where only this follows its colon.
#[tactic(auto, unfolding(crate::specs::Items::label_at))]
fn label<'a>(name: NameText<'a>, tokens: &Tokens) -> Option<LineSyntax<'a>>
    ensures { option_map item_of result ≡ label_at name.entry tokens.now }
{
    tokens.end()?;
    Some(LineSyntax::Label(name))
}

/// The first of these words as a label, where `rest` follows its colon.
#[tactic(auto, unfolding(crate::specs::Items::word_label_at))]
fn word_label<'a>(tokens: &Tokens<'a>, rest: &Tokens) -> Option<LineSyntax<'a>>
    ensures { option_map item_of result ≡ word_label_at tokens.now rest.now }
{
    let (name, _) = tokens.name()?;
    label(name, rest)
}

/// An instruction, behind the name of its result.
#[tactic(auto, unfolding(crate::specs::Items::assigned_at))]
fn assigned<'a>(alloc: Global, name: NameText<'a>, tokens: &Tokens<'a>) -> LineAt<'a>
    ensures { FindsAs item_of result (assigned_at name.entry tokens.now) }
{
    let rest = tokens.punct(b'=').ok_or(NotSpelled)?;
    let inst = inst(alloc, &rest)?;
    if !gives_value(&inst) {
        drop(inst);
        return Err(NotSpelled);
    }
    let result = Some(name);
    Ok(LineSyntax::Inst { result, inst })
}

/// An instruction without a result, behind its word.
#[tactic(auto, unfolding(crate::specs::Items::alone_at))]
fn alone<'a>(alloc: Global, word: &[u8], tokens: &Tokens<'a>) -> LineAt<'a>
    ensures { FindsAs item_of result (alone_at word.now tokens.now) }
{
    let inst = worded(alloc, word, tokens)?;
    if !may_stand_alone(&inst) {
        drop(inst);
        return Err(NotSpelled);
    }
    let result = None;
    Ok(LineSyntax::Inst { result, inst })
}

/// A line behind `%r`.
fn behind_local<'a>(alloc: Global, name: NameText<'a>, tokens: &Tokens<'a>) -> LineAt<'a>
    ensures { FindsAs item_of result (behind_local_at name.entry tokens.now) }
{
    match tokens.punct(b':') {
        Some(rest) => label(name, &rest).ok_or(NotSpelled),
        None => assigned(alloc, name, tokens),
    }
}

/// A line behind its first word; `tokens` are all of the line.
fn behind_word<'a>(alloc: Global, word: &[u8], tokens: &Tokens<'a>, rest: &Tokens<'a>) -> LineAt<'a>
    ensures { FindsAs item_of result (behind_word_at word.now tokens.now rest.now) }
{
    if let Some(end) = rest.punct(b':') {
        return word_label(tokens, &end).ok_or(NotSpelled);
    }
    match find_head(word) {
        Some(head) => headed(alloc, head, rest),
        None => alone(alloc, word, rest),
    }
}

/// The item that the tokens spell.
#[tactic(auto, unfolding(crate::specs::Items::item_at, crate::specs::Items::close_at))]
pub fn line_item<'a>(alloc: Global, tokens: &Tokens<'a>) -> LineAt<'a>
    ensures { FindsAs item_of result (item_at tokens.now) }
{
    let Some((first, rest)) = tokens.first() else {
        return Ok(LineSyntax::Empty);
    };
    match first {
        Lex::Word(word) => behind_word(alloc, word, tokens, &rest),
        Lex::Local(name) => behind_local(alloc, name, &rest),
        Lex::Punct(b'}') if rest.end().is_some() => Ok(LineSyntax::Close),
        _ => Err(NotSpelled),
    }
}
