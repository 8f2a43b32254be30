//! The tokens of one line, taken longest first.
//!
//! `line` lists them all. A reader takes them one at a time from the front and stores none (`from_token`, `split`, `word`,
//! `local`): a byte that no token takes is met where it stands.
#![tactic(auto)]

ghost use Rattle.std.specs.Prelude.{◌≡◌, ◌≤◌, ◌+◌, [], ◌∷◌, ◌⊎◌, IfOk, IfErr, IfSome, IfNone, length, map, take, drop, false, Some, Result, Ok};
ghost use Rattle.lh_unit_names.specs.Names.{is_name_byte, IsName};
ghost use Rattle.lh_unit.specs.Lexemes as spec;
ghost use Rattle.lh_unit.specs.Lexemes.{lexemes, first_lexeme, run_len, begins, is_comment, is_punct};
ghost use Rattle.lh_unit.specs.Tokens.{tokens, first_token, named, lexeme_of, lexeme_at, IsSpelling, AreTokensOf, Covers};
ghost use Rattle.lh_lex.specs.Faults.{NamesBadByte, LineIsRefused};
ghost use Rattle.lh_lex.specs.Front.{taken, begins_word, begins_local, bad_mark, lexemes_to_bad, IsSettled};

use lh_types::list::ListOf;
pub use lh_unit::token::{Token, TokenKind, TokenList};
use std::alloc::Global;
use thiserror::Error;

/// Why a line has no tokens.
#[derive(Clone, Copy, Debug, PartialEq, Eq, Error)]
pub enum LexFault {
    /// No token takes the byte at this place of the line (the first byte is at 0), or it is the 256th byte of a name.
    #[error("no token takes the byte at {0}")]
    BadByte(u32),
    /// Memory ran out.
    #[error("out of memory")]
    OutOfMemory,
}

// What a byte is: 1 of a name, 2 a mark, 3 white, and 0 what takes others beside it or begins nothing.
#[rattlefmt::skip]
static CLASSES: [u8; 256] = [
    0, 0, 0, 0, 0, 0, 0, 0, 0, 3, 0, 0, 0, 3, 0, 0,
    0, 0, 0, 0, 0, 0, 0, 0, 0, 0, 0, 0, 0, 0, 0, 0,
    3, 0, 0, 0, 2, 0, 0, 0, 2, 2, 2, 0, 2, 0, 1, 0,
    1, 1, 1, 1, 1, 1, 1, 1, 1, 1, 2, 0, 0, 2, 0, 0,
    0, 1, 1, 1, 1, 1, 1, 1, 1, 1, 1, 1, 1, 1, 1, 1,
    1, 1, 1, 1, 1, 1, 1, 1, 1, 1, 1, 2, 0, 2, 0, 1,
    0, 1, 1, 1, 1, 1, 1, 1, 1, 1, 1, 1, 1, 1, 1, 1,
    1, 1, 1, 1, 1, 1, 1, 1, 1, 1, 1, 2, 0, 2, 0, 0,
    0, 0, 0, 0, 0, 0, 0, 0, 0, 0, 0, 0, 0, 0, 0, 0,
    0, 0, 0, 0, 0, 0, 0, 0, 0, 0, 0, 0, 0, 0, 0, 0,
    0, 0, 0, 0, 0, 0, 0, 0, 0, 0, 0, 0, 0, 0, 0, 0,
    0, 0, 0, 0, 0, 0, 0, 0, 0, 0, 0, 0, 0, 0, 0, 0,
    0, 0, 0, 0, 0, 0, 0, 0, 0, 0, 0, 0, 0, 0, 0, 0,
    0, 0, 0, 0, 0, 0, 0, 0, 0, 0, 0, 0, 0, 0, 0, 0,
    0, 0, 0, 0, 0, 0, 0, 0, 0, 0, 0, 0, 0, 0, 0, 0,
    0, 0, 0, 0, 0, 0, 0, 0, 0, 0, 0, 0, 0, 0, 0, 0,
];

fn is_name(b: u8) -> bool
    ensures { result ≡ is_name_byte b }
{
    CLASSES[usize::from(b)] == 1
}

/// Whether the byte is a mark, which is a token by itself.
pub fn is_mark(b: u8) -> bool
    ensures { result ≡ is_punct b }
{
    CLASSES[usize::from(b)] == 2
}

fn is_white(b: u8) -> bool
    ensures { result ≡ spec.is_white b }
{
    CLASSES[usize::from(b)] == 3
}

fn begins_with(bytes: &[u8], b: u8) -> bool
    ensures { result ≡ begins b bytes.now }
{
    match bytes.first() {
        Some(first) => *first == b,
        None => false,
    }
}

/// Whether a comment begins with `b`, before `more`.
fn begins_comment(b: u8, more: &[u8]) -> bool
    ensures { result ≡ is_comment b more.now }
{
    b == b';' || (b == b'/' && begins_with(more, b'/'))
}

/// How many name bytes stand in front.
fn name_len(bytes: &[u8]) -> usize
    ensures value { result ≡ run_len bytes.now }
    ensures within { result ≤ length bytes.now }
{
    for (i, b) in bytes.iter().enumerate() {
        if !is_name(*b) {
            return i;
        }
    }
    bytes.len()
}

/// Whether a name may have this many bytes.
fn fits_name(len: usize) -> bool
    ensures { result ≡ spec.fits_name len }
{
    1 <= len && len <= 255
}

/// A sigil's token before this many name bytes.
fn sigil(kind: TokenKind, len: usize) -> Result<(TokenKind, usize), usize>
    ensures { result ≡ named kind len }
{
    if len == 0 {
        return Err(0);
    }
    if len < 256 { Ok((kind, len)) } else { Err(256) }
}

/// The token that begins with `b`, and how many of the bytes after it it takes; or how far behind `b` the first
/// bad byte stands.
#[tactic(auto, unfolding(lh_unit::specs::Tokens::first_token, lh_unit::specs::Lexemes::first_lexeme))]
fn first(b: u8, more: &[u8]) -> Result<(TokenKind, usize), usize>
    ensures token { result ≡ first_token b more.now }
    ensures lexeme { taken b more.now result ≡ first_lexeme b more.now }
    ensures within { IfOk result (λ p. p.1 ≤ length more.now) }
    ensures bad { IfErr result (λ n. n ≤ length more.now) }
{
    if is_name(b) {
        return Ok((TokenKind::Word, name_len(more)));
    }
    if b == b'@' {
        return sigil(TokenKind::Global, name_len(more));
    }
    if b == b'%' {
        return sigil(TokenKind::Local, name_len(more));
    }
    if b == b'-' && begins_with(more, b'>') {
        return Ok((TokenKind::Arrow, 1));
    }
    if b == b'-' {
        return Ok((TokenKind::Minus, 0));
    }
    if is_mark(b) {
        return Ok((TokenKind::Punct(b), 0));
    }
    Err(0)
}

/// The bytes from their first token on; none where no token is left.
pub fn from_token(text: &[u8]) -> &[u8]
    ensures same { lexemes_to_bad result.now ≡ lexemes_to_bad text.now }
    ensures settled { IsSettled result.now }
{
    let mut rest = text;
    while let Some((b, more)) = rest.split_first() {
        if !is_white(*b) {
            return if begins_comment(*b, more) {
                &rest[..0]
            } else {
                rest
            };
        }
        rest = more;
    }
    rest
}

/// The first token, its bytes, and the bytes from the next token on; `None` where no byte is left, or no token takes the
/// first.
pub fn split(text: &[u8]) -> Option<(TokenKind, &[u8], &[u8])>
    requires { IsSettled text.now }
    ensures taken { IfSome result (λ r. lexemes_to_bad text.now ≡ lexeme_of r.0 r.1.now ∷ lexemes_to_bad r.2.now) }
    ensures spelled { IfSome result (λ r. IsSpelling r.0 r.1.now) }
    ensures settled { IfSome result (λ r. IsSettled r.2.now) }
    ensures none { IfNone result ((text.now ≡ []) ⊎ (lexemes_to_bad text.now ≡ bad_mark ∷ [])) }
{
    let (b, more) = text.split_first()?;
    let Ok((kind, len)) = first(*b, more) else {
        return None;
    };
    Some((kind, &text[..1 + len], from_token(&more[len..])))
}

/// The word in front, and the bytes from the next token on; `None` where another byte stands in front.
pub fn word(text: &[u8]) -> Option<(&[u8], &[u8])>
    requires { IsSettled text.now }
    ensures taken { IfSome result (λ r. lexemes_to_bad text.now ≡ spec.word r.0.now ∷ lexemes_to_bad r.1.now) }
    ensures settled { IfSome result (λ r. IsSettled r.1.now) }
    ensures other { IfNone result (begins_word text.now ≡ false) }
{
    let (b, more) = text.split_first()?;
    if !is_name(*b) {
        return None;
    }
    let len = name_len(more);
    Some((&text[..1 + len], from_token(&more[len..])))
}

/// The name behind `%` in front, and the bytes from the next token on; `None` where there is none.
pub fn local(text: &[u8]) -> Option<(&[u8], &[u8])>
    requires { IsSettled text.now }
    ensures taken { IfSome result (λ r. lexemes_to_bad text.now ≡ spec.local r.0.now ∷ lexemes_to_bad r.1.now) }
    ensures name { IfSome result (λ r. IsName r.0.now) }
    ensures settled { IfSome result (λ r. IsSettled r.1.now) }
    ensures other { IfNone result (begins_local text.now ≡ false) }
{
    let (b, more) = text.split_first()?;
    if *b != b'%' {
        return None;
    }
    let len = name_len(more);
    if !fits_name(len) {
        return None;
    }
    Some((&more[..len], from_token(&more[len..])))
}

/// The tokens of a line as their definition gives them.
fn scan(alloc: Global, text: &[u8]) -> Result<TokenList, LexFault>
    requires { length text.now ≤ 67108864 }
    ensures ok { IfOk result (λ ts. tokens text.now ≡ Ok ts) }
    ensures fault { IfErr result (λ e. NamesBadByte e text.now) }
{
    let mut found = ListOf::new(alloc);
    let mut at = 0u32;
    let mut rest = text;
    while let Some((b, more)) = rest.split_first() {
        if is_white(*b) {
            rest = more;
            at += 1;
            continue;
        }
        if begins_comment(*b, more) {
            return Ok(found);
        }
        match first(*b, more) {
            Ok((kind, len)) => {
                let to = at + 1 + len as u32;
                if found.push(Token { kind, from: at, to }).is_err() {
                    return Err(LexFault::OutOfMemory);
                }
                rest = &more[len..];
                at = to;
            }
            Err(n) => return Err(LexFault::BadByte(at + n as u32)),
        }
    }
    Ok(found)
}

/// The tokens of a line: words, names behind `@` or `%`, `->`, `-` and the single marks, each the longest that its
/// first byte begins. Space, tab and carriage return are white, and `;` or `//` begins a comment.
///
/// `BadByte` names the first byte that no token takes, or the 256th byte of a name. `OutOfMemory` says nothing of
/// the line. The time is linear in the line, and each token takes 12 bytes.
pub fn line(alloc: Global, text: &[u8]) -> Result<TokenList, LexFault>
    requires { length text.now ≤ 67108864 }
    ensures ok { IfOk result (λ ts. tokens text.now ≡ Ok ts) }
    ensures lexed { IfOk result (λ ts. lexemes text.now ≡ Some (map (lexeme_at text.now) ts)) }
    ensures spelled { IfOk result (AreTokensOf text.now) }
    ensures covered { IfOk result (Covers text.now 0) }
    ensures fault { IfErr result (λ e. NamesBadByte e text.now) }
    ensures refused { IfErr result (λ e. LineIsRefused e text.now) }
{
    scan(alloc, text)
}
