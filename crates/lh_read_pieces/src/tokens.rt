//! The tokens of a line from the front: what a line is read by.
ghost use Rattle.std.specs.Prelude.{◌≡◌, [], ◌∷◌, ◌⊎◌, Some, None, false, option_map, IfOk, IfSome, IfNone};
ghost use Rattle.lh_unit.specs.Lexemes.{begins};
ghost use Rattle.lh_unit.specs.Tokens.{lexeme_of as spelled_by, IsSpelling};
ghost use Rattle.lh_unit.specs.Reads.{is_assert};
ghost use Rattle.lh_lex.specs.Front.{bad_mark, lexemes_to_bad};
ghost use Rattle.lh_read_pieces.specs.Pieces.{first_at, word_at, any_word_at, local_at, named_in, name_at, unit_name_at, punct_at, arrow_at, minus_at, end_at};
ghost use Rattle.lh_read_pieces.specs.LexemeOf.{lexeme_of, unit_name_of};

use lh_lex::{from_token, is_mark, split};
use lh_types::memory::NoMemory;
use lh_unit::token::TokenKind;
use lh_unit_names::name::{Name, UnitName};
use std::alloc::Global;
use std::marker::Model;

/// A name where it stands in the line, without its sigil.
#[derive(Drop)]
pub struct NameText<'a> {
    bytes: &'a [u8],
}

impl<'a> Model for NameText<'a> {
    ghost use Rattle.std.specs.Prelude.{ℕ, List};
    ghost use Rattle.lh_unit_names.specs.Names.{IsName};

    ghost Value = { List ℕ };

    ghost view = { λ n. n.bytes.now };

    ghost invariant = { λ n. IsName n.bytes.now };
}

impl NameText<'_> {
    /// The name, in memory of its own.
    pub fn to_name(&self, alloc: Global) -> Result<Name, NoMemory>
        ensures { IfOk result (λ n. n ≡ self.now) }
    {
        Name::new(alloc, self.bytes)
    }

    /// The bytes in order.
    pub fn as_bytes(&self) -> &[u8]
        ensures { result.now ≡ self.now }
    {
        self.bytes
    }
}

/// The name of a unit where it stands in the line.
#[derive(Drop)]
pub struct UnitNameText<'a> {
    /// `@` or `%`, as a byte.
    pub sigil: u8,
    /// The name behind it.
    pub name: NameText<'a>,
}

impl UnitNameText<'_> {
    /// Whether it is `@llhd.assert`.
    pub fn is_assert(&self) -> bool
        ensures { result ≡ is_assert (unit_name_of self.now) }
    {
        self.sigil == b'@' && self.name.bytes == b"llhd.assert".as_slice()
    }

    /// The name, in memory of its own.
    pub fn to_unit_name(&self, alloc: Global) -> Result<UnitName, NoMemory>
        ensures { IfOk result (λ n. n ≡ unit_name_of self.now) }
    {
        let name = self.name.to_name(alloc)?;
        Ok(UnitName {
            sigil: self.sigil,
            name,
        })
    }
}

/// One token with its text.
#[derive(Drop)]
pub enum Lex<'a> {
    /// A run of name bytes.
    Word(&'a [u8]),
    /// A name behind `@`.
    Global(NameText<'a>),
    /// A name behind `%`.
    Local(NameText<'a>),
    /// `->`
    Arrow,
    /// `-`
    Minus,
    /// One of `( ) { } [ ] , : $ * =`, as a byte.
    Punct(u8),
    /// A byte that no token takes. Nothing stands behind it.
    Bad,
}

/// A token with its text, of these bytes.
fn text_of<'a>(kind: TokenKind, bytes: &'a [u8]) -> Lex<'a>
    requires { IsSpelling kind bytes.now }
    ensures { lexeme_of result ≡ spelled_by kind bytes.now }
{
    match kind {
        TokenKind::Word => Lex::Word(bytes),
        TokenKind::Global => Lex::Global(NameText { bytes: &bytes[1..] }),
        TokenKind::Local => Lex::Local(NameText { bytes: &bytes[1..] }),
        TokenKind::Arrow => Lex::Arrow,
        TokenKind::Minus => Lex::Minus,
        TokenKind::Punct(b) => Lex::Punct(b),
    }
}

/// The name that a token of these bytes is, where it is a word and no longer than a name.
fn named<'a>(kind: TokenKind, bytes: &'a [u8]) -> Option<NameText<'a>>
    requires { IsSpelling kind bytes.now }
    ensures { result ≡ named_in (spelled_by kind bytes.now) }
{
    match kind {
        TokenKind::Word if bytes.len() <= 255 => Some(NameText { bytes }),
        _ => None,
    }
}

/// Whether `-` stands in front, with which `->` and `-` begin. Other tokens are told from both by this byte.
fn begins_dashed(text: &[u8]) -> bool
    ensures { result ≡ begins 45 text.now }
{
    match text.first() {
        Some(byte) => *byte == b'-',
        None => false,
    }
}

/// The tokens of a line that are left, in order, up to the first byte that no token takes, in whose place a mark stands that
/// is no token.
///
/// They are the bytes from the first of them on: a token is found when it is taken, and none is stored.
#[derive(Drop)]
pub struct Tokens<'a> {
    rest: &'a [u8],
}

impl<'a> Model for Tokens<'a> {
    ghost use Rattle.std.specs.Prelude.{List};
    ghost use Rattle.lh_unit.specs.Lexemes.{Lexeme};
    ghost use Rattle.lh_lex.specs.Front.{lexemes_to_bad, IsSettled};

    ghost Value = { List Lexeme };

    ghost view = { λ a. lexemes_to_bad a.rest.now };

    ghost invariant = { λ a. IsSettled a.rest.now };
}

impl<'a> Tokens<'a> {
    /// The tokens of a line.
    pub fn of(line: &'a [u8]) -> Tokens<'a>
        ensures { result ≡ lexemes_to_bad line.now }
    {
        let rest = from_token(line);
        Tokens { rest }
    }

    /// A second view of the same tokens.
    pub fn copy(&self) -> Tokens<'a>
        ensures { result ≡ self.now }
    {
        Tokens { rest: self.rest }
    }

    /// The kind of the first token, its bytes, and the tokens behind it; `None` where no token is left, or a byte stands in
    /// front that no token takes.
    fn split(&self) -> Option<(TokenKind, &'a [u8], Tokens<'a>)>
        ensures first { IfSome result (λ r. Some (spelled_by r.0 r.1.now, r.2) ≡ first_at self.now) }
        ensures spelled { IfSome result (λ r. IsSpelling r.0 r.1.now) }
        ensures none { IfNone result ((self.now ≡ []) ⊎ (self.now ≡ bad_mark ∷ [])) }
    {
        let (kind, bytes, rest) = split(self.rest)?;
        Some((kind, bytes, Tokens { rest }))
    }

    /// The first token, and those behind it. Most are words and names behind `%`, which are asked for first.
    // Inline, so that a caller goes on where its kind of token is found, and none is put together to be told again.
    #[inline(always)]
    pub fn first(&self) -> Option<(Lex<'a>, Tokens<'a>)>
        ensures { option_map (λ r. (lexeme_of r.0, r.1)) result ≡ first_at self.now }
    {
        if let Some((word, rest)) = self.any_word() {
            return Some((Lex::Word(word), rest));
        }
        if let Some((name, rest)) = self.local() {
            return Some((Lex::Local(name), rest));
        }
        if let Some((kind, bytes, rest)) = self.split() {
            return Some((text_of(kind, bytes), rest));
        }
        self.bad()
    }

    /// The byte in front, which no token takes; `None` where no byte is left.
    fn bad(&self) -> Option<(Lex<'a>, Tokens<'a>)>
        requires { (self.now ≡ []) ⊎ (self.now ≡ bad_mark ∷ []) }
        ensures { option_map (λ r. (lexeme_of r.0, r.1)) result ≡ first_at self.now }
    {
        if self.rest.is_empty() {
            return None;
        }
        let rest = &self.rest[..0];
        Some((Lex::Bad, Tokens { rest }))
    }

    /// Whether the first byte is that of this text. It tells most words apart.
    fn may_begin(&self, text: &[u8]) -> bool
        ensures { result ≡ false → None ≡ word_at text.now self.now }
    {
        match (self.rest.split_first(), text.split_first()) {
            (Some((byte, _)), Some((first, _))) => *byte == *first,
            _ => true,
        }
    }

    /// What follows this word.
    // Inline, so that most words are told apart without a call.
    #[inline(always)]
    pub fn word(&self, word: &[u8]) -> Option<Tokens<'a>>
        ensures { result ≡ word_at word.now self.now }
    {
        if !self.may_begin(word) {
            return None;
        }
        match self.any_word()? {
            (w, rest) if w == word => Some(rest),
            _ => None,
        }
    }

    /// A word, and what follows it.
    pub fn any_word(&self) -> Option<(&'a [u8], Tokens<'a>)>
        ensures { option_map (λ r. (r.0.now, r.1)) result ≡ any_word_at self.now }
    {
        let (word, rest) = lh_lex::word(self.rest)?;
        Some((word, Tokens { rest }))
    }

    /// A name behind `%`, and what follows it.
    pub fn local(&self) -> Option<(NameText<'a>, Tokens<'a>)>
        ensures { result ≡ local_at self.now }
    {
        let (bytes, rest) = lh_lex::local(self.rest)?;
        Some((NameText { bytes }, Tokens { rest }))
    }

    /// A word that is no longer than a name, as a name, and what follows it.
    #[tactic(auto, unfolding(crate::specs::Pieces::name_at))]
    pub fn name(&self) -> Option<(NameText<'a>, Tokens<'a>)>
        ensures { result ≡ name_at self.now }
    {
        let (kind, bytes, rest) = self.split()?;
        let name = named(kind, bytes)?;
        Some((name, rest))
    }

    /// The name of a unit, and what follows it.
    pub fn unit_name(&self) -> Option<(UnitNameText<'a>, Tokens<'a>)>
        ensures { option_map (λ r. (unit_name_of r.0, r.1)) result ≡ unit_name_at self.now }
    {
        let (lex, rest) = self.first()?;
        match lex {
            Lex::Global(name) => Some((UnitNameText { sigil: b'@', name }, rest)),
            Lex::Local(name) => Some((UnitNameText { sigil: b'%', name }, rest)),
            _ => None,
        }
    }

    /// What follows this mark.
    pub fn punct(&self, mark: u8) -> Option<Tokens<'a>>
        ensures { result ≡ punct_at mark self.now }
    {
        let (byte, more) = self.rest.split_first()?;
        if *byte != mark {
            return None;
        }
        if !is_mark(mark) {
            return None;
        }
        let rest = from_token(more);
        Some(Tokens { rest })
    }

    /// What follows `->`.
    pub fn arrow(&self) -> Option<Tokens<'a>>
        ensures { result ≡ arrow_at self.now }
    {
        if !begins_dashed(self.rest) {
            return None;
        }
        match self.first()? {
            (Lex::Arrow, rest) => Some(rest),
            _ => None,
        }
    }

    /// What follows `-`.
    pub fn minus(&self) -> Option<Tokens<'a>>
        ensures { result ≡ minus_at self.now }
    {
        if !begins_dashed(self.rest) {
            return None;
        }
        match self.first()? {
            (Lex::Minus, rest) => Some(rest),
            _ => None,
        }
    }

    /// Whether no token is left.
    pub fn end(&self) -> Option<()>
        ensures { result ≡ end_at self.now }
    {
        match self.rest {
            [] => Some(()),
            _ => None,
        }
    }
}
