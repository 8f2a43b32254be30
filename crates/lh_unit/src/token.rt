//! The tokens of a line.
use lh_types::list::ListOf;

/// What a token is.
#[derive(Clone, Copy, Debug, PartialEq, Eq)]
pub enum TokenKind {
    /// A run of name bytes.
    Word,
    /// `@` and a name of 1 to 255 bytes.
    Global,
    /// `%` and a name of 1 to 255 bytes.
    Local,
    /// `->`
    Arrow,
    /// `-`
    Minus,
    /// One of `( ) { } [ ] , : $ * =`.
    Punct(u8),
}

/// A token and its bytes in the line, `from` included and `to` not.
#[derive(Clone, Copy, Debug, PartialEq, Eq)]
pub struct Token {
    pub kind: TokenKind,
    pub from: u32,
    pub to: u32,
}

/// The tokens of a line, in order.
pub type TokenList = ListOf<Token>;
