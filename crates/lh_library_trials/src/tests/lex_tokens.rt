//! Lines with their tokens, taken from the definition of the language by hand.
use lh_lex::TokenKind::*;
use lh_lex::{LexFault, Token, TokenKind, line};
use std::alloc::Global;

fn t(kind: TokenKind, from: u32, to: u32) -> Token {
    Token { kind, from, to }
}

/// A token of one byte.
fn mark(byte: u8, at: u32) -> Token {
    t(Punct(byte), at, at.wrapping_add(1))
}

/// Whether a line of fewer than 100 bytes has these tokens.
fn has_tokens(alloc: Global, text: &[u8], want: &[Token]) -> bool {
    if text.len() >= 100 {
        return false;
    }
    match line(alloc, text) {
        Ok(found) => found.as_slice() == want,
        Err(_) => false,
    }
}

#[test]
fn lines_have_these_tokens(rt: HostRuntime) {
    let table: [(&[u8], &[Token]); 8] = [
        (b" \t\r ", &[]),
        (b"; any \x00 \xff bytes", &[]),
        (b"halt//x", &[t(Word, 0, 4)]),
        (b"a->b", &[t(Word, 0, 1), t(Arrow, 1, 3), t(Word, 3, 4)]),
        (b"-->", &[t(Minus, 0, 1), t(Arrow, 1, 3)]),
        (b"%a.b_9", &[t(Local, 0, 6)]),
        (b"@A%z", &[t(Global, 0, 2), t(Local, 2, 4)]),
        (b"[{(", &[mark(b'[', 0), mark(b'{', 1), mark(b'(', 2)]),
    ];
    for (text, want) in table {
        assert!(rt; has_tokens(rt.alloc(), text, want));
    }
}

/// Whether this byte of a line of fewer than 100 bytes is its first bad one.
fn is_first_bad(alloc: Global, text: &[u8], place: u32) -> bool {
    if text.len() >= 100 {
        return false;
    }
    matches!(line(alloc, text), Err(LexFault::BadByte(at)) if at == place)
}

#[test]
fn first_bad_byte_is_named(rt: HostRuntime) {
    let table: [(&[u8], u32); 5] = [
        (b"a / b", 2),
        (b"%x @", 3),
        (b"@@a", 0),
        (b"a\x0bb", 1),
        (b"\xc3\xa9", 0),
    ];
    for (text, place) in table {
        assert!(rt; is_first_bad(rt.alloc(), text, place));
    }
}
