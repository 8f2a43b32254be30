//! Whole numbers as words of digits, and integer constants.
ghost use Rattle.std.specs.Prelude.{◌≡◌, ◌≤◌, ◌<◌, ◌^◌, ◌-◌, IfSome};
ghost use Rattle.lh_unit.specs.Numerals.{digits_from};
ghost use Rattle.lh_read_pieces.specs.Pieces.{small, small_number};
ghost use Rattle.lh_read_pieces.specs.Numbers.{number_at, positive_bits, negative_bits, last_number_at, integer_at};

use crate::tokens::Tokens;

/// The number that a word says, where it is below 2^128; leading zeros are taken.
pub fn number(word: &[u8]) -> Option<u128>
    ensures { result ≡ small_number word.now }
{
    if word.is_empty() {
        return None;
    }
    digits(word)
}

/// A number below it has room for one digit more, which no division need tell.
const TENTH: u128 = u128::MAX / 10;

/// The number that these digits say, where it is below 2^128.
fn digits(text: &[u8]) -> Option<u128>
    ensures { result ≡ small (digits_from 0 text.now) }
{
    let mut n: u128 = 0;
    for b in text {
        if *b < b'0' || *b > b'9' {
            return None;
        }
        let d = u128::from(*b - b'0');
        if n >= TENTH && n > (u128::MAX - d) / 10 {
            return None;
        }
        n = n * 10 + d;
    }
    Some(n)
}

/// The number below 2^32 in front, such as a count of elements or a place, and what follows it.
#[tactic(auto, unfolding(crate::specs::Numbers::number_at))]
pub fn count<'a>(tokens: &Tokens<'a>) -> Option<(u32, Tokens<'a>)>
    ensures { result ≡ number_at tokens.now }
{
    let (word, rest) = tokens.any_word()?;
    let n = number(word)?;
    if n < 1 << 32 {
        Some((n as u32, rest))
    } else {
        None
    }
}

/// The constant of this width in bits that ends the line, as its bits: from `-2^(width-1)` to `2^width - 1`.
#[tactic(auto, unfolding(crate::specs::Numbers::integer_at))]
pub fn integer(width: u32, tokens: &Tokens) -> Option<u128>
    requires low { 1 ≤ width }
    requires high { width ≤ 128 }
    ensures { result ≡ integer_at width tokens.now }
{
    if let Some(rest) = tokens.minus() {
        return negative(width, last_number(&rest)?);
    }
    positive(width, last_number(tokens)?)
}

/// The number that ends the line.
fn last_number(tokens: &Tokens) -> Option<u128>
    ensures { result ≡ last_number_at tokens.now }
{
    let (word, rest) = tokens.any_word()?;
    rest.end()?;
    number(word)
}

/// The bits of the constant `k` of this width.
fn positive(width: u32, k: u128) -> Option<u128>
    requires low { 1 ≤ width }
    requires high { width ≤ 128 }
    ensures { result ≡ positive_bits width (Some k) }
{
    if width == 128 || k < 1 << width {
        Some(k)
    } else {
        None
    }
}

/// The bits of the constant `-k` of this width.
fn negative(width: u32, k: u128) -> Option<u128>
    requires low { 1 ≤ width }
    requires high { width ≤ 128 }
    ensures { result ≡ negative_bits width (Some k) }
{
    let half = half_of(width);
    if k > half {
        return None;
    }
    if k == 0 {
        return Some(0);
    }
    Some(half - k + half)
}

/// Half of the number of values of this width.
fn half_of(width: u32) -> u128
    requires low { 1 ≤ width }
    requires high { width ≤ 128 }
    ensures value { result ≡ 2 ^ (width - 1) }
    ensures few { result ≤ 2 ^ 127 }
{
    1 << (width - 1)
}
