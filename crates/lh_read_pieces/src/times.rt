//! Times at the end of a line.
ghost use Rattle.std.specs.Prelude.{◌≡◌, ◌≤◌, ◌<◌, ◌^◌, IfSome, length, option_map};
ghost use Rattle.lh_unit.specs.Numerals.{is_digit as is_digit_byte};
ghost use Rattle.lh_read_pieces.specs.Pieces.{below};
ghost use Rattle.lh_read_pieces.specs.Times as spec;
ghost use Rattle.lh_read_pieces.specs.Times.{digit_run, unit_places, all_zero, next_digit, shifted, with_unit, pointed, steps_at, time_at};

use crate::numbers::number;
use crate::tokens::Tokens;
use lh_time::Delay;

/// The first number of femtoseconds that is too large.
const TOO_LONG: u128 = 1 << 63;

/// The first count of steps that is too large.
const TOO_MANY: u128 = 1 << 31;

/// How many digits stand in front.
fn digits(text: &[u8]) -> usize
    ensures count { result ≡ digit_run text.now }
    ensures within { result ≤ length text.now }
{
    for (i, b) in text.iter().enumerate() {
        if !is_digit(*b) {
            return i;
        }
    }
    text.len()
}

fn is_digit(b: u8) -> bool
    ensures { result ≡ is_digit_byte b }
{
    b'0' <= b && b <= b'9'
}

/// How many places behind the point a unit has, where the last one is a femtosecond.
fn places(unit: &[u8]) -> Option<u32>
    ensures value { result ≡ unit_places unit.now }
{
    if unit == b"s".as_slice() {
        Some(15)
    } else if unit == b"ms".as_slice() {
        Some(12)
    } else if unit == b"us".as_slice() {
        Some(9)
    } else if unit == b"ns".as_slice() {
        Some(6)
    } else if unit == b"ps".as_slice() {
        Some(3)
    } else if unit == b"fs".as_slice() {
        Some(0)
    } else {
        None
    }
}

/// Whether no digit but 0 is left.
fn only_zeros(text: &[u8]) -> bool
    ensures { result ≡ all_zero text.now }
{
    for b in text {
        if *b != b'0' {
            return false;
        }
    }
    true
}

/// The next digit behind the point, and those behind it; 0 behind the last.
fn next(text: &[u8]) -> Option<(u128, &[u8])>
    ensures value { option_map (λ r. (r.0, r.1.now)) result ≡ next_digit text.now }
    ensures small { IfSome result (λ r. r.0 ≤ 9) }
{
    let Some((first, rest)) = text.split_first() else {
        return Some((0, text));
    };
    if !is_digit(*first) {
        return None;
    }
    Some((u128::from(*first - b'0'), rest))
}

/// The whole number below 2^63 that `whole` and this many digits behind the point say, where the others are zeros.
fn shift(whole: u128, places: u32, part: &[u8]) -> Option<u64>
    ensures { result ≡ below (2 ^ 63) (shifted whole places part.now) }
{
    let mut n = whole;
    let mut left = places;
    let mut rest = part;
    while left > 0 {
        if n >= TOO_LONG {
            return None;
        }
        let (digit, more) = next(rest)?;
        n = n * 10 + digit;
        left -= 1;
        rest = more;
    }
    if n < TOO_LONG && only_zeros(rest) {
        Some(n as u64)
    } else {
        None
    }
}

/// The femtoseconds that the digits before the point, those behind it and the unit say.
#[tactic(auto, unfolding(crate::specs::Times::with_unit))]
fn scaled(whole: &[u8], part: &[u8], unit: &[u8]) -> Option<u64>
    ensures { result ≡ with_unit whole.now part.now unit.now }
{
    let places = places(unit)?;
    let whole = number(whole)?;
    shift(whole, places, part)
}

/// The femtoseconds that these digits and what follows them say.
fn behind_digits(whole: &[u8], more: &[u8]) -> Option<u64>
    ensures { result ≡ pointed whole.now more.now }
{
    let (first, rest) = more.split_first()?;
    if *first != b'.' {
        return scaled(whole, &more[..0], more);
    }
    let len = digits(rest);
    if len == 0 {
        return None;
    }
    scaled(whole, &rest[..len], &rest[len..])
}

/// The femtoseconds that a word such as `1.5ns` says, where they are a whole number below 2^63.
#[tactic(auto, unfolding(crate::specs::Times::femtoseconds))]
fn femtoseconds(word: &[u8]) -> Option<u64>
    ensures { result ≡ spec.femtoseconds word.now }
{
    let len = digits(word);
    behind_digits(&word[..len], &word[len..])
}

/// What stands before this last byte of a word.
fn before_last(last: u8, word: &[u8]) -> Option<&[u8]>
    ensures { option_map (λ r. r.now) result ≡ spec.before_last last word.now }
{
    let len = word.len();
    if len == 0 {
        return None;
    }
    if word[len - 1] != last {
        return None;
    }
    Some(&word[..len - 1])
}

/// A count of steps in front before this letter, such as `1d`, or 0 where none stands there, and what follows.
fn steps<'a>(letter: u8, tokens: &Tokens<'a>) -> Option<(u64, Tokens<'a>)>
    ensures { result ≡ steps_at letter tokens.now }
{
    let Some((word, rest)) = tokens.any_word() else {
        return Some((0, tokens.copy()));
    };
    let Some(digits) = before_last(letter, word) else {
        return Some((0, tokens.copy()));
    };
    let n = number(digits)?;
    if n < TOO_MANY {
        Some((n as u64, rest))
    } else {
        None
    }
}

/// The time that ends the line: a number and a unit in one word, and then `Nd` and `Ne` or not.
///
/// It is a whole number of femtoseconds below 2^63, with fewer than 2^31 delta and epsilon steps.
#[tactic(auto, unfolding(crate::specs::Times::time_at))]
pub fn time(tokens: &Tokens) -> Option<Delay>
    ensures { result ≡ time_at tokens.now }
{
    let (word, rest) = tokens.any_word()?;
    let fs = femtoseconds(word)?;
    let (delta, rest) = steps(b'd', &rest)?;
    let (eps, rest) = steps(b'e', &rest)?;
    rest.end()?;
    Some(Delay { fs, delta, eps })
}
