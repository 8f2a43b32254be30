//! The signed rows, in two's complement.
ghost use Rattle.std.specs.Prelude.{◌≡◌, ◌-◌, ◌^◌, ◌<◌, ◌≤◌, unsigned_abs, int_lt, int_div, int_rem};
ghost use Rattle.lh_types.specs.ApplyInt.{signed, wrapped, divided, int_mod};
ghost use Rattle.lh_ops.specs.Signs.{with_sign, has_sign};

use crate::words::{cut, difference};

/// Whether the word is negative.
fn is_negative(width: u32, a: u128) -> bool
    requires { (1 ≤ width) × (width ≤ 128) }
    ensures { result ≡ has_sign width a }
{
    a >> (width - 1) != 0
}

/// The absolute value of the word.
fn magnitude(width: u32, a: u128) -> u128
    requires width { (1 ≤ width) × (width ≤ 128) }
    requires fits { a < 2 ^ width }
    ensures { result ≡ unsigned_abs (signed width a) }
{
    if is_negative(width, a) {
        difference(width, 0, a)
    } else {
        a
    }
}

/// The word of the whole number with this sign and absolute value.
fn signed_word(width: u32, negative: bool, magnitude: u128) -> u128
    requires width { (1 ≤ width) × (width ≤ 128) }
    requires fits { magnitude < 2 ^ width }
    ensures { result ≡ wrapped width (with_sign negative magnitude) }
{
    if negative {
        difference(width, 0, magnitude)
    } else {
        cut(width, magnitude)
    }
}

/// The quotient, rounded toward zero; 0 where the divisor is 0.
pub(crate) fn signed_quotient(width: u32, a: u128, b: u128) -> u128
    requires width { (1 ≤ width) × (width ≤ 128) }
    requires fits { (a < 2 ^ width) × (b < 2 ^ width) }
    ensures { result ≡ divided b (wrapped width (int_div (signed width a) (signed width b))) }
{
    if b == 0 {
        return 0;
    }
    let negative = is_negative(width, a) != is_negative(width, b);
    signed_word(width, negative, magnitude(width, a) / magnitude(width, b))
}

/// The remainder with the sign of the dividend; 0 where the divisor is 0.
pub(crate) fn signed_remainder(width: u32, a: u128, b: u128) -> u128
    requires width { (1 ≤ width) × (width ≤ 128) }
    requires fits { (a < 2 ^ width) × (b < 2 ^ width) }
    ensures { result ≡ divided b (wrapped width (int_rem (signed width a) (signed width b))) }
{
    if b == 0 {
        return 0;
    }
    let left = magnitude(width, a) % magnitude(width, b);
    signed_word(width, is_negative(width, a), left)
}

/// The remainder with the sign of the divisor; 0 where the divisor is 0.
pub(crate) fn signed_modulo(width: u32, a: u128, b: u128) -> u128
    requires width { (1 ≤ width) × (width ≤ 128) }
    requires fits { (a < 2 ^ width) × (b < 2 ^ width) }
    ensures { result ≡ divided b (wrapped width (int_mod (signed width a) (signed width b))) }
{
    if b == 0 {
        return 0;
    }
    let divisor = magnitude(width, b);
    let left = magnitude(width, a) % divisor;
    let negative = is_negative(width, b);
    if left == 0 {
        return 0;
    }
    if is_negative(width, a) == negative {
        return signed_word(width, negative, left);
    }
    signed_word(width, negative, divisor - left)
}

/// Whether the first is below the second.
pub(crate) fn signed_less(width: u32, a: u128, b: u128) -> bool
    requires width { (1 ≤ width) × (width ≤ 128) }
    requires fits { (a < 2 ^ width) × (b < 2 ^ width) }
    ensures { result ≡ int_lt (signed width a) (signed width b) }
{
    let negative = is_negative(width, a);
    if negative != is_negative(width, b) {
        return negative;
    }
    a < b
}
