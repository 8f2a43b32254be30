//! Words of one width: numbers below 2 ^ width in 128 bits.
ghost use Rattle.std.specs.Prelude.{◌≡◌, ◌+◌, ◌-◌, ◌*◌, ◌/◌, ◌%◌, ◌^◌, ◌<◌, ◌≤◌};
ghost use Rattle.lh_types.specs.ApplyInt.{divided};

/// The greatest number of this width, all of whose bits are set.
pub(crate) fn ones(width: u32) -> u128
    requires { (1 ≤ width) × (width ≤ 128) }
    ensures { result ≡ 2 ^ width - 1 }
{
    u128::MAX >> (128 - width)
}

/// The low bits of a number.
pub(crate) fn cut(width: u32, x: u128) -> u128
    requires { (1 ≤ width) × (width ≤ 128) }
    ensures { result ≡ x % 2 ^ width }
{
    x & ones(width)
}

/// The sum modulo 2 ^ width.
pub(crate) fn sum(width: u32, a: u128, b: u128) -> u128
    requires { (1 ≤ width) × (width ≤ 128) }
    ensures { result ≡ (a + b) % 2 ^ width }
{
    cut(width, a.wrapping_add(b))
}

/// The difference modulo 2 ^ width.
pub(crate) fn difference(width: u32, a: u128, b: u128) -> u128
    requires width { (1 ≤ width) × (width ≤ 128) }
    requires fits { b < 2 ^ width }
    ensures { result ≡ (a + (2 ^ width - b)) % 2 ^ width }
{
    cut(width, a.wrapping_sub(b))
}

/// The product modulo 2 ^ width, without a wider number.
pub(crate) fn product(width: u32, a: u128, b: u128) -> u128
    requires { (1 ≤ width) × (width ≤ 128) }
    ensures { result ≡ (a * b) % 2 ^ width }
{
    cut(width, a.wrapping_mul(b))
}

/// The quotient, rounded down; 0 where the divisor is 0.
pub(crate) fn quotient(a: u128, b: u128) -> u128
    ensures { result ≡ divided b (a / b) }
{
    if b == 0 {
        return 0;
    }
    a / b
}

/// The remainder; 0 where the divisor is 0.
pub(crate) fn remainder(a: u128, b: u128) -> u128
    ensures { result ≡ divided b (a % b) }
{
    if b == 0 {
        return 0;
    }
    a % b
}
