//! Bits of machine words: one word operation reads or writes up to 64 of them.
ghost use Rattle.std.specs.Prelude.{◌≡◌, ℕ, ◌+◌, ◌*◌, ◌%◌, ◌^◌, ◌<◌, ◌≤◌, ◌-◌, length};
ghost use Rattle.std.specs.Int.{bit_at};
ghost use Rattle.lh_bits.specs.Flags.{word_bit};

/// The number with ones at its lowest `n` bits.
pub(crate) fn ones_below(n: u32) -> u64
    requires some { 0 < n }
    requires narrow { n ≤ 64 }
    ensures { result ≡ 2 ^ n - 1 }
{
    u64::MAX >> (64 - n)
}

/// The `n` bits from bit `at` on, as a number.
pub(crate) fn window(words: &[u64], at: u32, n: u32) -> u64
    requires some { 0 < n }
    requires narrow { n ≤ 64 }
    requires within { at + n ≤ 64 * length words.now }
    ensures small { result < 2 ^ n }
    ensures each { (j : ℕ) → j < n → bit_at result j ≡ word_bit words.now (at + j) }
{
    let k = (at / 64) as usize;
    let s = at % 64;
    let mut x = words[k] >> s;
    if s + n > 64 {
        x |= words[k + 1] << (64 - s);
    }
    x & ones_below(n)
}

/// Writes the number's lowest `n` bits at the bits from `at` on, which lie in one word.
pub(crate) fn put_window(words: &mut [u64], at: u32, n: u32, x: u64)
    requires some { 0 < n }
    requires one_word { at % 64 + n ≤ 64 }
    requires within { at + n ≤ 64 * length words.old }
    requires small { x < 2 ^ n }
    ensures before { (i : ℕ) → i < at → word_bit words.new i ≡ word_bit words.old i }
    ensures each { (j : ℕ) → j < n → word_bit words.new (at + j) ≡ bit_at x j }
    ensures after { (i : ℕ) → at + n ≤ i → word_bit words.new i ≡ word_bit words.old i }
{
    let k = (at / 64) as usize;
    let s = at % 64;
    let keep = !(ones_below(n) << s);
    words[k] = words[k] & keep | x << s;
}
