//! Runs of bits of machine words, a word at a time.
ghost use Rattle.std.specs.Prelude.{◌≡◌, ℕ, ◌+◌, ◌*◌, ◌/◌, ◌^◌, ◌<◌, ◌≤◌, ◌-◌, ◌%◌, ◌↔◌, IsTrue, OnOk, OnErr, length, min};
ghost use Rattle.smallvec.specs.SmallVec.{small_vec_len};
ghost use Rattle.std.specs.Int.{bit_at};
ghost use Rattle.lh_types.specs.Bits.{differing};
ghost use Rattle.lh_bits.specs.Flags.{word_bit, flags};

use crate::word::{ones_below, put_window, window};
use lh_types::memory::NoMemory;
use smallvec::SmallVec;

/// How many of the next `rest` bits from bit `at` on lie in one word.
fn in_word(at: u32, rest: u32) -> u32
    ensures { result ≡ min (64 - at % 64) rest }
{
    (64 - at % 64).min(rest)
}

/// The `len` bits from `lo` on become those of `from` from `at` on.
pub(crate) fn copy_run(to: &mut [u64], lo: u32, from: &[u64], at: u32, len: u32)
    requires to_fits { lo + len < 2 ^ 32 }
    requires from_fits { at + len < 2 ^ 32 }
    requires to_within { lo + len ≤ 64 * length to.old }
    requires from_within { at + len ≤ 64 * length from.now }
    ensures before { (i : ℕ) → i < lo → word_bit to.new i ≡ word_bit to.old i }
    ensures each { (j : ℕ) → j < len → word_bit to.new (lo + j) ≡ word_bit from.now (at + j) }
    ensures after { (i : ℕ) → lo + len ≤ i → word_bit to.new i ≡ word_bit to.old i }
{
    let mut done = 0;
    while done < len {
        let n = in_word(lo + done, len - done);
        let x = window(from, at + done, n);
        put_window(to, lo + done, n, x);
        done += n;
    }
}

/// Whether the `len` bits from `lo` on are the same.
pub(crate) fn same_run(a: &[u64], b: &[u64], lo: u32, len: u32) -> bool
    requires fits { lo + len < 2 ^ 32 }
    requires a_within { lo + len ≤ 64 * length a.now }
    requires b_within { lo + len ≤ 64 * length b.now }
    ensures { IsTrue result ↔ (flags len lo a.now ≡ flags len lo b.now) }
{
    let mut done = 0;
    while done < len {
        let n = in_word(lo + done, len - done);
        if window(a, lo + done, n) != window(b, lo + done, n) {
            return false;
        }
        done += n;
    }
    true
}

/// At how many of the `len` bits from `lo` on the two differ.
pub(crate) fn differing_run(a: &[u64], b: &[u64], lo: u32, len: u32) -> u32
    requires fits { lo + len < 2 ^ 32 }
    requires a_within { lo + len ≤ 64 * length a.now }
    requires b_within { lo + len ≤ 64 * length b.now }
    ensures { result ≡ differing (flags len lo a.now) (flags len lo b.now) }
{
    let mut done = 0;
    let mut count = 0;
    while done < len {
        let n = in_word(lo + done, len - done);
        let x = window(a, lo + done, n);
        let y = window(b, lo + done, n);
        count += (x ^ y).count_ones();
        done += n;
    }
    count
}

/// The `width` bits from bit `at` on, as a number.
pub(crate) fn number_run(words: &[u64], at: u32, width: u32) -> u128
    requires narrow { width ≤ 128 }
    requires fits { at + width < 2 ^ 32 }
    requires within { at + width ≤ 64 * length words.now }
    ensures small { result < 2 ^ width }
    ensures each { (j : ℕ) → j < width → bit_at result j ≡ word_bit words.now (at + j) }
{
    if width == 0 {
        return 0;
    }
    if width <= 64 {
        return window(words, at, width) as u128;
    }
    let low = window(words, at, 64);
    let high = window(words, at + 64, width - 64);
    (high as u128) << 64 | low as u128
}

/// The number's bits from bit `k` on, the lowest first; past the highest they are 0.
fn above(number: u128, k: u32) -> u128
    ensures { result ≡ number / 2 ^ k }
{
    if k < 128 { number >> k } else { 0 }
}

/// The `width` bits from bit `at` on become the number's lowest.
pub(crate) fn put_number_run(words: &mut [u64], at: u32, width: u32, number: u128)
    requires fits { at + width < 2 ^ 32 }
    requires within { at + width ≤ 64 * length words.old }
    ensures before { (i : ℕ) → i < at → word_bit words.new i ≡ word_bit words.old i }
    ensures each { (j : ℕ) → j < width → word_bit words.new (at + j) ≡ bit_at number j }
    ensures after { (i : ℕ) → at + width ≤ i → word_bit words.new i ≡ word_bit words.old i }
{
    let mut done = 0;
    while done < width {
        let n = in_word(at + done, width - done);
        let x = above(number, done) & ones_below(n) as u128;
        put_window(words, at + done, n, x as u64);
        done += n;
    }
}

/// Adds words that are 0 up to this many; when memory runs out the words stay as they were.
pub(crate) fn grow(words: &mut SmallVec<u64, 2>, wanted: usize) -> Result<(), NoMemory>
    requires { small_vec_len words.old ≤ wanted }
    ensures len { OnOk result (small_vec_len words.new ≡ wanted) }
    ensures same { OnOk result ((i : ℕ) → word_bit words.new.items i ≡ word_bit words.old.items i) }
    ensures err { OnErr result (words.new.items ≡ words.old.items) }
{
    let held = words.len();
    while words.len() < wanted {
        match words.push(0) {
            Ok(()) => {}
            Err(_) => {
                words.truncate(held);
                return Err(NoMemory);
            }
        }
    }
    Ok(())
}
