//! Funnel shifts, and the bits within a word.
ghost use Rattle.std.specs.Prelude.{◌≡◌, ◌+◌, ◌^◌, ◌<◌, ◌≤◌};
ghost use Rattle.lh_types.specs.ApplyInt.{moved_up, moved_down};
ghost use Rattle.lh_ops.specs.Operands.{bits_from, bits_replaced};

use crate::words::cut;

/// The funnel shift up: `base` moved up by `by` places, and the top bits of `filler` below it.
pub(crate) fn shift_up(width: u32, base: u128, filler: u128, by: u32) -> u128
    requires width { (1 ≤ width) × (width ≤ 128) }
    requires fits { (base < 2 ^ width) × (filler < 2 ^ width) }
    requires by { by ≤ width }
    ensures { result ≡ moved_up width base filler by }
{
    if by == 0 {
        return base;
    }
    if by == width {
        return filler;
    }
    cut(width - by, base) << by | filler >> (width - by)
}

/// The funnel shift down: `base` moved down by `by` places, and the low bits of `filler` above it.
pub(crate) fn shift_down(width: u32, base: u128, filler: u128, by: u32) -> u128
    requires width { (1 ≤ width) × (width ≤ 128) }
    requires fits { (base < 2 ^ width) × (filler < 2 ^ width) }
    requires by { by ≤ width }
    ensures { result ≡ moved_down width base filler by }
{
    if by == 0 {
        return base;
    }
    if by == width {
        return filler;
    }
    cut(by, filler) << (width - by) | base >> by
}

/// The `len` bits of a word from bit `at`.
pub(crate) fn bits_at(word: u128, at: u32, len: u32) -> u128
    requires len { 1 ≤ len }
    requires within { at + len ≤ 128 }
    ensures { result ≡ bits_from word at len }
{
    cut(len, word >> at)
}

/// The word with the `len` bits from bit `at` replaced.
pub(crate) fn with_bits(width: u32, word: u128, new: u128, at: u32, len: u32) -> u128
    requires width { width ≤ 128 }
    requires len { 1 ≤ len }
    requires within { at + len ≤ width }
    requires fits { (word < 2 ^ width) × (new < 2 ^ len) }
    ensures { result ≡ bits_replaced word new at len }
{
    word - (bits_at(word, at, len) << at) + (new << at)
}
