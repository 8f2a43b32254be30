//! What gates give at 64 valuations at once. A valuation is a number, in which bit j is the value of atom j.
ghost use Rattle.std.specs.Prelude.{◌≡◌, ◌↔◌, ℕ, ◌+◌, ◌*◌, ◌<◌, IsTrue, IfOk, OnOk, if◌then◌else◌, not, slice_index};
ghost use Rattle.lh_cert_agree.specs.Gates.{AreSame, AreWords, gate_bit, bit_of_number, column};

use crate::gates::Gate;
use lh_types::memory::NoMemory;
use std::alloc::Global;

/// The values of the first six atoms at 64 valuations that follow each other.
const MASKS: [u64; 6] = [
    0xAAAA_AAAA_AAAA_AAAA,
    0xCCCC_CCCC_CCCC_CCCC,
    0xF0F0_F0F0_F0F0_F0F0,
    0xFF00_FF00_FF00_FF00,
    0xFFFF_0000_FFFF_0000,
    0xFFFF_FFFF_0000_0000,
];

/// Whether the gates at two places give the same at the valuations of so many blocks of 64.
pub(crate) fn are_same(
    alloc: Global,
    gates: &[Gate],
    a: usize,
    b: usize,
    blocks: usize,
) -> Result<bool, NoMemory>
    ensures { IfOk result (λ same. IsTrue same ↔ AreSame gates.now a b blocks) }
{
    let mut words = Vec::new(alloc);
    for block in 0..blocks {
        fill(gates, block, &mut words)?;
        if word_at(&words, a) != word_at(&words, b) {
            return Ok(false);
        }
    }
    Ok(true)
}

/// Puts what each gate gives at the valuations of a block in the place of what was there.
fn fill(gates: &[Gate], block: usize, words: &mut Vec<u64>) -> Result<(), NoMemory>
    ensures { OnOk result (AreWords gates.now block words.new.items) }
{
    words.clear();
    for gate in gates {
        let word = word_of(*gate, block, words);
        words.push(word)?;
    }
    Ok(())
}

/// What a gate gives at the valuations of a block, by what the gates before it give there.
fn word_of(gate: Gate, block: usize, words: &[u64]) -> u64
    ensures { (i : ℕ) → i < 64 → bit_of_number result i ≡ gate_bit (64 * block + i) (column i words.now) gate }
{
    match gate {
        Gate::Given(bit) => repeated(bit),
        Gate::Atom(j) => atom_word(j, block),
        Gate::Not(a) => opposite(word_at(words, a)),
        Gate::And(a, b) => word_at(words, a) & word_at(words, b),
        Gate::Or(a, b) => word_at(words, a) | word_at(words, b),
        Gate::Differ(a, b) => word_at(words, a) ^ word_at(words, b),
        Gate::Same(a, b) => opposite(word_at(words, a) ^ word_at(words, b)),
        Gate::Choice(c, f, t) => chosen(word_at(words, c), word_at(words, f), word_at(words, t)),
    }
}

/// The bits of `t` where those of `c` are 1, and else those of `f`.
fn chosen(c: u64, f: u64, t: u64) -> u64
    ensures { (i : ℕ) → i < 64 → bit_of_number result i ≡ (if bit_of_number c i then bit_of_number t i else bit_of_number f i) }
{
    (c & t) | (opposite(c) & f)
}

/// The other bits.
fn opposite(word: u64) -> u64
    ensures { (i : ℕ) → i < 64 → bit_of_number result i ≡ not (bit_of_number word i) }
{
    !word
}

/// The word at a place, 0 behind the last.
fn word_at(words: &[u64], place: usize) -> u64
    ensures { result ≡ slice_index words.now place }
{
    match words.get(place) {
        Some(word) => *word,
        None => 0,
    }
}

/// The values of an atom at the valuations of a block.
fn atom_word(j: usize, block: usize) -> u64
    ensures { (i : ℕ) → i < 64 → bit_of_number result i ≡ bit_of_number (64 * block + i) j }
{
    if j < 6 {
        MASKS[j]
    } else {
        repeated(bit_of(block, j - 6))
    }
}

/// 64 times the same bit.
fn repeated(bit: bool) -> u64
    ensures { (i : ℕ) → i < 64 → bit_of_number result i ≡ bit }
{
    if bit { u64::MAX } else { 0 }
}

/// Bit `j` of a number.
fn bit_of(n: usize, j: usize) -> bool
    ensures { result ≡ bit_of_number n j }
{
    if j < 64 { (n >> j) & 1 == 1 } else { false }
}
