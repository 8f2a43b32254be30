//! Bits before and behind a place.
ghost use Rattle.std.specs.Prelude.{◌≡◌, take, drop, IfOk};

use lh_bits::bits::Bits;
use lh_types::memory::NoMemory;

/// The first bits, or all where there are not so many.
pub(crate) fn first_bits(bits: &Bits, n: u32) -> Result<Bits, NoMemory>
    ensures { IfOk result (λ b. b ≡ take n bits.now) }
{
    bits.part(0, n.min(bits.len()))
}

/// The bits behind the first ones.
pub(crate) fn other_bits(bits: &Bits, n: u32) -> Result<Bits, NoMemory>
    ensures { IfOk result (λ b. b ≡ drop n bits.now) }
{
    let n = n.min(bits.len());
    bits.part(n, bits.len() - n)
}
