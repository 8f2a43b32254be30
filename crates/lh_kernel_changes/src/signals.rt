//! Which signals have which bits.
ghost use Rattle.std.specs.Prelude.{◌≡◌, ◌+◌, ◌<◌, ◌≤◌, length, IfOk, IsTrue};
ghost use Rattle.lh_bits.specs.Writes.{BitsWithin};
ghost use Rattle.lh_unit.specs.World.{bits_from, bit_numbers};
ghost use Rattle.lh_design.specs.Filling.{SignalsFill};
ghost use Rattle.lh_kernel_changes.specs.Touched.{SignalHasBit, AreTouched, TouchesMore, AreWithin, bits_named};

use lh_bits::writes::BitWrites;
use lh_design::Design;
use lh_kernel_wakes::gathered::Gathered;
use lh_kernel_wakes::rising::Rising;
use lh_types::memory::NoMemory;
use lh_types::part::Range;
use lh_types::ty::bits;
use std::alloc::Global;

/// So many signals are looked at before all are searched.
const NEAR: u32 = 4;

/// The number of the signal that has a bit.
pub fn signal_at(design: &Design, bit: u32) -> u32
    requires fill { SignalsFill design.now }
    requires within { bit < length design.now.init }
    ensures { SignalHasBit design.now.signals.items result bit }
{
    let after = design.signals().partition_point(|signal| signal.lo <= bit);
    (after - 1) as u32
}

/// The number of the signal that has a bit: a few from this number on are looked at before all are searched.
fn signal_near(design: &Design, near: u32, bit: u32) -> u32
    requires fill { SignalsFill design.now }
    requires within { bit < length design.now.init }
    ensures { SignalHasBit design.now.signals.items result bit }
{
    for number in near..near.saturating_add(NEAR) {
        if has_bit(design, number, bit) {
            return number;
        }
    }
    signal_at(design, bit)
}

/// Whether there is a signal of this number that has a bit.
fn has_bit(design: &Design, number: u32, bit: u32) -> bool
    requires { SignalsFill design.now }
    ensures { IsTrue result → SignalHasBit design.now.signals.items number bit }
{
    match design.signals().get(number as usize) {
        Some(signal) => signal.lo <= bit && bit - signal.lo < bits(&signal.ty),
        None => false,
    }
}

/// Exactly the signals that have a bit of the parts.
pub fn signals_of(alloc: Global, design: &Design, parts: &[Range]) -> Result<Rising, NoMemory>
    requires fill { SignalsFill design.now }
    requires within { AreWithin (length design.now.init) parts.now }
    ensures { IfOk result
        (λ touched. AreTouched design.now.signals.items (bit_numbers parts.now) touched) }
{
    let touched = touched_by(alloc, design, parts)?.into_rising(alloc)?;
    Ok(touched)
}

/// The signals that have a bit of the parts, as they come.
fn touched_by(alloc: Global, design: &Design, parts: &[Range]) -> Result<Gathered, NoMemory>
    requires fill { SignalsFill design.now }
    requires within { AreWithin (length design.now.init) parts.now }
    ensures { IfOk result
        (λ touched. AreTouched design.now.signals.items (bit_numbers parts.now) touched) }
{
    let mut touched = Gathered::new(alloc);
    for part in parts {
        touch(&mut touched, design, part.lo, part.len)?;
    }
    Ok(touched)
}

/// Adds exactly the signals that have a bit that is written.
pub fn touch_written(
    touched: &mut Gathered,
    design: &Design,
    writes: &BitWrites,
) -> Result<(), NoMemory>
    requires fill { SignalsFill design.now }
    requires within { BitsWithin (length design.now.init) writes.now }
    ensures { IfOk result
        (λ done. TouchesMore design.now.signals.items (bits_named writes.now) touched.old touched.new) }
{
    for run in writes.runs() {
        touch(touched, design, run.lo, run.bits.len())?;
    }
    Ok(())
}

/// Adds exactly the signals that have one of the `len` bits from `lo` on.
pub fn touch(touched: &mut Gathered, design: &Design, lo: u32, len: u32) -> Result<(), NoMemory>
    requires fill { SignalsFill design.now }
    requires within { lo + len ≤ length design.now.init }
    ensures { IfOk result
        (λ done. TouchesMore design.now.signals.items (bits_from lo len) touched.old touched.new) }
{
    if len == 0 {
        return Ok(());
    }
    let end = end_of(design, lo, len);
    // Most drives of a frame come in the order of their signals.
    let first = signal_near(design, touched.latest_in_order(), lo);
    let last = signal_near(design, first, end - 1);
    for signal in first..last + 1 {
        touched.add(signal)?;
    }
    Ok(())
}

/// One past the last of the `len` bits from `lo` on.
fn end_of(design: &Design, lo: u32, len: u32) -> u32
    requires { lo + len ≤ length design.now.init }
    ensures { result ≡ lo + len }
{
    // There are fewer than 2^32 bits.
    let _ = design.init().len();
    lo + len
}
