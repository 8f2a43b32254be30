//! Taking back what a frame changed.
ghost use Rattle.std.specs.Prelude.{◌≡◌, ℕ, length};
ghost use Rattle.lh_kernel_wakes.specs.Rising.{IsOneOf};
ghost use Rattle.lh_design.specs.Filling.{SignalsFill};
ghost use Rattle.lh_kernel_changes.specs.Touched.{AreSignals, StaysSame, OthersStay};

use lh_bits::bits::Bits;
use lh_design::Design;
use lh_kernel_wakes::rising::Rising;
use lh_types::ty::bits;

/// The bits of the touched signals become those of `from`, and all others stay: where no other signal differs, the bits are then
/// those of `from`. It takes no memory.
pub fn put_signals(now: &mut Bits, from: &Bits, design: &Design, touched: &Rising)
    requires fill { SignalsFill design.now }
    requires width { length now.old ≡ length design.now.init }
    requires from_width { length from.now ≡ length design.now.init }
    requires known { AreSignals design.now.signals.items touched.now }
    ensures len { length now.new ≡ length now.old }
    ensures put { (k : ℕ) → IsOneOf k touched.now → StaysSame design.now.signals.items from.now now.new k }
    ensures others { OthersStay design.now.signals.items touched.now now.old now.new }
    ensures undone { OthersStay design.now.signals.items touched.now now.old from.now → now.new ≡ from.now }
{
    for &number in touched.as_slice() {
        let signal = &design.signals()[number as usize];
        now.put_part(signal.lo, from, signal.lo, bits(&signal.ty));
    }
}
