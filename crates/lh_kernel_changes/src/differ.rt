//! Whether bits differ between two frames.
ghost use Rattle.std.specs.Prelude.{◌≡◌, ◌<◌, List, Bool, true, length, None, IfSome, IsTrue};
ghost use Rattle.std.specs.List.{list_any};
ghost use Rattle.lh_unit.specs.World.{bit_numbers, bit_differs};
ghost use Rattle.lh_design.specs.Filling.{SignalsFill};
ghost use Rattle.lh_kernel_changes.specs.Touched.{AreWithin, StaysSame, IsWholeSignal, PartDiffers};

use lh_bits::bits::Bits;
use lh_design::Design;
use lh_types::part::Range;
use lh_types::ty::bits;

/// Whether some bit of the parts differs.
pub fn differs(parts: &[Range], old: &Bits, now: &Bits) -> bool
    requires in_old { AreWithin (length old.now) parts.now }
    requires in_now { AreWithin (length now.now) parts.now }
    ensures { result ≡ list_any (bit_differs old.now now.now) (bit_numbers parts.now) }
{
    for part in parts {
        if !old.same_part(now, part.lo, part.len) {
            return true;
        }
    }
    false
}

/// Whether a bit of the parts differs, where one part is known to differ: it is looked for before any bit is compared.
pub fn differs_with(parts: &[Range], known: Range, old: &Bits, now: &Bits) -> bool
    requires in_old { AreWithin (length old.now) parts.now }
    requires in_now { AreWithin (length now.now) parts.now }
    requires known { PartDiffers old.now now.now known }
    ensures { result ≡ list_any (bit_differs old.now now.now) (bit_numbers parts.now) }
{
    if has_part(parts, known) {
        return true;
    }
    differs(parts, old, now)
}

/// Whether a part that differs is one of these.
fn has_part(parts: &[Range], part: Range) -> bool
    ensures { (old : List Bool) (now : List Bool) → PartDiffers old now part → IsTrue result → list_any (bit_differs old now) (bit_numbers parts.now) ≡ true }
{
    for one in parts {
        if one.lo == part.lo && one.len == part.len {
            return true;
        }
    }
    false
}

/// The bits of a signal, where some bit of it differs.
pub fn changed_part(design: &Design, signal: u32, old: &Bits, now: &Bits) -> Option<Range>
    requires fill { SignalsFill design.now }
    requires in_old { length old.now ≡ length design.now.init }
    requires in_now { length now.now ≡ length design.now.init }
    requires known { signal < length design.now.signals.items }
    ensures stays { result ≡ None → StaysSame design.now.signals.items old.now now.now signal }
    ensures part { IfSome result (IsWholeSignal design.now.signals.items signal) }
    ensures differs { IfSome result (PartDiffers old.now now.now) }
{
    let signal = &design.signals()[signal as usize];
    let (lo, len) = (signal.lo, bits(&signal.ty));
    if old.same_part(now, lo, len) {
        None
    } else {
        Some(Range { lo, len })
    }
}
