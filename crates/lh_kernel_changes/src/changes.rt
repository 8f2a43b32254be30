//! The changes that a frame shows.
ghost use Rattle.std.specs.Prelude.{◌≡◌, ◌+◌, ◌<◌, ◌≤◌, ◌++◌, [], length, map, IfOk};
ghost use Rattle.lh_types.specs.Types.{IsData, bit_count};
ghost use Rattle.lh_types.specs.Pictures.{Showing, showing_of};
ghost use Rattle.lh_unit.specs.Trace.{signal_value};
ghost use Rattle.lh_unit.specs.Frames.{toggled, all_change, change_if, changed_from, signal_values};
ghost use Rattle.lh_design.specs.Texts.{signal_text};
ghost use Rattle.lh_design.specs.Filling.{SignalsFill};
ghost use Rattle.lh_kernel_changes.specs.Touched.{AreSignals, OthersStay};
ghost use Rattle.lh_kernel_changes.specs.Shown.{shown};

use lh_bits::bits::Bits;
use lh_bits::layout::from_bits;
use lh_design::{Design, Signal};
use lh_kernel_wakes::rising::Rising;
use lh_types::frame::{Change, ChangeList};
use lh_types::memory::NoMemory;
use lh_types::ty::bits;
use std::alloc::Global;

/// The changes of the first frame: every signal with its value, and no bit counted as toggled.
pub fn all_changes(alloc: Global, design: &Design, now: &Bits) -> Result<ChangeList, NoMemory>
    requires fill { SignalsFill design.now }
    requires width { length now.now ≡ length design.now.init }
    ensures { IfOk result
        (λ changes. map showing_of changes ≡ all_change 0 (signal_values (map signal_text design.now.signals.items) now.now)) }
{
    let mut changes = ChangeList::new(alloc);
    for (number, signal) in design.signals().iter().enumerate() {
        let change = change_of(alloc, number_of(number, now), signal, 0, now)?;
        changes.push(change)?;
    }
    Ok(changes)
}

/// The changes of a later frame: the signals whose values differ from those before, each with its value and how many of its bits
/// toggled. Only signals that are touched may differ. The work grows with these alone.
pub fn changes_among(
    alloc: Global,
    design: &Design,
    touched: &Rising,
    old: &Bits,
    now: &Bits,
) -> Result<ChangeList, NoMemory>
    requires fill { SignalsFill design.now }
    requires old_width { length old.now ≡ length design.now.init }
    requires width { length now.now ≡ length design.now.init }
    requires known { AreSignals design.now.signals.items touched.now }
    requires others { OthersStay design.now.signals.items touched.now old.now now.now }
    ensures { IfOk result
        (λ changes. map showing_of changes ≡ changed_from 0 (signal_values (map signal_text design.now.signals.items) old.now) (signal_values (map signal_text design.now.signals.items) now.now)) }
{
    let mut changes = ChangeList::new(alloc);
    for &number in touched.as_slice() {
        let signal = &design.signals()[number as usize];
        add_change(alloc, &mut changes, number, signal, old, now)?;
    }
    Ok(changes)
}

/// Adds the change of a signal, where some of its bits toggled.
fn add_change(
    alloc: Global,
    changes: &mut ChangeList,
    number: u32,
    signal: &Signal,
    old: &Bits,
    now: &Bits,
) -> Result<(), NoMemory>
    requires data { IsData signal.now.ty }
    requires in_old { signal.now.lo + bit_count signal.now.ty ≤ length old.now }
    requires in_now { signal.now.lo + bit_count signal.now.ty ≤ length now.now }
    ensures { IfOk result
        (λ done. map showing_of changes.new ≡ map showing_of changes.old ++ change_if number (toggled (signal_value old.now (signal_text signal.now)) (signal_value now.now (signal_text signal.now))) (signal_value now.now (signal_text signal.now)) []) }
{
    let toggled = old.toggled(now, signal.lo, bits(&signal.ty));
    if toggled == 0 {
        return Ok(());
    }
    let change = change_of(alloc, number, signal, toggled, now)?;
    changes.push(change)?;
    Ok(())
}

/// A signal of this number with its value, and how many of its bits toggled.
fn change_of(
    alloc: Global,
    number: u32,
    signal: &Signal,
    toggled: u32,
    now: &Bits,
) -> Result<Change, NoMemory>
    requires data { IsData signal.now.ty }
    requires within { signal.now.lo + bit_count signal.now.ty ≤ length now.now }
    ensures { IfOk result
        (λ change. showing_of change ≡ shown number toggled (signal_value now.now (signal_text signal.now))) }
{
    let value = from_bits(alloc, &signal.ty, now, signal.lo)?;
    Ok(Change {
        signal: number,
        toggled,
        value,
    })
}

/// The number of a signal by its place: there are no more signals than bits.
fn number_of(place: usize, now: &Bits) -> u32
    requires { place < length now.now }
    ensures { result ≡ place }
{
    // There are fewer than 2^32 bits.
    let _ = now.len();
    place as u32
}
