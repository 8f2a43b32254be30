//! Laws of the bits of signals, each as the contract of a function that does nothing.
ghost use Rattle.lh_kernel_changes.specs.Laws.{PartsStay, OnlyTouchedChange, OnlyWrittenChange, SignalsAreAll};

/// Where the signals that have a bit of some parts have the same bits in both frames, no bit of the parts differs: who senses
/// these parts is not woken by them. Where all signals have the same bits, all bits are the same.
pub fn same_law()
    ensures parts { PartsStay }
    ensures all { SignalsAreAll }
{}

/// Where no bit changes but some that are known, and so where these are written, each signal stays that has none of them.
pub fn touched_law()
    ensures only { OnlyTouchedChange }
    ensures written { OnlyWrittenChange }
{}
