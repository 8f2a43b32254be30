//! Bits that are missing count as 0: what zeros behind the bits of the signals change, which is nothing. Each law is the contract of a
//! function that does nothing.
ghost use Rattle.lh_flat_state_laws.specs.Padding.{PaddedBits, PaddedValues, PaddedParts, PaddedProbes, PaddedSteps, PaddedActivations, PaddedPasses, PaddedRanges};

/// The bit of each number is the same with zeros behind the bits.
pub fn bits_law()
    ensures { PaddedBits }
{}

/// So is the value of each type that the bits have.
pub fn values_law()
    ensures { PaddedValues }
{}

/// So is the value that a part of the signals has.
pub fn parts_law()
    ensures { PaddedParts }
{}

/// So is what a probe gives.
pub fn probes_law()
    ensures { PaddedProbes }
{}

/// Each instruction of a function or a process leads to the same.
pub fn steps_law()
    ensures { PaddedSteps }
{}

/// Each activation of a process is the same.
pub fn activations_law()
    ensures { PaddedActivations }
{}

/// Each pass of an entity is the same.
pub fn passes_law()
    ensures { PaddedPasses }
{}

/// Arguments that have the widths of their types lie within the bits, where as many zeros stand behind these as the arguments reach
/// over, or more.
pub fn ranges_law()
    ensures { PaddedRanges }
{}
