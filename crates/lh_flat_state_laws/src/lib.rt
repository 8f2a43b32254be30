//! Laws of flat texts from one activation to the next: a process of a well-formed module and its flat text do the
//! same, for any number of bits. Each is the contract of a function that does nothing, so that other crates can
//! cite it.
#![tactic(auto)]

pub mod between;
pub mod zeros;

ghost use Rattle.lh_flat_state_laws.specs.Acts.{FlatTextsAct};
ghost use Rattle.lh_flat_state_laws.specs.Formed.{FlatTextsAreFormed};

/// A process of a well-formed module that stands as its flat text does, in a state that fits: where an activation of the flat text
/// ends, that of the process does, in no more instructions, and both then stand alike, with the same wish and the same outcomes.
pub fn activation_law()
    ensures { FlatTextsAct }
{}

/// Read as a process, a flat text is formed: each instruction has its row and its types, an operand is given on each path before it
/// is named, each block ends with its one terminator, and no name stands twice.
pub fn formed_law()
    ensures { FlatTextsAreFormed }
{}
