//! A process of a well-formed module and its flat text between their activations, whatever the bits of the signals are. Each law is the
//! contract of a function that does nothing.
ghost use Rattle.lh_flat_state_laws.specs.Lasting.{LastingBegins, LastingActs, LastingWaits, LastingStands};

/// A process and its flat text stand alike as they begin, where the arguments have the widths of their types.
pub fn begins_law()
    ensures { LastingBegins }
{}

/// Where an activation of the flat text ends, that of the process does, with the same wish and the same outcomes, and both stand alike
/// again.
pub fn acts_law()
    ensures { LastingActs }
{}

/// Both wait for the same parts of the signals, and wake by themselves at the same instant.
pub fn waits_law()
    ensures { LastingWaits }
{}

/// Where the flat text waits the process does, for the same block, and where it has halted so has the process.
pub fn stands_law()
    ensures { LastingStands }
{}
