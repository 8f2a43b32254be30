//! What a process does is what its flat text does. Each law is the contract of a function that does nothing, so that other crates can
//! cite it.
ghost use Rattle.lh_flat_laws.specs.Activates.{ActivatesAlike, BeginsAlike};
ghost use Rattle.lh_flat_laws.specs.Recursion.{RecursionIsFound, RecursionIsRefused};
ghost use Rattle.lh_flat_laws.specs.Tidy.{FunctionsAreTidy, ProcessesAreTidy};

/// Where an activation of the flat text of a process ends, that of the process does, in no more instructions: with the same wish and the
/// same outcomes, at the `wait` in whose last piece the flat text waits, for the same parts and until the same instant. What the
/// process then holds, the flat text holds under the same name. So whatever is known of activations of flat texts, in which no call is
/// open, is known of the process. Nothing but too many open calls may stop the process on the way.
pub fn activation_law()
    ensures { ActivatesAlike }
{}

/// A process and its flat text begin alike.
pub fn begin_law()
    ensures { BeginsAlike }
{}

/// In a well-formed module names are of bytes and stand once, blocks end with their one terminator and begin with their `phi`, and a
/// call with a result that has a name is of a function that always gives a value: so copies of its functions keep apart.
pub fn tidy_law()
    ensures functions { FunctionsAreTidy }
    ensures processes { ProcessesAreTidy }
{}

/// A unit has no flat text for a recursive call exactly where a function that it reaches by calls reaches itself; the refusal names such a
/// function. The search that the definition makes has steps enough to tell.
pub fn recursion_law()
    ensures search { RecursionIsFound }
    ensures refusal { RecursionIsRefused }
{}
