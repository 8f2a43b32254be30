//! Laws of what is held, each as the contract of a function that does nothing.
ghost use Rattle.lh_eval.specs.Holding.{HoldsSame, HoldsMore, HoldsGiven, HoldsNothing};
ghost use Rattle.lh_eval.specs.Sound.{OperandsFitRows};
ghost use Rattle.lh_eval.specs.ResultsFit.{ConstantsFit, OperationsFit, ProbesFit, HeldStillFits};

/// Where slots hold what is held under the names, each reading of a slot is that of the name; to hold one thing more by an id
/// is to hold it under the name; and empty slots are where nothing is held.
pub fn held_law()
    ensures same { HoldsSame }
    ensures more { HoldsMore }
    ensures given { HoldsGiven }
    ensures nothing { HoldsNothing }
{}

/// Where what is held fits the types of its names, the values of an operation's operands fit its row: so a value is computed from
/// operands of the right types and of the right number.
pub fn fitting_law()
    ensures { OperandsFitRows }
{}

/// Where what is held fits the types of its names, a constant, what an operation gives and what a probe gives fit the type that
/// the line's result has, and with it held all of it still fits.
pub fn giving_law()
    ensures constants { ConstantsFit }
    ensures operations { OperationsFit }
    ensures probes { ProbesFit }
    ensures held { HeldStillFits }
{}
