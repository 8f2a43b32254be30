//! Laws of causes, each the contract of a function that does nothing.
ghost use Rattle.lh_cert_def.specs.Laws.{OneCause, OneFirstCause};
ghost use Rattle.lh_cert_def.specs.Worked.{WorkedCauses};

/// There is one answer: a unit in the place of another has one cause or none, and so has an edited module in the place of a module.
pub fn one_answer()
    ensures of_units { OneCause }
    ensures of_modules { OneFirstCause }
{}

/// What is said of an accumulator that was lowered and edited by hand.
pub fn worked_causes()
    ensures { WorkedCauses }
{}
