//! Laws of terms, each the contract of a function that does nothing.
ghost use Rattle.lh_term.specs.Laws.{MeaningsFit, OperationsKeepMeaning, ChoicesKeepMeaning, ConditionsAreConjunctions, SwapsKeepMeaning};

/// What a term means is of its type.
pub fn meanings_fit()
    ensures { MeaningsFit }
{}

/// An operation as made means what the operation gives for what its operands mean, and is of its type.
pub fn operations_keep_meaning()
    ensures { OperationsKeepMeaning }
{}

/// A choice as made means what the choice does, and is of its type.
pub fn choices_keep_meaning()
    ensures { ChoicesKeepMeaning }
{}

/// A condition means what the conjunction of its conjuncts does.
pub fn conditions_are_conjunctions()
    ensures { ConditionsAreConjunctions }
{}

/// A term with terms in the places of parts' values means the term where the parts have the values of those terms.
pub fn swaps_keep_meaning()
    ensures { SwapsKeepMeaning }
{}
