//! Laws of terms that agree, each the contract of a function that does nothing.
ghost use Rattle.lh_cert_agree.specs.Laws.{AgreedTermsMeanSame};
ghost use Rattle.lh_cert_agree.specs.Worked.{WorkedPairs};

/// Terms that agree have one type, and mean the same whatever values the parts have.
pub fn agreed_terms_mean_same()
    ensures { AgreedTermsMeanSame }
{}

/// Some pairs of terms: operands in another order agree on one bit, and not within a wider term; thirteen atoms are too many.
pub fn worked_pairs()
    ensures { WorkedPairs }
{}
