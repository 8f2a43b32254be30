//! Laws of the operations, each the contract of a function that does nothing.
ghost use Rattle.lh_ops.specs.Laws.{ResultsFit, OneResultType, BitsAreBoolean, WordsAreBoolean, EqualityTells, MuxChooses, IntegerRows};
ghost use Rattle.lh_ops.specs.Vectors.{WorkedRows};

/// The value of an operation on arguments that fit is of the row's type.
pub fn results_fit()
    ensures { ResultsFit }
{}

/// A row gives one type for the types of its operands.
pub fn one_result_type()
    ensures { OneResultType }
{}

/// On one bit, `and`, `or`, `xor`, `not`, `eq` and `neq` are the operations on truth values.
pub fn bits_are_boolean()
    ensures { BitsAreBoolean }
{}

/// On integers of any width, `and`, `or` and `not` have the laws by which terms are rewritten.
pub fn words_are_boolean()
    ensures { WordsAreBoolean }
{}

/// `eq` and `neq` tell exactly whether two values are one.
pub fn equality_tells()
    ensures { EqualityTells }
{}

/// `mux` of two values by one bit gives the first for 0 and the second for 1.
pub fn mux_chooses()
    ensures { MuxChooses }
{}

/// On integers of one width, the rows from `Not` to `Uge` are those that `apply_int` computes.
pub fn integer_rows()
    ensures { IntegerRows }
{}

/// Rows worked by hand, on 8 and on 128 bits.
pub fn worked_rows()
    ensures { WorkedRows }
{}
