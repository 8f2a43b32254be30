//! Laws of a module in which no instruction has a fault. Each is the contract of a function that does
//! nothing, so that other crates can cite it.
#![tactic(auto)]

ghost use Rattle.lh_verify_laws.specs.Operands.{OperandsAreDefined, OperandsAreTaken, TypesFit, RowsAre};
ghost use Rattle.lh_verify_laws.specs.KindsOf.{OperandsHaveTypes};
ghost use Rattle.lh_verify_laws.specs.Defined.{AllThere};
ghost use Rattle.lh_verify_laws.specs.Calls.{CallsAreRight};
ghost use Rattle.lh_verify_laws.specs.Parts.{PartsAreThere, PartsHaveRanges, PartsLieWithin};
ghost use Rattle.lh_verify_laws.specs.Results.{ResultsHaveTypes, ValuesHaveTypes};
ghost use Rattle.lh_verify_laws.specs.Shape.{TerminatorsEnd, BlocksEndOnce, LabelsAreBlocks, PhisAreRight, AllAllowed};

/// The values that an instruction names are defined in its unit, they are of the kinds that their
/// places take, and their types fit the row: in words, row by row. Where no argument of the unit is
/// void, each of them has a type, of its kind.
pub fn operand_law()
    ensures defined { OperandsAreDefined }
    ensures kinds { OperandsAreTaken }
    ensures fit { TypesFit }
    ensures rows { RowsAre }
    ensures types { OperandsHaveTypes }
{}

/// Where control stands at an instruction, each value that it names is an argument or has been given
/// on the way; to a `phi` on each path that ends with the edge, and in an entity earlier in the text.
pub fn defined_law()
    ensures { AllThere }
{}

/// `inst` names a process or an entity of the module and `call` a function of it or `@llhd.assert`;
/// the arguments are as many as the parameters and of their types, and the result fits.
pub fn call_law()
    ensures { CallsAreRight }
{}

/// `extf` and `exts` of data and of a signal, and `insf` and `inss` of data, have their part, which is
/// of the type that is taken or put. A step that has a part leads to its bits, which lie within those
/// of the whole.
pub fn part_law()
    ensures there { PartsAreThere }
    ensures ranges { PartsHaveRanges }
    ensures within { PartsLieWithin }
{}

/// What an instruction gives has the type that its row says, and so has the value of its name, where
/// that is defined once.
pub fn result_law()
    ensures types { ResultsHaveTypes }
    ensures values { ValuesHaveTypes }
{}

/// In functions and processes a block ends with its one terminator, labels name blocks of the unit, a
/// `phi` names each predecessor once, and instructions stand only in units of the kinds that allow them.
pub fn shape_law()
    ensures terminators { TerminatorsEnd }
    ensures blocks { BlocksEndOnce }
    ensures labels { LabelsAreBlocks }
    ensures phis { PhisAreRight }
    ensures allowed { AllAllowed }
{}
