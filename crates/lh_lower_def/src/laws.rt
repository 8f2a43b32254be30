//! Laws of the lowering of modules, each the contract of a function that does nothing.
ghost use Rattle.lh_lower_def.specs.Kept.{LoweredIsKept, KeptIsLowered, FunctionsStay, NamesStay, LoweredAgain, RowsAreProcesses};
ghost use Rattle.lh_lower_def.specs.Steps.{LoweredOneByOne};
ghost use Rattle.lh_lower_def.specs.Worked.{WorkedLowerings};
ghost use Rattle.lh_lower_def.specs.Loops.{LoopShape, LoopLowers, LongLoopStays};

/// Item by item: a declaration, a function and an entity stay as they are, and so does a process with a reason; any other process becomes an
/// entity of its name and arguments. The report has one row for each process, in file order. Calls mean what they meant, since the functions
/// are the same. A module that was lowered is not changed by lowering it again.
pub fn lowering_law()
    ensures kept { LoweredIsKept }
    ensures nothing_else { KeptIsLowered }
    ensures functions { FunctionsStay }
    ensures names { NamesStay }
    ensures again { LoweredAgain }
    ensures rows { RowsAreProcesses }
{}

/// Lowering is a way of single steps, each of which puts the entity of one process in its place. What each step keeps, lowering keeps.
pub fn steps_law()
    ensures { LoweredOneByOne }
{}

/// What small modules are lowered to, and what is reported of them.
pub fn worked_lowerings()
    ensures { WorkedLowerings }
{}

/// A loop whose body is executed at most 257 times is unrolled, and the process becomes an entity. With a body that is executed more often
/// the process stays.
pub fn loop_law()
    ensures shape { LoopShape }
    ensures lowers { LoopLowers }
    ensures long { LongLoopStays }
{}
