//! Laws of entities that were emitted, each the contract of a function that does nothing.
ghost use Rattle.lh_emit_def.specs.Worked.{WorkedEntities};
ghost use Rattle.lh_emit_def.specs.Printed.{CombIsPrintable, EdgeIsPrintable, OnceIsPrintable};
ghost use Rattle.lh_emit_def.specs.Names.{NextIsLeast};
ghost use Rattle.lh_emit_def.specs.Laws.{CombPasses, CombSenses, CombIsEntity, CombIsRight, EdgePasses, EdgeSenses, EdgeIsEntity, EdgeIsRight, OncePasses, OnceSenses, OnceIsEntity, OnceIsRight, PartsAreReached, StepsAreFirst};

/// The entity of drives has the process's name and arguments, neither signals nor instances, and no fault, in whatever module it stands; no
/// name stands twice. On all values a pass of it gives the wish of the drives. It senses the parts that are waited on, and beyond them only
/// what the drives read.
pub fn comb_law()
    ensures entity { CombIsEntity }
    ensures right { CombIsRight }
    ensures passes { CombPasses }
    ensures senses { CombSenses }
{}

/// The entity of registers has the process's name and arguments, neither signals nor instances, and no fault. A pass of it gives no wish at the first run. It remembers the value of each
/// trigger's part, which it senses, and drives the rows of which a trigger fires.
pub fn edge_law()
    ensures entity { EdgeIsEntity }
    ensures right { EdgeIsRight }
    ensures passes { EdgePasses }
    ensures senses { EdgeSenses }
{}

/// The entity of drives that runs once has the process's name and arguments, neither signals nor instances, and no fault. A pass of it gives the
/// wish of its drives; where they read nothing it senses nothing.
pub fn once_law()
    ensures entity { OnceIsEntity }
    ensures right { OnceIsRight }
    ensures passes { OncePasses }
    ensures senses { OnceSenses }
{}

/// What is emitted can be printed and read, where the header of the process can be printed and each delay that is a constant can be written.
pub fn printing_law()
    ensures comb { CombIsPrintable }
    ensures edge { EdgeIsPrintable }
    ensures once { OnceIsPrintable }
{}

/// The steps that are found for a part of a process lead to it from its argument. They are those of the first line in text order that
/// gives the part; as many steps as there are lines are always enough.
pub fn steps_law()
    ensures reached { PartsAreReached }
    ensures first { StepsAreFirst }
{}

/// The next name of a value has the least number from where the numbers are that is no argument's.
pub fn names_law()
    ensures { NextIsLeast }
{}

/// The entities of small processes, each line of them: a flip-flop with and without reset, a sum, constants, three drives that share a delay, a
/// process that drives once, and a part that is reached by two steps.
pub fn worked_entities()
    ensures { WorkedEntities }
{}
