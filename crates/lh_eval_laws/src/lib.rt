//! Laws of the units of a well-formed module, on which whatever runs them stands. Each is the contract of a function that does
//! nothing, so that other crates can cite it.
#![tactic(auto)]

ghost use Rattle.lh_eval_laws.specs.Operands.{OperationsHave, ProbesHave, DrivesHave};
ghost use Rattle.lh_eval_laws.specs.Finding.{PartsAreFound, InitialsAreFound, PassesFindAll};
ghost use Rattle.lh_eval_laws.specs.Laws.{UnitsAreSound, ProcessesBeginFit, EntitiesBeginFit, PassesKeepFit};

/// Each unit that is defined is sound: each of its instructions has its row, its part and so many operands as it takes; no name
/// stands twice in it, so that the value of a name has the type that its own line gives; the arguments of processes and entities
/// are signals that carry data, and each `sig` writes a data type.
pub fn unit_law()
    ensures { UnitsAreSound }
{}

/// What an instance begins with fits the types of its names, where its ranges have the widths of its unit's arguments and `sig`
/// instructions and lie within the signals.
pub fn begin_law()
    ensures processes { ProcessesBeginFit }
    ensures entities { EntitiesBeginFit }
{}

/// What is held in a pass still fits after each sound instruction: nothing is held under a name that is not of its type, whatever
/// the bits of the signals, the memory and the instant are.
pub fn pass_law()
    ensures { PassesKeepFit }
{}

/// Where what slots hold fits the types of its names, what a sound instruction asks of its operands is there: the values of an
/// operation fit its row and its parts lie within the signals, a probe's part is of the width that it reads, and a drive's value
/// is of a data type.
pub fn operand_law()
    ensures operations { OperationsHave }
    ensures probes { ProbesHave }
    ensures drives { DrivesHave }
{}

/// Nothing goes wrong in a pass of an entity: each instruction finds what it looks for, whatever the bits of the signals, the
/// memory and the instant are, so that no default of a pass is ever met. Nor is one where the entity is elaborated: the parts
/// that it senses and that its instances are connected to are there, and so are the initial values of its signals.
pub fn find_law()
    ensures passes { PassesFindAll }
    ensures parts { PartsAreFound }
    ensures initials { InitialsAreFound }
{}
