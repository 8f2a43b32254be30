//! Laws of the rows of entities, each the contract of a function that does nothing.
ghost use Rattle.lh_cert_rows.specs.Laws.{RegistersDoRows, DrivesDoRows, OperationsDoTerms, ProbesDoTerms};
ghost use Rattle.lh_cert_rows.specs.Passing.{RowsAreTyped, PassesDoRows};
ghost use Rattle.lh_cert_rows.specs.Worked.{WorkedEntities};

/// A register does what its row says: the first trigger that fires drives its value, and the values of all of them are seen.
pub fn registers_do_rows()
    ensures { RegistersDoRows }
{}

/// A drive does what its row says.
pub fn drives_do_rows()
    ensures { DrivesDoRows }
{}

/// An operation on values and a probe give what their terms mean.
pub fn values_do_terms()
    ensures operations { OperationsDoTerms }
    ensures probes { ProbesDoTerms }
{}

/// An entity of a well-formed module, without signals and instances of its own: its rows are typed and read only parts that it probes;
/// and a pass of it does its rows, whatever it remembers of the run before, and senses the parts that it probes, wherever its
/// arguments lie.
pub fn passes_do_rows()
    ensures typed { RowsAreTyped }
    ensures passes { PassesDoRows }
{}

/// The parts that two small entities probe, and their rows.
pub fn worked_entities()
    ensures { WorkedEntities }
{}
