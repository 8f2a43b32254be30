//! Laws of terms that are read again, each the contract of a function that does nothing.
ghost use Rattle.lh_cert_terms.specs.Laws.{ReadOperationsKeepMeaning, RebuiltKeepsMeaning};
ghost use Rattle.lh_cert_terms.specs.Worked.{WorkedReadings};

/// An operation as read means what the operation does, and is of its type.
pub fn read_operations_keep_meaning()
    ensures { ReadOperationsKeepMeaning }
{}

/// A term read again is of its type, and means the same where each part has one value before and now.
pub fn rebuilt_keeps_meaning()
    ensures { RebuiltKeepsMeaning }
{}

/// Some operations and terms as they are read.
pub fn worked_readings()
    ensures { WorkedReadings }
{}
