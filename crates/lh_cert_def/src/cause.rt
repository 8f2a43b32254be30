//! The causes for which an edited module is not certified.
ghost use Rattle.lh_cert_def.specs.Names.{cause_number, cause_word};
ghost use Rattle.std.specs.Prelude.{◌≡◌};

/// Why a unit of the edited module may not stand in the place of a unit of the module: the first that holds, in this order.
#[derive(Clone, Copy, Debug, PartialEq, Eq)]
pub enum Cause {
    /// One module has no unit there, or the names, arguments or results of functions differ.
    Units,
    /// No entity stands in the place of a process, and the two units differ.
    Changed,
    /// The process has no shape.
    HasReason,
    /// The entity has a `sig` or an `inst`, or a `reg` where the process reacts to each change or runs once, or a `drv` where it reacts to edges.
    Form,
    /// The bits that the entity probes are not those that the process waits on; or it has a `prb`, and the process runs once.
    Sensed,
    /// The drives of both do not agree.
    Drives,
    /// The registers of both do not agree.
    Registers,
}

impl Cause {
    /// The number of the cause, from 1 on.
    pub fn number(self) -> u8
        ensures { result ≡ cause_number self }
    {
        match self {
            Cause::Units => 1,
            Cause::Changed => 2,
            Cause::HasReason => 3,
            Cause::Form => 4,
            Cause::Sensed => 5,
            Cause::Drives => 6,
            Cause::Registers => 7,
        }
    }

    /// The word by which the cause is told.
    pub fn word(self) -> &'static [u8]
        ensures { result.now ≡ cause_word self }
    {
        match self {
            Cause::Units => b"Units",
            Cause::Changed => b"Changed",
            Cause::HasReason => b"HasReason",
            Cause::Form => b"Form",
            Cause::Sensed => b"Sensed",
            Cause::Drives => b"Drives",
            Cause::Registers => b"Registers",
        }
    }
}
