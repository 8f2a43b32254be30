//! What a report says of a process.
ghost use Rattle.lh_lower_def.specs.Report.{kind_word, verdict_word, verdict_name};
ghost use Rattle.std.specs.Prelude.{◌≡◌};

use lh_shape::Reason;
use lh_types::list::ListOf;
use lh_unit::inst::UnitId;

/// The shape by which a process becomes an entity.
#[derive(Clone, Copy, Debug, PartialEq, Eq)]
pub enum Kind {
    /// The entity reacts to each change of what the process waits on.
    Comb,
    /// The entity reacts to edges, by registers.
    Edge,
    /// The entity runs once.
    Once,
}

impl Kind {
    /// The word by which a report names the shape.
    pub fn word(self) -> &'static [u8]
        ensures { result.now ≡ kind_word self }
    {
        match self {
            Kind::Comb => b"comb",
            Kind::Edge => b"edge",
            Kind::Once => b"once",
        }
    }
}

/// What becomes of a process.
#[derive(Clone, Copy, Debug, PartialEq, Eq)]
pub enum Verdict {
    /// It becomes an entity, by this shape.
    Lowered(Kind),
    /// It stays, for this reason.
    Left(Reason),
}

impl Verdict {
    /// The first word of its line in a report.
    pub fn word(self) -> &'static [u8]
        ensures { result.now ≡ verdict_word self }
    {
        match self {
            Verdict::Lowered(_) => b"lowered",
            Verdict::Left(_) => b"left",
        }
    }

    /// The last word of its line in a report: that of the shape or of the reason.
    pub fn name(self) -> &'static [u8]
        ensures { result.now ≡ verdict_name self }
    {
        match self {
            Verdict::Lowered(kind) => kind.word(),
            Verdict::Left(reason) => reason.word(),
        }
    }
}

/// What became of a process.
#[derive(Drop)]
pub struct ReportRow {
    /// The process, by its id in the module that was lowered.
    pub unit: UnitId,
    pub verdict: Verdict,
}

/// Rows in file order.
pub type ReportList = ListOf<ReportRow>;
