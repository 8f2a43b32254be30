//! The place in which the next line stands.
ghost use Rattle.std.specs.Prelude.{◌≡◌};
ghost use Rattle.lh_read.specs.Places.{is_inside, block_unit, label_unit, may_close, behind_header, behind_inst};

use lh_unit::inst::{UnitId, UnitKind};

/// The place in which the next line stands, with the unit that is open there.
#[derive(Clone, Copy, Debug, PartialEq, Eq)]
pub enum LinePlace {
    /// Outside of any unit.
    Outside,
    /// In an entity.
    InEntity(UnitId),
    /// In a function or process, before its first label.
    BeforeLabels(UnitId),
    /// In a block, which has no instruction yet.
    InEmptyBlock(UnitId),
    /// In a block, behind its first instruction.
    InBlock(UnitId),
}

impl LinePlace {
    /// The place behind the header of a unit.
    pub fn behind_header(kind: UnitKind, unit: UnitId) -> LinePlace
        ensures { result ≡ behind_header kind unit }
    {
        match kind {
            UnitKind::Entity => LinePlace::InEntity(unit),
            UnitKind::Func => LinePlace::BeforeLabels(unit),
            UnitKind::Proc => LinePlace::BeforeLabels(unit),
        }
    }

    /// Whether a unit is open.
    pub fn is_inside(self) -> bool
        ensures { result ≡ is_inside self }
    {
        match self {
            LinePlace::Outside => false,
            LinePlace::InEntity(_) => true,
            LinePlace::BeforeLabels(_) => true,
            LinePlace::InEmptyBlock(_) => true,
            LinePlace::InBlock(_) => true,
        }
    }

    /// The open unit, where an instruction may stand.
    pub fn block_unit(self) -> Option<UnitId>
        ensures { result ≡ block_unit self }
    {
        match self {
            LinePlace::Outside => None,
            LinePlace::InEntity(unit) => Some(unit),
            LinePlace::BeforeLabels(_) => None,
            LinePlace::InEmptyBlock(unit) => Some(unit),
            LinePlace::InBlock(unit) => Some(unit),
        }
    }

    /// The open unit, where a label may stand.
    pub fn label_unit(self) -> Option<UnitId>
        ensures { result ≡ label_unit self }
    {
        match self {
            LinePlace::Outside => None,
            LinePlace::InEntity(_) => None,
            LinePlace::BeforeLabels(unit) => Some(unit),
            LinePlace::InEmptyBlock(_) => None,
            LinePlace::InBlock(unit) => Some(unit),
        }
    }

    /// Whether the unit may end.
    pub fn may_close(self) -> bool
        ensures { result ≡ may_close self }
    {
        match self {
            LinePlace::Outside => false,
            LinePlace::InEntity(_) => true,
            LinePlace::BeforeLabels(_) => false,
            LinePlace::InEmptyBlock(_) => false,
            LinePlace::InBlock(_) => true,
        }
    }

    /// The place behind an instruction that stands here.
    pub fn behind_inst(self) -> LinePlace
        ensures { result ≡ behind_inst self }
    {
        match self {
            LinePlace::InEmptyBlock(unit) => LinePlace::InBlock(unit),
            place => place,
        }
    }
}
