//! How deep calls nest, and how long a copy of a unit is.
ghost use Rattle.lh_flat.specs.Measures.{measuring};

use crate::calls::{CallNode, counted};
use lh_unit::inst::UnitId;
use lh_unit_graph::Measured;

/// What is counted of copies of units: of one with all that is copied into it, or of some beside each other. Each number saturates
/// at its type's end.
#[derive(Clone, Copy)]
pub struct CallMeasure {
    /// How many units nest.
    pub depth: u32,
    /// How many instructions they have.
    pub insts: u32,
    /// How many blocks they have.
    pub blocks: u32,
}

impl Measured for CallMeasure {
    type Node = CallNode;

    ghost measuring = { measuring };

    /// The functions that a unit calls.
    fn targets(node: &CallNode) -> &[UnitId] {
        node.callees.as_slice()
    }

    /// No copy.
    fn nothing() -> CallMeasure {
        CallMeasure {
            depth: 0,
            insts: 0,
            blocks: 0,
        }
    }

    /// These copies, and others beside them.
    fn beside(self, other: CallMeasure) -> CallMeasure {
        CallMeasure {
            depth: self.depth.max(other.depth),
            insts: counted(self.insts, other.insts),
            blocks: counted(self.blocks, other.blocks),
        }
    }

    /// A copy of a unit that has these in it.
    fn around(self, unit: &CallNode) -> CallMeasure {
        CallMeasure {
            depth: counted(1, self.depth),
            insts: counted(unit.insts, self.insts),
            blocks: counted(unit.blocks, self.blocks),
        }
    }
}
