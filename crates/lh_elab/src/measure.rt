//! How deep instances nest, how many there are, and how many bits their signals have.
ghost use Rattle.std.specs.Prelude.{◌≡◌, ◌+◌, min};
ghost use Rattle.lh_elab.specs.Measures.{measuring};

use crate::graph::{HierarchyNode, counted};
use lh_unit::inst::UnitId;
use lh_unit_graph::Measured;

/// How many instances may nest, the top counted.
pub const MAX_NESTING: u32 = 64;

/// How many instances there may be.
pub const MAX_INSTANCES: u32 = 65_536;

/// What is counted of an instance and all in it, or of instances beside each other. Each number saturates at one more
/// than is allowed.
#[derive(Clone, Copy, Debug)]
pub struct HierarchyMeasure {
    /// How many nest.
    pub depth: u32,
    /// How many there are.
    pub instances: u32,
    /// How many bits their signals have.
    pub bits: u32,
}

impl Measured for HierarchyMeasure {
    type Node = HierarchyNode;

    ghost measuring = { measuring };

    /// The units that a unit instantiates.
    fn targets(node: &HierarchyNode) -> &[UnitId] {
        node.targets.as_slice()
    }

    /// No instance.
    fn nothing() -> HierarchyMeasure {
        HierarchyMeasure {
            depth: 0,
            instances: 0,
            bits: 0,
        }
    }

    /// These instances, and others beside them.
    fn beside(self, other: HierarchyMeasure) -> HierarchyMeasure {
        HierarchyMeasure {
            depth: self.depth.max(other.depth),
            instances: up_to(self.instances, other.instances, MAX_INSTANCES + 1),
            bits: counted(self.bits, other.bits),
        }
    }

    /// An instance of a unit that has these in it.
    fn around(self, unit: &HierarchyNode) -> HierarchyMeasure {
        HierarchyMeasure {
            depth: up_to(1, self.depth, MAX_NESTING + 1),
            instances: up_to(1, self.instances, MAX_INSTANCES + 1),
            bits: counted(unit.bits, self.bits),
        }
    }
}

/// A sum, which saturates at its end.
fn up_to(a: u32, b: u32, end: u32) -> u32
    ensures { result ≡ min (a + b) end }
{
    a.saturating_add(b).min(end)
}
