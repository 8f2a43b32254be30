//! The operands of `phi` instructions.
ghost use Rattle.std.specs.Prelude.{◌≡◌, Some, IsSome};
ghost use Rattle.lh_region.specs.Operands.{operand_in};

use lh_unit::inst::{PhiEdge, ValueId};

/// The operand of a `phi` for the edge from a block.
pub fn operand_from(edges: &[PhiEdge], block: u32) -> ValueId
    requires { IsSome (operand_in block edges.now) }
    ensures { operand_in block edges.now ≡ Some result }
{
    for edge in edges {
        if block == edge.block.0 {
            return edge.value;
        }
    }
    unreachable!()
}
