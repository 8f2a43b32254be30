//! The blocks to which an instruction may lead.
ghost use Rattle.std.specs.Prelude.{◌≡◌};
ghost use Rattle.lh_unit.specs.ById.{blocks_led_to};
ghost use Rattle.lh_verify_operands.specs.Leading.{led_to};

use lh_unit::inst::{BlockId, Inst};

/// The blocks to which an instruction may lead, in the order of the spelling.
#[derive(Clone, Copy, Debug, PartialEq, Eq)]
pub enum Successors {
    /// It leads nowhere.
    Nowhere,
    /// It leads to one block.
    To(BlockId),
    /// It leads to either of two blocks, which may be the same.
    Either(BlockId, BlockId),
}

/// The blocks to which an instruction may lead.
pub fn successors_of(inst: &Inst) -> Successors
    ensures { led_to result ≡ blocks_led_to inst.now }
{
    match inst {
        Inst::Br(to) => Successors::To(*to),
        Inst::Branch { cond: _, zero, one } => Successors::Either(*zero, *one),
        Inst::Wait {
            to,
            after: _,
            signals: _,
        } => Successors::To(*to),
        _ => Successors::Nowhere,
    }
}
