//! The rows on integers of one width.
ghost use Rattle.std.specs.Prelude.{◌≡◌, ◌-◌, ◌^◌, ◌<◌, ◌≤◌};
ghost use Rattle.lh_types.specs.ApplyInt.{integer_row, row_width, IsIntegerRow};

use crate::signs::{signed_less, signed_modulo, signed_quotient, signed_remainder};
use crate::words::{difference, ones, product, quotient, remainder, sum};
use lh_types::op::{Op, OpClass};

/// The value of a row from `Not` to `Uge` on the integers `a` and `b` of `width` bits, without memory.
///
/// `Not` and `Neg` have the one operand `a`. A comparison gives 0 or 1; every other row gives an integer of `width` bits.
#[tactic(auto, using(crate::proofs::WordLemmas::wrapped_minus, crate::proofs::WordLemmas::wrapped_neg), unfolding(lh_types::specs::ApplyInt::integer_row))]
pub fn apply_int(op: &Op, width: u32, a: u128, b: u128) -> u128
    requires row { IsIntegerRow op.now }
    requires width { (1 ≤ width) × (width ≤ 128) }
    requires fits { (a < 2 ^ width) × (b < 2 ^ width) }
    ensures { result ≡ integer_row op.now width a b }
{
    match op {
        Op::Not => ones(width) - a,
        Op::Neg => difference(width, 0, a),
        Op::Add => sum(width, a, b),
        Op::Sub => difference(width, a, b),
        Op::Umul | Op::Smul => product(width, a, b),
        Op::And => a & b,
        Op::Or => a | b,
        Op::Xor => a ^ b,
        Op::Udiv => quotient(a, b),
        Op::Urem | Op::Umod => remainder(a, b),
        Op::Sdiv => signed_quotient(width, a, b),
        Op::Srem => signed_remainder(width, a, b),
        Op::Smod => signed_modulo(width, a, b),
        Op::Eq => (a == b) as u128,
        Op::Neq => (a != b) as u128,
        Op::Slt => signed_less(width, a, b) as u128,
        Op::Sgt => signed_less(width, b, a) as u128,
        Op::Sle => !signed_less(width, b, a) as u128,
        Op::Sge => !signed_less(width, a, b) as u128,
        Op::Ult => (a < b) as u128,
        Op::Ugt => (b < a) as u128,
        Op::Ule => (a <= b) as u128,
        Op::Uge => (b <= a) as u128,
        _ => unreachable!(),
    }
}

/// How many bits the value of such a row has: one where it compares, else as many as the operands.
#[tactic(auto, unfolding(lh_types::specs::ApplyInt::row_width))]
pub fn result_width(op: &Op, width: u32) -> u32
    ensures { result ≡ row_width op.now width }
{
    match op.class() {
        OpClass::Relation | OpClass::Equality => 1,
        _ => width,
    }
}
