//! The words of the language, one row each.
ghost use Rattle.std.specs.Prelude.{◌≡◌};
ghost use Rattle.lh_unit.specs.CanonWords as spec;

use lh_types::op::Op;
use lh_unit::inst::Mode;

/// The word of an operation; none of those that brackets write.
pub fn op_word(op: Op) -> &'static [u8]
    ensures { result.now ≡ spec.op_word op }
{
    match op {
        Op::Not => b"not",
        Op::Neg => b"neg",
        Op::Add => b"add",
        Op::Sub => b"sub",
        Op::Umul => b"umul",
        Op::Smul => b"smul",
        Op::Udiv => b"udiv",
        Op::Sdiv => b"sdiv",
        Op::Umod => b"umod",
        Op::Smod => b"smod",
        Op::Urem => b"urem",
        Op::Srem => b"srem",
        Op::And => b"and",
        Op::Or => b"or",
        Op::Xor => b"xor",
        Op::Eq => b"eq",
        Op::Neq => b"neq",
        Op::Slt => b"slt",
        Op::Sgt => b"sgt",
        Op::Sle => b"sle",
        Op::Sge => b"sge",
        Op::Ult => b"ult",
        Op::Ugt => b"ugt",
        Op::Ule => b"ule",
        Op::Uge => b"uge",
        Op::Shl => b"shl",
        Op::Shr => b"shr",
        Op::Mux => b"mux",
        Op::Extf(_) => b"extf",
        Op::Exts { .. } => b"exts",
        Op::Insf(_) => b"insf",
        Op::Inss { .. } => b"inss",
        Op::Array | Op::Repeat(_) | Op::Tuple => b"",
    }
}

/// The word of a register's trigger.
pub fn mode_word(mode: Mode) -> &'static [u8]
    ensures { result.now ≡ spec.mode_word mode }
{
    match mode {
        Mode::Rise => b"rise",
        Mode::Fall => b"fall",
        Mode::Both => b"both",
        Mode::High => b"high",
        Mode::Low => b"low",
    }
}
