//! Every row on values.
ghost use Rattle.std.specs.Prelude.{◌≡◌, map, IfOk};
ghost use Rattle.lh_types.specs.ValueOf.{datum_of};
ghost use Rattle.lh_types.specs.Apply as Rows;
ghost use Rattle.lh_types.specs.ApplyTypes.{FitsOp};

use crate::rows::{
    array, equal, extf, exts, insf, inss, integers, mux, repeat, shl, shr, truth, tuple,
};
use lh_types::memory::NoMemory;
use lh_types::op::Op;
use lh_types::val::Val;
use std::alloc::Global;

/// The value of an operation on arguments that fit its row.
///
/// Integers are numbers below 2 ^ width, read in two's complement by the signed rows. A division by zero gives 0, a shift moves by at
/// most the width, and `mux` past the end gives the last element, so every row has a value.
#[tactic(auto, unfolding(lh_types::specs::Apply::apply))]
pub fn apply(alloc: Global, op: &Op, args: &[Val]) -> Result<Val, NoMemory>
    requires { FitsOp op.now (map datum_of args.now) }
    ensures { IfOk result (λ v. datum_of v ≡ Rows.apply op.now (map datum_of args.now)) }
{
    match op {
        Op::Eq => Ok(truth(equal(args))),
        Op::Neq => Ok(truth(!equal(args))),
        Op::Shl => Ok(shl(args)),
        Op::Shr => Ok(shr(args)),
        Op::Mux => mux(args),
        Op::Extf(k) => extf(args, *k),
        Op::Exts { at, len } => exts(alloc, args, *at, *len),
        Op::Insf(k) => insf(alloc, args, *k),
        Op::Inss { at, len } => inss(alloc, args, *at, *len),
        Op::Array => array(alloc, args),
        Op::Repeat(n) => repeat(alloc, args, *n),
        Op::Tuple => tuple(alloc, args),
        _ => Ok(integers(op, args)),
    }
}
