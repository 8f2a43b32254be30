//! The value of an operation that only looks at its operands, so that none of them is copied.
ghost use Rattle.std.specs.Prelude.{◌≡◌, ◌-◌, [], ◌∷◌, length, map, min, slice_index_or, IfSome};
ghost use Rattle.lh_types.specs.ValueOf.{datum_of};
ghost use Rattle.lh_types.specs.Apply as rows;
ghost use Rattle.lh_types.specs.Apply.{bit_value, no_value};
ghost use Rattle.lh_types.specs.ApplyTypes.{FitsOp, TakesIntegers};

use lh_ops::integers::{apply_int, result_width};
use lh_types::op::{Op, OpClass};
use lh_types::val::Val;

/// The value of an operation on two values, where it compares them or computes with integers.
#[tactic(auto, unfolding(lh_types::specs::Apply::apply))]
pub(crate) fn seen(op: &Op, a: &Val, b: &Val) -> Option<Val>
    requires { FitsOp op.now (datum_of a.now ∷ datum_of b.now ∷ []) }
    ensures { IfSome result (λ v. datum_of v ≡ rows.apply op.now (datum_of a.now ∷ datum_of b.now ∷ [])) }
{
    match op {
        Op::Eq => Some(truth(a == b)),
        Op::Neq => Some(truth(a != b)),
        _ => computed(op, a, b),
    }
}

/// The value of an operation on two values, where it computes with integers.
fn computed(op: &Op, a: &Val, b: &Val) -> Option<Val>
    requires { FitsOp op.now (datum_of a.now ∷ datum_of b.now ∷ []) }
    ensures { IfSome result (λ v. datum_of v ≡ rows.apply op.now (datum_of a.now ∷ datum_of b.now ∷ [])) }
{
    match op.class() {
        OpClass::Binary | OpClass::Relation => Some(of_integers(op, a, b)),
        _ => None,
    }
}

/// The value of an operation on two integers of one width.
#[tactic(auto, using(crate::proofs::Integers::two_integers, crate::proofs::Integers::integers_are))]
fn of_integers(op: &Op, a: &Val, b: &Val) -> Val
    requires row { TakesIntegers op.now }
    requires fit { FitsOp op.now (datum_of a.now ∷ datum_of b.now ∷ []) }
    ensures { datum_of result ≡ rows.apply op.now (datum_of a.now ∷ datum_of b.now ∷ []) }
{
    match (a, b) {
        (Val::Int { width, bits: a }, Val::Int { width: _, bits: b }) => Val::Int {
            width: result_width(op, *width),
            bits: apply_int(op, *width, *a, *b),
        },
        _ => unreachable!(),
    }
}

/// A truth value as an integer of one bit.
fn truth(holds: bool) -> Val
    ensures { datum_of result ≡ bit_value holds }
{
    Val::Int {
        width: 1,
        bits: holds as u128,
    }
}

/// The value that an operation gives where it is an element of an array, and that is seen at once: the rest of the array is not copied.
#[tactic(auto, unfolding(lh_types::specs::Apply::apply))]
pub(crate) fn chosen<'a>(op: &Op, a: &'a Val, b: &Val) -> Option<&'a Val>
    ensures { IfSome result (λ v. datum_of v.now ≡ rows.apply op.now (datum_of a.now ∷ datum_of b.now ∷ [])) }
{
    match (op, a, b) {
        (Op::Mux, Val::Array(elements), Val::Int { width: _, bits }) => element(
            elements.as_slice(),
            *bits,
        ),
        _ => None,
    }
}

/// The element that stands at a place, the last one past the end; there is none of no elements.
fn element(elements: &[Val], at: u128) -> Option<&Val>
    ensures { IfSome result (λ v. datum_of v.now ≡ slice_index_or (map datum_of elements.now) (min at (length elements.now - 1)) no_value) }
{
    if elements.is_empty() {
        return None;
    }
    let last = elements.len() - 1;
    Some(&elements[at.min(last as u128) as usize])
}
