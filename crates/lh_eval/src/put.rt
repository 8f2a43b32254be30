//! The value of an operation that puts a part in its place, in the one copy that is made of the whole.
ghost use Rattle.std.specs.Prelude.{◌≡◌, ◌<◌, [], ◌∷◌, length, slice_set, IfOk};
ghost use Rattle.lh_types.specs.ValueOf.{datum_of};
ghost use Rattle.lh_types.specs.Apply as rows;
ghost use Rattle.lh_types.specs.ApplyTypes.{FitsOp};

use lh_types::memory::NoMemory;
use lh_types::op::Op;
use lh_types::val::{Val, ValList};

/// A copy of an array or a struct with a new element or field `k`.
#[tactic(auto, using(crate::proofs::Fields::put_array, crate::proofs::Fields::put_struct))]
pub(crate) fn with_field(whole: &Val, k: u32, new: &Val) -> Result<Val, NoMemory>
    requires { FitsOp (Op.Insf k) (datum_of whole.now ∷ datum_of new.now ∷ []) }
    ensures { IfOk result (λ v. datum_of v ≡ rows.apply (Op.Insf k) (datum_of whole.now ∷ datum_of new.now ∷ [])) }
{
    match whole {
        Val::Array(elements) => {
            let elements = replaced(elements, k as usize, new)?;
            Ok(Val::Array(elements))
        }
        Val::Tuple(fields) => {
            let fields = replaced(fields, k as usize, new)?;
            Ok(Val::Tuple(fields))
        }
        _ => unreachable!(),
    }
}

/// A copy of values with a new one in one place.
fn replaced(of: &ValList, k: usize, new: &Val) -> Result<ValList, NoMemory>
    requires { k < length of.now }
    ensures { IfOk result (λ vs. vs ≡ slice_set of.now k (datum_of new.now)) }
{
    let mut values = of.copy()?.into_vec();
    put(&mut values, k, new.copy()?);
    Ok(ValList::from_vec(values))
}

fn put(values: &mut Vec<Val>, k: usize, new: Val)
    requires { k < length values.old.items }
    ensures { values.new.items ≡ slice_set values.old.items k new }
{
    values[k] = new;
}
