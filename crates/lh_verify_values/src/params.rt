//! The numbers of the types of the parameters of all units.
ghost use Rattle.std.specs.Prelude.{◌≡◌, ◌++◌, ◌∷◌, [], IfOk, OnOk};
ghost use Rattle.lh_verify_values.specs.Numbers.{NumbersGrow, AreNumbersOf, NumbersParams};

use crate::numbers::Types;
use lh_types::list::ListOf;
use lh_types::memory::NoMemory;
use lh_unit::inst::{Arg, UnitId};
use lh_unit::module::Module;
use std::alloc::Global;

/// Numbers of types.
pub type NumberList = ListOf<u32>;

/// By the ids of units, the numbers of the types of their parameters, where a type that has no number yet gets one; an error only when memory runs out.
pub fn params(alloc: Global, m: &Module, types: &mut Types) -> Result<Vec<NumberList>, NoMemory>
    ensures numbers { IfOk result (λ params. NumbersParams types.new m.now params.items) }
    ensures grows { OnOk result (NumbersGrow types.old types.new) }
{
    let mut params = Vec::with_capacity(alloc, m.units() as usize)?;
    for unit in 0..m.units() {
        let own = m.args(UnitId(unit));
        let numbers = arg_numbers(alloc, own, types)?;
        put_numbers(&mut params, numbers)?;
    }
    Ok(params)
}

fn put_numbers(params: &mut Vec<NumberList>, numbers: NumberList) -> Result<(), NoMemory>
    ensures { OnOk result (params.new.items ≡ params.old.items ++ numbers ∷ []) }
{
    params.push(numbers)?;
    Ok(())
}

/// The numbers of the types of arguments.
fn arg_numbers(alloc: Global, args: &[Arg], types: &mut Types) -> Result<NumberList, NoMemory>
    ensures numbers { IfOk result (λ list. AreNumbersOf types.new args.now list) }
    ensures grows { OnOk result (NumbersGrow types.old types.new) }
{
    let mut list = NumberList::with_room(alloc, args.len())?;
    put_arg_numbers(&mut list, args, types)?;
    Ok(list)
}

/// Adds the numbers of the types of arguments to none.
fn put_arg_numbers(list: &mut NumberList, args: &[Arg], types: &mut Types) -> Result<(), NoMemory>
    requires none { list.old ≡ [] }
    ensures numbers { OnOk result (AreNumbersOf types.new args.now list.new) }
    ensures grows { OnOk result (NumbersGrow types.old types.new) }
{
    for arg in args {
        let place = types.number_like(&arg.ty)?;
        list.push(place)?;
    }
    Ok(())
}
