//! What is known of the values of a unit, from the arguments and the instructions that give them.
ghost use Rattle.std.specs.Prelude.{◌≡◌, ◌<◌, ◌++◌, ◌∷◌, [], List, false, length, replicate, option_map, IfOk, OnOk};
ghost use Rattle.std.specs.Option.{option_copied};
ghost use Rattle.lh_unit.specs.Naming.{Naming};
ghost use Rattle.lh_unit.specs.Table.{ArgsWithin, line_at};
ghost use Rattle.lh_unit.specs.Typing.{or_else};
ghost use Rattle.lh_unit.specs.declared.table.TableLine.{TableLine};
ghost use Rattle.lh_unit.specs.Arena.{unit_count, value_count, inst_count, table_at, args_at, naming};
ghost use Rattle.lh_verify_values.specs.Facts.{kind_as};
ghost use Rattle.lh_verify_values.specs.Given.{type_given};
ghost use Rattle.lh_verify_values.specs.Numbers.{NumbersGrow};
ghost use Rattle.lh_verify_values.specs.FactsOfUnit.{FactsAfter, Marks, FactOfInst, FactOfArg, blank};

use crate::numbers::Types;
use crate::results::{GivenType, kind_of, result_kind, result_type};
use crate::scope::{Fact, ValueKind};
use lh_types::memory::NoMemory;
use lh_types::ty::Ty;
use lh_unit::inst::{Arg, Inst, InstId, UnitId, ValueId};
use lh_unit::module::Module;
use std::alloc::Global;

/// What is known of the values of a unit with this many instructions, by the ids of values, where a type that has no number yet gets one; an
/// error only when memory runs out. Of the arguments and of the instructions that give one value, the first tells, and an argument before any
/// instruction.
pub fn facts(
    alloc: Global,
    m: &Module,
    unit: UnitId,
    insts: u32,
    types: &mut Types,
) -> Result<Vec<Fact>, NoMemory>
    requires unit { unit.0 < unit_count m.now }
    requires insts { insts ≡ inst_count m.now unit.0 }
    ensures facts { IfOk result (λ facts. FactsAfter types.new (value_count m.now unit.0) (naming m.now unit.0) (args_at m.now unit.0) (table_at m.now unit.0).lines facts.items) }
    ensures grows { OnOk result (NumbersGrow types.old types.new) }
{
    let values = m.values(unit);
    let mut facts = no_facts(alloc, values)?;
    let mut seen = no_marks(alloc, values)?;
    tell_all(alloc, &mut facts, &mut seen, m, unit, insts, types)?;
    Ok(facts)
}

/// Tells what the instructions and the arguments give.
fn tell_all(
    alloc: Global,
    facts: &mut [Fact],
    seen: &mut [bool],
    m: &Module,
    unit: UnitId,
    insts: u32,
    types: &mut Types,
) -> Result<(), NoMemory>
    requires unit { unit.0 < unit_count m.now }
    requires insts { insts ≡ inst_count m.now unit.0 }
    requires old { facts.old ≡ replicate (value_count m.now unit.0) blank }
    requires marks { seen.old ≡ replicate (value_count m.now unit.0) false }
    ensures facts { OnOk result (FactsAfter types.new (value_count m.now unit.0) (naming m.now unit.0) (args_at m.now unit.0) (table_at m.now unit.0).lines facts.new) }
    ensures grows { OnOk result (NumbersGrow types.old types.new) }
{
    tell_insts(alloc, facts, m, unit, insts, types)?;
    tell_args(facts, seen, m.args(unit), types)
}

/// Values of which nothing is known.
fn no_facts(alloc: Global, values: u32) -> Result<Vec<Fact>, NoMemory>
    ensures { IfOk result (λ facts. facts.items ≡ replicate values blank) }
{
    let blank = Fact {
        defined: false,
        kind: None,
        ty: None,
    };
    Ok(vec![in alloc; blank; values as usize]?)
}

/// This many marks of which none is set; an error only when memory runs out.
pub fn no_marks(alloc: Global, values: u32) -> Result<Vec<bool>, NoMemory>
    ensures { IfOk result (λ marks. marks.items ≡ replicate values false) }
{
    Ok(vec![in alloc; false; values as usize]?)
}

/// Tells the results of all instructions; of two that give one value, the first tells.
fn tell_insts(
    alloc: Global,
    facts: &mut [Fact],
    m: &Module,
    unit: UnitId,
    insts: u32,
    types: &mut Types,
) -> Result<(), NoMemory>
    requires unit { unit.0 < unit_count m.now }
    requires insts { insts ≡ inst_count m.now unit.0 }
    requires old { facts.old ≡ replicate (value_count m.now unit.0) blank }
    ensures facts { OnOk result (FactsAfter types.new (value_count m.now unit.0) (naming m.now unit.0) [] (table_at m.now unit.0).lines facts.new) }
    ensures grows { OnOk result (NumbersGrow types.old types.new) }
{
    for i in 0..insts {
        tell_inst(alloc, facts, m, unit, InstId(i), types)?;
    }
    Ok(())
}

fn tell_inst(
    alloc: Global,
    facts: &mut [Fact],
    m: &Module,
    unit: UnitId,
    inst: InstId,
    types: &mut Types,
) -> Result<(), NoMemory>
    requires unit { unit.0 < unit_count m.now }
    requires inst { inst.0 < inst_count m.now unit.0 }
    requires long { length facts.old ≡ value_count m.now unit.0 }
    ensures facts { (ls : List TableLine) → FactsAfter types.old (value_count m.now unit.0) (naming m.now unit.0) [] ls facts.old → OnOk result (FactsAfter types.new (value_count m.now unit.0) (naming m.now unit.0) [] (ls ++ line_at (table_at m.now unit.0) inst.0 ∷ []) facts.new) }
    ensures grows { OnOk result (NumbersGrow types.old types.new) }
{
    match m.result_of(unit, inst) {
        None => Ok(()),
        Some(value) => {
            let place = value.0 as usize;
            tell(alloc, &mut facts[place], m.inst(unit, inst), types)
        }
    }
}

fn tell(alloc: Global, fact: &mut Fact, inst: &Inst, types: &mut Types) -> Result<(), NoMemory>
    ensures fact { (f : Naming) → OnOk result (FactOfInst types.new fact.old.defined f inst.now fact.old fact.new) }
    ensures grows { OnOk result (NumbersGrow types.old types.new) }
{
    if fact.defined {
        return Ok(());
    }
    let given = result_type(alloc, inst)?;
    let ty = type_of(given.as_ref());
    fact.kind = result_kind(inst, ty);
    fact.ty = types.number_of(ty)?;
    fact.defined = true;
    Ok(())
}

fn type_of<'a>(given: Option<&'a GivenType<'a>>) -> Option<&'a Ty>
    ensures { option_copied result ≡ option_map type_given (option_copied given.entry) }
{
    Some(given?.get())
}

/// Tells the arguments, over what the instructions told; of two that are one value, the first tells.
fn tell_args(
    facts: &mut [Fact],
    seen: &mut [bool],
    args: &[Arg],
    types: &mut Types,
) -> Result<(), NoMemory>
    requires within { ArgsWithin (length facts.old) args.now }
    requires marks { seen.old ≡ replicate (length facts.old) false }
    ensures facts { (f : Naming) (lines : List TableLine) → FactsAfter types.old (length facts.old) f [] lines facts.old → OnOk result (FactsAfter types.new (length facts.old) f args.now lines facts.new) }
    ensures grows { OnOk result (NumbersGrow types.old types.new) }
{
    for arg in args {
        tell_arg_at(facts, seen, arg, types)?;
    }
    Ok(())
}

fn tell_arg_at(
    facts: &mut [Fact],
    seen: &mut [bool],
    arg: &Arg,
    types: &mut Types,
) -> Result<(), NoMemory>
    requires within { arg.now.value.0 < length facts.old }
    requires marks { length seen.old ≡ length facts.old }
    ensures marks { (args : List Arg) → Marks args (length facts.old) seen.old → OnOk result (Marks (args ++ arg.now ∷ []) (length facts.old) seen.new) }
    ensures facts { (f : Naming) (args : List Arg) (lines : List TableLine) → Marks args (length facts.old) seen.old → FactsAfter types.old (length facts.old) f args lines facts.old → OnOk result (FactsAfter types.new (length facts.old) f (args ++ arg.now ∷ []) lines facts.new) }
    ensures grows { OnOk result (NumbersGrow types.old types.new) }
{
    let value = arg.value.0 as usize;
    tell_arg(&mut facts[value], seen[value], arg, types)?;
    seen[value] = true;
    Ok(())
}

fn tell_arg(fact: &mut Fact, seen: bool, arg: &Arg, types: &mut Types) -> Result<(), NoMemory>
    ensures fact { OnOk result (FactOfArg types.new seen arg.now fact.old fact.new) }
    ensures grows { OnOk result (NumbersGrow types.old types.new) }
{
    if seen {
        return Ok(());
    }
    fact.kind = either(kind_of(arg.ty.kind()), fact.kind);
    fact.ty = Some(types.number_like(&arg.ty)?);
    fact.defined = true;
    Ok(())
}

/// The first, or else the second.
fn either(first: Option<ValueKind>, second: Option<ValueKind>) -> Option<ValueKind>
    ensures { option_map kind_as result ≡ or_else (option_map kind_as first) (option_map kind_as second) }
{
    match first {
        Some(kind) => Some(kind),
        None => second,
    }
}
