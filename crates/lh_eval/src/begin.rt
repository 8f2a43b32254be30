//! What an entity holds where it begins: the parts of its arguments and of its signals.
ghost use Rattle.std.specs.Prelude.{◌≡◌, ◌<◌, length, Some, IfOk};
ghost use Rattle.lh_unit.specs.Table.{ArgsWithin};
ghost use Rattle.lh_unit.specs.Arena.{IsArena, unit_count, value_count, inst_count, table_at, kind_at, unit_text_at, block_insts_at};
ghost use Rattle.lh_unit.specs.Hierarchy.{parts_of};
ghost use Rattle.lh_unit.specs.Within.{Each};
ghost use Rattle.lh_unit.specs.declared.inst.InstId.{InstId as Id};
ghost use Rattle.lh_eval.specs.Holding.{Holds};
ghost use Rattle.lh_eval.specs.Beginning.{args_given, signals_given};

use crate::held::{Held, Slots};
use lh_types::memory::NoMemory;
use lh_types::part::Range;
use lh_unit::inst::{Arg, InstId, UnitId, UnitKind};
use lh_unit::module::Module;
use std::alloc::Global;

/// The slots of an entity where it begins, of which the arguments and the signals have these bits.
pub fn begin(
    alloc: Global,
    m: &Module,
    unit: UnitId,
    insts: &[InstId],
    args: &[Range],
    sigs: &[Range],
) -> Result<Slots, NoMemory>
    requires unit { unit.0 < unit_count m.now }
    requires entity { kind_at m.now unit.0 ≡ Some UnitKind.Entity }
    requires insts { insts.now ≡ block_insts_at m.now unit.0 0 }
    requires within { Each (λ (i : Id). i.0 < inst_count m.now unit.0) insts.now }
    ensures { IfOk result (λ slots. Holds m.now unit.0 slots (parts_of (unit_text_at m.now unit.0) args.now sigs.now)) }
{
    let mut slots = Slots::new(alloc, m.values(unit))?;
    hold_args(m.args(unit), args, &mut slots);
    hold_signals(m, unit, insts, sigs, &mut slots);
    Ok(slots)
}

/// Holds parts by the arguments of a unit, as many as there are ranges.
pub fn hold_args(args: &[Arg], ranges: &[Range], slots: &mut Slots)
    requires { ArgsWithin (length slots.old) args.now }
    ensures { slots.new ≡ args_given args.now ranges.now slots.old }
{
    for (i, arg) in args.iter().enumerate() {
        if i >= ranges.len() {
            return;
        }
        slots.set(arg.value, Held::Part(ranges[i]));
    }
}

fn hold_signals(m: &Module, unit: UnitId, insts: &[InstId], ranges: &[Range], slots: &mut Slots)
    requires unit { unit.0 < unit_count m.now }
    requires within { Each (λ (i : Id). i.0 < inst_count m.now unit.0) insts.now }
    requires slots { length slots.old ≡ value_count m.now unit.0 }
    ensures { slots.new ≡ signals_given (table_at m.now unit.0) insts.now ranges.now slots.old }
{
    if ranges.is_empty() {
        return;
    }
    let mut k = 0;
    for inst in insts {
        if !m.inst(unit, *inst).is_sig() {
            continue;
        }
        if k >= ranges.len() {
            return;
        }
        slots.give(m.result_of(unit, *inst), Some(Held::Part(ranges[k])));
        k += 1;
    }
}
