//! One instruction of an entity after the other.
ghost use Rattle.std.specs.Prelude.{◌≡◌, ◌<◌, ◌^◌, ℕ, [], ◌∷◌, length, map, unwrap_or, Some, OnOk};
ghost use Rattle.lh_unit.specs.Arena.{Arena, IsArena, unit_count, inst_count, value_count, sizes, naming, unit_text_at, InstPlaced};
ghost use Rattle.lh_unit.specs.Effects.{operated, probed, driven};
ghost use Rattle.lh_unit.specs.Held.{Env, datum_held};
ghost use Rattle.lh_unit.specs.Naming.{operand_text, value_text, maybe_text};
ghost use Rattle.lh_unit.specs.Pass.{Passed};
ghost use Rattle.lh_unit.specs.Within.{Each, OperandWithin};
ghost use Rattle.lh_unit.specs.declared.inst.InstId.{InstId as Id};
ghost use Rattle.lh_eval.specs.Holding as holding;
ghost use Rattle.lh_eval.specs.Holding.{Holds, MaybeIn};
ghost use Rattle.lh_eval.specs.Fitting.{OperandsFit, ProbeFits, DriveFits};
ghost use Rattle.lh_eval.specs.Sound.{InstIsSound};
ghost use Rattle.lh_react.specs.Standing.{StandsForPass, RunFits, HasGiven, HasWished, line_in, named_line, passed_by, passed_all};

use crate::register::run_reg;
use crate::state::EntState;
use lh_bits::bits::Bits;
use lh_eval::effects::{drive, probe};
use lh_eval::held::{Held, Slots};
use lh_eval::operate::operate;
use lh_eval::wishes::Wishes;
use lh_time::Instant;
use lh_types::list::BoolList;
use lh_types::memory::NoMemory;
use lh_types::op::Op;
use lh_unit::constant::Constant;
use lh_unit::inst::{Inst, InstId, Typed, UnitId, ValueId};
use lh_unit::module::Module;
use std::alloc::Global;

/// What a run has come to: what is held, the value of each trigger so far, and the wishes.
#[derive(Drop)]
pub(crate) struct PassRun {
    pub slots: Slots,
    pub seen: BoolList,
    pub wishes: Wishes,
}

/// Runs instructions of a unit, one after the other, where the signals have these bits.
pub(crate) fn run_insts(
    alloc: Global,
    m: &Module,
    unit: UnitId,
    insts: &[InstId],
    now: &Bits,
    state: &EntState,
    at: Instant,
    run: &mut PassRun,
) -> Result<(), NoMemory>
    requires arena { IsArena m.now }
    requires unit { unit.0 < unit_count m.now }
    requires insts { Each (λ (i : Id). i.0 < inst_count m.now unit.0) insts.now }
    requires sound { Each (λ (i : Id). InstIsSound (unit_text_at m.now unit.0) (line_in m.now unit.0 i)) insts.now }
    requires few { length now.now < 2 ^ 32 }
    requires fit { RunFits m.now unit.0 (length now.now) run.old }
    ensures { (p : Passed) → StandsForPass m.now unit.0 p run.old → OnOk result (StandsForPass m.now unit.0 (passed_all m.now unit.0 now.now state.now.memory at p insts.now) run.new) }
{
    for inst in insts {
        run_inst(alloc, m, unit, *inst, now, state, at, run)?;
    }
    Ok(())
}

/// Runs one instruction.
fn run_inst(
    alloc: Global,
    m: &Module,
    unit: UnitId,
    inst: InstId,
    now: &Bits,
    state: &EntState,
    at: Instant,
    run: &mut PassRun,
) -> Result<(), NoMemory>
    requires unit { unit.0 < unit_count m.now }
    requires inst { inst.0 < inst_count m.now unit.0 }
    requires sound { InstIsSound (unit_text_at m.now unit.0) (line_in m.now unit.0 inst) }
    requires few { length now.now < 2 ^ 32 }
    requires fit { RunFits m.now unit.0 (length now.now) run.old }
    ensures { (p : Passed) → StandsForPass m.now unit.0 p run.old → OnOk result (StandsForPass m.now unit.0 (passed_all m.now unit.0 now.now state.now.memory at p (inst ∷ [])) run.new) }
{
    let name = m.result_of(unit, inst);
    let inst = m.inst(unit, inst);
    run_named(alloc, m, unit, inst, name, now, state, at, run)
}

/// Runs an instruction that gives the value of this name; `sig` and `inst` do nothing.
fn run_named(
    alloc: Global,
    m: &Module,
    unit: UnitId,
    inst: &Inst,
    name: Option<ValueId>,
    now: &Bits,
    state: &EntState,
    at: Instant,
    run: &mut PassRun,
) -> Result<(), NoMemory>
    requires arena { IsArena m.now }
    requires unit { unit.0 < unit_count m.now }
    requires placed { InstPlaced m.now unit.0 inst.now }
    requires name { MaybeIn run.old.slots name }
    requires sound { InstIsSound (unit_text_at m.now unit.0) (named_line m.now unit.0 name inst.now) }
    requires few { length now.now < 2 ^ 32 }
    requires fit { RunFits m.now unit.0 (length now.now) run.old }
    ensures { (p : Passed) → StandsForPass m.now unit.0 p run.old → OnOk result (StandsForPass m.now unit.0 (passed_by m.now unit.0 now.now state.now.memory at p name inst.now) run.new) }
{
    match inst {
        Inst::Const(value) => run_const(value, name, run),
        Inst::Pure { op, args } => run_pure(alloc, m, unit, op, args.as_slice(), name, run),
        Inst::Prb(signal) => run_prb(alloc, signal, name, now, run),
        Inst::Drv {
            to,
            value,
            after,
            cond,
        } => run_drv(alloc, at, to, *value, *after, *cond, run),
        Inst::Reg { to, triggers } => run_reg(alloc, at, to, triggers.as_slice(), state, run),
        _ => Ok(()),
    }
}

fn run_const(value: &Constant, name: Option<ValueId>, run: &mut PassRun) -> Result<(), NoMemory>
    requires { MaybeIn run.old.slots name }
    ensures { OnOk result (HasGiven run.old name (Some (datum_held value.now)) run.new) }
{
    let value = value.value()?;
    run.slots.give(name, Some(Held::Datum(value)));
    Ok(())
}

fn run_pure(
    alloc: Global,
    m: &Module,
    unit: UnitId,
    op: &Op,
    args: &[Typed],
    name: Option<ValueId>,
    run: &mut PassRun,
) -> Result<(), NoMemory>
    requires unit { unit.0 < unit_count m.now }
    requires args { Each (OperandWithin (sizes m.now unit.0)) args.now }
    requires name { MaybeIn run.old.slots name }
    requires slots { length run.old.slots ≡ value_count m.now unit.0 }
    requires fit { OperandsFit m.now unit.0 run.old.slots op.now args.now }
    ensures { (e : Env) → Holds m.now unit.0 run.old.slots e → OnOk result (HasGiven run.old name (operated (unit_text_at m.now unit.0) e op.now (map (operand_text (naming m.now unit.0)) args.now)) run.new) }
{
    let held = operate(alloc, m, unit, op, args, &run.slots)?;
    run.slots.give(name, held);
    Ok(())
}

fn run_prb(
    alloc: Global,
    signal: &Typed,
    name: Option<ValueId>,
    now: &Bits,
    run: &mut PassRun,
) -> Result<(), NoMemory>
    requires within { signal.now.value.0 < length run.old.slots }
    requires name { MaybeIn run.old.slots name }
    requires fit { ProbeFits now.now run.old.slots signal.now }
    ensures { (a : Arena) (u : ℕ) (e : Env) → Holds a u run.old.slots e → OnOk result (HasGiven run.old name (probed now.now e (operand_text (naming a u) signal.now)) run.new) }
{
    let held = probe(alloc, signal, &run.slots, now)?;
    run.slots.give(name, held);
    Ok(())
}

fn run_drv(
    alloc: Global,
    at: Instant,
    to: &Typed,
    value: ValueId,
    after: ValueId,
    cond: Option<ValueId>,
    run: &mut PassRun,
) -> Result<(), NoMemory>
    requires to_within { to.now.value.0 < length run.old.slots }
    requires value_within { value.0 < length run.old.slots }
    requires after_within { after.0 < length run.old.slots }
    requires cond_within { MaybeIn run.old.slots cond }
    requires fit { DriveFits (holding.part_in run.old.slots to.now.value) (holding.datum_in run.old.slots value) }
    ensures { (a : Arena) (u : ℕ) (e : Env) → Holds a u run.old.slots e → OnOk result (HasWished run.old (unwrap_or (driven at e run.old.wishes (operand_text (naming a u) to.now) (value_text (naming a u) value) (value_text (naming a u) after) (maybe_text (naming a u) cond)) run.old.wishes) run.new) }
{
    drive(
        alloc,
        at,
        to,
        value,
        after,
        cond,
        &run.slots,
        &mut run.wishes,
    )?;
    Ok(())
}
