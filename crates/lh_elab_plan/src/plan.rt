//! What elaboration reads of a unit, once for all its instances.
ghost use Rattle.std.specs.Prelude.{◌≡◌, ℕ, ◌<◌, ◌++◌, ◌∷◌, [], List, length, map, Some, IfSome, IfOk, OnOk};
ghost use Rattle.std.specs.Option.{option_map_or};
ghost use Rattle.lh_types.specs.Fits.{FitsData};
ghost use Rattle.lh_types.specs.Bits.{value_bits};
ghost use Rattle.lh_types.specs.declared.part.Range.{Range as Part};
ghost use Rattle.lh_unit.specs.Arena.{Arena, IsArena, unit_count, value_count, inst_count, kind_at, naming, table_at, unit_text_at, block_insts_at, contents};
ghost use Rattle.lh_unit.specs.ById.{inst_line_text};
ghost use Rattle.lh_unit.specs.Held.{Env};
ghost use Rattle.lh_unit.specs.Hierarchy.{static_held, signal_if, signals_of, child_if, children_of, type_or_void, zeros};
ghost use Rattle.lh_unit.specs.Naming.{maybe_text, inst_text, operand_text};
ghost use Rattle.lh_unit.specs.WellFormed.{IsWellFormed};
ghost use Rattle.lh_unit.specs.Within.{Each};
ghost use Rattle.lh_unit.specs.declared.inst.InstId.{InstId as Id};
ghost use Rattle.lh_unit.specs.declared.inst.Typed.{Typed as Operand};
ghost use Rattle.lh_eval.specs.Holding as holding;
ghost use Rattle.lh_eval.specs.Holding.{Holds};
ghost use Rattle.lh_eval.specs.Sound.{InstIsSound};
ghost use Rattle.lh_eval_laws.specs.Units.{WritesData};
ghost use Rattle.lh_elab_plan.specs.Statics.{by_of, HasSlots, StaticsFollow, FitsSomething};
ghost use Rattle.lh_elab_plan.specs.Plans.{signal_of, signal_by, child_of, low_by, lows_by, AreRangesOf, IsPlan, SignalFits, SignalIs, SignalLine, ChildLine, ChildWithin, ChildSmall, PartsSmall};
ghost use Rattle.lh_elab_plan.specs.declared.plan.PlanChild.{PlanChild as Child};

use crate::statics::{Base, Statics};
use crate::width::width;
use lh_bits::bits::Bits;
use lh_bits::layout::to_bits;
use lh_eval::held::Slots;
use lh_eval::operands::{datum_in, part_in};
use lh_types::memory::NoMemory;
use lh_types::ty::Ty;
use lh_unit::inst::{BlockId, Inst, InstId, Typed, UnitId, UnitKind, ValueId};
use lh_unit::module::Module;
use lh_unit_names::name::Name;
use std::alloc::Global;

/// A signal of a unit: its name, the type that it carries, and the bits that it begins with.
#[derive(Drop)]
pub struct PlanSignal {
    pub name: Name,
    pub ty: Ty,
    pub initial: Bits,
}

/// Where a part of the signals lies in an instance: this many bits above the lowest of an argument or a `sig`.
#[derive(Clone, Copy)]
pub struct Low {
    pub base: Base,
    pub offset: u32,
}

/// An `inst` of a unit: the unit that it names, and where the part of each operand lies.
#[derive(Drop)]
pub struct PlanChild {
    pub unit: UnitId,
    pub lows: Vec<Option<Low>>,
}

/// The signals of a unit and the instances in it, in text order.
#[derive(Drop)]
pub struct Plan {
    pub signals: Vec<PlanSignal>,
    pub children: Vec<PlanChild>,
}

/// What elaboration reads of a unit.
pub fn plan_of(alloc: Global, m: &Module, unit: UnitId) -> Result<Plan, NoMemory>
    requires unit { unit.0 < unit_count m.now }
    requires formed { IsWellFormed (contents m.now) }
    ensures { IfOk result (λ p. IsPlan m.now unit.0 p) }
{
    match m.kind(unit) {
        Some(UnitKind::Entity) => entity_plan(alloc, m, unit),
        _ => Ok(Plan::new(alloc)),
    }
}

/// What elaboration reads of an entity.
fn entity_plan(alloc: Global, m: &Module, unit: UnitId) -> Result<Plan, NoMemory>
    requires unit { unit.0 < unit_count m.now }
    requires entity { kind_at m.now unit.0 ≡ Some UnitKind.Entity }
    requires arena { IsArena m.now }
    requires formed { IsWellFormed (contents m.now) }
    ensures { IfOk result (λ p. IsPlan m.now unit.0 p) }
{
    let insts = m.insts(unit, BlockId(0));
    let mut plan = Plan::new(alloc);
    let values = values(alloc, m, unit, insts)?;
    plan.put_signals(alloc, m, unit, insts, &values)?;
    let parts = parts(alloc, m, unit, insts)?;
    plan.put_children(alloc, m, unit, insts, &parts)?;
    Ok(plan)
}

/// What the constants and operations of an entity give where no signal is there: the values from which its signals begin.
fn values(alloc: Global, m: &Module, unit: UnitId, insts: &[InstId]) -> Result<Statics, NoMemory>
    requires unit { unit.0 < unit_count m.now }
    requires entity { kind_at m.now unit.0 ≡ Some UnitKind.Entity }
    requires arena { IsArena m.now }
    requires formed { IsWellFormed (contents m.now) }
    requires insts { insts.now ≡ block_insts_at m.now unit.0 0 }
    ensures fit { IfOk result (FitsSomething m.now unit.0) }
    ensures holds { IfOk result (λ s. Holds m.now unit.0 s.slots (static_held (unit_text_at m.now unit.0) [] [])) }
{
    let mut statics = Statics::new(alloc, m, unit)?;
    statics.run(alloc, m, unit, insts)?;
    Ok(statics)
}

/// What an entity holds without any probe, in each of its instances.
pub fn parts(alloc: Global, m: &Module, unit: UnitId, insts: &[InstId]) -> Result<Statics, NoMemory>
    requires unit { unit.0 < unit_count m.now }
    requires entity { kind_at m.now unit.0 ≡ Some UnitKind.Entity }
    requires arena { IsArena m.now }
    requires formed { IsWellFormed (contents m.now) }
    requires insts { insts.now ≡ block_insts_at m.now unit.0 0 }
    ensures slots { IfOk result HasSlots }
    ensures long { IfOk result (λ s. length s.slots ≡ value_count m.now unit.0) }
    ensures small { IfOk result PartsSmall }
    ensures follows { (args sigs : List Part) → AreRangesOf (unit_text_at m.now unit.0) args sigs → IfOk result (λ s. StaticsFollow m.now unit.0 args sigs (by_of s) (static_held (unit_text_at m.now unit.0) args sigs)) }
{
    let mut statics = Statics::new(alloc, m, unit)?;
    statics.hold_args(m.args(unit));
    statics.hold_signals(m, unit, insts);
    statics.run(alloc, m, unit, insts)?;
    Ok(statics)
}

impl Plan {
    /// No signals and no instances.
    fn new(alloc: Global) -> Plan
        ensures signals { result.signals.items ≡ [] }
        ensures children { result.children.items ≡ [] }
    {
        Plan {
            signals: Vec::new(alloc),
            children: Vec::new(alloc),
        }
    }

    /// Adds the signals of these instructions.
    fn put_signals(
        &mut self,
        alloc: Global,
        m: &Module,
        unit: UnitId,
        insts: &[InstId],
        values: &Statics,
    ) -> Result<(), NoMemory>
        requires arena { IsArena m.now }
        requires unit { unit.0 < unit_count m.now }
        requires insts { Each (λ (i : Id). i.0 < inst_count m.now unit.0) insts.now }
        requires sound { Each (λ (i : Id). InstIsSound (unit_text_at m.now unit.0) (inst_line_text (naming m.now unit.0) (table_at m.now unit.0) i)) insts.now }
        requires writes { Each (λ (i : Id). WritesData (inst_line_text (naming m.now unit.0) (table_at m.now unit.0) i)) insts.now }
        requires fit { FitsSomething m.now unit.0 values.now }
        ensures signals { (e : Env) → Holds m.now unit.0 values.now.slots e → OnOk result (map signal_of self.new.signals.items ≡ map signal_of self.old.signals.items ++ signals_of e (map (inst_line_text (naming m.now unit.0) (table_at m.now unit.0)) insts.now)) }
        ensures fit { Each SignalFits self.old.signals.items → OnOk result (Each SignalFits self.new.signals.items) }
        ensures children { self.new.children.items ≡ self.old.children.items }
    {
        for inst in insts {
            self.put_if_signal(
                alloc,
                m,
                unit,
                m.result_of(unit, *inst),
                m.inst(unit, *inst),
                &values.slots,
            )?;
        }
        Ok(())
    }

    /// Adds the signal of an instruction whose result has this name, if it is a `sig`.
    fn put_if_signal(
        &mut self,
        alloc: Global,
        m: &Module,
        unit: UnitId,
        name: Option<ValueId>,
        inst: &Inst,
        slots: &Slots,
    ) -> Result<(), NoMemory>
        requires unit { unit.0 < unit_count m.now }
        requires line { SignalLine m.now unit.0 slots.now name inst.now }
        ensures signals { (e : Env) → Holds m.now unit.0 slots.now e → OnOk result (map signal_of self.new.signals.items ≡ map signal_of self.old.signals.items ++ signal_if e (inst_text (naming m.now unit.0) inst.now) (maybe_text (naming m.now unit.0) name) []) }
        ensures fit { Each SignalFits self.old.signals.items → OnOk result (Each SignalFits self.new.signals.items) }
        ensures children { self.new.children.items ≡ self.old.children.items }
    {
        match inst {
            Inst::Sig(initial) => {
                let signal = signal(alloc, m, unit, name, initial, slots)?;
                self.push_signal(signal)
            }
            _ => Ok(()),
        }
    }

    fn push_signal(&mut self, signal: PlanSignal) -> Result<(), NoMemory>
        ensures signals { OnOk result (self.new.signals.items ≡ self.old.signals.items ++ signal ∷ []) }
        ensures children { self.new.children.items ≡ self.old.children.items }
    {
        self.signals.push(signal)?;
        Ok(())
    }

    /// Adds the instances of these instructions.
    fn put_children(
        &mut self,
        alloc: Global,
        m: &Module,
        unit: UnitId,
        insts: &[InstId],
        statics: &Statics,
    ) -> Result<(), NoMemory>
        requires unit { unit.0 < unit_count m.now }
        requires insts { Each (λ (i : Id). i.0 < inst_count m.now unit.0) insts.now }
        requires long { length statics.now.slots ≡ value_count m.now unit.0 }
        requires slots { HasSlots statics.now }
        ensures small { Each ChildSmall self.old.children.items → PartsSmall statics.now → OnOk result (Each ChildSmall self.new.children.items) }
        ensures children { (args sigs : List Part) (e : Env) → StaticsFollow m.now unit.0 args sigs (by_of statics.now) e → OnOk result (map (child_of m.now args sigs) self.new.children.items ≡ map (child_of m.now args sigs) self.old.children.items ++ children_of e (map (inst_line_text (naming m.now unit.0) (table_at m.now unit.0)) insts.now)) }
        ensures within { Each (λ (c : Child). c.unit.0 < unit_count m.now) self.old.children.items → OnOk result (Each (λ (c : Child). c.unit.0 < unit_count m.now) self.new.children.items) }
        ensures signals { self.new.signals.items ≡ self.old.signals.items }
    {
        for inst in insts {
            self.put_if_child(alloc, m.inst(unit, *inst), statics)?;
        }
        Ok(())
    }

    /// Adds the instance of an instruction, if it is an `inst`.
    fn put_if_child(
        &mut self,
        alloc: Global,
        inst: &Inst,
        statics: &Statics,
    ) -> Result<(), NoMemory>
        requires slots { HasSlots statics.now }
        requires operands { ChildLine (length statics.now.slots) inst.now }
        ensures children { (a : Arena) (u : ℕ) (args sigs : List Part) (e : Env) → StaticsFollow a u args sigs (by_of statics.now) e → OnOk result (map (child_of a args sigs) self.new.children.items ≡ map (child_of a args sigs) self.old.children.items ++ child_if e (inst_text (naming a u) inst.now) []) }
        ensures small { Each ChildSmall self.old.children.items → PartsSmall statics.now → OnOk result (Each ChildSmall self.new.children.items) }
        ensures within { (n : ℕ) → ChildWithin n inst.now → Each (λ (c : Child). c.unit.0 < n) self.old.children.items → OnOk result (Each (λ (c : Child). c.unit.0 < n) self.new.children.items) }
        ensures signals { self.new.signals.items ≡ self.old.signals.items }
    {
        match inst {
            Inst::Child {
                unit,
                inputs,
                outputs,
            } => {
                let child = child(alloc, *unit, inputs.as_slice(), outputs.as_slice(), statics)?;
                self.push_child(child)
            }
            _ => Ok(()),
        }
    }

    fn push_child(&mut self, child: PlanChild) -> Result<(), NoMemory>
        ensures children { OnOk result (self.new.children.items ≡ self.old.children.items ++ child ∷ []) }
        ensures signals { self.new.signals.items ≡ self.old.signals.items }
    {
        self.children.push(child)?;
        Ok(())
    }
}

/// The signal of a `sig` whose result has this name.
fn signal(
    alloc: Global,
    m: &Module,
    unit: UnitId,
    name: Option<ValueId>,
    initial: &Typed,
    slots: &Slots,
) -> Result<PlanSignal, NoMemory>
    requires unit { unit.0 < unit_count m.now }
    requires line { SignalIs m.now unit.0 slots.now name initial.now }
    ensures signal { (e : Env) → Holds m.now unit.0 slots.now e → IfOk result (λ s. signal_of s ≡ signal_by e (maybe_text (naming m.now unit.0) name) (operand_text (naming m.now unit.0) initial.now)) }
    ensures fit { IfOk result SignalFits }
{
    let (Some(value), Some(ty)) = (name, initial.ty.get()) else {
        unreachable!()
    };
    Ok(PlanSignal {
        name: m.value_name(unit, value).copy()?,
        ty: ty.copy()?,
        initial: initial_bits(alloc, slots, initial)?,
    })
}

/// The bits that the signal of a `sig` begins with: those of its operand's value.
fn initial_bits(alloc: Global, slots: &Slots, initial: &Typed) -> Result<Bits, NoMemory>
    requires value { initial.now.value.0 < length slots.now }
    requires fits { IfSome (holding.datum_in slots.now initial.now.value) FitsData }
    ensures { IfOk result (λ b. b ≡ option_map_or value_bits (holding.datum_in slots.now initial.now.value) (zeros (type_or_void initial.now.ty))) }
{
    match datum_in(slots, initial.value) {
        Some(value) => to_bits(alloc, value),
        None => Bits::zeros(alloc, width(&initial.ty)),
    }
}

/// An `inst` with these operands.
fn child(
    alloc: Global,
    unit: UnitId,
    inputs: &[Typed],
    outputs: &[Typed],
    statics: &Statics,
) -> Result<PlanChild, NoMemory>
    requires inputs { Each (λ (o : Operand). o.value.0 < length statics.now.slots) inputs.now }
    requires outputs { Each (λ (o : Operand). o.value.0 < length statics.now.slots) outputs.now }
    requires slots { HasSlots statics.now }
    ensures unit { IfOk result (λ c. c.unit ≡ unit) }
    ensures lows { IfOk result (λ c. c.lows.items ≡ lows_by statics.now (inputs.now ++ outputs.now)) }
{
    let mut lows = Vec::new(alloc);
    put_lows(&mut lows, inputs, statics)?;
    put_lows(&mut lows, outputs, statics)?;
    Ok(PlanChild { unit, lows })
}

fn put_lows(
    lows: &mut Vec<Option<Low>>,
    operands: &[Typed],
    statics: &Statics,
) -> Result<(), NoMemory>
    requires operands { Each (λ (o : Operand). o.value.0 < length statics.now.slots) operands.now }
    requires slots { HasSlots statics.now }
    ensures { OnOk result (lows.new.items ≡ lows.old.items ++ lows_by statics.now operands.now) }
{
    for operand in operands {
        push_low(lows, low_in(statics, operand.value))?;
    }
    Ok(())
}

/// Where the part lies that is held by a value, if one is.
fn low_in(statics: &Statics, value: ValueId) -> Option<Low>
    requires value { value.0 < length statics.now.slots }
    requires slots { HasSlots statics.now }
    ensures { result ≡ low_by statics.now value }
{
    let part = part_in(&statics.slots, value)?;
    Some(Low {
        base: statics.bases[value.0 as usize],
        offset: part.lo,
    })
}

fn push_low(lows: &mut Vec<Option<Low>>, low: Option<Low>) -> Result<(), NoMemory>
    ensures { OnOk result (lows.new.items ≡ lows.old.items ++ low ∷ []) }
{
    lows.push(low)?;
    Ok(())
}
