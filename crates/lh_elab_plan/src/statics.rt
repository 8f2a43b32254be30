//! What the values of an entity hold without any probe: constants, what operations give, and parts of the signals.
//!
//! It is computed once for all instances of the entity. A part is kept as if each argument and each `sig` began at bit 0, beside the
//! argument or `sig` of which it is a part.
ghost use Rattle.std.specs.Prelude.{◌≡◌, ℕ, ◌<◌, ◌++◌, ◌∷◌, [], List, length, replicate, map, OnOk, IfOk, slice_set};
ghost use Rattle.lh_types.specs.ValueOf.{datum_of};
ghost use Rattle.lh_types.specs.declared.part.Range.{Range as Part};
ghost use Rattle.lh_unit.specs.Arena.{IsArena, unit_count, value_count, inst_count, sizes, naming, table_at, unit_text_at, InstPlaced};
ghost use Rattle.lh_unit.specs.ById.{inst_line_text};
ghost use Rattle.lh_unit.specs.Held.{Env};
ghost use Rattle.lh_unit.specs.Hierarchy.{if_held, static_of, static_from};
ghost use Rattle.lh_unit.specs.Naming.{maybe_text, inst_text};
ghost use Rattle.lh_unit.specs.Table.{ArgsWithin};
ghost use Rattle.lh_unit.specs.Within.{Each, OperandWithin};
ghost use Rattle.lh_unit.specs.declared.inst.InstId.{InstId as Id};
ghost use Rattle.lh_unit.specs.declared.inst.Typed.{Typed as Operand};
ghost use Rattle.lh_eval.specs.HeldOf.{held_of, maybe_held};
ghost use Rattle.lh_eval.specs.Fitting.{OperandsFit};
ghost use Rattle.lh_eval.specs.Holding.{MaybeIn};
ghost use Rattle.lh_eval.specs.Sound.{InstIsSound};
ghost use Rattle.lh_elab_plan.specs.Statics.{by_of, held_by, given_by, args_begun, sigs_begun, HasSlots, StaticsFollow, FitsSomething, base_of};

use crate::width::{width, width_of};
use lh_eval::held::{Held, Slots};
use lh_eval::operate::operate;
use lh_types::memory::NoMemory;
use lh_types::part::Range;
use lh_unit::inst::{Arg, Inst, InstId, Typed, UnitId, ValueId};
use lh_unit::module::Module;
use std::alloc::Global;

/// Of what a part is a part: of the argument, or of the `sig` instruction, of this number.
#[derive(Clone, Copy)]
pub enum Base {
    Arg(usize),
    Sig(usize),
}

/// What is held by the values of an entity, and of what each part is a part.
#[derive(Drop)]
pub struct Statics {
    pub slots: Slots,
    pub bases: Vec<Base>,
}

impl Statics {
    /// Nothing is held by any value of the unit.
    pub fn new(alloc: Global, m: &Module, unit: UnitId) -> Result<Statics, NoMemory>
        requires { unit.0 < unit_count m.now }
        ensures slots { IfOk result (λ s. s.slots ≡ replicate (value_count m.now unit.0) None) }
        ensures bases { IfOk result (λ s. s.bases.items ≡ replicate (value_count m.now unit.0) (Base.Arg 0)) }
    {
        let slots = Slots::new(alloc, m.values(unit))?;
        let bases = vec![in alloc; Base::Arg(0); m.values(unit) as usize]?;
        Ok(Statics { slots, bases })
    }

    /// Holds this by a value.
    fn hold(&mut self, value: ValueId, base: Base, held: Held)
        requires slots { HasSlots self.old }
        requires value { value.0 < length self.old.slots }
        ensures by { by_of self.new ≡ held_by (by_of self.old) value base (held_of held) }
        ensures slots { HasSlots self.new }
        ensures long { length self.new.slots ≡ length self.old.slots }
    {
        self.slots.set(value, held);
        self.bases[value.0 as usize] = base;
    }

    /// Holds what an instruction gives by the value that names its result, where both are there.
    fn give(&mut self, name: Option<ValueId>, base: Base, held: Option<Held>)
        requires slots { HasSlots self.old }
        requires name { MaybeIn self.old.slots name }
        ensures by { by_of self.new ≡ given_by (by_of self.old) name base (maybe_held held) }
        ensures slots { HasSlots self.new }
        ensures long { length self.new.slots ≡ length self.old.slots }
    {
        if let (Some(value), Some(held)) = (name, held) {
            self.hold(value, base, held);
        }
    }

    /// Holds the arguments of a unit, each from bit 0 on.
    pub fn hold_args(&mut self, args: &[Arg])
        requires slots { HasSlots self.old }
        requires args { ArgsWithin (length self.old.slots) args.now }
        ensures by { by_of self.new ≡ args_begun 0 args.now (by_of self.old) }
        ensures slots { HasSlots self.new }
        ensures long { length self.new.slots ≡ length self.old.slots }
    {
        for (i, arg) in args.iter().enumerate() {
            let part = Range {
                lo: 0,
                len: width_of(&arg.ty),
            };
            self.hold(arg.value, Base::Arg(i), Held::Part(part));
        }
    }

    /// Holds the signals of these instructions, each from bit 0 on.
    pub fn hold_signals(&mut self, m: &Module, unit: UnitId, insts: &[InstId])
        requires slots { HasSlots self.old }
        requires unit { unit.0 < unit_count m.now }
        requires long { length self.old.slots ≡ value_count m.now unit.0 }
        requires insts { Each (λ (i : Id). i.0 < inst_count m.now unit.0) insts.now }
        ensures by { by_of self.new ≡ sigs_begun (table_at m.now unit.0) 0 insts.now (by_of self.old) }
        ensures slots { HasSlots self.new }
        ensures long { length self.new.slots ≡ length self.old.slots }
    {
        let mut k: usize = 0;
        for inst in insts {
            let Inst::Sig(initial) = m.inst(unit, *inst) else {
                continue;
            };
            let part = Range {
                lo: 0,
                len: width(&initial.ty),
            };
            self.give(
                m.result_of(unit, *inst),
                Base::Sig(k),
                Some(Held::Part(part)),
            );
            k += 1;
        }
    }
}

impl Statics {
    /// Holds what the constants and operations of these instructions give, one after the other.
    pub fn run(
        &mut self,
        alloc: Global,
        m: &Module,
        unit: UnitId,
        insts: &[InstId],
    ) -> Result<(), NoMemory>
        requires arena { IsArena m.now }
        requires unit { unit.0 < unit_count m.now }
        requires insts { Each (λ (i : Id). i.0 < inst_count m.now unit.0) insts.now }
        requires sound { Each (λ (i : Id). InstIsSound (unit_text_at m.now unit.0) (inst_line_text (naming m.now unit.0) (table_at m.now unit.0) i)) insts.now }
        requires slots { HasSlots self.old }
        requires fit { FitsSomething m.now unit.0 self.old }
        ensures slots { HasSlots self.new }
        ensures fit { OnOk result (FitsSomething m.now unit.0 self.new) }
        ensures follows { (args sigs : List Part) (e : Env) → StaticsFollow m.now unit.0 args sigs (by_of self.old) e → OnOk result (StaticsFollow m.now unit.0 args sigs (by_of self.new) (static_from (unit_text_at m.now unit.0) e (map (inst_line_text (naming m.now unit.0) (table_at m.now unit.0)) insts.now))) }
    {
        for inst in insts {
            self.run_inst(
                alloc,
                m,
                unit,
                m.inst(unit, *inst),
                m.result_of(unit, *inst),
            )?;
        }
        Ok(())
    }

    /// Holds what an instruction gives, if it is a constant or an operation.
    fn run_inst(
        &mut self,
        alloc: Global,
        m: &Module,
        unit: UnitId,
        inst: &Inst,
        name: Option<ValueId>,
    ) -> Result<(), NoMemory>
        requires arena { IsArena m.now }
        requires unit { unit.0 < unit_count m.now }
        requires placed { InstPlaced m.now unit.0 inst.now }
        requires name { MaybeIn self.old.slots name }
        requires sound { InstIsSound (unit_text_at m.now unit.0) (record { result = maybe_text (naming m.now unit.0) name; inst = inst_text (naming m.now unit.0) inst.now }) }
        requires slots { HasSlots self.old }
        requires fit { FitsSomething m.now unit.0 self.old }
        ensures slots { HasSlots self.new }
        ensures follows { (args sigs : List Part) (e : Env) → StaticsFollow m.now unit.0 args sigs (by_of self.old) e → OnOk result (StaticsFollow m.now unit.0 args sigs (by_of self.new) (if_held e (maybe_text (naming m.now unit.0) name) (static_of (unit_text_at m.now unit.0) e (inst_text (naming m.now unit.0) inst.now)))) }
    {
        match inst {
            Inst::Const(value) => {
                let value = value.value()?;
                self.give(name, Base::Arg(0), Some(Held::Datum(value)));
                Ok(())
            }
            Inst::Pure { op, args } => {
                let operands = args.as_slice();
                let held = operate(alloc, m, unit, op, operands, &self.slots)?;
                let base = self.base_of(operands);
                self.give(name, base, held);
                Ok(())
            }
            _ => Ok(()),
        }
    }

    /// Of what the first operand is a part.
    fn base_of(&self, args: &[Typed]) -> Base
        requires slots { HasSlots self.now }
        requires args { Each (λ (o : Operand). o.value.0 < length self.now.slots) args.now }
        ensures { result ≡ base_of self.now.bases.items args.now }
    {
        if args.is_empty() {
            return Base::Arg(0);
        }
        self.bases[args[0].value.0 as usize]
    }
}
