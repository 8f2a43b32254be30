//! What is held by the values of a unit.
ghost use Rattle.std.specs.Prelude.{◌≡◌, ◌<◌, ◌++◌, ◌∷◌, [], length, map, replicate, slice_set, IfOk, OnOk};
ghost use Rattle.std.specs.Option.{option_copied};
ghost use Rattle.lh_eval.specs.HeldOf.{held_of, maybe_held};
ghost use Rattle.lh_eval.specs.Holding.{slot_at, given, MaybeIn};

use lh_types::memory::NoMemory;
use lh_types::part::Range;
use lh_types::val::Val;
use lh_unit::inst::ValueId;
use std::alloc::Global;
use std::marker::Model;

/// What a value of a unit is while the unit runs.
#[derive(Drop)]
pub enum Held {
    /// A value of a data type, or a time.
    Datum(Val),
    /// A variable, with what is stored in it.
    Cell(Val),
    /// A part of the signals: a range of their bits.
    Part(Range),
}

impl Held {
    /// An equal one.
    pub fn copy(&self) -> Result<Held, NoMemory>
        ensures { IfOk result (λ h. held_of h ≡ held_of self.now) }
    {
        match self {
            Held::Datum(v) => {
                let v = v.copy()?;
                Ok(Held::Datum(v))
            }
            Held::Cell(v) => {
                let v = v.copy()?;
                Ok(Held::Cell(v))
            }
            Held::Part(r) => Ok(Held::Part(*r)),
        }
    }
}

/// What is held by the values of one unit, by their ids.
#[derive(Drop)]
pub struct Slots {
    slots: Vec<Option<Held>>,
}

impl Model for Slots {
    ghost use Rattle.std.specs.Prelude.{List, Option, map};
    ghost use Rattle.std.specs.Coded.{codes};
    ghost use Rattle.lh_types.specs.Values.{datum_coded};
    ghost use Rattle.lh_unit.specs.Held.{Held};

    ghost Value = { List (Option Held) };

    ghost coded = { Prim.hlevel (codes, datum_coded) };

    ghost use Rattle.lh_eval.specs.HeldOf.{maybe_held};

    ghost view = { λ s. map maybe_held s.slots.items };
}

impl Slots {
    /// Slots for this many values, in which nothing is held.
    pub fn new(alloc: Global, len: u32) -> Result<Slots, NoMemory>
        ensures { IfOk result (λ s. s ≡ replicate len None) }
    {
        let mut slots = Vec::with_capacity(alloc, len as usize)?;
        for i in 0..len {
            slots.push_reserved(None);
        }
        Ok(Slots { slots })
    }

    /// An equal copy.
    pub fn copy(&self, alloc: Global) -> Result<Slots, NoMemory>
        ensures { IfOk result (λ s. s ≡ self.now) }
    {
        let mut slots = Vec::with_capacity(alloc, self.slots.len())?;
        let from = self.slots.as_slice();
        for slot in from {
            push_copy(&mut slots, slot)?;
        }
        Ok(Slots { slots })
    }

    /// How many values there are.
    pub fn len(&self) -> usize
        ensures { result ≡ length self.now }
    {
        self.slots.len()
    }

    /// What is held by a value, if anything is.
    pub fn get(&self, value: ValueId) -> Option<&Held>
        requires { value.0 < length self.now }
        ensures { maybe_held (option_copied result) ≡ slot_at self.now value }
    {
        self.slots[value.0 as usize].as_ref()
    }

    /// Holds this by a value, in place of what it held.
    #[inline(always)]
    pub fn set(&mut self, value: ValueId, held: Held)
        requires { value.0 < length self.old }
        ensures { self.new ≡ slice_set self.old value.0 (Some (held_of held)) }
    {
        self.slots[value.0 as usize] = Some(held);
    }

    /// Holds what an instruction gives by the value that names its result, where both are there.
    #[inline(always)]
    pub fn give(&mut self, name: Option<ValueId>, held: Option<Held>)
        requires { MaybeIn self.old name }
        ensures { self.new ≡ given self.old name (maybe_held held) }
    {
        if let (Some(value), Some(held)) = (name, held) {
            self.set(value, held);
        }
    }
}

fn push_copy(slots: &mut Vec<Option<Held>>, slot: &Option<Held>) -> Result<(), NoMemory>
    ensures { OnOk result (map maybe_held slots.new.items ≡ map maybe_held slots.old.items ++ maybe_held slot.now ∷ []) }
{
    let copied = copy_slot(slot)?;
    slots.push(copied)?;
    Ok(())
}

fn copy_slot(slot: &Option<Held>) -> Result<Option<Held>, NoMemory>
    ensures { IfOk result (λ s. maybe_held s ≡ maybe_held slot.now) }
{
    match slot {
        Some(held) => {
            let held = held.copy()?;
            Ok(Some(held))
        }
        None => Ok(None),
    }
}
