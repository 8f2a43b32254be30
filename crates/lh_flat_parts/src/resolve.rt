//! Which part each value is: its steps are followed back to an argument, and the parts are made from there down again. A value is met once,
//! however many steps come from it.
ghost use Rattle.std.specs.Prelude.{◌≡◌, ◌<◌, ◌++◌, ◌∷◌, [], length, replicate, true, false, slice_set, IfOk, OnOk};
ghost use Rattle.lh_flat_parts.specs.Steps.{step_at, part_at};
ghost use Rattle.lh_flat_parts.specs.Resolving.{part_by_step, settled, is_met, comes_from, StepsAreInPlace, StepsFrom, CanStep, Steppable, AreSteps, GoesBack, IsResolved, StepsAreFollowed};
ghost use Rattle.lh_flat.specs.Below.{ValuesBelow};

use crate::step::{PartStep, stepped};
use crate::table::Steps;
use lh_term::part::Part;
use lh_types::memory::NoMemory;
use lh_unit::inst::ValueId;
use std::alloc::Global;

/// The parts so far, the values that were met, and those on the way back from one, the last met last.
#[derive(Drop)]
struct Resolver<'s> {
    steps: &'s [Option<PartStep>],
    parts: Vec<Option<Part>>,
    met: Vec<bool>,
    way: Vec<ValueId>,
}

/// The parts of all values, of which those of the arguments are known.
pub fn resolved(
    alloc: Global,
    values: u32,
    steps: &Steps,
    parts: Vec<Option<Part>>,
) -> Result<Vec<Option<Part>>, NoMemory>
    requires all { length steps.now.given.items ≡ values }
    requires in_place { StepsAreInPlace steps.now.given.items parts.items }
    requires can_step { CanStep steps.now.given.items parts.items }
    requires apart { AreSteps steps.now.given.items parts.items }
    ensures { IfOk result (λ found. IsResolved steps.now.given.items parts.items found.items) }
{
    let mut resolver = Resolver {
        steps: steps.given.as_slice(),
        parts,
        met: not_met(alloc, values)?,
        way: Vec::new(alloc),
    };
    for value in 0..values {
        resolver.follow(ValueId(value))?;
    }
    Ok(resolver.parts)
}

fn not_met(alloc: Global, count: u32) -> Result<Vec<bool>, NoMemory>
    ensures { IfOk result (λ met. met.items ≡ replicate count false) }
{
    Ok(vec![in alloc; false; count as usize]?)
}

impl Resolver<'_> {
    /// Follows the steps of a value, as far as no other has met them.
    fn follow(&mut self, value: ValueId) -> Result<(), NoMemory>
        requires is_in { value.0 < length self.old.steps.now }
        requires in_place { StepsAreInPlace self.old.steps.now self.old.parts.items }
        requires found { Steppable self.old.steps.now self.old.parts.items }
        requires met { length self.old.met.items ≡ length self.old.steps.now }
        requires empty { self.old.way.items ≡ [] }
        ensures steps { OnOk result (self.new.steps.now ≡ self.old.steps.now) }
        ensures empty { OnOk result (self.new.way.items ≡ []) }
        ensures follows { OnOk result (StepsAreFollowed self.old.steps.now value.0 self.old.parts.items self.new.parts.items self.old.met.items self.new.met.items) }
    {
        self.go_back(value)?;
        self.go_forth()?;
        Ok(())
    }

    /// Goes back along steps that were not met, and notes their results.
    fn go_back(&mut self, from: ValueId) -> Result<(), NoMemory>
        requires is_in { from.0 < length self.old.steps.now }
        requires in_place { StepsAreInPlace self.old.steps.now self.old.parts.items }
        requires met { length self.old.met.items ≡ length self.old.steps.now }
        requires empty { self.old.way.items ≡ [] }
        ensures steps { self.new.steps.now ≡ self.old.steps.now }
        ensures parts { self.new.parts.items ≡ self.old.parts.items }
        ensures back { OnOk result (GoesBack self.old.steps.now self.old.met.items from.0 self.new.met.items self.new.way.items) }
    {
        let mut value = from;
        while let Some(next) = self.unmet(value) {
            self.note(value)?;
            value = next;
        }
        Ok(())
    }

    /// The value from which the step of another comes, if there is a step and it was not met.
    fn unmet(&self, value: ValueId) -> Option<ValueId>
        requires met { value.0 < length self.now.met.items }
        requires steps { value.0 < length self.now.steps.now }
        ensures { result ≡ comes_from (step_at self.now.steps.now value.0) (is_met self.now.met.items value.0) }
    {
        if self.met[value.0 as usize] {
            return None;
        }
        match &self.steps[value.0 as usize] {
            Some(step) => Some(step.from),
            None => None,
        }
    }

    fn note(&mut self, value: ValueId) -> Result<(), NoMemory>
        requires { value.0 < length self.old.met.items }
        ensures steps { self.new.steps.now ≡ self.old.steps.now }
        ensures parts { self.new.parts.items ≡ self.old.parts.items }
        ensures met { self.new.met.items ≡ slice_set self.old.met.items value.0 true }
        ensures way { OnOk result (self.new.way.items ≡ self.old.way.items ++ value ∷ []) }
    {
        self.met[value.0 as usize] = true;
        self.way.push(value)?;
        Ok(())
    }

    /// Makes the parts of the noted values, from the last one on.
    fn go_forth(&mut self) -> Result<(), NoMemory>
        requires in_place { StepsAreInPlace self.old.steps.now self.old.parts.items }
        requires found { Steppable self.old.steps.now self.old.parts.items }
        requires within { ValuesBelow (length self.old.steps.now) self.old.way.items }
        ensures steps { OnOk result (self.new.steps.now ≡ self.old.steps.now) }
        ensures met { OnOk result (self.new.met.items ≡ self.old.met.items) }
        ensures empty { OnOk result (self.new.way.items ≡ []) }
        ensures parts { OnOk result (self.new.parts.items ≡ settled self.old.steps.now self.old.parts.items self.old.way.items) }
    {
        while let Some(value) = self.way.pop() {
            let part = self.part_of(value)?;
            self.put(value, part);
        }
        Ok(())
    }

    fn put(&mut self, value: ValueId, part: Option<Part>)
        requires { value.0 < length self.old.parts.items }
        ensures steps { self.new.steps.now ≡ self.old.steps.now }
        ensures met { self.new.met.items ≡ self.old.met.items }
        ensures way { self.new.way.items ≡ self.old.way.items }
        ensures parts { self.new.parts.items ≡ slice_set self.old.parts.items value.0 part }
    {
        self.parts[value.0 as usize] = part;
    }

    /// The part to which the step of a value leads.
    fn part_of(&self, value: ValueId) -> Result<Option<Part>, NoMemory>
        requires is_in { value.0 < length self.now.steps.now }
        requires in_place { StepsAreInPlace self.now.steps.now self.now.parts.items }
        requires found { Steppable self.now.steps.now self.now.parts.items }
        ensures { IfOk result (λ p. p ≡ part_by_step self.now.parts.items (step_at self.now.steps.now value.0)) }
    {
        match &self.steps[value.0 as usize] {
            Some(step) => self.part_by(step),
            None => Ok(None),
        }
    }

    fn part_by(&self, step: &PartStep) -> Result<Option<Part>, NoMemory>
        requires is_in { step.now.from.0 < length self.now.parts.items }
        requires can_step { StepsFrom (part_at self.now.parts.items step.now.from.0) step.now }
        ensures { IfOk result (λ p. p ≡ part_by_step self.now.parts.items (Some step.now)) }
    {
        match &self.parts[step.from.0 as usize] {
            Some(part) => stepped(part, step),
            None => Ok(None),
        }
    }
}
