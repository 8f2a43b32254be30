//! The parts of a process: which value is which part of which argument.
ghost use Rattle.std.specs.Prelude.{◌≡◌, ◌<◌, ◌^◌, ◌++◌, ◌∷◌, [], length, replicate, slice_set, IfOk, OnOk, MatchOption};
ghost use Rattle.std.specs.Option.{option_map};
ghost use Rattle.lh_types.specs.Types.{IsData};
ghost use Rattle.lh_unit.specs.Typing.{carried};
ghost use Rattle.lh_unit.specs.Within.{Each};
ghost use Rattle.lh_unit.specs.declared.inst.Arg.{Arg as Argument};
ghost use Rattle.lh_flat.specs.declared.flat.FlatInst.{FlatInst as Line};
ghost use Rattle.lh_term.specs.Parts.{whole_argument};
ghost use Rattle.lh_flat_parts.specs.Steps as spec;
ghost use Rattle.lh_flat_parts.specs.Resolving.{with_step, with_steps, with_part, with_args, StepsCarry, PartsCarry};

use crate::resolve::resolved;
use crate::step::{PartStep, step_in};
use lh_flat::{Flat, FlatBlock, FlatInst};
use lh_term::part::Part;
use lh_types::memory::NoMemory;
use lh_types::ty::{Ty, TyKind};
use lh_unit::inst::{Arg, ValueId};
use std::alloc::Global;

/// The steps by which the signals of a process come from each other, and the part that each of them is.
#[derive(Drop)]
pub struct PartTable {
    steps: Steps,
    /// The part that a value is; none where it is no signal, or where its steps never come to an argument.
    parts: Vec<Option<Part>>,
}

/// The steps among the instructions of a process.
#[derive(Drop)]
pub struct Steps {
    /// The step that gives a value.
    pub given: Vec<Option<PartStep>>,
    /// The results of steps, in text order.
    pub results: Vec<ValueId>,
}

impl PartTable {
    /// The steps and parts of a flat text, in code that no path reaches too. A value whose steps go round in a circle, as there they
    /// may, is no part.
    pub fn new(alloc: Global, flat: &Flat) -> Result<PartTable, NoMemory>
        requires { spec.HasSteps flat.now }
        ensures { IfOk result (λ table. spec.IsPartTable flat.now table) }
    {
        let steps = steps_of(alloc, flat)?;
        let parts = arguments_of(alloc, flat)?;
        let parts = resolved(alloc, flat.values, &steps, parts)?;
        Ok(PartTable { steps, parts })
    }

    /// The part that a value is; none where it is no signal, or where its steps never come to an argument.
    pub fn part(&self, value: ValueId) -> Option<&Part>
        requires { value.0 < length self.now.parts.items }
        ensures { MatchOption result (spec.part_at self.now.parts.items value.0 ≡ None) (λ part. spec.part_at self.now.parts.items value.0 ≡ Some part.now) }
    {
        self.parts[value.0 as usize].as_ref()
    }

    /// The step that gives a value, where one does.
    pub fn step(&self, value: ValueId) -> Option<&PartStep>
        requires { value.0 < length self.now.steps.given.items }
        ensures { MatchOption result (spec.step_at self.now.steps.given.items value.0 ≡ None) (λ step. spec.step_at self.now.steps.given.items value.0 ≡ Some step.now) }
    {
        self.steps.given[value.0 as usize].as_ref()
    }

    /// The results of steps, in text order.
    pub fn results(&self) -> &[ValueId]
        ensures { result.now ≡ self.now.steps.results.items }
    {
        self.steps.results.as_slice()
    }
}

/// The steps of a flat text.
fn steps_of(alloc: Global, flat: &Flat) -> Result<Steps, NoMemory>
    requires { spec.HasSteps flat.now }
    ensures given { IfOk result (λ s. s.given.items ≡ with_steps (replicate flat.now.values None) (spec.insts_in flat.now.blocks)) }
    ensures results { IfOk result (λ s. s.results.items ≡ spec.step_results (spec.insts_in flat.now.blocks)) }
    ensures carried { IfOk result (λ s. StepsCarry s.given.items) }
{
    let mut steps = Steps {
        given: no_steps(alloc, flat.values)?,
        results: Vec::new(alloc),
    };
    for block in flat.blocks.as_slice() {
        steps.take_block(block)?;
    }
    Ok(steps)
}

impl Steps {
    fn take_block(&mut self, block: &FlatBlock) -> Result<(), NoMemory>
        requires { Each (λ (l : Line). spec.StepWithin (length self.old.given.items) l.result (spec.step_in l.inst)) block.now.insts }
        ensures given { OnOk result (self.new.given.items ≡ with_steps self.old.given.items block.now.insts) }
        ensures results { OnOk result (self.new.results.items ≡ self.old.results.items ++ spec.step_results block.now.insts) }
        ensures carried { OnOk result (StepsCarry self.old.given.items → StepsCarry self.new.given.items) }
    {
        for line in block.insts.as_slice() {
            self.take(line)?;
        }
        Ok(())
    }

    fn take(&mut self, line: &FlatInst) -> Result<(), NoMemory>
        requires { spec.StepWithin (length self.old.given.items) line.now.result (spec.step_in line.now.inst) }
        ensures given { OnOk result (self.new.given.items ≡ with_step self.old.given.items line.now.result (spec.step_in line.now.inst)) }
        ensures results { OnOk result (self.new.results.items ≡ self.old.results.items ++ spec.with_result line.now.result (spec.step_in line.now.inst) []) }
        ensures carried { OnOk result (StepsCarry self.old.given.items → StepsCarry self.new.given.items) }
    {
        match (line.result, step_in(&line.inst)?) {
            (Some(value), Some(step)) => self.put(value, step),
            _ => Ok(()),
        }
    }

    fn put(&mut self, value: ValueId, step: PartStep) -> Result<(), NoMemory>
        requires is_in { value.0 < length self.old.given.items }
        requires carried { IsData step.ty }
        ensures given { OnOk result (self.new.given.items ≡ slice_set self.old.given.items value.0 (Some step)) }
        ensures results { OnOk result (self.new.results.items ≡ self.old.results.items ++ value ∷ []) }
        ensures carried { OnOk result (StepsCarry self.old.given.items → StepsCarry self.new.given.items) }
    {
        self.given[value.0 as usize] = Some(step);
        self.results.push(value)?;
        Ok(())
    }
}

fn no_steps(alloc: Global, count: u32) -> Result<Vec<Option<PartStep>>, NoMemory>
    ensures { IfOk result (λ v. v.items ≡ replicate count None) }
{
    let mut steps = Vec::new(alloc);
    for _ in 0..count {
        steps.push(None)?;
    }
    Ok(steps)
}

fn no_parts(alloc: Global, count: u32) -> Result<Vec<Option<Part>>, NoMemory>
    ensures { IfOk result (λ v. v.items ≡ replicate count None) }
{
    let mut parts = Vec::new(alloc);
    for _ in 0..count {
        parts.push(None)?;
    }
    Ok(parts)
}

/// The arguments of a flat text, as parts by themselves.
fn arguments_of(alloc: Global, flat: &Flat) -> Result<Vec<Option<Part>>, NoMemory>
    requires within { Each (λ (a : Argument). a.value.0 < flat.now.values) flat.now.args }
    requires few { length flat.now.args < 2 ^ 32 }
    ensures parts { IfOk result (λ v. v.items ≡ with_args (replicate flat.now.values None) 0 flat.now.args) }
    ensures carried { IfOk result (λ v. PartsCarry v.items) }
{
    let mut parts = no_parts(alloc, flat.values)?;
    for (k, arg) in flat.args.as_slice().iter().enumerate() {
        put_argument(&mut parts, k, arg)?;
    }
    Ok(parts)
}

fn put_argument(parts: &mut Vec<Option<Part>>, k: usize, arg: &Arg) -> Result<(), NoMemory>
    requires within { arg.now.value.0 < length parts.old.items }
    requires few { k < 2 ^ 32 }
    ensures parts { OnOk result (parts.new.items ≡ with_part parts.old.items arg.now.value.0 (option_map (whole_argument k) (carried arg.now.ty))) }
    ensures carried { OnOk result (PartsCarry parts.old.items → PartsCarry parts.new.items) }
{
    match arg.ty.kind() {
        TyKind::Signal(of) => {
            let ty = of.copy()?;
            put_whole(parts, k as u32, arg.value, ty);
            Ok(())
        }
        _ => Ok(()),
    }
}

fn put_whole(parts: &mut Vec<Option<Part>>, k: u32, value: ValueId, ty: Ty)
    requires within { value.0 < length parts.old.items }
    requires carried { IsData ty }
    ensures parts { parts.new.items ≡ slice_set parts.old.items value.0 (Some (whole_argument k ty)) }
    ensures carried { PartsCarry parts.old.items → PartsCarry parts.new.items }
{
    parts[value.0 as usize] = Some(Part { arg: k, lo: 0, ty });
}
