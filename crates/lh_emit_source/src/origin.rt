//! What an entity is emitted for: a process, its parts, and the steps that lead to them.
ghost use Rattle.std.specs.Prelude.{◌≡◌, ◌<◌, ◌++◌, ℕ, length, map, false, IsSome, IfOk, OnOk};
ghost use Rattle.lh_unit_names.specs.declared.name.UnitName.{UnitName};
ghost use Rattle.lh_unit.specs.Naming.{Naming};
ghost use Rattle.lh_flat.specs.Flat.{flat_unit};
ghost use Rattle.lh_flat.specs.Reads.{flat_text};
ghost use Rattle.lh_flat_parts.specs.Steps.{step_at, part_at, HasSteps, IsPartTable};
ghost use Rattle.lh_emit_def.specs.Reached.{steps_in};
ghost use Rattle.lh_flat.specs.Below.{ValuesBelow};
ghost use Rattle.lh_emit_source.specs.Firsts as spec;
ghost use Rattle.lh_emit_source.specs.Origins.{route_text, IsOrigin, AreStepsOf};

use lh_flat::Flat;
use lh_flat_parts::PartTable;
use lh_term::part::Part;
use lh_types::list::ListOf;
use lh_types::memory::NoMemory;
use lh_types::op::Op;
use lh_types::ty::Ty;
use lh_unit::inst::{Arg, NameList, ValueId, ValueIdList};
use lh_unit_names::name::Name;
use std::alloc::Global;
use std::collections::HashMap;

/// A step to a part: the operation, and the type of the part that it leads to.
#[derive(Drop)]
pub struct RouteStep {
    pub op: Op,
    pub ty: Ty,
}

/// Steps in order.
pub type Route = ListOf<RouteStep>;

/// The first results of steps to each part, by argument, lowest bit and extent: few parts have one key.
type Firsts = HashMap<RangeKey, ValueIdList>;

/// An argument, a lowest bit and an extent.
type RangeKey = (u32, u32, u32);

/// A flat text with its parts.
#[derive(Drop)]
pub struct Origin<'f> {
    flat: &'f Flat,
    parts: &'f PartTable,
    /// The names of the arguments, in order.
    names: NameList,
    firsts: Firsts,
}

impl<'f> Origin<'f> {
    /// A flat text with its parts and the names of its arguments: the first step to each part is found, in text order.
    pub fn new(
        alloc: Global,
        flat: &'f Flat,
        parts: &'f PartTable,
        names: NameList,
    ) -> Result<Origin<'f>, NoMemory>
        requires steps { HasSteps flat.now }
        requires table { IsPartTable flat.now parts.now }
        ensures flat { IfOk result (λ o. o.flat.now ≡ flat.now) }
        ensures parts { IfOk result (λ o. o.parts.now ≡ parts.now) }
        ensures names { IfOk result (λ o. o.names ≡ names) }
        ensures firsts { IfOk result (λ o. spec.AreFirsts o) }
    {
        let firsts = firsts_among(alloc, parts, parts.results())?;
        Ok(Origin {
            flat,
            parts,
            names,
            firsts,
        })
    }

    /// The steps that lead to a part from its argument; none where none do.
    pub fn steps(&self, alloc: Global, part: &Part) -> Result<Route, NoMemory>
        requires steps { HasSteps self.now.flat.now }
        requires table { IsPartTable self.now.flat.now self.now.parts.now }
        requires firsts { spec.AreFirsts self.now }
        ensures { IfOk result (λ route. (f : Naming) (name : UnitName) → IsOrigin f self.now
            → AreStepsOf (steps_in (flat_unit name (flat_text f self.now.flat.now)) part.now) route) }
    {
        match first_of(self.parts, kept_for(&self.firsts, part), part) {
            Some(first) => self.steps_to(alloc, first),
            None => Ok(Route::new(alloc)),
        }
    }

    /// The arguments of the flat text.
    pub fn args(&self) -> &[Arg]
        ensures { result.now ≡ self.now.flat.now.args }
    {
        self.flat.args.as_slice()
    }

    /// The names of the arguments, in order.
    pub fn names(&self) -> &[Name]
        ensures { result.now ≡ self.now.names }
    {
        self.names.as_slice()
    }

    /// The steps that lead to a value from an argument.
    fn steps_to(&self, alloc: Global, value: ValueId) -> Result<Route, NoMemory>
        requires steps { HasSteps self.now.flat.now }
        requires table { IsPartTable self.now.flat.now self.now.parts.now }
        requires is_in { value.0 < length self.now.parts.now.parts.items }
        requires there { IsSome (part_at self.now.parts.now.parts.items value.0) }
        ensures { IfOk result (λ route. spec.IsRouteTo self.now.parts.now.steps.given.items value.0 (map route_text route)) }
    {
        let way = self.way_back(alloc, value)?;
        route_along(alloc, self.parts, way.into_vec())
    }

    /// The values on the way back from a value to an argument, the value itself first.
    fn way_back(&self, alloc: Global, from: ValueId) -> Result<ValueIdList, NoMemory>
        requires steps { HasSteps self.now.flat.now }
        requires table { IsPartTable self.now.flat.now self.now.parts.now }
        requires is_in { from.0 < length self.now.parts.now.parts.items }
        requires there { IsSome (part_at self.now.parts.now.parts.items from.0) }
        ensures { IfOk result (λ way. spec.IsWayBack self.now.parts.now.steps.given.items from.0 way) }
    {
        let mut way = ValueIdList::new(alloc);
        let mut value = from;
        while let Some(step) = self.parts.step(value) {
            way.push(value)?;
            value = step.from;
        }
        Ok(way)
    }
}

/// The steps of these values, the last one first.
fn route_along(alloc: Global, parts: &PartTable, mut way: Vec<ValueId>) -> Result<Route, NoMemory>
    requires { ValuesBelow (length parts.now.steps.given.items) way.items }
    ensures { IfOk result (λ route. map route_text route ≡ spec.texts_along parts.now.steps.given.items way.items) }
{
    let mut route = Route::new(alloc);
    while let Some(value) = way.pop() {
        push_step(&mut route, parts, value)?;
    }
    Ok(route)
}

/// Adds the step of a value, if there is one.
fn push_step(route: &mut Route, parts: &PartTable, value: ValueId) -> Result<(), NoMemory>
    requires { value.0 < length parts.now.steps.given.items }
    ensures { OnOk result (map route_text route.new ≡ map route_text route.old ++ spec.step_texts (step_at parts.now.steps.given.items value.0)) }
{
    let Some(step) = parts.step(value) else {
        return Ok(());
    };
    let ty = step.ty.copy()?;
    route.push(RouteStep { op: step.op, ty })
}

/// The first of these results for each part.
fn firsts_among(alloc: Global, parts: &PartTable, results: &[ValueId]) -> Result<Firsts, NoMemory>
    requires { ValuesBelow (length parts.now.parts.items) results.now }
    ensures { IfOk result (λ firsts. spec.KeepsFirsts parts.now.parts.items results.now firsts) }
{
    let mut firsts = Firsts::new(alloc);
    for value in results {
        take(alloc, &mut firsts, parts, *value)?;
    }
    Ok(firsts)
}

/// Keeps one more result, unless it is no part or an earlier one is the same part.
fn take(
    alloc: Global,
    firsts: &mut Firsts,
    parts: &PartTable,
    value: ValueId,
) -> Result<(), NoMemory>
    requires is_in { value.0 < length parts.now.parts.items }
    requires kept { spec.KeepValues (length parts.now.parts.items) firsts.old }
    ensures { OnOk result (spec.KeepsOneMore parts.now.parts.items value firsts.old firsts.new) }
{
    let Some(part) = parts.part(value) else {
        return Ok(());
    };
    if first_of(parts, kept_for(firsts, part), part).is_some() {
        return Ok(());
    }
    add(alloc, firsts, key_of(part), value)?;
    Ok(())
}

/// Adds a value to those that are kept at a key.
fn add(alloc: Global, firsts: &mut Firsts, key: RangeKey, value: ValueId) -> Result<(), NoMemory>
    ensures { OnOk result (spec.AddsAt key value firsts.old firsts.new) }
{
    let mut values = take_out(alloc, firsts, key);
    values.push(value)?;
    firsts.insert(key, values)?;
    Ok(())
}

/// Takes out what is kept at a key.
fn take_out(alloc: Global, firsts: &mut Firsts, key: RangeKey) -> ValueIdList
    ensures values { result ≡ spec.kept_at firsts.old key }
    ensures others { (k : ℕ × ℕ × ℕ) → spec.same_key key k ≡ false → spec.kept_at firsts.new k ≡ spec.kept_at firsts.old k }
{
    match firsts.remove(&key) {
        Some(values) => values,
        None => ValueIdList::new(alloc),
    }
}

/// The key of a part.
fn key_of(part: &Part) -> RangeKey
    ensures { result ≡ spec.key_of part.now }
{
    (part.arg, part.lo, part.extent())
}

/// The values that are kept for a part.
fn kept_for<'m>(firsts: &'m Firsts, part: &Part) -> &'m [ValueId]
    ensures { result.now ≡ spec.kept_for firsts.now part.now }
{
    match firsts.get(&key_of(part)) {
        Some(values) => values.as_slice(),
        None => &[],
    }
}

/// The first of these values that is the part.
fn first_of(parts: &PartTable, values: &[ValueId], part: &Part) -> Option<ValueId>
    requires { ValuesBelow (length parts.now.parts.items) values.now }
    ensures { result ≡ spec.first_result parts.now.parts.items values.now part.now }
{
    let mut left = values;
    while let [value, rest @ ..] = left {
        if is_part(parts, *value, part) {
            return Some(*value);
        }
        left = rest;
    }
    None
}

/// Whether a value is the part.
fn is_part(parts: &PartTable, value: ValueId, part: &Part) -> bool
    requires { value.0 < length parts.now.parts.items }
    ensures { result ≡ spec.is_the_part part.now (part_at parts.now.parts.items value.0) }
{
    match parts.part(value) {
        Some(own) => own == part,
        None => false,
    }
}
