//! What becomes of a process.
ghost use Rattle.std.specs.Prelude.{◌≡◌, ◌<◌, map, IfOk, Some};
ghost use Rattle.lh_unit.specs.Arena.{IsArena, contents, unit_count, kind_at, unit_text_at};
ghost use Rattle.lh_unit.specs.Contents.{ArgText};
ghost use Rattle.lh_unit.specs.WellFormed.{IsWellFormed};
ghost use Rattle.lh_unit.specs.declared.inst.UnitKind.TheVariants.{Proc};
ghost use Rattle.lh_lower.specs.Outcomes.{ArgsAreNamed, IsOutcomeAt, IsOutcomeBy, IsOutcomeOf, IsOutcomeWith, CanEmit};

use crate::process::shape_of_flat;
use lh_emit_body::{Body, EmitFault};
use lh_emit_def::laws::{comb_law, edge_law, once_law};
use lh_emit_shapes::{comb_body, edge_body, once_body};
use lh_emit_source::origin::Origin;
use lh_entity_laws::given::{comb_given, edge_given, once_given};
use lh_flat::{Flat, FlatFault, Flattener};
use lh_flat_parts::PartTable;
use lh_flat_state_laws::formed_law;
use lh_lower_def::Kind;
use lh_shape::{Reason, Shape};
use lh_term::terms::Terms;
use lh_types::memory::NoMemory;
use lh_unit::inst::{NameList, UnitId};
use lh_unit::module::Module;
use std::alloc::Global;

/// What becomes of a process.
#[derive(Drop)]
pub enum ProcessOutcome {
    /// An entity by this shape, with this body, stands in its place.
    Entity(Kind, Body),
    /// It stays, for this reason.
    Left(Reason),
}

/// What becomes of a process of a well-formed module: the entity of its shape, or the first reason why it stays.
///
/// The flattener is one of this module. Running out of memory is the only fault; it leaves the flattener as good as it was.
pub fn outcome_of(
    alloc: Global,
    from: &Module,
    flattener: &mut Flattener<'_>,
    unit: UnitId,
) -> Result<ProcessOutcome, NoMemory>
    requires same { flattener.old.m.now ≡ from.now }
    requires formed { IsWellFormed (contents from.now) }
    requires within { unit.0 < unit_count from.now }
    requires process { kind_at from.now unit.0 ≡ Some Proc }
    ensures is { IfOk result (IsOutcomeAt from.now unit.0) }
    ensures same { flattener.new.m.now ≡ flattener.old.m.now }
{
    formed_law();
    let names = names_of_args(alloc, from, unit)?;
    match flattener.flat(unit) {
        Ok(flat) => outcome_by(alloc, names, &flat),
        Err(FlatFault::RecursiveCall(_)) => Ok(ProcessOutcome::Left(Reason::RecursiveCall)),
        Err(FlatFault::CallTooDeep) => Ok(ProcessOutcome::Left(Reason::CallTooDeep)),
        Err(FlatFault::FlatTooLarge) => Ok(ProcessOutcome::Left(Reason::FlatTooLarge)),
        Err(FlatFault::OutOfMemory) => Err(NoMemory),
    }
}

/// The names of the arguments of a unit, in order.
fn names_of_args(alloc: Global, from: &Module, unit: UnitId) -> Result<NameList, NoMemory>
    requires { unit.0 < unit_count from.now }
    ensures names { IfOk result (λ names. names ≡ map (λ (x : ArgText). x.name) (unit_text_at from.now unit.0).args) }
    ensures sound { IsArena from.now }
{
    let args = from.args(unit);
    let mut names = NameList::new(alloc);
    for arg in args {
        let name = from.value_name(unit, arg.value);
        names.push(name.copy()?)?;
    }
    Ok(names)
}

/// What becomes of a process with this flat text, whose arguments have these names.
fn outcome_by(alloc: Global, names: NameList, flat: &Flat) -> Result<ProcessOutcome, NoMemory>
    requires { ArgsAreNamed names flat.now }
    ensures is { IfOk result (IsOutcomeBy names flat.now) }
{
    comb_given();
    edge_given();
    once_given();
    let mut terms = Terms::new(alloc);
    let shape = shape_of_flat(alloc, flat, &mut terms)?;
    let parts = PartTable::new(alloc, flat)?;
    let origin = Origin::new(alloc, flat, &parts, names)?;
    entity_of(alloc, &origin, &mut terms, shape)
}

/// The entity of a shape, or the reason why there is none.
fn entity_of(
    alloc: Global,
    origin: &Origin<'_>,
    terms: &mut Terms,
    shape: Shape,
) -> Result<ProcessOutcome, NoMemory>
    requires { CanEmit terms.old origin.now shape }
    ensures is { IfOk result (IsOutcomeOf terms.old origin.now shape) }
{
    comb_law();
    edge_law();
    once_law();
    match shape {
        Shape::Comb { waited, drives } => {
            let body = comb_body(alloc, origin, terms, &waited, &drives);
            outcome_with(Kind::Comb, body)
        }
        Shape::Edge(rows) => {
            let body = edge_body(alloc, origin, terms, &rows);
            outcome_with(Kind::Edge, body)
        }
        Shape::Once(drives) => {
            let body = once_body(alloc, origin, terms, &drives);
            outcome_with(Kind::Once, body)
        }
        Shape::Left(reason) => Ok(ProcessOutcome::Left(reason)),
    }
}

/// An entity with this body by a shape; none where it would be too large.
fn outcome_with(kind: Kind, body: Result<Body, EmitFault>) -> Result<ProcessOutcome, NoMemory>
    ensures { IfOk result (IsOutcomeWith kind body) }
{
    match body {
        Ok(body) => Ok(ProcessOutcome::Entity(kind, body)),
        Err(EmitFault::EntityTooLarge) => Ok(ProcessOutcome::Left(Reason::EntityTooLarge)),
        Err(EmitFault::OutOfMemory) => Err(NoMemory),
    }
}
