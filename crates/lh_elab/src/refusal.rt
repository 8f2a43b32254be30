//! The first reason why a top unit has no design. All is counted unit by unit, before anything is built.
ghost use Rattle.std.specs.Prelude.{◌≡◌, ◌<◌, ◌+◌, ◌≤◌, min, IsSome, IfErr};
ghost use Rattle.lh_unit.specs.Arena.{IsArena, unit_count, kind_at};
ghost use Rattle.lh_unit.specs.Named.{is_function};
ghost use Rattle.lh_unit.specs.Naming.{kind_text};
ghost use Rattle.lh_elab.specs.Refusals.{Refuses, MeasuresIn, arg_bits_of, limited, FaultWithin};
ghost use Rattle.lh_elab.specs.Graph.{max_counted};
ghost use Rattle.lh_elab.specs.Measures.{fault_of};

use crate::fault::ElabFault;
use crate::graph::{MAX_BITS, counted, graph};
use crate::measure::{HierarchyMeasure, MAX_INSTANCES, MAX_NESTING};
use lh_elab_plan::width::width_of;
use lh_unit::inst::{Arg, UnitId, UnitKind};
use lh_unit::module::Module;
use lh_unit_graph::{DescentFault, UnitSearch};
use std::alloc::Global;

/// The first reason why a top unit has no design; where there is none, how many bits the signals of its design have.
///
/// Work grows with the size of the module, and not with the number of instances.
pub fn first_refusal(alloc: Global, m: &Module, top: UnitId) -> Result<u32, ElabFault>
    requires unit { top.0 < unit_count m.now }
    requires begun { IsSome (kind_at m.now top.0) }
    ensures refuses { Refuses m.now top.0 result }
    ensures placed { IfErr result (FaultWithin m.now) }
{
    if is_function(m.kind(top)) {
        return Err(ElabFault::TopIsFunction);
    }
    let measure = measured(alloc, m, top)?;
    limits(measure, arg_bits(m.args(top)))
}

/// Whether a unit of this kind is a function.
fn is_function(kind: Option<UnitKind>) -> bool
    requires { IsSome kind }
    ensures { result ≡ is_function (kind_text kind) }
{
    match kind {
        Some(UnitKind::Func) => true,
        _ => false,
    }
}

/// The measure of a unit of a module.
fn measured(alloc: Global, m: &Module, top: UnitId) -> Result<HierarchyMeasure, DescentFault>
    requires { top.0 < unit_count m.now }
    ensures measure { MeasuresIn m.now top.0 result }
    ensures placed { IfErr result (λ f. FaultWithin m.now (fault_of f)) }
    ensures sound { IsArena m.now }
{
    let nodes = graph(alloc, m)?;
    let mut search = UnitSearch::new(alloc, nodes.len())?;
    search.measure_of(nodes.as_slice(), top)
}

/// How many bits the arguments of a unit have, or one more than are allowed where that is less.
fn arg_bits(args: &[Arg]) -> u32
    ensures { result ≡ min (arg_bits_of args.now) max_counted }
{
    let mut bits = 0;
    for arg in args {
        bits = counted(bits, width_of(&arg.ty));
    }
    bits
}

/// The first limit that is passed; where none is, how many bits there are.
fn limits(measure: HierarchyMeasure, arg_bits: u32) -> Result<u32, ElabFault>
    ensures { result ≡ limited measure arg_bits }
{
    if measure.depth > MAX_NESTING {
        return Err(ElabFault::TooDeep);
    }
    if measure.instances > MAX_INSTANCES {
        return Err(ElabFault::TooManyInstances);
    }
    let bits = counted(arg_bits, measure.bits);
    if bits > MAX_BITS {
        return Err(ElabFault::TooManyBits);
    }
    Ok(bits)
}
