//! The shape of a process, and of a flat text.
ghost use Rattle.std.specs.Prelude.{◌≡◌, ◌<◌, IfOk, Some};
ghost use Rattle.lh_unit.specs.Arena.{IsArena, contents, unit_count, kind_at, unit_text_at};
ghost use Rattle.lh_unit.specs.Naming.{Naming};
ghost use Rattle.lh_unit.specs.WellFormed.{IsWellFormed};
ghost use Rattle.lh_unit.specs.declared.inst.UnitKind.TheVariants.{Proc};
ghost use Rattle.lh_flat.specs.Reads.{flat_text};
ghost use Rattle.lh_term.specs.Arena.{Grows};
ghost use Rattle.lh_region.specs.Forms.{HasForm, Names};
ghost use Rattle.lh_shape.specs.Answers.{IsShape};
ghost use Rattle.lh_shape.specs.Shapes.{shape_of_text, shape_in};

use lh_flat::{Flat, FlatFault, Flattener};
use lh_flat_state_laws::formed_law;
use lh_region::RegionFault;
use lh_region_walk::regions;
use lh_shape::{Reason, Shape, shape_of_regions};
use lh_term::terms::Terms;
use lh_types::memory::NoMemory;
use lh_unit::inst::UnitId;
use lh_unit::module::Module;
use std::alloc::Global;

/// The shape of a process with this flat text: the first reason why it stays, if there is one.
///
/// The flat text is formed, as that of each process of a well-formed module is. When memory runs out the terms made before keep their ids.
pub fn shape_of_flat(alloc: Global, flat: &Flat, terms: &mut Terms) -> Result<Shape, NoMemory>
    requires { HasForm flat.now }
    ensures is { IfOk result (λ shape. (f : Naming) → Names flat.now f → IsShape terms.new shape (shape_of_text (flat_text f flat.now))) }
    ensures kept { Grows terms.old terms.new }
{
    match regions(alloc, flat, terms) {
        Ok(regions) => shape_of_regions(alloc, terms, regions),
        Err(RegionFault::HeadPhi) => Ok(Shape::Left(Reason::HeadPhi)),
        Err(RegionFault::TooManyTurns) => Ok(Shape::Left(Reason::TooManyTurns)),
        Err(RegionFault::RegionTooLarge) => Ok(Shape::Left(Reason::RegionTooLarge)),
        Err(RegionFault::OutOfMemory) => Err(NoMemory),
    }
}

/// The shape of a process of a well-formed module: what it may be lowered to, or the first of the reasons 1 to 16 why it stays.
///
/// That its entity would be too large shows only when it is emitted. When memory runs out the terms made before keep their ids.
pub fn shape(alloc: Global, m: &Module, unit: UnitId, terms: &mut Terms) -> Result<Shape, NoMemory>
    requires formed { IsWellFormed (contents m.now) }
    requires within { unit.0 < unit_count m.now }
    requires process { kind_at m.now unit.0 ≡ Some Proc }
    ensures is { IfOk result (λ shape. IsShape terms.new shape (shape_in (contents m.now) (unit_text_at m.now unit.0))) }
    ensures kept { Grows terms.old terms.new }
{
    formed_law();
    read_arena(m);
    let mut flattener = Flattener::new(alloc, m)?;
    match flattener.flat(unit) {
        Ok(flat) => shape_of_flat(alloc, &flat, terms),
        Err(FlatFault::RecursiveCall(_)) => Ok(Shape::Left(Reason::RecursiveCall)),
        Err(FlatFault::CallTooDeep) => Ok(Shape::Left(Reason::CallTooDeep)),
        Err(FlatFault::FlatTooLarge) => Ok(Shape::Left(Reason::FlatTooLarge)),
        Err(FlatFault::OutOfMemory) => Err(NoMemory),
    }
}

// What a module keeps is in order.
fn read_arena(m: &Module)
    ensures { IsArena m.now }
{
    let _ = m.units();
}
