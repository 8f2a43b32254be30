//! A module under construction that has the units of another one under the same ids.
ghost use Rattle.std.specs.Prelude.{◌≡◌, List, [], IsSome, IfOk};
ghost use Rattle.lh_unit.specs.Contents.{LineText, declare_text};
ghost use Rattle.lh_unit.specs.Arena.{kind_at, unit_text_at};
ghost use Rattle.lh_emit_def.specs.Entities.{entity_with};
ghost use Rattle.lh_emit_body.specs.Bodies.{IsBody};
ghost use Rattle.lh_lower_copy.specs.Copying.{IsCopying, CanAdd, CopiesMore, CopiesUnit};
ghost use Rattle.lh_lower_copy.specs.Putting.{CanPut};

use crate::entities::put_body;
use crate::keeping::keep_unit;
use crate::names::name_units;
use lh_emit_body::Body;
use lh_types::memory::NoMemory;
use lh_unit::inst::{Declare, UnitId};
use lh_unit::module::Module;
use std::alloc::Global;

/// A module under construction that has the units of another one under the same ids.
///
/// After `NoMemory` it may have a part of a unit, and nothing is said of it.
#[derive(Drop)]
pub struct Copying<'m> {
    from: &'m Module,
    to: Module,
}

impl<'m> Copying<'m> {
    /// No items yet; each unit of the other module has its name here, under its id.
    pub fn new(alloc: Global, from: &'m Module) -> Result<Copying<'m>, NoMemory>
        ensures { IfOk result (λ c. (c.from.now ≡ from.entry.now) × IsCopying from.entry.now c.to []) }
    {
        let mut to = Module::new(alloc);
        name_units(&mut to, from)?;
        Ok(Copying { from, to })
    }

    /// Adds a declaration.
    pub fn add_declare(&mut self, declare: Declare) -> Result<(), NoMemory>
        ensures from { self.new.from.now ≡ self.old.from.now }
        ensures copies { IfOk result (λ _. CopiesMore self.old.from.now self.old.to self.new.to (declare_text declare)) }
    {
        self.to.add_declare(declare)
    }

    /// Adds a unit as it is.
    pub fn keep(&mut self, unit: UnitId) -> Result<(), NoMemory>
        requires defined { IsSome (kind_at self.old.from.now unit.0) }
        requires can { CanAdd self.old.from.now self.old.to unit.0 }
        ensures from { self.new.from.now ≡ self.old.from.now }
        ensures copies { IfOk result (λ _. CopiesUnit self.old.from.now self.old.to self.new.to unit.0 (unit_text_at self.old.from.now unit.0)) }
    {
        keep_unit(&mut self.to, self.from, unit)?;
        // The unit is whole: it keeps no more room than it needs.
        self.to.shrink();
        Ok(())
    }

    /// Adds an entity in the place of a process.
    pub fn put_entity(&mut self, unit: UnitId, body: Body) -> Result<(), NoMemory>
        requires defined { IsSome (kind_at self.old.from.now unit.0) }
        requires body { CanPut (unit_text_at self.old.from.now unit.0) body }
        requires can { CanAdd self.old.from.now self.old.to unit.0 }
        ensures from { self.new.from.now ≡ self.old.from.now }
        ensures copies { let t = unit_text_at self.old.from.now unit.0 in IfOk result (λ _. (lines : List LineText) → IsBody t.args body lines → CopiesUnit self.old.from.now self.old.to self.new.to unit.0 (entity_with t lines)) }
    {
        put_body(&mut self.to, self.from, unit, body)?;
        // The unit is whole: it keeps no more room than it needs.
        self.to.shrink();
        Ok(())
    }

    /// The module with all that was added.
    pub fn into_module(self) -> Module
        ensures { result ≡ self.entry.to }
    {
        self.to
    }
}
