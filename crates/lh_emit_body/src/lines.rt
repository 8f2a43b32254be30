//! The instructions of an entity under construction, with the names of their values.
ghost use Rattle.std.specs.Prelude.{◌≡◌, ◌<◌, [], length, IfOk, OnOk};
ghost use Rattle.lh_unit.specs.Within.{InstWithin};
ghost use Rattle.lh_emit_body.specs.Lines.{most_lines, values_alone, LinesHaveRoom, BeginsWith, AddsBodyArg, NamesNext, with_line, GivesValue, GivesOne, PutsOne};

use crate::names::Fresh;
use lh_types::list::ListOf;
use lh_types::memory::NoMemory;
use lh_unit::inst::{Inst, NameList, ValueId};
use lh_unit_names::name::Name;
use std::alloc::Global;
use thiserror::Error;

/// How many instructions an entity may have.
const MAX_LINES: usize = 65_536;

/// Why there is no entity.
#[derive(Clone, Copy, Debug, PartialEq, Eq, Error)]
pub enum EmitFault {
    /// It would have more than 65,536 instructions, or a choice of it wants an array that is no type.
    #[error("the entity is too large")]
    EntityTooLarge,
    /// Memory ran out.
    #[error("out of memory")]
    OutOfMemory,
}

impl From<NoMemory> for EmitFault {
    ghost use Rattle.std.specs.Prelude.{◌≡◌};
    ghost use Rattle.lh_emit_body.specs.declared.lines.EmitFault.TheVariants.{OutOfMemory};

    ghost from_gives = { λ _ e. e ≡ OutOfMemory };

    fn from(_: NoMemory) -> EmitFault {
        EmitFault::OutOfMemory
    }
}

/// An instruction of an entity, and the value that it gives.
#[derive(Drop)]
pub struct BodyLine {
    pub result: Option<ValueId>,
    pub inst: Inst,
}

/// The instructions in order.
pub type BodyLineList = ListOf<BodyLine>;

/// The instructions so far.
///
/// An instruction that is not added is dropped by a call: where it goes out of scope, its destructor would be written out in place.
#[derive(Drop)]
pub struct Lines {
    fresh: Fresh,
    /// By the ids of values; those of the arguments are first.
    pub names: NameList,
    pub lines: BodyLineList,
}

impl Lines {
    /// No instructions and no arguments.
    pub fn new(alloc: Global) -> Lines
        ensures room { LinesHaveRoom result }
        ensures begins { BeginsWith [] result }
    {
        Lines {
            fresh: Fresh::new(alloc),
            names: NameList::new(alloc),
            lines: BodyLineList::new(alloc),
        }
    }

    /// Adds an argument of this name, which gets the next id; no instruction stands yet.
    pub fn add_arg(&mut self, name: &Name) -> Result<(), NoMemory>
        requires { LinesHaveRoom self.old }
        ensures { OnOk result (AddsBodyArg name.now self.old self.new) }
    {
        // Arguments have numbers of 32 bits.
        if self.fresh.count() >= u32::MAX as usize {
            return Err(NoMemory);
        }
        self.fresh.pass_over(name)?;
        self.names.push(name.copy()?)?;
        Ok(())
    }

    /// Adds an instruction that gives a value, with the next name for it.
    #[tactic(none)]
    pub fn give(&mut self, inst: Inst) -> Result<ValueId, EmitFault>
        requires room { LinesHaveRoom self.old }
        requires named { InstWithin (values_alone (length self.old.names)) inst }
        ensures { GivesOne self.old inst self.new result }
    {
        if self.lines.len() == MAX_LINES {
            drop(inst);
            return Err(EmitFault::EntityTooLarge);
        }
        Ok(self.give_line(inst)?)
    }

    fn give_line(&mut self, inst: Inst) -> Result<ValueId, NoMemory>
        requires room { LinesHaveRoom self.old }
        requires short { length self.old.lines < most_lines }
        requires named { InstWithin (values_alone (length self.old.names)) inst }
        ensures { IfOk result (λ value. GivesValue self.old inst self.new value) }
    {
        let Ok(value) = self.name_next() else {
            drop(inst);
            return Err(NoMemory);
        };
        self.add(Some(value), inst)?;
        Ok(value)
    }

    // The id of the next value, which gets its name.
    fn name_next(&mut self) -> Result<ValueId, NoMemory>
        requires { LinesHaveRoom self.old }
        ensures { IfOk result (λ value. NamesNext self.old self.new value) }
    {
        let value = next_id(self.names.len())?;
        let name = self.fresh.name()?;
        self.names.push(name)?;
        Ok(value)
    }

    fn add(&mut self, value: Option<ValueId>, inst: Inst) -> Result<(), NoMemory>
        ensures added { OnOk result (self.new.lines ≡ with_line self.old.lines value inst) }
        ensures names { self.new.names ≡ self.old.names }
        ensures fresh { self.new.fresh ≡ self.old.fresh }
    {
        self.lines.push(BodyLine {
            result: value,
            inst,
        })?;
        Ok(())
    }

    /// Adds an instruction that gives none.
    #[tactic(none)]
    pub fn put(&mut self, inst: Inst) -> Result<(), EmitFault>
        requires room { LinesHaveRoom self.old }
        requires named { InstWithin (values_alone (length self.old.names)) inst }
        ensures { PutsOne self.old inst self.new result }
    {
        if self.lines.len() == MAX_LINES {
            drop(inst);
            return Err(EmitFault::EntityTooLarge);
        }
        Ok(self.add(None, inst)?)
    }
}

/// The id of the value after this many; there is no memory for more than 2^32 of them.
fn next_id(count: usize) -> Result<ValueId, NoMemory>
    ensures { IfOk result (λ v. v.0 ≡ count) }
{
    if count > u32::MAX as usize {
        return Err(NoMemory);
    }
    Ok(ValueId(count as u32))
}
