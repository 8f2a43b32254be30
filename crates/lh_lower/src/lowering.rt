//! The lowered module, item by item.
ghost use Rattle.std.specs.Prelude.{◌≡◌, ◌<◌, ◌↔◌, [], Some, IsTrue, IfOk, OnOk};
ghost use Rattle.lh_unit.specs.Arena.{IsArena, contents, unit_count, kind_at};
ghost use Rattle.lh_unit.specs.Trace.{SameTrace};
ghost use Rattle.lh_unit.specs.WellFormed.{IsWellFormed};
ghost use Rattle.lh_unit.specs.declared.inst.Item.{Item as Entry};
ghost use Rattle.lh_unit.specs.declared.inst.UnitKind.TheVariants.{Proc};
ghost use Rattle.lh_flat.specs.Marks.{UnitsAreNamed};
ghost use Rattle.lh_lower.specs.Lowers.{IsLowered, IsLowering, IsNextItem, LowersItem};

use crate::outcome::{ProcessOutcome, outcome_of};
use lh_flat::Flattener;
use lh_lower_copy::Copying;
use lh_lower_def::{ReportList, ReportRow, Verdict};
use lh_lower_laws::laws::{same_trace_law, well_formed_law};
use lh_types::memory::NoMemory;
use lh_unit::inst::{Item, UnitId, UnitKind};
use lh_unit::module::Module;
use lh_verify::verify::Verified;
use std::alloc::Global;

/// A lowered module, and a row for each process.
#[derive(Drop)]
pub struct Lowered {
    pub module: Verified,
    pub report: ReportList,
}

/// A lowered module under construction.
#[derive(Drop)]
struct Lowering<'m> {
    alloc: Global,
    from: &'m Module,
    flattener: Flattener<'m>,
    copying: Copying<'m>,
    report: ReportList,
}

/// The module with each process that has a shape as an entity, in its place; and what became of each process, in file order.
///
/// The lowered module has, for every top and every number of frames, the trace of the module. Running out of memory is the only fault.
pub fn lower(alloc: Global, verified: &Verified) -> Result<Lowered, NoMemory>
    ensures lowered { IfOk result (λ answer. IsLowered verified.now answer.«module» answer.report) }
    ensures same_trace { IfOk result (λ answer. SameTrace (contents verified.now) (contents answer.«module»)) }
{
    same_trace_law();
    well_formed_law();
    let module = verified.module();
    let items = module.items();
    let mut lowering = Lowering::new(alloc, module)?;
    for item in items {
        lowering.take(item)?;
    }
    let Lowering {
        copying,
        report,
        ..
    } = lowering;
    let module = Verified::of_well_formed(copying.into_module());
    Ok(Lowered { module, report })
}

impl<'m> Lowering<'m> {
    /// Nothing lowered yet.
    fn new(alloc: Global, from: &'m Module) -> Result<Lowering<'m>, NoMemory>
        requires sound { IsArena from.now }
        ensures begins { IfOk result (λ l. IsLowering from.now l []) }
        ensures named { IfOk result (λ _. UnitsAreNamed from.now) }
    {
        let flattener = Flattener::new(alloc, from)?;
        let copying = Copying::new(alloc, from)?;
        Ok(Lowering {
            alloc,
            from,
            flattener,
            copying,
            report: ReportList::new(alloc),
        })
    }

    /// Takes the next item.
    fn take(&mut self, item: &Item) -> Result<(), NoMemory>
        requires formed { IsWellFormed (contents self.old.from.now) }
        requires next { IsNextItem self.old item.now }
        ensures from { self.new.from.now ≡ self.old.from.now }
        ensures lowers { OnOk result (LowersItem self.old item.now self.new) }
    {
        match item {
            Item::Declare(declare) => self.copying.add_declare(declare.copy()?),
            Item::Unit(unit) => self.take_unit(*unit),
        }
    }

    /// Takes a unit: a process is lowered or left, and any other unit stays as it is.
    fn take_unit(&mut self, unit: UnitId) -> Result<(), NoMemory>
        requires formed { IsWellFormed (contents self.old.from.now) }
        requires next { IsNextItem self.old (Entry.Unit unit) }
        ensures from { self.new.from.now ≡ self.old.from.now }
        ensures lowers { OnOk result (LowersItem self.old (Entry.Unit unit) self.new) }
    {
        if is_process(self.from, unit) {
            self.take_process(unit)
        } else {
            self.copying.keep(unit)
        }
    }

    /// Puts the entity of a process in its place, or keeps the process.
    fn take_process(&mut self, unit: UnitId) -> Result<(), NoMemory>
        requires formed { IsWellFormed (contents self.old.from.now) }
        requires next { IsNextItem self.old (Entry.Unit unit) }
        requires process { kind_at self.old.from.now unit.0 ≡ Some Proc }
        ensures from { self.new.from.now ≡ self.old.from.now }
        ensures lowers { OnOk result (LowersItem self.old (Entry.Unit unit) self.new) }
    {
        match outcome_of(self.alloc, self.from, &mut self.flattener, unit)? {
            ProcessOutcome::Entity(kind, body) => {
                self.copying.put_entity(unit, body)?;
                let verdict = Verdict::Lowered(kind);
                self.report.push(ReportRow { unit, verdict })
            }
            ProcessOutcome::Left(reason) => {
                self.copying.keep(unit)?;
                let verdict = Verdict::Left(reason);
                self.report.push(ReportRow { unit, verdict })
            }
        }
    }
}

/// Whether a unit is a process.
fn is_process(m: &Module, unit: UnitId) -> bool
    requires { unit.0 < unit_count m.now }
    ensures { IsTrue result ↔ (kind_at m.now unit.0 ≡ Some Proc) }
{
    matches!(m.kind(unit), Some(UnitKind::Proc))
}
