//! The parts of the signals that the entities of a design sense.
ghost use Rattle.std.specs.Prelude.{◌≡◌, ℕ, ◌+◌, ◌<◌, ◌≤◌, ◌++◌, ◌∷◌, ◌^◌, [], List, length, map, Some, IfOk, OnOk, slice_index_or};
ghost use Rattle.lh_types.specs.declared.part.Range.{Range as Part};
ghost use Rattle.lh_unit.specs.Arena.{Arena, IsArena, unit_count, value_count, inst_count, kind_at, naming, table_at, contents};
ghost use Rattle.lh_unit.specs.ById.{inst_line_text};
ghost use Rattle.lh_unit.specs.Held.{Env};
ghost use Rattle.lh_unit.specs.Hierarchy.{part_if_probe, probed_parts};
ghost use Rattle.lh_unit.specs.Naming.{inst_text};
ghost use Rattle.lh_unit.specs.WellFormed.{IsWellFormed};
ghost use Rattle.lh_unit.specs.Within.{Each};
ghost use Rattle.lh_unit.specs.declared.inst.InstId.{InstId as Id};
ghost use Rattle.lh_elab.specs.Answer.{IsDesignOf};
ghost use Rattle.lh_elab.specs.Probed.{AreProbes, ProbeLine, ProbesOf, probe_by, above};
ghost use Rattle.lh_elab_plan.specs.Statics.{by_of, HasSlots, StaticsFollow};
ghost use Rattle.lh_elab.specs.declared.probes.Probe.{Probe as Sensed};

use crate::build::{base_lo, few_bits};
use lh_design::Design;
use lh_elab_plan::plan::parts;
use lh_elab_plan::statics::{Base, Statics};
use lh_eval::instance::Instance;
use lh_eval::operands::part_in;
use lh_types::list::ListOf;
use lh_types::memory::NoMemory;
use lh_types::part::{Range, RangeList};
use lh_unit::inst::{BlockId, Inst, InstId, UnitId, UnitKind, ValueId};
use lh_unit::module::Module;
use std::alloc::Global;

/// A part of the signals that a unit senses, as if its argument or `sig` began at bit 0.
#[derive(Clone, Copy)]
pub struct Probe {
    pub base: Base,
    pub part: Range,
}

/// The parts of the signals that each entity of a design senses, by the instances' numbers; none of a process.
///
/// Each unit of the module is read once; the time is that, and what is given. `NoMemory` is when memory runs out.
pub fn probes_of(alloc: Global, m: &Module, d: &Design) -> Result<Vec<RangeList>, NoMemory>
    requires design { IsDesignOf m.now d.now }
    ensures probes { IfOk result (λ ps. AreProbes m.now d.now.instances.items ps.items) }
    ensures within { IfOk result (λ ps. Each (λ (rs : List Part). Each (λ (r : Part). r.lo + r.len ≤ length d.now.init) rs) ps.items) }
{
    few_bits(d.init());
    let units = all_probes(alloc, m)?;
    let mut probes = Vec::new(alloc);
    for instance in d.instances() {
        let unit = units[instance.unit.0 as usize].as_slice();
        push_parts(&mut probes, parts_at(alloc, unit, instance)?)?;
    }
    Ok(probes)
}

/// What each unit of a module senses, by the units' ids.
fn all_probes(alloc: Global, m: &Module) -> Result<Vec<ListOf<Probe>>, NoMemory>
    requires arena { IsArena m.now }
    requires formed { IsWellFormed (contents m.now) }
    ensures long { IfOk result (λ us. length us.items ≡ unit_count m.now) }
    ensures probes { IfOk result (λ us. (u : ℕ) → u < unit_count m.now → ProbesOf m.now u (slice_index_or us.items u [])) }
{
    let mut all = Vec::new(alloc);
    for unit in 0..m.units() {
        push_probes(&mut all, unit_probes(alloc, m, UnitId(unit))?)?;
    }
    Ok(all)
}

/// What a unit senses: an entity what its probes name, another nothing by itself.
fn unit_probes(alloc: Global, m: &Module, unit: UnitId) -> Result<ListOf<Probe>, NoMemory>
    requires unit { unit.0 < unit_count m.now }
    requires arena { IsArena m.now }
    requires formed { IsWellFormed (contents m.now) }
    ensures { IfOk result (ProbesOf m.now unit.0) }
{
    match m.kind(unit) {
        Some(UnitKind::Entity) => entity_probes(alloc, m, unit),
        _ => Ok(ListOf::new(alloc)),
    }
}

/// What an entity senses.
fn entity_probes(alloc: Global, m: &Module, unit: UnitId) -> Result<ListOf<Probe>, NoMemory>
    requires unit { unit.0 < unit_count m.now }
    requires entity { kind_at m.now unit.0 ≡ Some UnitKind.Entity }
    requires arena { IsArena m.now }
    requires formed { IsWellFormed (contents m.now) }
    ensures { IfOk result (ProbesOf m.now unit.0) }
{
    let insts = m.insts(unit, BlockId(0));
    let statics = parts(alloc, m, unit, insts)?;
    probes_in(alloc, m, unit, insts, &statics)
}

/// The parts that the probes among these instructions name.
fn probes_in(
    alloc: Global,
    m: &Module,
    unit: UnitId,
    insts: &[InstId],
    statics: &Statics,
) -> Result<ListOf<Probe>, NoMemory>
    requires unit { unit.0 < unit_count m.now }
    requires insts { Each (λ (i : Id). i.0 < inst_count m.now unit.0) insts.now }
    requires long { length statics.now.slots ≡ value_count m.now unit.0 }
    requires slots { HasSlots statics.now }
    ensures { (args sigs : List Part) (e : Env) → StaticsFollow m.now unit.0 args sigs (by_of statics.now) e → IfOk result (λ ps. map (above args sigs) ps ≡ probed_parts e (map (inst_line_text (naming m.now unit.0) (table_at m.now unit.0)) insts.now)) }
{
    let mut probes = ListOf::new(alloc);
    for inst in insts {
        put_if_probe(&mut probes, m.inst(unit, *inst), statics)?;
    }
    Ok(probes)
}

/// Adds the part that an instruction names, if it is a `prb`.
fn put_if_probe(probes: &mut ListOf<Probe>, inst: &Inst, statics: &Statics) -> Result<(), NoMemory>
    requires slots { HasSlots statics.now }
    requires operand { ProbeLine (length statics.now.slots) inst.now }
    ensures { (a : Arena) (u : ℕ) (args sigs : List Part) (e : Env) → StaticsFollow a u args sigs (by_of statics.now) e → OnOk result (map (above args sigs) probes.new ≡ map (above args sigs) probes.old ++ part_if_probe e (inst_text (naming a u) inst.now) []) }
{
    match inst {
        Inst::Prb(signal) => match probe_in(statics, signal.value) {
            Some(probe) => probes.push(probe),
            None => Ok(()),
        },
        _ => Ok(()),
    }
}

/// The part that is held by a value, if one is, and of what it is a part.
fn probe_in(statics: &Statics, value: ValueId) -> Option<Probe>
    requires value { value.0 < length statics.now.slots }
    requires slots { HasSlots statics.now }
    ensures { result ≡ probe_by statics.now value }
{
    let part = part_in(&statics.slots, value)?;
    Some(Probe {
        base: statics.bases[value.0 as usize],
        part,
    })
}

/// The parts that an instance of a unit senses.
fn parts_at(alloc: Global, probes: &[Probe], instance: &Instance) -> Result<RangeList, NoMemory>
    requires { Each (λ (p : Sensed). (above instance.now.args instance.now.sigs p).lo < 2 ^ 32) probes.now }
    ensures { IfOk result (λ rs. rs ≡ map (above instance.now.args instance.now.sigs) probes.now) }
{
    let mut parts = ListOf::new(alloc);
    for probe in probes {
        let lo = base_lo(
            probe.base,
            instance.args.as_slice(),
            instance.sigs.as_slice(),
        );
        let part = Range {
            lo: lo + probe.part.lo,
            len: probe.part.len,
        };
        parts.push(part)?;
    }
    Ok(parts)
}

fn push_probes(all: &mut Vec<ListOf<Probe>>, probes: ListOf<Probe>) -> Result<(), NoMemory>
    ensures { OnOk result (all.new.items ≡ all.old.items ++ probes ∷ []) }
{
    all.push(probes)?;
    Ok(())
}

fn push_parts(all: &mut Vec<RangeList>, parts: RangeList) -> Result<(), NoMemory>
    ensures { OnOk result (all.new.items ≡ all.old.items ++ parts ∷ []) }
{
    all.push(parts)?;
    Ok(())
}
