//! The entities of the three shapes.
ghost use Rattle.std.specs.Prelude.{◌≡◌, [], IfOk, IfErr, OnOk};
ghost use Rattle.lh_term.specs.Arena.{trees, tree_at, IsIn, Grows};
ghost use Rattle.lh_term.specs.Make.{is_bit};
ghost use Rattle.lh_emit_def.specs.Entities as spec;
ghost use Rattle.lh_emit_body.specs.Lines.{NamesGrow};
ghost use Rattle.lh_emit.specs.Emitting.{CanNeed};
ghost use Rattle.lh_emit_shapes.specs.Putting.{TestsTerm, TestsTermNot, CanPutDrive, PutsDrive, PutsDriveNot, CanPutDrives, PutsDrives, PutsDrivesNot, CanPutProbes, PutsProbes, PutsProbesNot};
ghost use Rattle.lh_emit_shapes.specs.Putting.{CanTrigger, NeedsTrigger, NeedsTriggerNot, CanPutRegister, NeedsTriggers, NeedsTriggersNot, PutsRegister, PutsRegisterNot, CanPutRegisters, PutsRegisters, PutsRegistersNot};
ghost use Rattle.lh_emit_shapes.specs.Bodies.{DrivesCanBeEmitted, IsComb, IsOnceBody, CanRegister, IsRegisterBody};

use lh_edge::triggers::{EdgeRow, EdgeRowList, Trigger};
use lh_emit::emitter::Emitter;
use lh_emit::operands::signal;
use lh_emit_body::Body;
use lh_emit_body::lines::{BodyLineList, EmitFault, Lines};
use lh_emit_source::origin::Origin;
use lh_region::{DriveList, DriveRow};
use lh_term::part::{Part, PartList};
use lh_term::term::{Term, TermId};
use lh_term::terms::Terms;
use lh_types::val::Val;
use lh_unit::inst::{Inst, Mode, NameList, RegTrigger, RegTriggerList, ValueId};
use std::alloc::Global;

/// The entity of drives on all values, which reacts to each change of what is waited on.
pub fn comb_body(
    alloc: Global,
    origin: &Origin<'_>,
    terms: &mut Terms,
    waited: &PartList,
    drives: &DriveList,
) -> Result<Body, EmitFault>
    requires { DrivesCanBeEmitted terms.old origin.now waited.now drives.now }
    ensures kept { Grows terms.old terms.new }
    ensures is { IsComb terms.old origin.now waited.now drives.now result }
{
    let mut emitter = Emitter::new(alloc, origin)?;
    put_probes(alloc, origin, terms, &mut emitter, waited.as_slice())?;
    put_drives(alloc, origin, terms, &mut emitter, drives.as_slice())?;
    Ok(body_of(emitter))
}

/// The entity of registers, which reacts to edges.
pub fn edge_body(
    alloc: Global,
    origin: &Origin<'_>,
    terms: &mut Terms,
    rows: &EdgeRowList,
) -> Result<Body, EmitFault>
    requires { CanRegister terms.old origin.now rows.now }
    ensures kept { Grows terms.old terms.new }
    ensures is { IsRegisterBody terms.old origin.now rows.now result }
{
    let mut emitter = Emitter::new(alloc, origin)?;
    put_registers(alloc, origin, terms, &mut emitter, rows.as_slice())?;
    Ok(body_of(emitter))
}

/// The entity of drives that runs once.
pub fn once_body(
    alloc: Global,
    origin: &Origin<'_>,
    terms: &mut Terms,
    drives: &DriveList,
) -> Result<Body, EmitFault>
    requires { DrivesCanBeEmitted terms.old origin.now [] drives.now }
    ensures kept { Grows terms.old terms.new }
    ensures is { IsOnceBody terms.old origin.now drives.now result }
{
    let mut emitter = Emitter::new(alloc, origin)?;
    put_drives(alloc, origin, terms, &mut emitter, drives.as_slice())?;
    Ok(body_of(emitter))
}

fn body_of(emitter: Emitter) -> Body
    ensures names { result.names ≡ emitter.lines.names }
    ensures lines { result.lines ≡ emitter.lines.lines }
{
    let Emitter { lines, .. } = emitter;
    let Lines { names, lines, .. } = lines;
    Body { names, lines }
}

/// Gives the present values of parts.
fn put_probes(
    alloc: Global,
    origin: &Origin<'_>,
    terms: &mut Terms,
    emitter: &mut Emitter,
    parts: &[Part],
) -> Result<(), EmitFault>
    requires { CanPutProbes terms.old origin.now emitter.old parts.now }
    ensures kept { Grows terms.old terms.new }
    ensures put { IfOk result (λ _. PutsProbes terms.old origin.now emitter.old parts.now terms.new emitter.new) }
    ensures cause { IfErr result (PutsProbesNot terms.old origin.now emitter.old parts.now) }
{
    for part in parts {
        emitter.now(alloc, origin, terms, part)?;
    }
    Ok(())
}

// ---- drives

fn put_drives(
    alloc: Global,
    origin: &Origin<'_>,
    terms: &mut Terms,
    emitter: &mut Emitter,
    rows: &[DriveRow],
) -> Result<(), EmitFault>
    requires { CanPutDrives terms.old origin.now emitter.old rows.now }
    ensures kept { Grows terms.old terms.new }
    ensures put { IfOk result (λ _. PutsDrives terms.old origin.now emitter.old rows.now terms.new emitter.new) }
    ensures cause { IfErr result (PutsDrivesNot terms.old origin.now emitter.old rows.now) }
{
    for row in rows {
        put_drive(alloc, origin, terms, emitter, row)?;
    }
    Ok(())
}

/// Gives the value, the delay, the condition and the part of a drive, and then the `drv`.
fn put_drive(
    alloc: Global,
    origin: &Origin<'_>,
    terms: &mut Terms,
    emitter: &mut Emitter,
    row: &DriveRow,
) -> Result<(), EmitFault>
    requires { CanPutDrive terms.old origin.now emitter.old row.now }
    ensures kept { Grows terms.old terms.new }
    ensures put { IfOk result (λ _. PutsDrive terms.old origin.now emitter.old row.now terms.new emitter.new) }
    ensures cause { IfErr result (PutsDriveNot terms.old origin.now emitter.old row.now) }
{
    let value = emitter.term(alloc, origin, terms, row.value)?;
    let after = emitter.term(alloc, origin, terms, row.delay)?;
    let cond = condition(alloc, origin, terms, emitter, row.cond)?;
    let part = emitter.part(alloc, origin, terms, &row.part)?;
    let to = signal(alloc, part, &row.part.ty)?;
    emitter.put(Inst::Drv {
        to,
        value,
        after,
        cond,
    })
}

// ---- conditions

/// Gives a condition; none where it is the constant 1.
fn condition(
    alloc: Global,
    origin: &Origin<'_>,
    terms: &mut Terms,
    emitter: &mut Emitter,
    cond: TermId,
) -> Result<Option<ValueId>, EmitFault>
    requires { CanNeed terms.old origin.now emitter.old cond }
    ensures kept { Grows terms.old terms.new }
    ensures grows { OnOk result (NamesGrow emitter.old.lines.names emitter.new.lines.names) }
    ensures tested { IfOk result (λ v. TestsTerm terms.old origin.now emitter.old cond terms.new emitter.new v) }
    ensures cause { IfErr result (TestsTermNot terms.old origin.now emitter.old cond) }
{
    if always_holds(terms, cond) {
        return Ok(None);
    }
    let value = emitter.term(alloc, origin, terms, cond)?;
    Ok(Some(value))
}

/// Whether a term is the constant 1 of one bit.
fn always_holds(terms: &Terms, cond: TermId) -> bool
    requires { IsIn terms.now cond }
    ensures { result ≡ is_bit 1 (tree_at (trees terms.now) cond) }
{
    match terms.view(cond) {
        Term::Konst(Val::Int { width, bits }) => *width == 1 && *bits == 1,
        _ => false,
    }
}

// ---- registers

fn put_registers(
    alloc: Global,
    origin: &Origin<'_>,
    terms: &mut Terms,
    emitter: &mut Emitter,
    rows: &[EdgeRow],
) -> Result<(), EmitFault>
    requires { CanPutRegisters terms.old origin.now emitter.old rows.now }
    ensures kept { Grows terms.old terms.new }
    ensures put { IfOk result (λ _. PutsRegisters terms.old origin.now emitter.old rows.now terms.new emitter.new) }
    ensures cause { IfErr result (PutsRegistersNot terms.old origin.now emitter.old rows.now) }
{
    for row in rows {
        put_register(alloc, origin, terms, emitter, row)?;
    }
    Ok(())
}

/// Gives what the triggers of a row need, its part, and then the `reg`; nothing where there are no triggers.
fn put_register(
    alloc: Global,
    origin: &Origin<'_>,
    terms: &mut Terms,
    emitter: &mut Emitter,
    row: &EdgeRow,
) -> Result<(), EmitFault>
    requires { CanPutRegister terms.old origin.now emitter.old row.now }
    ensures kept { Grows terms.old terms.new }
    ensures put { IfOk result (λ _. PutsRegister terms.old origin.now emitter.old row.now terms.new emitter.new) }
    ensures cause { IfErr result (PutsRegisterNot terms.old origin.now emitter.old row.now) }
{
    if row.triggers.len() == 0 {
        return Ok(());
    }
    let triggers = row_triggers(alloc, origin, terms, emitter, row)?;
    let part = emitter.part(alloc, origin, terms, &row.part)?;
    let to = signal(alloc, part, &row.part.ty)?;
    emitter.put(Inst::Reg { to, triggers })
}

/// The triggers of the `reg` of a row.
fn row_triggers(
    alloc: Global,
    origin: &Origin<'_>,
    terms: &mut Terms,
    emitter: &mut Emitter,
    row: &EdgeRow,
) -> Result<RegTriggerList, EmitFault>
    requires { CanPutRegister terms.old origin.now emitter.old row.now }
    ensures kept { Grows terms.old terms.new }
    ensures needed { IfOk result (λ triggers. NeedsTriggers terms.old origin.now emitter.old row.now terms.new emitter.new triggers) }
    ensures cause { IfErr result (NeedsTriggersNot terms.old origin.now emitter.old row.now) }
{
    let mut triggers = RegTriggerList::new(alloc);
    for trigger in row.triggers.as_slice() {
        let made = reg_trigger(alloc, origin, terms, emitter, row, trigger)?;
        triggers.push(made)?;
    }
    Ok(triggers)
}

/// Gives the value of a row, a trigger's part now, its gate and the delay.
fn reg_trigger(
    alloc: Global,
    origin: &Origin<'_>,
    terms: &mut Terms,
    emitter: &mut Emitter,
    row: &EdgeRow,
    trigger: &Trigger,
) -> Result<RegTrigger, EmitFault>
    requires { CanTrigger terms.old origin.now emitter.old row.now trigger.now }
    ensures kept { Grows terms.old terms.new }
    ensures grows { OnOk result (NamesGrow emitter.old.lines.names emitter.new.lines.names) }
    ensures needed { IfOk result (λ t. NeedsTrigger terms.old origin.now emitter.old row.now trigger.now terms.new emitter.new t) }
    ensures cause { IfErr result (NeedsTriggerNot terms.old origin.now emitter.old row.now trigger.now) }
{
    let value = emitter.term(alloc, origin, terms, row.value)?;
    let now = emitter.now(alloc, origin, terms, &trigger.part)?;
    let gate = condition(alloc, origin, terms, emitter, trigger.gate)?;
    let after = emitter.term(alloc, origin, terms, row.delay)?;
    let mode = mode_of(trigger.rise);
    Ok(RegTrigger {
        value,
        mode,
        trigger: now,
        gate,
        after: Some(after),
    })
}

fn mode_of(rise: bool) -> Mode
    ensures { result ≡ spec.mode_of rise }
{
    if rise { Mode::Rise } else { Mode::Fall }
}
