//! The command `simulate`.
ghost use Rattle.std.specs.Prelude.{◌≡◌, ◌<◌, ◌≤◌, ◌++◌, ◌∷◌, [], map, IfOk, OnOk, OnErr, IfErr, IsSome, Some};
ghost use Rattle.lh_unit.specs.Arena.{contents, unit_count, unit_name_at, kind_at};
ghost use Rattle.lh_unit.specs.Design.{elab, built};
ghost use Rattle.lh_unit.specs.WellFormed.{IsWellFormed};
ghost use Rattle.lh_unit.specs.World.{first_world};
ghost use Rattle.lh_design.specs.Texts.{design_text};
ghost use Rattle.lh_elab.specs.Answer.{IsDesignOf};
ghost use Rattle.lh_elab.specs.Elaborates.{Elaborates};
ghost use Rattle.lh_elab.specs.Refusals.{FaultWithin};
ghost use Rattle.lh_kernel.specs.Simulation.{StandsFor};
ghost use Rattle.lh_watch.specs.Shown.{kept};
ghost use Rattle.lh_args.specs.Forms as words;
ghost use Rattle.lh_args.specs.Meant.{simulation_of, top_of, titles_left};
ghost use Rattle.lh_wave.specs.ShownRun.{shown_from_first};
ghost use Rattle.lh_result.specs.Simulated.{status_by, mode_of};
ghost use Rattle.lh_result.specs.Account.{use_of};
ghost use Rattle.lh_result.specs.Steps.{Carries, ShowsRun, simulated, IsTopStatus};

use lh_args::command::{Simulate, Titles, Top};
use lh_design::Design;
use lh_elab::{ElabFault, elab};
use lh_io::stream::Sink;
use lh_io::whole::write_all;
use lh_kernel::Sim;
use lh_result::status::{Status, TopFault};
use lh_types::list::{ByteList, TextList};
use lh_types::memory::NoMemory;
use lh_unit::inst::UnitId;
use lh_unit::module::Module;
use lh_verify::verify::Verified;
use lh_watch::shows::keep_titles;
use lh_watch::watcher::Watcher;
use lh_wave::ending::{End, Ending};
use lh_wave::run::{WaveMode, run_wave};
use std::alloc::Global;

/// Shows the trace of a top to the watchers that are asked for, up to the first stop: its text goes to `out` as the frames
/// come, and then the reports to `log`. The other watchers are dropped once the top has elaborated.
pub fn simulate<O: Sink, L: Sink, W: Watcher>(
    alloc: Global,
    asked: &Simulate<'_>,
    file: &Verified,
    out: &mut O,
    log: &mut L,
    watchers: &mut Vec<W>,
) -> Result<Ending, Status>
    requires { 0 < asked.now.steps }
    ensures carries { Carries (words.simulate (simulation_of asked.now)) (contents file.now) (map W.member watchers.old.items) (simulated result) (use_of (O.written out.old) (O.written out.new) (O.faults out.old) (O.faults out.new)) (use_of (L.written log.old) (L.written log.new) (L.faults log.old) (L.faults log.new)) (map W.member watchers.new.items) }
    ensures never_fall { L.faults log.old ≤ L.faults log.new }
{
    let module = file.module();
    let mut sim = new_simulation(alloc, asked, module)?;
    let shown = show_asked(alloc, asked, module, &mut sim, out, log, watchers);
    drop(sim);
    shown
}

// The simulation of the top that is asked for, before its first frame.
fn new_simulation<'m>(
    alloc: Global,
    asked: &Simulate<'_>,
    module: &'m Module,
) -> Result<Sim<'m>, Status>
    requires { IsWellFormed (contents «module».now) }
    ensures built { IfOk result (λ s. elab (contents «module».now) (top_of asked.now.top) ≡ built (design_text «module».now s.design)) }
    ensures arena { IfOk result (λ s. s.arena ≡ «module».now) }
    ensures first { IfOk result (λ s. StandsFor s (first_world (contents «module».now) (design_text «module».now s.design))) }
    ensures status { IfErr result (λ s. IsTopStatus s (contents «module».now) (top_of asked.now.top)) }
{
    let design = design_named(alloc, module, asked.top)?;
    Ok(Sim::new(alloc, module, design)?)
}

// Shows a run to the watchers that are asked for, and drops the others.
fn show_asked<O: Sink, L: Sink, W: Watcher>(
    alloc: Global,
    asked: &Simulate<'_>,
    m: &Module,
    sim: &mut Sim<'_>,
    out: &mut O,
    log: &mut L,
    watchers: &mut Vec<W>,
) -> Result<Ending, Status>
    requires steps { 0 < asked.now.steps }
    requires arena { sim.old.arena ≡ m.now }
    requires first { StandsFor sim.old (first_world (contents m.now) (design_text m.now sim.old.design)) }
    requires built { elab (contents m.now) (top_of asked.now.top) ≡ built (design_text m.now sim.old.design) }
    ensures carries { Carries (words.simulate (simulation_of asked.now)) (contents m.now) (map W.member watchers.old.items) (simulated result) (use_of (O.written out.old) (O.written out.new) (O.faults out.old) (O.faults out.new)) (use_of (L.written log.old) (L.written log.new) (L.faults log.old) (L.faults log.new)) (map W.member watchers.new.items) }
    ensures never_fall { L.faults log.old ≤ L.faults log.new }
{
    keep_asked(alloc, asked.titles(), watchers)?;
    let mut reports = Vec::new(alloc);
    show_run(alloc, asked, m, sim, out, log, watchers, &mut reports)
}

// Drops the watchers that are not asked for.
fn keep_asked<W: Watcher>(
    alloc: Global,
    titles: Titles<'_>,
    watchers: &mut Vec<W>,
) -> Result<(), NoMemory>
    ensures kept { OnOk result (map W.member watchers.new.items ≡ kept (titles_left titles.entry) (map W.member watchers.old.items)) }
    ensures same { OnErr result (map W.member watchers.new.items ≡ map W.member watchers.old.items) }
{
    let titles = titles_of(alloc, titles)?;
    keep_titles(watchers, &titles);
    Ok(())
}

// Shows a run from its first frame on, and then the reports.
fn show_run<O: Sink, L: Sink, W: Watcher>(
    alloc: Global,
    asked: &Simulate<'_>,
    m: &Module,
    sim: &mut Sim<'_>,
    out: &mut O,
    log: &mut L,
    watchers: &mut Vec<W>,
    reports: &mut Vec<u8>,
) -> Result<Ending, Status>
    requires steps { 0 < asked.now.steps }
    requires module { sim.old.arena ≡ m.now }
    requires first { StandsFor sim.old (first_world (contents m.now) (design_text m.now sim.old.design)) }
    requires no_reports { reports.old.items ≡ [] }
    ensures shows { ShowsRun asked.now.vcd (design_text m.now sim.old.design) (shown_from_first (contents m.now) (design_text m.now sim.old.design) asked.now.steps (map W.member watchers.old.items)) (map W.member watchers.old.items) (simulated result) (use_of (O.written out.old) (O.written out.new) (O.faults out.old) (O.faults out.new)) (use_of (L.written log.old) (L.written log.new) (L.faults log.old) (L.faults log.new)) (map W.member watchers.new.items) }
    ensures never_fall { L.faults log.old ≤ L.faults log.new }
{
    let mode = mode_of(asked.vcd);
    let ending = run_wave(alloc, sim, m, asked.steps, mode, watchers, out, reports)?;
    write_all(log, reports)?;
    Ok(ending)
}

// The design of the defined unit of a name.
fn design_named(alloc: Global, m: &Module, top: Top<'_>) -> Result<Design, Status>
    requires { IsWellFormed (contents m.now) }
    ensures built { IfOk result (λ d. elab (contents m.now) (top_of top.entry) ≡ built (design_text m.now d)) }
    ensures design { IfOk result (λ d. IsDesignOf m.now d) }
    ensures status { IfErr result (λ s. IsTopStatus s (contents m.now) (top_of top.entry)) }
{
    let Some(unit) = m.find(top.sigil, top.name) else {
        return Err(Status::Top(TopFault::TopMissing));
    };
    if m.kind(unit).is_none() {
        return Err(Status::Top(TopFault::TopMissing));
    }
    design_of(alloc, m, unit)
}

// The design of a top unit.
fn design_of(alloc: Global, m: &Module, top: UnitId) -> Result<Design, Status>
    requires unit { top.0 < unit_count m.now }
    requires begun { IsSome (kind_at m.now top.0) }
    requires formed { IsWellFormed (contents m.now) }
    ensures built { IfOk result (λ d. elab (contents m.now) (unit_name_at m.now top.0) ≡ built (design_text m.now d)) }
    ensures design { IfOk result (λ d. IsDesignOf m.now d) }
    ensures status { IfErr result (λ s. IsTopStatus s (contents m.now) (unit_name_at m.now top.0)) }
{
    match elab(alloc, m, top) {
        Ok(design) => Ok(design),
        Err(fault) => Err(top_status(m, top, fault)),
    }
}

// The status of a top that has no design.
fn top_status(m: &Module, top: UnitId, fault: ElabFault) -> Status
    requires refused { Elaborates m.now top.0 (Err fault) }
    requires within { FaultWithin m.now fault }
    ensures { IsTopStatus result (contents m.now) (unit_name_at m.now top.0) }
{
    match fault {
        ElabFault::TopIsFunction => Status::Top(TopFault::TopIsFunction),
        ElabFault::InstCycle(unit) => match m.unit_name(unit).copy() {
            Ok(name) => Status::Top(TopFault::InstCycle(name)),
            Err(NoMemory) => Status::OutOfMemory,
        },
        ElabFault::TooDeep => Status::Top(TopFault::TooDeep),
        ElabFault::TooManyInstances => Status::Top(TopFault::TooManyInstances),
        ElabFault::TooManyBits => Status::Top(TopFault::TooManyBits),
        ElabFault::OutOfMemory => Status::OutOfMemory,
    }
}

// The titles of the watchers that are asked for.
fn titles_of(alloc: Global, titles: Titles<'_>) -> Result<TextList, NoMemory>
    ensures { IfOk result (λ list. list ≡ titles_left titles.entry) }
{
    let mut list = TextList::new(alloc);
    for title in titles {
        push_title(alloc, &mut list, title)?;
    }
    Ok(list)
}

// Appends a title.
fn push_title(alloc: Global, list: &mut TextList, title: &[u8]) -> Result<(), NoMemory>
    ensures { OnOk result (list.new ≡ list.old ++ title.now ∷ []) }
{
    let bytes = Vec::from_slice(alloc, title)?;
    list.push(ByteList::from_vec(bytes))
}

// In which form the text is written.
fn mode_of(vcd: bool) -> WaveMode
    ensures { result ≡ mode_of vcd }
{
    if vcd { WaveMode::Vcd } else { WaveMode::Trace }
}

/// The status of a run that was shown.
pub fn status_of(ending: Ending) -> Status
    ensures { result ≡ status_by ending.end ending.failed }
{
    match ending.end {
        End::Runaway(instance) => Status::Runaway(instance),
        _ if ending.failed => Status::AssertFailed,
        _ => Status::Done,
    }
}
