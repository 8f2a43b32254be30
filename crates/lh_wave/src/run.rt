//! A run shown to watchers, with its text going to a sink as its frames come.
ghost use Rattle.std.specs.Prelude.{◌≡◌, ◌||◌, ◌<◌, ◌≤◌, ◌++◌, None, List, ℕ, IfOk, IfErr, OnOk, OnErr, IsErrOf, map};
ghost use Rattle.std.specs.List.{flat_map};
ghost use Rattle.lh_io.specs.Streams.{Rose, Appends};
ghost use Rattle.lh_unit.specs.Arena.{contents};
ghost use Rattle.lh_unit.specs.World.{first_world};
ghost use Rattle.lh_unit.specs.Frames.{pictures};
ghost use Rattle.lh_unit.specs.Paths.{shown_in};
ghost use Rattle.lh_design.specs.Texts.{design_text};
ghost use Rattle.lh_watch.specs.Members.{report_of};
ghost use Rattle.lh_elab.specs.Answer.{IsDesignOf};
ghost use Rattle.lh_kernel.specs.Simulation.{StandsFor};
ghost use Rattle.lh_wave.specs.HeadText.{signals_in};
ghost use Rattle.lh_wave.specs.ShownRun.{shown_from_first, all_reports, any_failed};
ghost use Rattle.lh_wave.specs.Going.{KeepsSignals, HasWrittenUpTo, BrokeOff, going, text_left};
ghost use Rattle.lh_wave.specs.RunText.{text_in, head_in};
ghost use Rattle.lh_wave.specs.BrokenOff.{HaveSeen, BreaksOff};
ghost use Rattle.lh_wave.specs.declared.run.WaveFault.TheVariants.{WriteFault, OutOfMemory};

use crate::ending::Ending;
use crate::head::{vcd_head, write_trace_head};
use crate::teller::Teller;
use lh_design::Design;
use lh_io::stream::{Failed, Sink};
use lh_io::whole::write_all;
use lh_kernel::Sim;
use lh_types::memory::NoMemory;
use lh_unit::module::Module;
use lh_watch::watcher::Watcher;
use std::alloc::Global;
use thiserror::Error;

/// In which form the text of a run is written.
#[derive(Clone, Copy, Debug, PartialEq, Eq)]
pub enum WaveMode {
    /// As a trace: each frame, and how it ended.
    Trace,
    /// As a waveform: a value change dump.
    Vcd,
}

/// Why a run was not shown whole.
#[derive(Clone, Copy, Debug, PartialEq, Eq, Error)]
pub enum WaveFault {
    /// A write failed; the sink's count of faults rose.
    #[error("a write failed")]
    WriteFault,
    /// Memory ran out.
    #[error("out of memory")]
    OutOfMemory,
}

impl From<NoMemory> for WaveFault {
    ghost from_gives = { λ _ e. e ≡ OutOfMemory };

    fn from(_: NoMemory) -> WaveFault {
        WaveFault::OutOfMemory
    }
}

impl From<Failed> for WaveFault {
    ghost from_gives = { λ _ e. e ≡ WriteFault };

    fn from(_: Failed) -> WaveFault {
        WaveFault::WriteFault
    }
}

/// Shows a run of at most `steps` frames to watchers, writes its text to `out` as the frames come, in pieces of whole lines, and
/// appends the reports to `reports`.
///
/// A watcher that says stop ends the run after that frame, unless an instance ran away in it. A watcher that is done reports and is
/// dropped; at the end those that are left report in order, and stay in the list. The memory that it takes does not grow with the
/// number of frames.
///
/// After a fault a prefix of the text was written, a proper one after `WriteFault`, and the watchers have seen a prefix of the frames;
/// of the simulation and the reports nothing is said.
pub fn run_wave<K: Sink, W: Watcher>(
    alloc: Global,
    sim: &mut Sim<'_>,
    m: &Module,
    steps: u32,
    mode: WaveMode,
    ws: &mut Vec<W>,
    out: &mut K,
    reports: &mut Vec<u8>,
) -> Result<Ending, WaveFault>
    requires positive { 0 < steps }
    requires made_for { sim.old.arena ≡ m.now }
    requires fresh { StandsFor sim.old (first_world (contents m.now) (design_text m.now sim.old.design)) }
    ensures ending { let s = shown_from_first (contents m.now) (design_text m.now sim.old.design) steps (map W.member ws.old.items) in
        IfOk result (λ e. (e.end ≡ s.end) × (e.failed ≡ any_failed s)) }
    ensures text { let d = design_text m.now sim.old.design in let s = shown_from_first (contents m.now) d steps (map W.member ws.old.items) in
        OnOk result (Appends (K.written out.old) (K.written out.new) (text_in mode (shown_in d) (signals_in d) s)) }
    ensures members { let s = shown_from_first (contents m.now) (design_text m.now sim.old.design) steps (map W.member ws.old.items) in
        OnOk result (map W.member ws.new.items ≡ s.left) }
    ensures reports { let s = shown_from_first (contents m.now) (design_text m.now sim.old.design) steps (map W.member ws.old.items) in
        OnOk result (reports.new.items ≡ reports.old.items ++ all_reports s) }
    ensures fault { let d = design_text m.now sim.old.design in let s = shown_from_first (contents m.now) d steps (map W.member ws.old.items) in
        IfErr result (λ e. BreaksOff e (K.written out.old) (K.written out.new) (text_in mode (shown_in d) (signals_in d) s)
        × HaveSeen (pictures None s.frames) (map W.member ws.old.items) (map W.member ws.new.items)) }
    ensures rose { IsErrOf result WaveFault.WriteFault → Rose (K.faults out.old) (K.faults out.new) }
    ensures never_fall { K.faults out.old ≤ K.faults out.new }
{
    write_head(alloc, mode, sim.design(), m, out)?;
    let mut teller = Teller::new(alloc, mode);
    tell_run(&mut teller, sim, steps, ws, out, reports)
}

/// Shows the run to watchers, writes its text behind the head, and appends the reports.
fn tell_run<K: Sink, W: Watcher>(
    teller: &mut Teller,
    sim: &mut Sim<'_>,
    steps: u32,
    ws: &mut Vec<W>,
    out: &mut K,
    reports: &mut Vec<u8>,
) -> Result<Ending, WaveFault>
    requires steady { KeepsSignals teller.old.scribe }
    requires behind { HasWrittenUpTo teller.old.scribe None }
    requires fresh { StandsFor sim.old (first_world (contents sim.old.arena) (design_text sim.old.arena sim.old.design)) }
    ensures ending { let s = shown_from_first (contents sim.old.arena) (design_text sim.old.arena sim.old.design) steps (map W.member ws.old.items) in
        IfOk result (λ e. (e.end ≡ s.end) × (e.failed ≡ teller.old.failed || any_failed s)) }
    ensures text { let s = shown_from_first (contents sim.old.arena) (design_text sim.old.arena sim.old.design) steps (map W.member ws.old.items) in
        OnOk result (Appends (K.written out.old) (K.written out.new) (teller.old.text.items ++ text_left teller.old.scribe None s.frames s.left s.end)) }
    ensures members { let s = shown_from_first (contents sim.old.arena) (design_text sim.old.arena sim.old.design) steps (map W.member ws.old.items) in
        OnOk result (map W.member ws.new.items ≡ s.left) }
    ensures reports { let s = shown_from_first (contents sim.old.arena) (design_text sim.old.arena sim.old.design) steps (map W.member ws.old.items) in
        OnOk result (reports.new.items ≡ reports.old.items ++ all_reports s) }
    ensures fault { let ms = map W.member ws.old.items in let s = shown_from_first (contents sim.old.arena) (design_text sim.old.arena sim.old.design) steps ms in
        IfErr result (λ e. BrokeOff (going teller.old None ms s (K.written out.old) reports.old.items) e (K.written out.new) (map W.member ws.new.items)) }
    ensures rose { IsErrOf result WaveFault.WriteFault → Rose (K.faults out.old) (K.faults out.new) }
    ensures never_fall { K.faults out.old ≤ K.faults out.new }
{
    let end = teller.show_frames(sim, steps, ws, out, reports)?;
    teller.finish(end, ws, out)?;
    put_reports(ws, reports)?;
    Ok(Ending {
        end,
        failed: teller.failed(),
    })
}

/// Writes the head of the text. After a fault a prefix of it was written, a proper one after `WriteFault`.
fn write_head<K: Sink>(
    alloc: Global,
    mode: WaveMode,
    d: &Design,
    m: &Module,
    out: &mut K,
) -> Result<(), WaveFault>
    requires { IsDesignOf m.now d.now }
    ensures told { OnOk result (Appends (K.written out.old) (K.written out.new) (head_in mode (shown_in (design_text m.now d.now)) (signals_in (design_text m.now d.now)))) }
    ensures err { IfErr result (λ e. BreaksOff e (K.written out.old) (K.written out.new) (head_in mode (shown_in (design_text m.now d.now)) (signals_in (design_text m.now d.now)))) }
    ensures rose { IsErrOf result WaveFault.WriteFault → Rose (K.faults out.old) (K.faults out.new) }
    ensures never_fall { K.faults out.old ≤ K.faults out.new }
{
    match mode {
        WaveMode::Trace => write_trace_head(alloc, d, m, out),
        WaveMode::Vcd => {
            let head = vcd_head(alloc, d, m)?;
            write_all(out, &head)?;
            Ok(())
        }
    }
}

/// Puts the reports of watchers at the end of a text. After `NoMemory` nothing is said of the text.
fn put_reports<W: Watcher>(ws: &[W], to: &mut Vec<u8>) -> Result<(), NoMemory>
    ensures { OnOk result (to.new.items ≡ to.old.items ++ flat_map report_of (map W.member ws.now)) }
{
    for w in ws {
        w.report(to)?;
    }
    Ok(())
}
