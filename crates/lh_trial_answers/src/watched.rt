//! Simulations shown to watchers that say a word at a frame.
ghost use Rattle.std.specs.Prelude.{◌≡◌, ◌<◌};
ghost use Rattle.lh_unit.specs.Arena.{contents};
ghost use Rattle.lh_unit.specs.World.{first_world};
ghost use Rattle.lh_design.specs.Texts.{design_text};
ghost use Rattle.lh_elab.specs.Answer.{IsDesignOf};
ghost use Rattle.lh_kernel.specs.Simulation.{StandsFor};

use crate::answer::number;
use crate::program::{ROOM, sink};
use lh_design::Design;
use lh_kernel::Sim;
use lh_text_buffer::Text;
use lh_trial_reference::frames::put_named;
use lh_trial_watchers::speaker::speakers;
use lh_types::memory::NoMemory;
use lh_unit::module::Module;
use lh_watch::watcher::Watcher;
use lh_wave::ending::End;
use lh_wave::run::{WaveFault, WaveMode, run_wave};
use std::alloc::Global;

/// The trace that watchers are shown; then how it ended, the watchers that are left with the frames that they have seen, and the
/// reports. Of a run that found no memory the trace and the reports are not told.
pub fn watched(alloc: Global, m: &Module, design: Design, words: &str) -> Result<Vec<u8>, NoMemory>
    requires { IsDesignOf m.now design }
{
    let (steps, words) = words.split_once(' ').unwrap_or((words, ""));
    let mut watchers: Vec<Box<dyn Watcher>> = Vec::new(alloc);
    for speaker in speakers(alloc, words)? {
        watchers.push(Box::new(alloc, speaker)?)?;
    }
    let answer = watched_by(alloc, m, design, number(steps).max(1), &mut watchers);
    drop(watchers);
    answer
}

/// The trace that these watchers are shown, and what is left of them.
fn watched_by<W: Watcher>(
    alloc: Global,
    m: &Module,
    design: Design,
    steps: u32,
    watchers: &mut Vec<W>,
) -> Result<Vec<u8>, NoMemory>
    requires design { IsDesignOf m.now design }
    requires steps { 0 < steps }
{
    let mut answer = Text::new(alloc);
    put_watched(&mut answer, alloc, m, design, steps, watchers)?;
    answer.finish()
}

fn put_watched<W: Watcher>(
    to: &mut Text,
    alloc: Global,
    m: &Module,
    design: Design,
    steps: u32,
    watchers: &mut Vec<W>,
) -> Result<(), NoMemory>
    requires design { IsDesignOf m.now design }
    requires steps { 0 < steps }
{
    let mut sim = Sim::new(alloc, m, design)?;
    let told = put_run(to, alloc, m, &mut sim, steps, watchers);
    drop(sim);
    told
}

/// Puts what watchers are shown of a simulation that is before its first frame, and what is left of them.
fn put_run<W: Watcher>(
    to: &mut Text,
    alloc: Global,
    m: &Module,
    sim: &mut Sim<'_>,
    steps: u32,
    watchers: &mut Vec<W>,
) -> Result<(), NoMemory>
    requires steps { 0 < steps }
    requires module { sim.old.arena ≡ m.now }
    requires first { StandsFor sim.old (first_world (contents m.now) (design_text m.now sim.old.design)) }
{
    let mut out = sink(alloc, ROOM, ROOM, 0)?;
    let mut reports = Vec::new(alloc);
    let told = match run_wave(
        alloc,
        sim,
        m,
        steps,
        WaveMode::Trace,
        watchers,
        &mut out,
        &mut reports,
    ) {
        Ok(ending) => put_shown(to, alloc, out.written(), ending.end, watchers, &reports),
        Err(fault) => put_fault(to, alloc, fault, watchers),
    };
    drop(out);
    told
}

fn put_shown<W: Watcher>(
    to: &mut Text,
    alloc: Global,
    trace: &[u8],
    end: End,
    watchers: &[W],
    reports: &[u8],
) -> Result<(), NoMemory> {
    to.put(trace);
    put_end(to, end);
    put_left(to, alloc, watchers)?;
    to.put(b"reports ");
    to.put(reports);
    to.put(b"\n");
    Ok(())
}

fn put_fault<W: Watcher>(
    to: &mut Text,
    alloc: Global,
    fault: WaveFault,
    watchers: &[W],
) -> Result<(), NoMemory> {
    let line: &[u8] = match fault {
        WaveFault::WriteFault => b"write fault\n",
        WaveFault::OutOfMemory => b"out of memory\n",
    };
    to.put(line);
    put_left(to, alloc, watchers)
}

fn put_end(to: &mut Text, end: End) {
    match end {
        End::Quiet => to.put(b"quiet\n"),
        End::Steps => to.put(b"steps\n"),
        End::Runaway(instance) => put_named(to, b"runaway", instance as u64),
        End::Stop(place) => put_named(to, b"stop", place as u64),
    }
}

/// What the watchers that are left report, one behind the other.
fn put_left<W: Watcher>(to: &mut Text, alloc: Global, watchers: &[W]) -> Result<(), NoMemory> {
    let mut left = Vec::new(alloc);
    put_reports(&mut left, watchers)?;
    to.put(b"left ");
    to.put(&left);
    to.put(b"\n");
    Ok(())
}

fn put_reports<W: Watcher>(to: &mut Vec<u8>, watchers: &[W]) -> Result<(), NoMemory> {
    for watcher in watchers {
        watcher.report(to)?;
    }
    Ok(())
}
