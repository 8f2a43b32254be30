//! The frames of a run, written to a sink and shown to watchers one after the other.
ghost use Rattle.std.specs.Prelude.{◌≡◌, ◌||◌, ◌≤◌, ◌++◌, [], ◌∷◌, false, ℕ, suc, List, Option, None, IfOk, IfErr, OnOk, IsErrOf, map};
ghost use Rattle.lh_types.specs.Values.{Datum};
ghost use Rattle.lh_types.specs.Pictures.{picture};
ghost use Rattle.lh_io.specs.Streams.{Rose, Appends};
ghost use Rattle.lh_unit.specs.Trace as trace;
ghost use Rattle.lh_unit.specs.Trace.{at_bound};
ghost use Rattle.lh_unit.specs.World.{World, next_instant};
ghost use Rattle.lh_watch.specs.Members.{Member};
ghost use Rattle.lh_watch.specs.Builtin.{has_failed};
ghost use Rattle.lh_watch.specs.Shown.{shown, first_stop};
ghost use Rattle.lh_kernel.specs.Simulation.{StandsFor};
ghost use Rattle.lh_wave.specs.BrokenOff.{BreaksOff};
ghost use Rattle.lh_wave.specs.ShownRun.{ShownRun, end_of, stop_at};
ghost use Rattle.lh_wave.specs.Going.{scribe_in, text_left, KeepsSignals, HasWrittenUpTo, IsNextToWrite, FrameIsTold, Went, BrokeOff, Turned, TellingIsOver, going, shows_one, shown_on, values_of_last};

use crate::ending::End;
use crate::run::{WaveFault, WaveMode};
use crate::scribe::Scribe;
use crate::waiting::{pass_on, write_out};
use lh_io::count::Count;
use lh_io::stream::Sink;
use lh_kernel::{Sim, SimStep};
use lh_text_buffer::Text;
use lh_types::frame::{Frame, Outcome};
use lh_types::tally::Tally;
use lh_watch::builtin::any_failed;
use lh_watch::shows::show;
use lh_watch::watcher::Watcher;
use std::alloc::Global;

/// Tells a run: writes its text and shows its frames, and notes whether an assertion has failed.
#[derive(Drop)]
pub(crate) struct Teller {
    alloc: Global,
    scribe: Scribe,
    // What waits to be written.
    text: Text,
    failed: bool,
}

impl Teller {
    /// Before the first frame.
    pub fn new(alloc: Global, mode: WaveMode) -> Teller
        ensures scribe { result.scribe ≡ scribe_in mode }
        ensures waits { result.text.items ≡ [] }
        ensures failed { result.failed ≡ false }
        ensures steady { KeepsSignals result.scribe }
    {
        Teller {
            alloc,
            scribe: Scribe::new(mode),
            text: Text::new(alloc),
            failed: false,
        }
    }

    /// Whether an assertion has failed in a frame so far.
    pub fn failed(&self) -> bool
        ensures { result ≡ self.now.failed }
    {
        self.failed
    }

    /// Shows the frames of a simulation, at most `steps`, up to the first at which a watcher says stop or an instance runs away.
    pub fn show_frames<K: Sink, W: Watcher>(
        &mut self,
        sim: &mut Sim<'_>,
        steps: u32,
        ws: &mut Vec<W>,
        out: &mut K,
        reports: &mut Vec<u8>,
    ) -> Result<End, WaveFault>
        requires { KeepsSignals self.old.scribe }
        ensures steady { OnOk result (KeepsSignals self.new.scribe) }
        ensures ok { IfOk result (λ end. (w : World) → StandsFor sim.old w → let before = values_of_last sim.old.arena sim.old.design w in HasWrittenUpTo self.old.scribe before →
            let ms = map W.member ws.old.items in
            TellingIsOver self.new (going self.old before ms (shown_on sim.old.arena sim.old.design steps w ms) (K.written out.old) reports.old.items) end (map W.member ws.new.items) (K.written out.new) reports.new.items) }
        ensures err { IfErr result (λ e. (w : World) → StandsFor sim.old w → let before = values_of_last sim.old.arena sim.old.design w in HasWrittenUpTo self.old.scribe before →
            let ms = map W.member ws.old.items in
            BrokeOff (going self.old before ms (shown_on sim.old.arena sim.old.design steps w ms) (K.written out.old) reports.old.items) e (K.written out.new) (map W.member ws.new.items)) }
        ensures rose { IsErrOf result WaveFault.WriteFault → Rose (K.faults out.old) (K.faults out.new) }
        ensures never_fall { K.faults out.old ≤ K.faults out.new }
    {
        let mut count = Count::new();
        for _step in 0..steps {
            match self.turn(sim, &mut count, ws, out, reports)? {
                None => {}
                Some(end) => return Ok(end),
            }
        }
        Ok(end_at_bound(sim))
    }

    /// Takes one step, and shows its frame; the answer is how the run ended with it, if it did.
    fn turn<K: Sink, W: Watcher, T: Tally>(
        &mut self,
        sim: &mut Sim<'_>,
        tally: &mut T,
        ws: &mut Vec<W>,
        out: &mut K,
        reports: &mut Vec<u8>,
    ) -> Result<Option<End>, WaveFault>
        requires { KeepsSignals self.old.scribe }
        ensures steady { OnOk result (KeepsSignals self.new.scribe) }
        ensures arena { sim.new.arena ≡ sim.old.arena }
        ensures design { sim.new.design ≡ sim.old.design }
        ensures ok { IfOk result (λ end. (n : ℕ) (w : World) → StandsFor sim.old w → let before = values_of_last sim.old.arena sim.old.design w in HasWrittenUpTo self.old.scribe before →
            let ms = map W.member ws.old.items in
            Turned end sim.old.arena sim.old.design n sim.new self.new (going self.old before ms (shown_on sim.old.arena sim.old.design (suc n) w ms) (K.written out.old) reports.old.items) (map W.member ws.new.items) (K.written out.new) reports.new.items) }
        ensures err { IfErr result (λ e. (n : ℕ) (w : World) → StandsFor sim.old w → let before = values_of_last sim.old.arena sim.old.design w in HasWrittenUpTo self.old.scribe before →
            let ms = map W.member ws.old.items in
            BrokeOff (going self.old before ms (shown_on sim.old.arena sim.old.design (suc n) w ms) (K.written out.old) reports.old.items) e (K.written out.new) (map W.member ws.new.items)) }
        ensures rose { IsErrOf result WaveFault.WriteFault → Rose (K.faults out.old) (K.faults out.new) }
        ensures never_fall { K.faults out.old ≤ K.faults out.new }
    {
        match sim.step(tally)? {
            SimStep::Quiet => Ok(Some(End::Quiet)),
            SimStep::Frame(f) => {
                let shown = self.show_frame(&f, ws, out, reports);
                drop(f);
                Ok(stopped(shown?))
            }
            SimStep::Runaway(f, instance) => {
                let shown = self.show_frame(&f, ws, out, reports);
                drop(f);
                shown?;
                Ok(Some(End::Runaway(instance)))
            }
        }
    }

    /// Writes the text of a frame and shows the frame; the answer is the place of the first watcher that says stop.
    fn show_frame<K: Sink, W: Watcher>(
        &mut self,
        f: &Frame,
        ws: &mut Vec<W>,
        out: &mut K,
        reports: &mut Vec<u8>,
    ) -> Result<Option<usize>, WaveFault>
        requires { KeepsSignals self.old.scribe }
        ensures steady { OnOk result (KeepsSignals self.new.scribe) }
        ensures members { OnOk result (map W.member ws.new.items ≡ shown (picture f.now) (map W.member ws.old.items)) }
        ensures stop { IfOk result (λ place. place ≡ first_stop (picture f.now) (map W.member ws.old.items)) }
        ensures behind { OnOk result ((before : Option (List Datum)) (v : trace.Frame) → IsNextToWrite self.old.scribe before v (picture f.now) → HasWrittenUpTo self.new.scribe (Some v.values)) }
        ensures went { OnOk result ((before : Option (List Datum)) (v : trace.Frame) (rest : ShownRun) → IsNextToWrite self.old.scribe before v (picture f.now) →
            let ms = map W.member ws.old.items in
            Went (going self.old before ms (shows_one (picture f.now) ms v rest) (K.written out.old) reports.old.items)
            (going self.new (Some v.values) (map W.member ws.new.items) rest (K.written out.new) reports.new.items)) }
        ensures err { IfErr result (λ e. (before : Option (List Datum)) (v : trace.Frame) (rest : ShownRun) → IsNextToWrite self.old.scribe before v (picture f.now) →
            let ms = map W.member ws.old.items in
            BrokeOff (going self.old before ms (shows_one (picture f.now) ms v rest) (K.written out.old) reports.old.items) e (K.written out.new) (map W.member ws.new.items)) }
        ensures rose { IsErrOf result WaveFault.WriteFault → Rose (K.faults out.old) (K.faults out.new) }
        ensures never_fall { K.faults out.old ≤ K.faults out.new }
    {
        self.tell(f, out)?;
        self.failed = failed_so_far(self.failed, f.outcomes.as_slice());
        Ok(show(ws, f, reports)?)
    }

    /// Puts what can be told when a frame comes behind what waits, and writes it where it is long.
    fn tell<K: Sink>(&mut self, f: &Frame, out: &mut K) -> Result<(), WaveFault>
        requires { KeepsSignals self.old.scribe }
        ensures steady { OnOk result (KeepsSignals self.new.scribe) }
        ensures failed { self.new.failed ≡ self.old.failed }
        ensures told { OnOk result ((before : Option (List Datum)) (v : trace.Frame) → IsNextToWrite self.old.scribe before v (picture f.now) →
            FrameIsTold self.old.scribe self.new.scribe before v self.old.text.items self.new.text.items (K.written out.old) (K.written out.new)) }
        ensures err { IfErr result (λ e. (before : Option (List Datum)) (v : trace.Frame) (more : List trace.Frame) (left : List Member) (end : End) → IsNextToWrite self.old.scribe before v (picture f.now) →
            BreaksOff e (K.written out.old) (K.written out.new) (self.old.text.items ++ text_left self.old.scribe before (v ∷ more) left end)) }
        ensures rose { IsErrOf result WaveFault.WriteFault → Rose (K.faults out.old) (K.faults out.new) }
        ensures never_fall { K.faults out.old ≤ K.faults out.new }
    {
        self.scribe.take(self.alloc, f, &mut self.text)?;
        pass_on(&mut self.text, out)
    }

    /// Writes what waits, and what is left to be written where the run has ended so.
    pub fn finish<K: Sink, W: Watcher>(
        &mut self,
        end: End,
        ws: &[W],
        out: &mut K,
    ) -> Result<(), WaveFault>
        requires { KeepsSignals self.old.scribe }
        ensures failed { self.new.failed ≡ self.old.failed }
        ensures told { OnOk result ((before : Option (List Datum)) → Appends (K.written out.old) (K.written out.new) (self.old.text.items ++ text_left self.old.scribe before [] (map W.member ws.now) end)) }
        ensures err { IfErr result (λ e. (before : Option (List Datum)) → BreaksOff e (K.written out.old) (K.written out.new) (self.old.text.items ++ text_left self.old.scribe before [] (map W.member ws.now) end)) }
        ensures rose { IsErrOf result WaveFault.WriteFault → Rose (K.faults out.old) (K.faults out.new) }
        ensures never_fall { K.faults out.old ≤ K.faults out.new }
    {
        self.scribe.end(end, ws, &mut self.text)?;
        write_out(&self.text, out)
    }
}

/// How a run ends after a frame at which the watcher at a place said stop, if one did.
fn stopped(place: Option<usize>) -> Option<End>
    ensures { result ≡ stop_at place }
{
    match place {
        None => None,
        Some(place) => Some(End::Stop(place)),
    }
}

/// How a run ends at the bound on its frames.
fn end_at_bound(sim: &Sim<'_>) -> End
    ensures { (w : World) → StandsFor sim.now w → result ≡ end_of (at_bound (next_instant w)).end }
{
    match sim.next() {
        None => End::Quiet,
        Some(_) => End::Steps,
    }
}

/// Whether an assertion has failed before or among these outcomes.
fn failed_so_far(before: bool, outcomes: &[Outcome]) -> bool
    ensures { result ≡ before || has_failed outcomes.now }
{
    before || any_failed(outcomes)
}
