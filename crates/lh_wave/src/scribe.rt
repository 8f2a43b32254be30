//! The text of a run behind its head, as its frames come.
ghost use Rattle.std.specs.Prelude.{◌≡◌, [], List, Option, None, OnOk, map};
ghost use Rattle.lh_text_buffer.specs.Writing.{Writes};
ghost use Rattle.lh_types.specs.Values.{Datum};
ghost use Rattle.lh_types.specs.Pictures.{picture};
ghost use Rattle.lh_unit.specs.Trace as trace;
ghost use Rattle.lh_wave.specs.Going.{scribe_in, text_left, KeepsSignals, HasWrittenUpTo, IsNextToWrite, FrameIsPut};

use crate::ending::{End, put_end};
use crate::run::WaveMode;
use crate::trace::put_frame;
use crate::waveform::Waveform;
use lh_text_buffer::Text;
use lh_types::frame::Frame;
use lh_types::memory::NoMemory;
use lh_watch::watcher::Watcher;
use std::alloc::Global;

/// Writes the text of a run as its frames come: its trace, or its waveform, which begins with the first frame.
#[derive(Drop)]
pub(crate) enum Scribe {
    Trace,
    Vcd(Option<Waveform>),
}

impl Scribe {
    /// Before the first frame.
    pub fn new(mode: WaveMode) -> Scribe
        ensures steady { KeepsSignals result }
        ensures behind { HasWrittenUpTo result None }
        ensures mode { result ≡ scribe_in mode }
    {
        match mode {
            WaveMode::Trace => Scribe::Trace,
            WaveMode::Vcd => Scribe::Vcd(None),
        }
    }

    /// Takes a frame, and puts what can be written then at the end of `to`. After `NoMemory` nothing is said of the scribe and the
    /// text.
    pub fn take(&mut self, alloc: Global, f: &Frame, to: &mut Text) -> Result<(), NoMemory>
        requires { KeepsSignals self.old }
        ensures steady { OnOk result (KeepsSignals self.new) }
        ensures put { OnOk result ((before : Option (List Datum)) (v : trace.Frame) → IsNextToWrite self.old before v (picture f.now) →
            FrameIsPut self.old self.new before v to.old to.new) }
    {
        match self {
            Scribe::Trace => {
                put_frame(to, f);
                Ok(())
            }
            Scribe::Vcd(Some(waveform)) => waveform.take(f, to),
            Scribe::Vcd(None) => {
                *self = Scribe::Vcd(Some(Waveform::begin(alloc, f)?));
                Ok(())
            }
        }
    }

    /// Puts what is left to be written where the run has ended so. After `NoMemory` nothing is said of the scribe and the text.
    pub fn end<W: Watcher>(&mut self, end: End, ws: &[W], to: &mut Text) -> Result<(), NoMemory>
        requires { KeepsSignals self.old }
        ensures { OnOk result ((before : Option (List Datum)) → Writes to.old to.new (text_left self.old before [] (map W.member ws.now) end)) }
    {
        match self {
            Scribe::Trace => {
                put_end(to, end, ws);
                Ok(())
            }
            Scribe::Vcd(Some(waveform)) => waveform.write(to),
            Scribe::Vcd(None) => Ok(()),
        }
    }
}
