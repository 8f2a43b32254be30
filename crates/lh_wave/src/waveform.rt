//! The waveform of a run, as its frames come.
ghost use Rattle.std.specs.Prelude.{◌≡◌, ◌∷◌, [], List, OnOk, IfOk, true, map, slice_set, if◌then◌else◌};
ghost use Rattle.lh_text_buffer.specs.Writing.{Writes, Leaves};
ghost use Rattle.lh_types.specs.ValueOf.{datum_of};
ghost use Rattle.lh_types.specs.Pictures.{showing_of, picture};
ghost use Rattle.lh_wave.specs.WaveText.{WaveMoment, all_lines, dump_at, time_line, waveform_text};
ghost use Rattle.lh_wave.specs.Recorded.{ChangesAreOfSignals, values_now, moment_now, first_moment, next_moment, left_text, changed_values};

use crate::changed::Changed;
use crate::wire::{put_time, put_wire};
use lh_text_buffer::Text;
use lh_types::frame::{Change, Frame};
use lh_types::memory::NoMemory;
use lh_types::val::Val;
use std::alloc::Global;

/// A waveform while its frames come. The values of a physical time are written when a frame of a later
/// one comes, so its memory does not grow with the number of frames.
#[derive(Drop)]
pub struct Waveform {
    // The physical time that is not written yet.
    fs: u64,
    // Whether the values of the first time were written.
    dumped: bool,
    // The values of all signals as they were written last, and the new values of those that have changed since.
    written: Vec<Val>,
    changed: Changed,
}

impl Waveform {
    /// Begins with the first frame, which shows every signal in order.
    pub fn begin(alloc: Global, first: &Frame) -> Result<Waveform, NoMemory>
        ensures kept { IfOk result (λ w. ChangesAreOfSignals w) }
        ensures values { IfOk result (λ w. values_now w ≡ (first_moment (picture first.now)).values) }
        ensures left { IfOk result (λ w. (ms : List WaveMoment) → left_text w ms ≡ waveform_text (first_moment (picture first.now) ∷ ms)) }
    {
        let written = values_of(alloc, first.changes.as_slice())?;
        let changed = Changed::none(alloc, written.len())?;
        Ok(Waveform {
            fs: first.at.fs,
            dumped: false,
            written,
            changed,
        })
    }

    /// Takes a later frame; a change of a signal that is not there changes nothing. Where the frame is of a later physical time, the text of the time before is put at the
    /// end of `to`. After `NoMemory` nothing is said of the waveform and the text.
    pub fn take(&mut self, f: &Frame, to: &mut Text) -> Result<(), NoMemory>
        requires { ChangesAreOfSignals self.old }
        ensures kept { OnOk result (ChangesAreOfSignals self.new) }
        ensures values { OnOk result (values_now self.new ≡ changed_values (values_now self.old) (picture f.now).changes) }
        ensures left { OnOk result ((ms : List WaveMoment) →
            Leaves to.old to.new (left_text self.new ms) (left_text self.old (next_moment (values_now self.old) (picture f.now) ∷ ms))) }
    {
        if f.at.fs == self.fs {
            return self.change_values(f.changes.as_slice());
        }
        self.write(to)?;
        self.fs = f.at.fs;
        self.change_values(f.changes.as_slice())
    }

    /// Puts what is still to be written at the end of `to`: the text of the last time. After `NoMemory`
    /// nothing is said of the waveform and the text.
    pub fn write(&mut self, to: &mut Text) -> Result<(), NoMemory>
        requires { ChangesAreOfSignals self.old }
        ensures kept { OnOk result (ChangesAreOfSignals self.new) }
        ensures text { OnOk result (Writes to.old to.new (left_text self.old [])) }
        ensures written { OnOk result (map datum_of self.new.written.items ≡ values_now self.old) }
        ensures dumped { OnOk result (self.new.dumped ≡ true) }
        ensures same { OnOk result (moment_now self.new ≡ moment_now self.old) }
    {
        if !self.dumped {
            self.changed.move_over(&mut self.written);
            put_dump(to, self.fs, &self.written);
            self.dumped = true;
            return Ok(());
        }
        put_time_if(to, self.fs, self.changed.differs(&self.written));
        self.changed.put_over(to, &mut self.written)
    }

    // Takes the values that changes show.
    fn change_values(&mut self, changes: &[Change]) -> Result<(), NoMemory>
        requires { ChangesAreOfSignals self.old }
        ensures kept { OnOk result (ChangesAreOfSignals self.new) }
        ensures values { OnOk result (values_now self.new ≡ changed_values (values_now self.old) (map showing_of changes.now)) }
        ensures fs { OnOk result (self.new.fs ≡ self.old.fs) }
        ensures dumped { OnOk result (self.new.dumped ≡ self.old.dumped) }
        ensures written { OnOk result (self.new.written ≡ self.old.written) }
    {
        for c in changes {
            self.change_value(c)?;
        }
        Ok(())
    }

    // Takes the value that a change shows, if there is such a signal.
    fn change_value(&mut self, c: &Change) -> Result<(), NoMemory>
        requires { ChangesAreOfSignals self.old }
        ensures kept { OnOk result (ChangesAreOfSignals self.new) }
        ensures values { OnOk result (values_now self.new ≡ slice_set (values_now self.old) c.now.signal (datum_of c.now.value)) }
        ensures fs { OnOk result (self.new.fs ≡ self.old.fs) }
        ensures dumped { OnOk result (self.new.dumped ≡ self.old.dumped) }
        ensures written { OnOk result (self.new.written ≡ self.old.written) }
    {
        let k = c.signal as usize;
        if k >= self.changed.count() {
            return Ok(());
        }
        self.changed.set(k, c.value.copy()?)
    }
}

// The values that changes show.
fn values_of(alloc: Global, changes: &[Change]) -> Result<Vec<Val>, NoMemory>
    ensures { IfOk result (λ vs. map datum_of vs.items ≡ map (λ c. datum_of c.value) changes.now) }
{
    let mut values = Vec::with_capacity(alloc, changes.len())?;
    for c in changes {
        let value = c.value.copy()?;
        values.push(value)?;
    }
    Ok(values)
}

// Puts the values of the first time.
fn put_dump(to: &mut Text, fs: u64, now: &[Val])
    ensures { Writes to.old to.new (dump_at (record { fs = fs; values = map datum_of now.now })) }
{
    put_time(to, fs);
    to.put(b"$dumpvars\n");
    put_all(to, now);
    to.put(b"$end\n");
}

// Puts the lines of all signals.
fn put_all(to: &mut Text, now: &[Val])
    ensures { Writes to.old to.new (all_lines 0 (map datum_of now.now)) }
{
    for (k, v) in now.iter().enumerate() {
        put_wire(to, k as u64, v);
    }
}

// Puts a time, if some signal has changed at it.
fn put_time_if(to: &mut Text, fs: u64, changed: bool)
    ensures { Writes to.old to.new (if changed then time_line fs else []) }
{
    if changed {
        put_time(to, fs);
    }
}
