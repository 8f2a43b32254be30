//! The heads of the texts of a run.
ghost use Rattle.std.specs.Prelude.{◌≡◌, ◌≤◌, ◌<◌, ℕ, IfOk, IfErr, OnOk, IsErrOf, length};
ghost use Rattle.std.specs.List.{flat_map};
ghost use Rattle.lh_text_buffer.specs.Writing.{Writes};
ghost use Rattle.lh_io.specs.Streams.{Rose, Appends};
ghost use Rattle.lh_unit.specs.Within.{Each};
ghost use Rattle.lh_unit.specs.Paths.{shown_in, label_at, path_at};
ghost use Rattle.lh_design.specs.Texts.{design_text};
ghost use Rattle.lh_elab.specs.Answer.{IsDesignOf};
ghost use Rattle.lh_wave.specs.BrokenOff.{BreaksOff};
ghost use Rattle.lh_wave.specs.HeadText as head;
ghost use Rattle.lh_wave.specs.HeadText.{signals_in, waveform_head, scope_line, scope_text};
ghost use Rattle.lh_wave.specs.Owned.{parents, owners, AreOwned, variable_at};

use crate::lines::{END_OF_HEAD, TIMESCALE, UPSCOPE, put_scope, put_signal, put_variable};
use crate::owned::{children_by_parent, numbers_at, signals_by_instance};
use crate::run::WaveFault;
use crate::waiting::{pass_on, write_out};
use lh_design::{Design, Signal};
use lh_elab::{label_of, path_of};
use lh_io::stream::Sink;
use lh_text_buffer::Text;
use lh_types::memory::NoMemory;
use lh_unit::module::Module;
use std::alloc::Global;

/// Writes the head of a trace of a design, in pieces of whole lines: a line for each signal, with its number, its type, the path of
/// its instance and its name.
///
/// After a fault a prefix of the head was written, a proper one after `WriteFault`.
pub fn write_trace_head<K: Sink>(
    alloc: Global,
    d: &Design,
    m: &Module,
    out: &mut K,
) -> Result<(), WaveFault>
    requires { IsDesignOf m.now d.now }
    ensures told { OnOk result (Appends (K.written out.old) (K.written out.new) (head.trace_head (shown_in (design_text m.now d.now)) (signals_in (design_text m.now d.now)))) }
    ensures err { IfErr result (λ e. BreaksOff e (K.written out.old) (K.written out.new) (head.trace_head (shown_in (design_text m.now d.now)) (signals_in (design_text m.now d.now)))) }
    ensures rose { IsErrOf result WaveFault.WriteFault → Rose (K.faults out.old) (K.faults out.new) }
    ensures never_fall { K.faults out.old ≤ K.faults out.new }
{
    let mut waits = Text::new(alloc);
    let mut path = Path::of(alloc, d, m, 0)?;
    for (k, signal) in d.signals().iter().enumerate() {
        path.go_to(alloc, d, m, signal.instance)?;
        put_signal(
            &mut waits,
            k as u64,
            &signal.ty,
            &path.text,
            signal.name.as_bytes(),
        );
        pass_on(&mut waits, out)?;
    }
    write_out(&waits, out)
}

/// The head of a trace of a design: a line for each signal, with its number, its type, the path of its instance and its name.
pub fn trace_head(alloc: Global, d: &Design, m: &Module) -> Result<Vec<u8>, NoMemory>
    requires { IsDesignOf m.now d.now }
    ensures { IfOk result (λ text. text.items ≡ head.trace_head (shown_in (design_text m.now d.now)) (signals_in (design_text m.now d.now))) }
{
    let mut to = Text::new(alloc);
    let mut path = Path::of(alloc, d, m, 0)?;
    for (k, signal) in d.signals().iter().enumerate() {
        path.go_to(alloc, d, m, signal.instance)?;
        put_signal(
            &mut to,
            k as u64,
            &signal.ty,
            &path.text,
            signal.name.as_bytes(),
        );
    }
    to.finish()
}

/// The path of an instance, kept from one signal to the next: the signals of an instance mostly stand in a row.
#[derive(Drop)]
struct Path {
    instance: u32,
    // No bytes where there is no such instance.
    text: Vec<u8>,
}

impl Path {
    /// The path of an instance.
    fn of(alloc: Global, d: &Design, m: &Module, instance: u32) -> Result<Path, NoMemory>
        requires { IsDesignOf m.now d.now }
        ensures at { IfOk result (λ path. path.instance ≡ instance) }
        ensures text { IfOk result (λ path. path.text.items ≡ path_at (shown_in (design_text m.now d.now)) instance) }
    {
        if instance as usize >= d.instances().len() {
            return Ok(Path {
                instance,
                text: Vec::new(alloc),
            });
        }
        let text = path_of(alloc, m, d, instance)?;
        Ok(Path { instance, text })
    }

    /// Makes it the path of this instance.
    fn go_to(
        &mut self,
        alloc: Global,
        d: &Design,
        m: &Module,
        instance: u32,
    ) -> Result<(), NoMemory>
        requires design { IsDesignOf m.now d.now }
        requires text { self.old.text.items ≡ path_at (shown_in (design_text m.now d.now)) self.old.instance }
        ensures at { OnOk result (self.new.instance ≡ instance) }
        ensures text { OnOk result (self.new.text.items ≡ path_at (shown_in (design_text m.now d.now)) instance) }
    {
        if self.instance == instance {
            return Ok(());
        }
        *self = Path::of(alloc, d, m, instance)?;
        Ok(())
    }
}

/// The head of a waveform of a design: the unit of time, and all instances with their signals from the top down.
pub fn vcd_head(alloc: Global, d: &Design, m: &Module) -> Result<Vec<u8>, NoMemory>
    requires { IsDesignOf m.now d.now }
    ensures { IfOk result (λ text. text.items ≡ waveform_head (shown_in (design_text m.now d.now)) (signals_in (design_text m.now d.now))) }
{
    let scopes = Scopes {
        alloc,
        design: d,
        module: m,
        children: children_by_parent(alloc, d)?,
        signals: signals_by_instance(alloc, d)?,
    };
    scopes.text()
}

/// A design with what belongs to each of its instances.
#[derive(Drop)]
struct Scopes<'a> {
    alloc: Global,
    design: &'a Design,
    module: &'a Module,
    children: Vec<Vec<usize>>,
    signals: Vec<Vec<usize>>,
}

impl Scopes<'_> {
    /// The whole head.
    fn text(&self) -> Result<Vec<u8>, NoMemory>
        requires design { IsDesignOf self.now.«module».now self.now.design.now }
        requires children { AreOwned self.now.children (length self.now.design.now.instances.items) (parents self.now.design.now) }
        requires signals { AreOwned self.now.signals (length self.now.design.now.instances.items) (owners self.now.design.now) }
        ensures { let d = design_text self.now.«module».now self.now.design.now in IfOk result (λ text. text.items ≡ waveform_head (shown_in d) (signals_in d)) }
    {
        let mut to = Text::new(self.alloc);
        to.put(TIMESCALE);
        self.put(&mut to, self.design.instances().len(), 0);
        to.put(END_OF_HEAD);
        to.finish()
    }

    /// Puts the scope of an instance with its signals and then its children, at most `steps` of them within one another.
    fn put(&self, to: &mut Text, steps: usize, instance: usize)
        requires design { IsDesignOf self.now.«module».now self.now.design.now }
        requires children { AreOwned self.now.children (length self.now.design.now.instances.items) (parents self.now.design.now) }
        requires signals { AreOwned self.now.signals (length self.now.design.now.instances.items) (owners self.now.design.now) }
        requires known { 0 < steps → instance < length self.now.design.now.instances.items }
        ensures { let d = design_text self.now.«module».now self.now.design.now in Writes to.old to.new (scope_text steps (shown_in d) (signals_in d) instance) }
    {
        if steps == 0 {
            return;
        }
        self.begin(to, instance);
        self.put_variables(to, numbers_at(&self.signals, instance));
        for &child in numbers_at(&self.children, instance) {
            self.put(to, steps - 1, child);
        }
        to.put(UPSCOPE);
    }

    /// Puts the line that begins the scope of an instance.
    fn begin(&self, to: &mut Text, instance: usize)
        requires design { IsDesignOf self.now.«module».now self.now.design.now }
        requires known { instance < length self.now.design.now.instances.items }
        ensures { Writes to.old to.new (scope_line (label_at (shown_in (design_text self.now.«module».now self.now.design.now)) instance)) }
    {
        match label_of(self.alloc, self.module, self.design, instance as u32) {
            Ok(label) => put_scope(to, &label),
            Err(NoMemory) => to.abandon(),
        }
    }

    /// Puts the lines of the signals of these numbers.
    fn put_variables(&self, to: &mut Text, numbers: &[usize])
        requires design { IsDesignOf self.now.«module».now self.now.design.now }
        requires known { Each (λ (k : ℕ). k < length self.now.design.now.signals.items) numbers.now }
        ensures { Writes to.old to.new (flat_map (variable_at (signals_in (design_text self.now.«module».now self.now.design.now))) numbers.now) }
    {
        for &k in numbers {
            let signal = &self.design.signals()[k];
            put_variable(to, k as u64, &signal.ty, signal.name.as_bytes());
        }
    }
}
