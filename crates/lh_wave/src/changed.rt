//! The values of the signals that have changed since they were written.
ghost use Rattle.std.specs.Prelude.{◌≡◌, ◌<◌, ◌⊎◌, [], ℕ, None, Some, IfOk, OnOk, length, map, not, slice_set, All, Contains, if◌then◌else◌};
ghost use Rattle.std.specs.List.Sorted.{IsNonDecreasing};
ghost use Rattle.lh_text_buffer.specs.Writing.{Writes};
ghost use Rattle.lh_types.specs.ValueOf.{datum_of};
ghost use Rattle.lh_types.specs.SameValue.{same_datum};
ghost use Rattle.lh_wave.specs.WaveText.{value_line, differing_lines, any_differs};
ghost use Rattle.lh_wave.specs.Changed.{ChangesAreListed, HasNone, with_number, present_value, present_values};

use crate::wire::put_wire;
use lh_text_buffer::Text;
use lh_types::memory::NoMemory;
use lh_types::val::Val;
use std::alloc::Global;

/// The new values of some signals, each by its number.
#[derive(Drop)]
pub(crate) struct Changed {
    // For each signal its new value, if it has one, and the numbers of those that have.
    values: Vec<Option<Val>>,
    numbers: Vec<usize>,
}

impl Changed {
    /// None for any of this many signals.
    pub fn none(alloc: Global, count: usize) -> Result<Changed, NoMemory>
        ensures noted { IfOk result (λ c. ChangesAreListed c count) }
        ensures none { IfOk result (λ c. (k : ℕ) → HasNone c.values.items k) }
    {
        let mut values = Vec::with_capacity(alloc, count)?;
        for _signal in 0..count {
            values.push(None)?;
        }
        Ok(Changed {
            values,
            numbers: Vec::new(alloc),
        })
    }

    /// How many signals there are.
    pub fn count(&self) -> usize
        ensures { result ≡ length self.now.values.items }
    {
        self.values.len()
    }

    /// Changes the value of a signal.
    pub fn set(&mut self, k: usize, value: Val) -> Result<(), NoMemory>
        requires { k < length self.old.values.items }
        ensures noted { OnOk result ((count : ℕ) → ChangesAreListed self.old count → ChangesAreListed self.new count) }
        ensures values { OnOk result (self.new.values.items ≡ slice_set self.old.values.items k (Some value)) }
    {
        note(&mut self.numbers, &self.values[k], k)?;
        self.values[k] = Some(value);
        Ok(())
    }

    /// Whether the value of some signal differs from the one that was written last.
    pub fn differs(&self, written: &[Val]) -> bool
        requires { ChangesAreListed self.now (length written.now) }
        ensures { result ≡ any_differs (map datum_of written.now) (present_values self.now.values.items written.now) }
    {
        for &k in &self.numbers {
            if is_other(&self.values[k], &written[k]) {
                return true;
            }
        }
        false
    }

    /// Puts the lines of the signals, in order, whose new values differ from those that were written last, and writes all over these.
    /// The numbers of each frame come in order, so that a sort that keeps such runs is fast.
    pub fn put_over(&mut self, to: &mut Text, written: &mut Vec<Val>) -> Result<(), NoMemory>
        requires { ChangesAreListed self.old (length written.old.items) }
        ensures noted { OnOk result (ChangesAreListed self.new (length written.new.items)) }
        ensures none { OnOk result ((k : ℕ) → HasNone self.new.values.items k) }
        ensures text { OnOk result (Writes to.old to.new (differing_lines 0 (map datum_of written.old.items) (present_values self.old.values.items written.old.items))) }
        ensures written { OnOk result (map datum_of written.new.items ≡ present_values self.old.values.items written.old.items) }
    {
        sort_numbers(&mut self.numbers)?;
        put_new(to, written, &mut self.values, &self.numbers);
        self.numbers.clear();
        Ok(())
    }

    /// Writes the new values over those that were written last.
    pub fn move_over(&mut self, written: &mut Vec<Val>)
        requires { ChangesAreListed self.old (length written.old.items) }
        ensures noted { ChangesAreListed self.new (length written.new.items) }
        ensures none { (k : ℕ) → HasNone self.new.values.items k }
        ensures written { map datum_of written.new.items ≡ present_values self.old.values.items written.old.items }
    {
        move_new(written, &mut self.values, &self.numbers);
        self.numbers.clear();
    }
}

// Notes the number of a signal, if it has no new value yet.
fn note(numbers: &mut Vec<usize>, value: &Option<Val>, k: usize) -> Result<(), NoMemory>
    ensures { OnOk result (numbers.new.items ≡ with_number value.now k numbers.old.items) }
{
    if value.is_some() {
        return Ok(());
    }
    numbers.push(k)?;
    Ok(())
}

// Whether there is a new value that differs from the one that was written last.
fn is_other(new: &Option<Val>, written: &Val) -> bool
    ensures { result ≡ not (same_datum (datum_of written.now) (present_value new.now written.now)) }
{
    match new {
        None => false,
        Some(value) => *written != *value,
    }
}

fn sort_numbers(numbers: &mut Vec<usize>) -> Result<(), NoMemory>
    ensures within { OnOk result ((count : ℕ) → All (λ (k : ℕ). k < count) numbers.old.items → All (λ (k : ℕ). k < count) numbers.new.items) }
    ensures listed { OnOk result ((k : ℕ) → Contains numbers.old.items k → Contains numbers.new.items k) }
    ensures rising { OnOk result (IsNonDecreasing numbers.new.items) }
{
    numbers.sort()?;
    Ok(())
}

// Puts the lines of the signals of these numbers whose new values differ from those that were written last, and writes them over
// these. A number that stands twice is passed over the second time.
fn put_new(to: &mut Text, written: &mut Vec<Val>, values: &mut Vec<Option<Val>>, numbers: &[usize])
    requires level { length values.old.items ≡ length written.old.items }
    requires within { All (λ (k : ℕ). k < length written.old.items) numbers.now }
    requires listed { (k : ℕ) → Contains numbers.now k ⊎ HasNone values.old.items k }
    requires rising { IsNonDecreasing numbers.now }
    ensures level { length values.new.items ≡ length written.new.items }
    ensures none { (k : ℕ) → HasNone values.new.items k }
    ensures text { Writes to.old to.new (differing_lines 0 (map datum_of written.old.items) (present_values values.old.items written.old.items)) }
    ensures written { map datum_of written.new.items ≡ present_values values.old.items written.old.items }
{
    for &k in numbers {
        let Some(value) = values[k].take() else {
            continue;
        };
        put_if_differs(to, k as u64, &written[k], &value);
        written[k] = value;
    }
}

// Puts the line of a signal, if its value differs from the one that was written last.
fn put_if_differs(to: &mut Text, signal: u64, written: &Val, now: &Val)
    ensures { Writes to.old to.new (if same_datum (datum_of written.now) (datum_of now.now) then [] else value_line signal (datum_of now.now)) }
{
    if *written != *now {
        put_wire(to, signal, now);
    }
}

// Writes the new values of the signals of these numbers over those that were written last.
fn move_new(written: &mut Vec<Val>, values: &mut Vec<Option<Val>>, numbers: &[usize])
    requires level { length values.old.items ≡ length written.old.items }
    requires within { All (λ (k : ℕ). k < length written.old.items) numbers.now }
    requires listed { (k : ℕ) → Contains numbers.now k ⊎ HasNone values.old.items k }
    ensures level { length values.new.items ≡ length written.new.items }
    ensures none { (k : ℕ) → HasNone values.new.items k }
    ensures written { map datum_of written.new.items ≡ present_values values.old.items written.old.items }
{
    for &k in numbers {
        let Some(value) = values[k].take() else {
            continue;
        };
        written[k] = value;
    }
}
