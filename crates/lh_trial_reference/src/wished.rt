//! All bits that were ever wished, one by one, and the value of a bit by them.
use lh_bits::bits::Bits;
use lh_bits::writes::{BitWrites, DueWrites};
use lh_time::Instant;
use lh_types::memory::NoMemory;

/// A bit that an activation wished: when it is due, when and by which instance it was wished, which bit, and its value.
#[derive(Clone, Copy)]
pub struct Entry {
    pub due: Instant,
    pub made: Instant,
    pub instance: u32,
    pub bit: u32,
    pub value: bool,
}

impl Entry {
    /// Whether the other counts before this one.
    fn gives_way_to(&self, other: &Entry) -> bool {
        if self.due != other.due {
            return self.due < other.due;
        }
        if self.made != other.made {
            return self.made < other.made;
        }
        self.instance <= other.instance
    }
}

/// Adds all that an activation wished.
pub fn add_wish(
    history: &mut Vec<Entry>,
    made: Instant,
    instance: u32,
    wish: &DueWrites,
) -> Result<(), NoMemory> {
    for (due, writes) in wish.as_slice() {
        add_writes(history, *due, made, instance, writes)?;
    }
    Ok(())
}

fn add_writes(
    history: &mut Vec<Entry>,
    due: Instant,
    made: Instant,
    instance: u32,
    writes: &BitWrites,
) -> Result<(), NoMemory> {
    for k in 0..writes.len() {
        let (bit, value) = writes.get(k);
        history.push(Entry {
            due,
            made,
            instance,
            bit,
            value,
        })?;
    }
    Ok(())
}

/// The bits at an instant.
pub fn bits_at(history: &[Entry], init: &Bits, at: Instant) -> Result<Bits, NoMemory> {
    let mut now = init.copy()?;
    for bit in 0..init.len() {
        if let Some(value) = value_at(history, bit, at) {
            if bit < now.len() {
                now.set(bit, value);
            }
        }
    }
    Ok(now)
}

/// The value of a bit by the entry that is due last, not after the instant; of those due together the one that was made last, and
/// of those made together the one of the greatest instance.
fn value_at(history: &[Entry], bit: u32, at: Instant) -> Option<bool> {
    let mut last: Option<Entry> = None;
    for entry in history {
        if entry.bit == bit && entry.due <= at {
            last = later(last, *entry);
        }
    }
    Some(last?.value)
}

fn later(last: Option<Entry>, entry: Entry) -> Option<Entry> {
    match last {
        Some(before) if !before.gives_way_to(&entry) => Some(before),
        _ => Some(entry),
    }
}

/// The first instant after this one at which something is due.
pub fn due_after(history: &[Entry], at: Instant) -> Option<Instant> {
    let mut first = None;
    for entry in history {
        if entry.due > at {
            first = sooner(first, Some(entry.due));
        }
    }
    first
}

/// The sooner of two instants that may be there.
pub fn sooner(a: Option<Instant>, b: Option<Instant>) -> Option<Instant> {
    match (a, b) {
        (Some(a), Some(b)) => Some(if b < a { b } else { a }),
        (Some(a), None) => Some(a),
        (None, b) => b,
    }
}
