//! Frames as lines.
use lh_text_buffer::Text;
use lh_time::Instant;
use lh_types::frame::{Change, Frame, Outcome};
use lh_wave::value::put_value;

/// A word, an instant, and the end of the line.
pub fn put_instant(to: &mut Text, word: &[u8], at: Instant) {
    to.put(word);
    to.put(b" ");
    to.put_number(at.fs);
    to.put(b"fs ");
    to.put_number(at.delta);
    to.put(b"d ");
    to.put_number(at.eps);
    to.put(b"e\n");
}

/// A word, a number, and the end of the line.
pub fn put_named(to: &mut Text, word: &[u8], number: u64) {
    to.put(word);
    to.put(b" ");
    to.put_number(number);
    to.put(b"\n");
}

/// The instant, the changes with the numbers of bits that differ, and the outcomes.
pub fn put_frame(to: &mut Text, f: &Frame) {
    put_instant(to, b"@", f.at);
    for change in f.changes.as_slice() {
        put_change(to, change);
    }
    put_outcomes(to, f.outcomes.as_slice());
}

fn put_change(to: &mut Text, change: &Change) {
    to.put_number(change.signal as u64);
    to.put(b" by ");
    to.put_number(change.toggled as u64);
    to.put(b" = ");
    put_value(to, &change.value);
    to.put(b"\n");
}

fn put_outcomes(to: &mut Text, outcomes: &[Outcome]) {
    for outcome in outcomes {
        to.put(b"assert ");
        to.put_number(outcome.instance as u64);
        to.put(if outcome.passed {
            b" ok\n"
        } else {
            b" failed\n"
        });
    }
}

/// The instances that sense a signal; nothing where there are none.
pub fn put_sensing(to: &mut Text, signal: u64, instances: &[u32]) {
    if instances.is_empty() {
        return;
    }
    to.put(b"signal ");
    to.put_number(signal);
    to.put(b" sensed by");
    for instance in instances {
        to.put(b" ");
        to.put_number(*instance as u64);
    }
    to.put(b"\n");
}
