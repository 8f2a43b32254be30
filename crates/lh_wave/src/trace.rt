//! The text of a frame of a trace.
ghost use Rattle.std.specs.Prelude.{◌≡◌, ◌++◌, IfOk, map, codes, if◌then◌else◌};
ghost use Rattle.std.specs.List.{flat_map};
ghost use Rattle.lh_text_buffer.specs.Writing.{Writes};
ghost use Rattle.lh_types.specs.Pictures.{showing_of, picture};
ghost use Rattle.lh_wave.specs.TraceText.{instant_line, change_line, outcome_line, frame_text};

use crate::value::{put_moment, put_value};
use lh_text_buffer::Text;
use lh_time::Instant;
use lh_types::frame::{Change, Frame, Outcome};
use lh_types::memory::NoMemory;
use std::alloc::Global;

/// The text of a frame: its instant, then a line for each signal that it shows, then a line for each
/// outcome.
pub fn trace_frame(alloc: Global, f: &Frame) -> Result<Vec<u8>, NoMemory>
    ensures { IfOk result (λ text. text.items ≡ frame_text (picture f.now)) }
{
    let mut to = Text::new(alloc);
    put_frame(&mut to, f);
    to.finish()
}

/// Puts the text of a frame at the end of a text.
pub fn put_frame(to: &mut Text, f: &Frame)
    ensures { Writes to.old to.new (frame_text (picture f.now)) }
{
    put_instant(to, f.at);
    put_changes(to, f.changes.as_slice());
    put_outcomes(to, f.outcomes.as_slice());
}

fn put_instant(to: &mut Text, at: Instant)
    ensures { Writes to.old to.new (instant_line at) }
{
    to.put(b"@ ");
    put_moment(to, at.fs, at.delta, at.eps);
    to.put(b"\n");
}

fn put_changes(to: &mut Text, changes: &[Change])
    ensures { Writes to.old to.new (flat_map change_line (map showing_of changes.now)) }
{
    for c in changes {
        put_change(to, c);
    }
}

fn put_change(to: &mut Text, c: &Change)
    ensures { Writes to.old to.new (change_line (showing_of c.now)) }
{
    to.put_number(c.signal.into());
    to.put(b" = ");
    put_value(to, &c.value);
    to.put(b"\n");
}

fn put_outcomes(to: &mut Text, outcomes: &[Outcome])
    ensures { Writes to.old to.new (flat_map outcome_line outcomes.now) }
{
    for o in outcomes {
        put_outcome(to, *o);
    }
}

fn put_outcome(to: &mut Text, o: Outcome)
    ensures { Writes to.old to.new (outcome_line o) }
{
    to.put(b"assert ");
    to.put_number(o.instance.into());
    to.put(came_to(o.passed));
}

fn came_to(passed: bool) -> &'static [u8]
    ensures { result.now ≡ (if passed then codes " ok\n" else codes " failed\n") }
{
    if passed { b" ok\n" } else { b" failed\n" }
}
