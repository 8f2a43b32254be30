//! How a run ends, and the last line of its trace.
ghost use Rattle.std.specs.Prelude.{◌≡◌, ◌++◌, map, codes, decimal};
ghost use Rattle.lh_text_buffer.specs.Writing.{Writes};
ghost use Rattle.lh_wave.specs.EndText.{title_at, end_line};

use lh_text_buffer::Text;
use lh_watch::watcher::Watcher;

/// Why no further frame is shown.
#[derive(Clone, Copy, Debug, PartialEq, Eq)]
pub enum End {
    /// There is no next instant.
    Quiet,
    /// The bound on frames is reached.
    Steps,
    /// The activation of this instance in the last frame ran away.
    Runaway(u32),
    /// The watcher at this place of those that are left said stop.
    Stop(usize),
}

/// How a run that was shown ended, and whether an assertion failed in a frame of it.
#[derive(Clone, Copy, Debug, PartialEq, Eq)]
pub struct Ending {
    pub end: End,
    pub failed: bool,
}

/// Puts the last line of a trace at the end of a text; a stop is told by the title of the watcher at its place.
pub fn put_end<W: Watcher>(to: &mut Text, end: End, ws: &[W])
    ensures { Writes to.old to.new (end_line (map W.member ws.now) end) }
{
    match end {
        End::Quiet => to.put(b"end quiet\n"),
        End::Steps => to.put(b"end steps\n"),
        End::Runaway(instance) => put_runaway(to, instance),
        End::Stop(place) => put_stop(to, title(ws, place)),
    }
}

fn put_runaway(to: &mut Text, instance: u32)
    ensures { Writes to.old to.new (codes "end runaway " ++ decimal instance ++ codes "\n") }
{
    to.put(b"end runaway ");
    to.put_number(instance as u64);
    to.put(b"\n");
}

fn put_stop(to: &mut Text, title: &[u8])
    ensures { Writes to.old to.new (codes "end stop " ++ title.now ++ codes "\n") }
{
    to.put(b"end stop ");
    to.put(title);
    to.put(b"\n");
}

/// The title of the watcher at a place; nothing where there is none.
fn title<W: Watcher>(ws: &[W], place: usize) -> &[u8]
    ensures { result.now ≡ title_at (map W.member ws.now) place }
{
    if place >= ws.len() {
        return b"";
    }
    ws[place].title().as_bytes()
}
