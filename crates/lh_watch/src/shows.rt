//! A frame shown to a list of watchers of any kinds.
ghost use Rattle.std.specs.Prelude.{◌≡◌, ℕ, List, ◌∷◌, ◌++◌, ◌+◌, ◌<◌, IfOk, OnErr, OnOk, map, vec_len, length};
ghost use Rattle.std.specs.List.{list_any};
ghost use Rattle.std.specs.Str.{bytes_eq};
ghost use Rattle.lh_types.specs.Pictures.{picture};
ghost use Rattle.lh_watch.specs.Members.{Member, TookFrame, seen, says, report_of};
ghost use Rattle.lh_watch.specs.Shown.{shown, reports_of, first_stop, IsPartlyShown, is_asked, kept};

use crate::watcher::{Next, Watcher};
use lh_types::frame::Frame;
use lh_types::list::TextList;
use lh_types::memory::NoMemory;

/// Shows the frame to each member in order. The report of a member that is done is appended, and the
/// member is taken out and dropped.
///
/// The answer is the place, in the list as it then stands, of the first member that says stop. For
/// running out of memory at a member, those before it have seen the frame and those behind it have not; of
/// the reports nothing is said then.
pub fn show<W: Watcher>(
    ws: &mut Vec<W>,
    f: &Frame,
    reports: &mut Vec<u8>,
) -> Result<Option<usize>, NoMemory>
    ensures members { OnOk result (map W.member ws.new.items ≡ shown (picture f.now) (map W.member ws.old.items)) }
    ensures reports { OnOk result (reports.new.items ≡ reports.old.items ++ reports_of (picture f.now) (map W.member ws.old.items)) }
    ensures stop { IfOk result (λ place. place ≡ first_stop (picture f.now) (map W.member ws.old.items)) }
    ensures err { OnErr result (IsPartlyShown (picture f.now) (map W.member ws.old.items) (map W.member ws.new.items)) }
{
    let mut stop = None;
    let mut k = 0;
    while k < ws.len() {
        match frame_at(ws, k, f)? {
            Next::Go => k += 1,
            Next::Stop => {
                stop = stop.or(Some(k));
                k += 1;
            }
            Next::Done => retire(ws, k, reports)?,
        }
    }
    Ok(stop)
}

// Shows the frame to the member at a place.
fn frame_at<W: Watcher>(ws: &mut Vec<W>, k: usize, f: &Frame) -> Result<Next, NoMemory>
    requires { k < vec_len ws.old }
    ensures ok { IfOk result (λ next. (b a : List Member) (m : Member) → map W.member ws.old.items ≡ b ++ m ∷ a → length b ≡ k →
        (says (picture f.now) m ≡ next) × (map W.member ws.new.items ≡ b ++ seen (picture f.now) m ∷ a)) }
    ensures err { OnErr result (map W.member ws.new.items ≡ map W.member ws.old.items) }
    ensures len { vec_len ws.new ≡ vec_len ws.old }
{
    let w = &mut ws[k];
    frame_one(w, f)
}

// Shows the frame to one member.
fn frame_one<W: Watcher>(w: &mut W, f: &Frame) -> Result<Next, NoMemory>
    ensures ok { IfOk result (TookFrame (picture f.now) (W.member w.old) (W.member w.new)) }
    ensures err { OnErr result (W.member w.new ≡ W.member w.old) }
{
    w.frame(f.at, f.changes.as_slice(), f.outcomes.as_slice())
}

// Appends the report of the member at a place, takes it out and drops it.
fn retire<W: Watcher>(ws: &mut Vec<W>, k: usize, reports: &mut Vec<u8>) -> Result<(), NoMemory>
    requires { k < vec_len ws.old }
    ensures ok { OnOk result ((b a : List Member) (m : Member) → map W.member ws.old.items ≡ b ++ m ∷ a → length b ≡ k →
        (reports.new.items ≡ reports.old.items ++ report_of m) × (map W.member ws.new.items ≡ b ++ a)) }
    ensures err { OnErr result (map W.member ws.new.items ≡ map W.member ws.old.items) }
    ensures len { OnOk result (vec_len ws.new + 1 ≡ vec_len ws.old) }
{
    report_one(&ws[k], reports)?;
    let _gone = ws.remove(k);
    Ok(())
}

// Appends the report of one member.
fn report_one<W: Watcher>(w: &W, reports: &mut Vec<u8>) -> Result<(), NoMemory>
    ensures { OnOk result (reports.new.items ≡ reports.old.items ++ report_of (W.member w.now)) }
{
    w.report(reports)
}

/// Drops every member whose title is not among these, without memory; the order stays, and so does
/// each member that is kept.
pub fn keep_titles<W: Watcher>(ws: &mut Vec<W>, titles: &TextList)
    ensures { map W.member ws.new.items ≡ kept titles.now (map W.member ws.old.items) }
{
    ws.retain(
        |w: &W| -> bool
            ensures { result ≡ is_asked titles.entry.now (W.member w.now) }
        { is_title_of(titles, w) },
    );
}

// Whether one of the titles is the member's.
fn is_title_of<W: Watcher>(titles: &TextList, w: &W) -> bool
    ensures { result ≡ is_asked titles.now (W.member w.now) }
{
    contains(titles, w.title().as_bytes())
}

fn contains(titles: &TextList, title: &[u8]) -> bool
    ensures { result ≡ list_any (λ t. bytes_eq t title.now) titles.now }
{
    titles.as_slice().iter().any(|t| t.as_slice() == title)
}
