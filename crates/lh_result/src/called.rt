//! What the program is called for.
ghost use Rattle.std.specs.Prelude.{◌≡◌, ◌↔◌, IsTrue, map};
ghost use Rattle.std.specs.List.{list_all};
ghost use Rattle.std.specs.Str.{bytes_eq};
ghost use Rattle.lh_args.specs.Meant.{meant, simulation_of};
ghost use Rattle.lh_result.specs.Called.{is_title, KnowsTitles};
ghost use Rattle.lh_result.specs.Steps.{IsCalled};

use lh_args::command::{Command, FileCommand, Simulate, command_of};
use lh_types::list::TextList;
use lh_watch::watcher::Watcher;

/// The command that the words call for, without memory; none where they have no form, or watch a title that no watcher has.
pub fn called<'a, W: Watcher>(words: &'a TextList, watchers: &[W]) -> Option<Command<'a>>
    ensures { IsCalled words.now (map W.member watchers.now) result }
{
    let command = command_of(words)?;
    match command {
        Command::OnFile(on_file) => {
            if can_do(on_file, watchers) {
                Some(command)
            } else {
                None
            }
        }
        Command::Selftest(_) => Some(command),
    }
}

// Whether a command can be done with these watchers.
fn can_do<W: Watcher>(command: FileCommand<'_>, watchers: &[W]) -> bool
    ensures { IsTrue result ↔ KnowsTitles (map W.member watchers.now) (meant command.entry) }
{
    match command {
        FileCommand::Check | FileCommand::Lower => true,
        FileCommand::Simulate(asked) => knows_titles(&asked, watchers),
    }
}

// Whether each title that is watched is that of a watcher.
fn knows_titles<W: Watcher>(asked: &Simulate<'_>, watchers: &[W]) -> bool
    ensures { result ≡ list_all (is_title (map W.member watchers.now)) (simulation_of asked.now).titles }
{
    for title in asked.titles() {
        if !has_title(watchers, title) {
            return false;
        }
    }
    true
}

// Whether a watcher has this title.
fn has_title<W: Watcher>(watchers: &[W], title: &[u8]) -> bool
    ensures { result ≡ is_title (map W.member watchers.now) title.now }
{
    let mut rest = watchers;
    'members: while let Some((watcher, more)) = rest.split_first() {
        if is_titled(watcher, title) {
            return true;
        }
        rest = more;
    }
    false
}

fn is_titled<W: Watcher>(watcher: &W, title: &[u8]) -> bool
    ensures { result ≡ bytes_eq (W.member watcher.now).rule.title title.now }
{
    watcher.title().as_bytes() == title
}
