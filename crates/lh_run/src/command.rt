//! The commands on a well-formed file.
ghost use Rattle.std.specs.Prelude.{◌≤◌, map};
ghost use Rattle.lh_unit.specs.Arena.{contents};
ghost use Rattle.lh_args.specs.Meant.{meant};
ghost use Rattle.lh_result.specs.Called.{HasFrames};
ghost use Rattle.lh_result.specs.Account.{use_of};
ghost use Rattle.lh_result.specs.Steps.{Carries};
ghost use Rattle.lh_run.specs.Faithful.{LowersFile};

use crate::check::check;
use crate::lowering::lower_file;
use crate::simulate::{simulate, status_of};
use lh_args::command::FileCommand;
use lh_io::stream::Sink;
use lh_result::status::Status;
use lh_verify::verify::Verified;
use lh_watch::watcher::Watcher;
use std::alloc::Global;

/// Carries out a command on a well-formed file; all of a run but the reading and the status line.
pub fn carry_out<O: Sink, L: Sink, W: Watcher>(
    alloc: Global,
    command: FileCommand<'_>,
    file: &Verified,
    out: &mut O,
    log: &mut L,
    watchers: &mut Vec<W>,
) -> Status
    requires { HasFrames (meant command) }
    ensures carries { Carries (meant command.entry) (contents file.now) (map W.member watchers.old.items) result (use_of (O.written out.old) (O.written out.new) (O.faults out.old) (O.faults out.new)) (use_of (L.written log.old) (L.written log.new) (L.faults log.old) (L.faults log.new)) (map W.member watchers.new.items) }
    ensures lowers { LowersFile (meant command.entry) result (contents file.now) (use_of (O.written out.old) (O.written out.new) (O.faults out.old) (O.faults out.new)) (use_of (L.written log.old) (L.written log.new) (L.faults log.old) (L.faults log.new)) }
    ensures never_fall { L.faults log.old ≤ L.faults log.new }
{
    match command {
        FileCommand::Check => match check(alloc, file, out) {
            Ok(()) => Status::Done,
            Err(status) => status,
        },
        FileCommand::Lower => match lower_file(alloc, file, out, log) {
            Ok(()) => Status::Done,
            Err(status) => status,
        },
        FileCommand::Simulate(asked) => match simulate(alloc, &asked, file, out, log, watchers) {
            Ok(ending) => status_of(ending),
            Err(status) => status,
        },
    }
}
