//! What a program needs: `run`, with the words of a command line that are handed to it, and the code to end with for its status.
#![tactic(auto)]

ghost use Rattle.std.specs.Prelude.{◌≡◌, ◌⊎◌, [], map, drop, IfOk, OnErr};
ghost use Rattle.std.specs.String.{string_bytes};
ghost use Rattle.std.specs.Vec.Iter.{into_iter_items};
ghost use Rattle.std.specs.Process.{exit_status};
ghost use Rattle.lh_run.specs.Account.{use_of, Gained, WriteBreaksOff};
ghost use Rattle.lh_run.specs.StatusLines.{status_code, status_line};

use lh_io::stream::Sink;
use lh_run::status::Status;
pub use lh_run::top::run;
use lh_types::list::{ByteList, TextList};
use lh_types::memory::NoMemory;
use std::alloc::Global;
use std::env::Args;
use std::io::{self, ErrorKind};
use std::process::ExitCode;

/// The words that follow the name of the program.
fn words_after_name(alloc: Global, mut args: Args) -> Result<TextList, NoMemory>
    ensures { IfOk result (λ words. words ≡ map string_bytes (drop 1 (into_iter_items args))) }
{
    let _name = args.next();
    texts_of(alloc, args)
}

/// The bytes of each argument.
fn texts_of(alloc: Global, args: Args) -> Result<TextList, NoMemory>
    ensures { IfOk result (λ words. words ≡ map string_bytes (into_iter_items args)) }
{
    let mut words = TextList::new(alloc);
    for arg in args {
        words.push(ByteList::from_vec(arg.into_bytes()))?;
    }
    Ok(words)
}

/// The words of a command line, without the name of the program in front; no words where one of them is not UTF-8 text.
pub fn words_of(alloc: Global, args: io::Result<Args>) -> Result<TextList, NoMemory>
    ensures words { IfOk args (λ given. IfOk result (λ words. words ≡ map string_bytes (drop 1 (into_iter_items given)))) }
    ensures none { OnErr args (IfOk result (λ words. words ≡ [])) }
{
    match args {
        Ok(args) => words_after_name(alloc, args),
        Err(error) if error.kind() == ErrorKind::OutOfMemory => Err(NoMemory),
        Err(_) => Ok(TextList::new(alloc)),
    }
}

/// Tells on the log that there was no memory for `run` to begin with, and answers the code to end with.
pub fn no_memory<L: Sink>(log: &mut L) -> ExitCode
    ensures code { exit_status result ≡ status_code Status.OutOfMemory }
    ensures told { Gained (use_of (L.written log.old) (L.written log.new) (L.faults log.old) (L.faults log.new)) (status_line Status.OutOfMemory) ⊎ WriteBreaksOff (use_of (L.written log.old) (L.written log.new) (L.faults log.old) (L.faults log.new)) (status_line Status.OutOfMemory) }
{
    let status = Status::OutOfMemory;
    // Where the log fails too, nothing is left to tell it by.
    let _ = status.write_line(log);
    exit_code(&status)
}

/// The exit code of the program: the number of its status.
pub fn exit_code(status: &Status) -> ExitCode
    ensures { exit_status result ≡ status_code status.now }
{
    ExitCode::from(status.code())
}
