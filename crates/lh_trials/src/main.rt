//! Trials of the whole: files of texts, each with the words by which it is run, and with the answer that it has by the
//! definition of the language.
//!
//! The program is given the names of files of trials, runs the trials in each, and writes a line for each group of them; above it stands
//! each trial whose answer is another than the file says. It ends with code 0 where every answer was as said. `lh_trial_script` has the
//! form of such a file, and `lh_trial_answers` the words by which a text is run; `program` runs the program for them.
#![tactic(auto)]

ghost use Rattle.std.specs.Prelude.{◌≡◌, nat_eq, if◌then◌else◌};
ghost use Rattle.std.specs.Process.{exit_status};

mod program;

use crate::program::InMemory;
use lh_trial_answers::answer::answer;
use lh_trial_script::score::Score;
use lh_trial_script::script::{Answers, Script};
use lh_types::memory::NoMemory;
use std::alloc::Global;
use std::process::ExitCode;
use std::{env, fs, io};

/// The answers of the crates that are tried.
#[derive(Drop)]
struct Tried;

impl Answers for Tried {
    fn answer(&self, alloc: Global, how: &[u8], text: &[u8]) -> Result<Vec<u8>, NoMemory> {
        answer(alloc, &InMemory, how, text)
    }
}

fn main(rt: HostRuntime) -> io::Result<ExitCode> {
    let mut failed: u64 = 0;
    for name in env::args(&rt)?.skip(1) {
        let Ok(score) = run_file(&rt, name.as_str())? else {
            println!(rt; "{name}: out of memory")?;
            return Ok(ExitCode::from(1));
        };
        print!(rt; "{}", score.report())?;
        failed = failed.saturating_add(score.failed());
    }
    Ok(exit_code(failed))
}

/// The code with which the program ends: 0 where every answer was as said.
fn exit_code(failed: u64) -> ExitCode
    ensures { exit_status result ≡ if nat_eq failed 0 then 0 else 1 }
{
    ExitCode::from(if failed == 0 { 0 } else { 1 })
}

/// Runs the trials of a file.
fn run_file(rt: &HostRuntime, name: &str) -> io::Result<Result<Score, NoMemory>> {
    let text = fs::read_to_string(rt, name)?;
    let mut script = Script::new(rt.alloc(), Tried);
    for line in text.as_str().lines() {
        let taken = match line.strip_prefix("< ") {
            Some(name) => script.add_file(&fs::read(rt, name)?),
            None => script.take(line),
        };
        if taken.is_err() {
            return Ok(Err(NoMemory));
        }
    }
    Ok(script.finish())
}
