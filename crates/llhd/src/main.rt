//! The program `llhd`: it reads a file from its standard input and does what its words ask for.
#![tactic(auto)]

use lh_io::adapter::{StdSink, StdSource};
use lh_program::{exit_code, no_memory, run, words_of};
use lh_watch::builtin::{Asserts, Toggles, UntilFail};
use lh_watch::watcher::Watcher;
use std::env;
use std::process::ExitCode;

fn main(rt: HostRuntime) -> ExitCode {
    let alloc = rt.alloc();
    let mut log = StdSink::new(rt.stderr());
    let mut watchers: Vec<Box<dyn Watcher>> = Vec::new(alloc);
    let (Ok(words), Ok(toggles), Ok(asserts), Ok(until_fail)) = (
        words_of(alloc, env::args(&rt)),
        Box::new(alloc, Toggles::new()),
        Box::new(alloc, Asserts::new()),
        Box::new(alloc, UntilFail::new()),
    ) else {
        return no_memory(&mut log);
    };
    if watchers.push(toggles).is_err()
        || watchers.push(asserts).is_err()
        || watchers.push(until_fail).is_err()
    {
        return no_memory(&mut log);
    }
    let mut src = StdSource::new(rt.stdin());
    let mut out = StdSink::new(rt.stdout());
    let status = run(alloc, &words, &mut src, &mut out, &mut log, &mut watchers);
    exit_code(&status)
}
