//! The program without watchers, run on a file that is refused: it ends with 1 and writes nothing.
#![tactic(auto)]

use lh_io::adapter::{StdSink, StdSource};
use lh_program::{exit_code, no_memory, run, words_of};
use std::env;
use std::process::ExitCode;

fn main(rt: HostRuntime) -> ExitCode {
    let alloc = rt.alloc();
    let mut log = StdSink::new(rt.stderr());
    let Ok(words) = words_of(alloc, env::args(&rt)) else {
        return no_memory(&mut log);
    };
    let mut src = StdSource::new(rt.stdin());
    let mut out = StdSink::new(rt.stdout());
    let mut watchers = Vec::new(alloc);
    let status = run(alloc, &words, &mut src, &mut out, &mut log, &mut watchers);
    exit_code(&status)
}
