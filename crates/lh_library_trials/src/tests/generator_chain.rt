//! The text of a chain of two links, and the summary of two runs.
use lh_selftest_design::generator::generated;
use lh_selftest_design::summary::{Counts, RunEnd, RunSummary, Units, put_summary};
use lh_types::memory::NoMemory;
use std::alloc::Global;

/// The first entity of a chain of two links.
const TWO_LINKS: &[u8] = b"entity @chain () -> () {
    %z1 = const i1 0
    %z = const i32 0
    %o = const i32 1
    %clk = sig i1 %z1
    %x0 = sig i32 %o
    %d0 = sig i32 %z
    %x1 = sig i32 %z
    %d1 = sig i32 %z
    %x2 = sig i32 %z
    inst @ff (i1$ %clk, i32$ %d0) -> (i32$ %x1)
    inst @comb (i32$ %x1, i32$ %x0) -> (i32$ %d0)
    inst @ff (i1$ %clk, i32$ %d1) -> (i32$ %x2)
    inst @comb (i32$ %x2, i32$ %x1) -> (i32$ %d1)
    inst @tb (i32$ %x1) -> (i1$ %clk)
}
proc @ff ";

/// Whether the text of two links begins with that entity.
fn is_chain(alloc: Global) -> Result<bool, NoMemory> {
    let made = generated(alloc, 2)?;
    Ok(made.as_slice().starts_with(TWO_LINKS))
}

#[test]
fn two_links(rt: HostRuntime) {
    assert!(rt; is_chain(rt.alloc()) == Ok(true));
}

const ORIGINAL: RunSummary = RunSummary {
    counts: Counts {
        frames: 34,
        changes: 33,
        passed: 8,
        failed: 0,
    },
    ending: RunEnd::Quiet,
};

const LOWERED: RunSummary = RunSummary {
    counts: Counts {
        frames: 1_000_000,
        changes: 0,
        passed: 7,
        failed: 9,
    },
    ending: RunEnd::Steps,
};

const SUMMARY: &[u8] =
    b"units 4 lowered 2 left 1\noriginal frames 34 changes 33 ok 8 failed 0 quiet\nlowered frames 1000000 changes 0 ok 7 failed 9 steps\n";

/// Whether the summary of the two runs is that text.
fn is_summary(alloc: Global) -> Result<bool, NoMemory> {
    let units = Units {
        all: 4,
        lowered: 2,
        left: 1,
    };
    let mut to = Vec::new(alloc);
    put_summary(&mut to, units, &ORIGINAL, &LOWERED)?;
    Ok(to.as_slice() == SUMMARY)
}

#[test]
fn summary_of_two_runs(rt: HostRuntime) {
    assert!(rt; is_summary(rt.alloc()) == Ok(true));
}
