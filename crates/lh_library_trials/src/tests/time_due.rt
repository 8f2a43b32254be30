//! Instants that are due, with carries to the last one, and delays past the end.
use lh_time::{Delay, Instant, due};
use std::process::Abort;

const END: u64 = u64::MAX;

fn instant((fs, delta, eps): (u64, u64, u64)) -> Instant {
    Instant { fs, delta, eps }
}

fn delay((fs, delta, eps): (u64, u64, u64)) -> Delay {
    Delay { fs, delta, eps }
}

/// A delay from an instant leads to this one, or to none.
fn leads(rt: &impl Abort, at: (u64, u64, u64), d: (u64, u64, u64), want: Option<(u64, u64, u64)>) {
    assert!(rt; due(instant(at), delay(d)) == want.map(instant));
}

#[test]
fn due_instants(rt: HostRuntime) {
    let at = (5, 7, 9);
    leads(&rt, at, (0, 0, 0), Some((5, 8, 0)));
    leads(&rt, at, (0, 1, 0), Some((5, 8, 0)));
    leads(&rt, at, (0, 1, 4), Some((5, 8, 4)));
    leads(&rt, at, (0, 0, 1), Some((5, 7, 10)));
    leads(&rt, at, (1000000, 2, 3), Some((1000005, 2, 3)));
    let last = Some((END, END, END));
    leads(&rt, (0, 7, 9), (END, END, END), last);
    leads(&rt, (END, 0, 9), (0, END, END), last);
    leads(&rt, (END, END, 0), (0, 0, END), last);
    leads(&rt, (END, END - 1, END), (0, 0, 0), Some((END, END, 0)));
    leads(&rt, (END, 0, 0), (1, 0, 0), None);
    leads(&rt, (1, 0, 0), (END, 0, 0), None);
    leads(&rt, (0, 1, 0), (0, END, 0), None);
    leads(&rt, (0, 0, 1), (0, 0, END), None);
    leads(&rt, (0, END, 0), (0, 0, 0), None);
}
