//! Simulated time: instants, delays, and when a delay from an instant is due.
#![tactic(auto)]

ghost use Rattle.std.specs.Prelude.{◌≡◌};
ghost use Rattle.std.specs.Cmp.{IsTotalOrder};
ghost use Rattle.lh_time.specs.Order.{instant_cmp, delay_cmp};
ghost use Rattle.lh_time.specs.Due.{due_of};
ghost use Rattle.lh_time.specs.Laws.{DueIsLater, DueKeepsOrder};

/// An instant of simulated time: femtoseconds, then delta cycles, then epsilon steps.
///
/// Instants are ordered lexicographically in this order of fields.
#[derive(Clone, Copy, Debug, PartialEq, Eq, PartialOrd, Ord)]
pub struct Instant {
    pub fs: u64,
    pub delta: u64,
    pub eps: u64,
}

/// A delay: femtoseconds, then delta cycles, then epsilon steps, ordered as instants are.
#[derive(Clone, Copy, Debug, PartialEq, Eq, PartialOrd, Ord)]
pub struct Delay {
    pub fs: u64,
    pub delta: u64,
    pub eps: u64,
}

/// The instant that a delay from `at` leads to.
///
/// The first field of the delay that is not 0 is added to that field of `at`; the fields before it
/// stay, and the fields after it are the delay's. A delay of 0 is one delta cycle.
/// `None` exactly where the sum taken passes 2^64 - 1: what waits for it never comes.
pub fn due(at: Instant, d: Delay) -> Option<Instant>
    ensures { result ≡ due_of at d }
{
    if d.fs > 0 {
        let fs = at.fs.checked_add(d.fs)?;
        Some(Instant {
            fs,
            delta: d.delta,
            eps: d.eps,
        })
    } else if d.delta > 0 {
        let delta = at.delta.checked_add(d.delta)?;
        Some(Instant {
            delta,
            eps: d.eps,
            ..at
        })
    } else if d.eps > 0 {
        let eps = at.eps.checked_add(d.eps)?;
        Some(Instant { eps, ..at })
    } else {
        let delta = at.delta.checked_add(1)?;
        Some(Instant {
            delta,
            eps: 0,
            ..at
        })
    }
}

/// The law that instants and delays are each in one total order, the lexicographic one.
pub fn order_is_total()
    ensures instants { IsTotalOrder instant_cmp }
    ensures delays { IsTotalOrder delay_cmp }
    ensures compared { (s t : Instant) → ⟦<Instant as Ord>⟧.cmp s t ≡ instant_cmp s t }
    ensures compared_delays { (s t : Delay) → ⟦<Delay as Ord>⟧.cmp s t ≡ delay_cmp s t }
{}

/// The law that an instant that is due is later than its start.
pub fn due_is_later()
    ensures { DueIsLater }
{}

/// The law that due instants of one delay keep the order of their starts, where both are there.
pub fn due_keeps_order()
    ensures { DueKeepsOrder }
{}
