//! A tally that tells its count.
ghost use Rattle.std.specs.Prelude.{◌≡◌, ℕ};

use lh_types::tally::Tally;
use std::marker::Model;

/// A count of at most 2^64 - 1.
#[derive(Drop)]
pub struct Count {
    ticks: u64,
}

impl Model for Count {
    ghost use Rattle.std.specs.Prelude.{ℕ};

    ghost Value = { ℕ };

    ghost view = { λ c. c.ticks };
}

impl Count {
    /// A count of 0.
    pub fn new() -> Count
        ensures { result ≡ 0 }
    {
        Count { ticks: 0 }
    }

    /// How often it was raised, at most 2^64 - 1.
    pub fn get(&self) -> u64
        ensures { result ≡ self.now }
    {
        self.ticks
    }
}

impl Tally for Count {
    ghost count = { λ c. c };

    fn tick(&mut self) {
        self.ticks = self.ticks.saturating_add(1);
    }
}
