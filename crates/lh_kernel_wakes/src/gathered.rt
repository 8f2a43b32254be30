//! Numbers that come in any order.
ghost use Rattle.std.specs.Prelude.{◌≡◌, ℕ, [], true, IfOk, OnErr, ◌↔◌};
ghost use Rattle.lh_kernel_wakes.specs.Rising.{IsOneOf, HasOneMore};

use crate::rising::Rising;
use lh_types::memory::NoMemory;
use std::alloc::Global;
use std::collections::BTreeSet;
use std::marker::Model;

/// Numbers that are gathered in any order, and then given in rising order. To add one costs no more than the logarithm of how many
/// there are. Contracts see a list that has them.
#[derive(Drop)]
pub struct Gathered {
    /// Those that came in rising order.
    rising: Rising,
    /// Those that came after a greater one.
    late: BTreeSet<u32>,
}

impl Model for Gathered {
    ghost use Rattle.std.specs.Prelude.{ℕ, List, ◌++◌};

    ghost Value = { List ℕ };

    ghost view = { λ g. g.rising ++ g.late.keys };
}

impl Gathered {
    /// No numbers; this takes no memory yet.
    pub fn new(alloc: Global) -> Gathered
        ensures { result ≡ [] }
    {
        Gathered {
            rising: Rising::new(alloc),
            late: BTreeSet::new(alloc),
        }
    }

    /// These numbers.
    pub fn of(alloc: Global, rising: Rising) -> Gathered
        ensures { result ≡ rising }
    {
        Gathered {
            rising,
            late: BTreeSet::new(alloc),
        }
    }

    /// Whether a number is there.
    pub fn has(&self, n: u32) -> bool
        ensures { (result ≡ true) ↔ IsOneOf n self.now }
    {
        self.rising.has(n) || self.late.contains(&n)
    }

    /// The greatest of those that came in rising order, or 0: most numbers come soon after it.
    pub fn latest_in_order(&self) -> u32 {
        match self.rising.as_slice().last() {
            Some(&number) => number,
            None => 0,
        }
    }

    /// Adds a number, unless it is there. After `NoMemory` the numbers are as they were.
    pub fn add(&mut self, n: u32) -> Result<(), NoMemory>
        ensures has { IfOk result (λ done. HasOneMore self.old n self.new) }
        ensures err { OnErr result (self.new ≡ self.old) }
    {
        if self.latest_in_order() <= n {
            self.rising.enter(n)?;
        } else if !self.rising.has(n) {
            self.late.insert(n)?;
        }
        Ok(())
    }

    /// The numbers, rising.
    pub fn into_rising(self, alloc: Global) -> Result<Rising, NoMemory>
        ensures { IfOk result (λ r. (k : ℕ) → IsOneOf k r ↔ IsOneOf k self) }
    {
        let Gathered { rising, mut late } = self;
        if late.is_empty() {
            return Ok(rising);
        }
        for &n in rising.as_slice() {
            late.insert(n)?;
        }
        let all = rising_of(alloc, &late)?;
        Ok(all)
    }
}

/// The numbers of a set.
fn rising_of(alloc: Global, numbers: &BTreeSet<u32>) -> Result<Rising, NoMemory>
    ensures { IfOk result (λ r. (k : ℕ) → IsOneOf k r ↔ IsOneOf k numbers.now.keys) }
{
    let mut rising = Rising::new(alloc);
    for &n in numbers {
        rising.enter(n)?;
    }
    Ok(rising)
}
