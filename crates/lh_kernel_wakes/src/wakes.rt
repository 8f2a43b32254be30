//! When instances wake by themselves.
ghost use Rattle.std.specs.Prelude.{◌≡◌, ℕ, [], true, IfOk, OnErr};
ghost use Rattle.lh_time.specs.Order.{instant_le, instant_eq};
ghost use Rattle.lh_kernel_wakes.specs.Waking.{IsNoted, NotesOneMore, NotesOneLess, IsSoonest, AreDue};

use lh_time::Instant;
use lh_types::memory::NoMemory;
use std::alloc::Global;
use std::collections::BTreeSet;
use std::marker::Model;

/// An instance wakes by itself at an instant; in order of the instant, then of the instance.
#[derive(Clone, Copy, Debug, PartialEq, Eq, PartialOrd, Ord)]
pub struct Wake {
    pub at: Instant,
    pub instance: u32,
}

impl Wake {
    /// Whether it is at this instant.
    fn is_at(&self, at: Instant) -> bool
        ensures { result ≡ instant_eq self.now.at at }
    {
        self.at == at
    }
}

/// The instants at which instances wake by themselves. Contracts see the list of them in order.
#[derive(Drop)]
pub struct Wakes {
    set: BTreeSet<Wake>,
}

impl Model for Wakes {
    ghost use Rattle.std.specs.Prelude.{List};
    ghost use Rattle.lh_kernel_wakes.specs.declared.wakes.Wake.{Wake};

    ghost Value = { List Wake };

    ghost view = { λ w. w.set.keys };
}

impl Wakes {
    /// No instance wakes by itself; this takes no memory yet.
    pub fn new(alloc: Global) -> Wakes
        ensures { result ≡ [] }
    {
        Wakes {
            set: BTreeSet::new(alloc),
        }
    }

    /// Notes that an instance wakes by itself at an instant. After `NoMemory` what is noted is as it was.
    pub fn enter(&mut self, at: Instant, instance: u32) -> Result<(), NoMemory>
        ensures notes { IfOk result (λ done. NotesOneMore self.old at instance self.new) }
        ensures err { OnErr result (self.new ≡ self.old) }
    {
        self.set.insert(Wake { at, instance })?;
        Ok(())
    }

    /// Notes that an instance does not wake by itself at an instant any more. It takes no memory.
    pub fn leave(&mut self, at: Instant, instance: u32)
        ensures { NotesOneLess self.old at instance self.new }
    {
        let wake = Wake { at, instance };
        self.set.remove(&wake);
    }

    /// The soonest instant at which an instance wakes by itself.
    pub fn soonest(&self) -> Option<Instant>
        ensures { IsSoonest self.now result }
    {
        match self.set.first() {
            Some(wake) => Some(wake.at),
            None => None,
        }
    }

    /// The instances that wake by themselves at an instant, rising. None may wake before it.
    pub fn due(&self, alloc: Global, at: Instant) -> Result<Vec<u32>, NoMemory>
        requires { (t : Instant) (k : ℕ) → IsNoted self.now t k → instant_le at t ≡ true }
        ensures { IfOk result (λ due. AreDue self.now at due.items) }
    {
        let mut due = Vec::new(alloc);
        for wake in &self.set {
            if !wake.is_at(at) {
                return Ok(due);
            }
            due.push(wake.instance)?;
        }
        Ok(due)
    }
}
