//! The index from signals to the instances that sense them.
ghost use Rattle.std.specs.Prelude.{◌≡◌, ◌<◌, ◌↔◌, ℕ, true, length, IfOk, OnErr};
ghost use Rattle.lh_kernel_wakes.specs.Rising.{IsOneOf, IsRising};
ghost use Rattle.lh_kernel_wakes.specs.Sensed.{sensed_by, Senses, SensesOneMore, SensesOneLess};

use crate::rising::Rising;
use lh_types::memory::NoMemory;
use std::alloc::Global;
use std::marker::Model;

/// For each signal the numbers of the instances that sense a bit of it. Contracts see, signal by signal, the rising list of them.
#[derive(Drop)]
pub struct Index {
    lists: Vec<Rising>,
}

impl Model for Index {
    ghost use Rattle.std.specs.Prelude.{ℕ, List};

    ghost Value = { List (List ℕ) };

    ghost view = { λ x. x.lists.items };
}

impl Index {
    /// The index of this many signals, of which nothing is sensed.
    pub fn new(alloc: Global, signals: u32) -> Result<Index, NoMemory>
        ensures len { IfOk result (λ x. length x ≡ signals) }
        ensures none { IfOk result (λ x. (s k : ℕ) → ¬ Senses x s k) }
    {
        let mut lists = Vec::new(alloc);
        for signal in 0..signals {
            let _ = signal;
            lists.push(Rising::new(alloc))?;
        }
        Ok(Index { lists })
    }

    /// The instances that sense a signal, rising.
    pub fn sensing(&self, signal: u32) -> &[u32]
        requires { signal < length self.now }
        ensures same { result.now ≡ sensed_by self.now signal }
        ensures rising { IsRising result.now }
    {
        self.lists[signal as usize].as_slice()
    }

    /// Whether an instance senses a signal.
    pub fn has(&self, signal: u32, instance: u32) -> bool
        requires { signal < length self.now }
        ensures { (result ≡ true) ↔ Senses self.now signal instance }
    {
        self.lists[signal as usize].has(instance)
    }

    /// Notes that an instance senses a signal. After `NoMemory` the index is as it was.
    pub fn enter(&mut self, signal: u32, instance: u32) -> Result<(), NoMemory>
        requires { signal < length self.old }
        ensures has { IfOk result (λ done. SensesOneMore self.old signal instance self.new) }
        ensures len { length self.new ≡ length self.old }
        ensures err { OnErr result (self.new ≡ self.old) }
    {
        self.lists[signal as usize].enter(instance)?;
        Ok(())
    }

    /// Notes that an instance does not sense a signal any more. It takes no memory.
    pub fn leave(&mut self, signal: u32, instance: u32)
        requires { signal < length self.old }
        ensures has { SensesOneLess self.old signal instance self.new }
        ensures len { length self.new ≡ length self.old }
    {
        self.lists[signal as usize].leave(instance);
    }
}
