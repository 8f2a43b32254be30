//! The instances that a frame wakes, found by what is noted.
ghost use Rattle.std.specs.Prelude.{◌≡◌, ◌≤◌, ◌<◌, ◌↔◌, ℕ, List, Bool, true, length, IfOk, Some, None};
ghost use Rattle.lh_time.specs.Order.{instant_le};
ghost use Rattle.lh_unit.specs.Arena.{Arena};
ghost use Rattle.lh_kernel_wakes.specs.Rising.{IsOneOf};
ghost use Rattle.lh_kernel_wakes.specs.Waking.{IsNoted};
ghost use Rattle.lh_kernel_changes.specs.Touched.{AreSignals, OthersStay};
ghost use Rattle.lh_kernel.specs.Woken.{awake_from, AreAsleep, HasRoused};

use crate::noted::Noted;
use lh_bits::bits::Bits;
use lh_design::Design;
use lh_kernel_changes::differ::{changed_part, differs_with};
use lh_kernel_states::state::InstState;
use lh_kernel_wakes::gathered::Gathered;
use lh_kernel_wakes::rising::Rising;
use lh_time::Instant;
use lh_types::memory::NoMemory;
use lh_types::part::RangeList;
use std::alloc::Global;

/// What a frame is woken by: the design with what is kept and noted of its instances.
#[derive(Clone, Copy)]
pub(crate) struct Asleep<'s> {
    pub design: &'s Design,
    pub states: &'s [InstState],
    pub probes: &'s [RangeList],
    pub noted: &'s Noted,
}

/// The numbers of all instances, rising: the first frame wakes each.
pub(crate) fn all_of(alloc: Global, design: &Design) -> Result<Vec<u32>, NoMemory>
    requires { length design.now.instances.items ≤ 65536 }
    ensures { IfOk result
        (λ ks. (a : Arena) (now : List Bool) (t : Instant) (states : List InstState) → length states ≡ length design.now.instances.items → ks.items ≡ awake_from 0 a (record { before = None; now = now; at = t }) design.now.instances.items states) }
{
    let mut all = Vec::new(alloc);
    for number in 0..design.instances().len() {
        all.push(number as u32)?;
    }
    Ok(all)
}

impl Asleep<'_> {
    /// The numbers of the instances that a later frame wakes, rising: those whose wake time has come, and those that sense a bit
    /// that differs. Only signals that are touched may differ. The work grows with the signals that differ and who senses them.
    pub fn woken(
        &self,
        alloc: Global,
        touched: &Rising,
        old: &Bits,
        now: &Bits,
        at: Instant,
    ) -> Result<Rising, NoMemory>
        requires asleep { (a : Arena) × AreAsleep a self.now.design.now self.now.states.now self.now.probes.now self.now.noted.now at }
        requires old_width { length old.now ≡ length self.now.design.now.init }
        requires width { length now.now ≡ length self.now.design.now.init }
        requires known { AreSignals self.now.design.now.signals.items touched.now }
        requires others { OthersStay self.now.design.now.signals.items touched.now old.now now.now }
        ensures { IfOk result
            (λ ks. (a : Arena) → AreAsleep a self.now.design.now self.now.states.now self.now.probes.now self.now.noted.now at → ks ≡ awake_from 0 a (record { before = Some old.now; now = now.now; at = at }) self.now.design.now.instances.items self.now.states.now) }
    {
        let mut woken = Gathered::of(alloc, self.due(alloc, at)?);
        for &signal in touched.as_slice() {
            self.rouse(&mut woken, signal, old, now)?;
        }
        let woken = woken.into_rising(alloc)?;
        // The numbers rise.
        let _ = woken.as_slice();
        Ok(woken)
    }

    /// The instances whose wake time has come. None may wake before it.
    fn due(&self, alloc: Global, at: Instant) -> Result<Rising, NoMemory>
        requires { (t : Instant) (k : ℕ) → IsNoted self.now.noted.now.wakes t k → instant_le at t ≡ true }
        ensures { IfOk result (λ ks. (k : ℕ) → IsOneOf k ks ↔ IsNoted self.now.noted.now.wakes at k) }
    {
        let mut due = Rising::new(alloc);
        for &instance in self.noted.wakes.due(alloc, at)?.as_slice() {
            due.enter(instance)?;
        }
        Ok(due)
    }

    /// Adds the instances that sense a signal and some bit that differs, where the signal does not stay the same.
    fn rouse(
        &self,
        woken: &mut Gathered,
        signal: u32,
        old: &Bits,
        now: &Bits,
    ) -> Result<(), NoMemory>
        requires asleep { (a : Arena) × (at : Instant) × AreAsleep a self.now.design.now self.now.states.now self.now.probes.now self.now.noted.now at }
        requires old_width { length old.now ≡ length self.now.design.now.init }
        requires width { length now.now ≡ length self.now.design.now.init }
        requires known { signal < length self.now.design.now.signals.items }
        ensures { IfOk result
            (λ done. HasRoused self.now.design.now.signals.items self.now.states.now self.now.probes.now self.now.noted.now old.now now.now signal woken.old woken.new) }
    {
        let Some(changed) = changed_part(self.design, signal, old, now) else {
            return Ok(());
        };
        for &instance in self.noted.index.sensing(signal) {
            // One that is woken already needs no look at its parts.
            if woken.has(instance) {
                continue;
            }
            let probes = &self.probes[instance as usize];
            let parts = self.states[instance as usize].senses(probes);
            if differs_with(parts, changed, old, now) {
                woken.add(instance)?;
            }
        }
        Ok(())
    }
}
