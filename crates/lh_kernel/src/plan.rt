//! What a frame shows, and what it brings, before anything of the simulation changes.
ghost use Rattle.std.specs.Prelude.{◌≡◌, ℕ, List, length, map, IfOk, OnErr};
ghost use Rattle.lh_time.specs.declared.Instant as time;
ghost use Rattle.lh_types.specs.Raised.{raised};
ghost use Rattle.lh_types.specs.Pictures.{showing_of};
ghost use Rattle.lh_unit.specs.Frames.{activated_count, signal_values, changes_by};
ghost use Rattle.lh_unit.specs.Within.{Each};
ghost use Rattle.lh_unit.specs.World.{State};
ghost use Rattle.lh_design.specs.Texts.{signal_text};
ghost use Rattle.lh_kernel.specs.States.{StatesStand};
ghost use Rattle.lh_kernel.specs.Ran.{AllRan, ActOfOne, outcomes_ran};
ghost use Rattle.lh_kernel.specs.Puts.{wishes_ran};
ghost use Rattle.lh_kernel.specs.Phases.{HasLooked, IsPlanned, awake_in, values_kept, RisesWithin};

use crate::machine::SimState;
use crate::moves::moves_of;
use crate::noted::Move;
use crate::run::{Activation, Ran, outcomes_of, run_all};
use crate::woken::{Asleep, all_of};
use lh_kernel_changes::changes::{all_changes, changes_among};
use lh_kernel_wakes::rising::Rising;
use lh_time::Instant;
use lh_types::frame::{ChangeList, Frame};
use lh_types::memory::NoMemory;
use lh_types::tally::Tally;
use std::alloc::Global;

/// A frame, and what it brings: what its instances did, what of what is noted moves, how many wishes are made, and who ran away.
#[derive(Drop)]
pub(crate) struct FramePlan {
    pub frame: Frame,
    pub acts: Vec<Activation>,
    pub moves: Vec<Move>,
    pub wishes: usize,
    pub runaway: Option<u32>,
}

/// The frame at an instant, where the bits at it were looked at and only signals that are touched may differ from the frame before.
pub(crate) fn plan_frame<T: Tally>(
    alloc: Global,
    x: &SimState<'_>,
    at: Instant,
    touched: &Rising,
    tally: &mut T,
) -> Result<FramePlan, NoMemory>
    requires looked { HasLooked x.now at touched.now }
    ensures planned { IfOk result (IsPlanned x.now at) }
    ensures tally { IfOk result (λ p. T.count tally.new ≡ raised (T.count tally.old) (activated_count p.runaway (awake_in x.now at))) }
    ensures err_tally { OnErr result (RisesWithin (awake_in x.now at) (T.count tally.old) (T.count tally.new)) }
{
    let ran = run_woken(alloc, x, at, touched, tally)?;
    plan_ran(alloc, x, at, touched, ran)
}

/// The frame in which the woken instances did this.
fn plan_ran(
    alloc: Global,
    x: &SimState<'_>,
    at: Instant,
    touched: &Rising,
    ran: Ran,
) -> Result<FramePlan, NoMemory>
    requires looked { HasLooked x.now at touched.now }
    requires ran { (ps : List State) → StatesStand x.now.«module».now x.now.design.instances.items x.now.states.items ps → AllRan x.now.«module».now x.now.looked at x.now.design.instances.items ps (awake_in x.now at) ran.acts.items ran.runaway }
    requires sound { Each (ActOfOne x.now.«module».now (length x.now.looked) at x.now.design.instances.items) ran.acts.items }
    ensures planned { IfOk result (IsPlanned x.now at) }
    ensures runaway { IfOk result (λ p. p.runaway ≡ ran.runaway) }
{
    let wishes = wish_count(&ran.acts)?;
    let frame = frame_shown(alloc, x, at, touched, &ran.acts)?;
    let moves = moves_of(alloc, &x.design, &x.probes, &x.states, &ran.acts)?;
    Ok(FramePlan {
        frame,
        acts: ran.acts,
        moves,
        wishes,
        runaway: ran.runaway,
    })
}

/// What the frame shows in which the woken instances did this.
fn frame_shown(
    alloc: Global,
    x: &SimState<'_>,
    at: Instant,
    touched: &Rising,
    acts: &[Activation],
) -> Result<Frame, NoMemory>
    requires looked { HasLooked x.now at touched.now }
    ensures { IfOk result (λ f. (f.at ≡ at) × (map showing_of f.changes ≡ changes_by (values_kept x.now) (signal_values (map signal_text x.now.design.signals.items) x.now.looked)) × (f.outcomes ≡ outcomes_ran acts.now)) }
{
    let changes = changes_in(alloc, x, at, touched)?;
    let outcomes = outcomes_of(alloc, acts)?;
    Ok(Frame {
        at,
        changes,
        outcomes,
    })
}

/// What the instances do that the frame wakes.
fn run_woken<T: Tally>(
    alloc: Global,
    x: &SimState<'_>,
    at: Instant,
    touched: &Rising,
    tally: &mut T,
) -> Result<Ran, NoMemory>
    requires looked { HasLooked x.now at touched.now }
    ensures ran { (ps : List State) → StatesStand x.now.«module».now x.now.design.instances.items x.now.states.items ps → IfOk result (λ r. AllRan x.now.«module».now x.now.looked at x.now.design.instances.items ps (awake_in x.now at) r.acts.items r.runaway) }
    ensures sound { IfOk result (λ r. Each (ActOfOne x.now.«module».now (length x.now.looked) at x.now.design.instances.items) r.acts.items) }
    ensures tally { IfOk result (λ r. T.count tally.new ≡ raised (T.count tally.old) (activated_count r.runaway (awake_in x.now at))) }
    ensures err_tally { OnErr result (RisesWithin (awake_in x.now at) (T.count tally.old) (T.count tally.new)) }
{
    if x.last.is_none() {
        let all = all_of(alloc, &x.design)?;
        run_all(
            alloc, x.module, &x.design, &x.states, &x.looked, at, &all, tally,
        )
    } else {
        let asleep = Asleep {
            design: &x.design,
            states: &x.states,
            probes: &x.probes,
            noted: &x.noted,
        };
        let woken = asleep.woken(alloc, touched, &x.bits, &x.looked, at)?;
        run_all(
            alloc,
            x.module,
            &x.design,
            &x.states,
            &x.looked,
            at,
            woken.as_slice(),
            tally,
        )
    }
}

/// The changes that the frame shows.
fn changes_in(
    alloc: Global,
    x: &SimState<'_>,
    at: Instant,
    touched: &Rising,
) -> Result<ChangeList, NoMemory>
    requires looked { HasLooked x.now at touched.now }
    ensures { IfOk result (λ changes. map showing_of changes ≡ changes_by (values_kept x.now) (signal_values (map signal_text x.now.design.signals.items) x.now.looked)) }
{
    match x.last {
        None => all_changes(alloc, &x.design, &x.looked),
        Some(_) => changes_among(alloc, &x.design, touched, &x.bits, &x.looked),
    }
}

/// How many wishes activations make: one for each instant at which something is due.
fn wish_count(acts: &[Activation]) -> Result<usize, NoMemory>
    ensures { (at : time.Instant) → IfOk result (λ count. count ≡ length (wishes_ran at acts.now)) }
{
    let mut count: usize = 0;
    for done in acts {
        let Some(more) = count.checked_add(done.act.wish_count()) else {
            // So many are in no memory.
            return Err(NoMemory);
        };
        count = more;
    }
    Ok(count)
}
