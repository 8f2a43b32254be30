//! Runs by the instants at which they are due.
ghost use Rattle.std.specs.Prelude.{◌≡◌, ◌∷◌, ◌++◌, [], true, IfOk, OnOk};
ghost use Rattle.lh_types.specs.Wish.{writes_wish};
ghost use Rattle.lh_bits.specs.MostlyOne.{items_in};
ghost use Rattle.lh_bits.specs.Writes.{numbered};
ghost use Rattle.lh_eval_wishes.specs.Grouped.{is_filled, Apart};
ghost use Rattle.lh_eval_wishes.specs.Runs.{run_wish, runs_wish};

use crate::run::WishRun;
use lh_bits::mostly_one::{Items, MostlyOne};
use lh_bits::writes::{BitWrites, DueWrites};
use lh_time::Instant;
use lh_types::memory::NoMemory;
use std::alloc::Global;

/// Runs by their instants.
pub(crate) fn grouped(alloc: Global, runs: Items<WishRun>) -> Result<DueWrites, NoMemory>
    ensures wish { IfOk result (λ all. writes_wish all ≡ runs_wish (items_in runs)) }
    ensures apart { IfOk result (λ all. Apart all) }
{
    match runs {
        Items::Empty => Ok(MostlyOne::new(alloc)),
        Items::One([run]) => alone(alloc, run),
        Items::Many(runs) => {
            let all = groups_of(alloc, runs)?;
            Ok(MostlyOne::from_vec(all))
        }
    }
}

/// One run at its instant, in place; nothing where it is empty.
fn alone(alloc: Global, run: WishRun) -> Result<DueWrites, NoMemory>
    ensures wish { IfOk result (λ all. writes_wish all ≡ runs_wish (run ∷ [])) }
    ensures apart { IfOk result (λ all. Apart all) }
{
    if run.bits.len() == 0 {
        return Ok(MostlyOne::new(alloc));
    }
    let due = run.due;
    let writes = writes_of(alloc, run)?;
    Ok(MostlyOne::one(alloc, (due, writes)))
}

/// What a run writes.
fn writes_of(alloc: Global, run: WishRun) -> Result<BitWrites, NoMemory>
    ensures { IfOk result (λ writes. writes ≡ numbered run.lo run.bits) }
{
    let mut writes = BitWrites::new(alloc);
    writes.push_run(run.lo, run.bits)?;
    Ok(writes)
}

/// Many runs by their instants.
fn groups_of(alloc: Global, runs: Vec<WishRun>) -> Result<Vec<(Instant, BitWrites)>, NoMemory>
    ensures wish { IfOk result (λ all. writes_wish all.items ≡ runs_wish runs.items) }
    ensures apart { IfOk result (λ all. Apart all.items) }
{
    let mut all = Vec::with_capacity(alloc, runs.len())?;
    for run in runs {
        add(alloc, &mut all, run)?;
    }
    Ok(all)
}

/// Adds a run behind the last one, to the list of its instant where that is the last; an empty one it leaves out.
fn add(alloc: Global, all: &mut Vec<(Instant, BitWrites)>, run: WishRun) -> Result<(), NoMemory>
    ensures wish { OnOk result (writes_wish all.new.items ≡ writes_wish all.old.items ++ run_wish run) }
    ensures apart { Apart all.old.items → OnOk result (Apart all.new.items) }
{
    if run.bits.len() == 0 {
        return Ok(());
    }
    match all.pop() {
        None => push_new(alloc, all, run),
        Some(last) => add_behind(alloc, all, last, run),
    }
}

/// Adds a run behind the last one, which was taken out.
fn add_behind(
    alloc: Global,
    all: &mut Vec<(Instant, BitWrites)>,
    last: (Instant, BitWrites),
    run: WishRun,
) -> Result<(), NoMemory>
    requires { is_filled run.bits ≡ true }
    ensures wish { OnOk result (writes_wish all.new.items ≡ writes_wish (all.old.items ++ last ∷ []) ++ run_wish run) }
    ensures apart { Apart (all.old.items ++ last ∷ []) → OnOk result (Apart all.new.items) }
{
    let (due, mut writes) = last;
    if due == run.due {
        writes.push_run(run.lo, run.bits)?;
        return push_due(all, due, writes);
    }
    push_due(all, due, writes)?;
    push_new(alloc, all, run)
}

/// Adds a run with a list of its own.
fn push_new(
    alloc: Global,
    all: &mut Vec<(Instant, BitWrites)>,
    run: WishRun,
) -> Result<(), NoMemory>
    ensures { OnOk result (all.new.items ≡ all.old.items ++ (run.due, numbered run.lo run.bits) ∷ []) }
{
    let due = run.due;
    let writes = writes_of(alloc, run)?;
    push_due(all, due, writes)
}

fn push_due(
    all: &mut Vec<(Instant, BitWrites)>,
    due: Instant,
    writes: BitWrites,
) -> Result<(), NoMemory>
    ensures { OnOk result (all.new.items ≡ all.old.items ++ (due, writes) ∷ []) }
{
    all.push((due, writes))?;
    Ok(())
}
