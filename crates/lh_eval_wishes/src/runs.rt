//! Runs in order of their instants and of their bits, and what a drive makes of them.
ghost use Rattle.std.specs.Prelude.{◌≡◌, ◌+◌, ◌<◌, ◌≤◌, ◌^◌, [], ◌∷◌, ◌++◌, length, take, drop, true, IsTrue, IfOk, OnOk};
ghost use Rattle.lh_types.specs.Wish.{with_bits, due_bit};
ghost use Rattle.lh_bits.specs.MostlyOne.{items_in};
ghost use Rattle.lh_eval_wishes.specs.Grouped.{is_filled};
ghost use Rattle.lh_eval_wishes.specs.Runs.{run_wish, runs_wish, below, above, AllBelow, AllFrom, EachFilled, AreRuns};

use crate::run::WishRun;
use lh_bits::mostly_one::Items;
use lh_time::Instant;
use lh_types::memory::NoMemory;
use std::alloc::Global;

/// The list with one run more; it replaces what the runs have for its bits at its instant.
pub(crate) fn with_more(
    alloc: Global,
    runs: Items<WishRun>,
    run: WishRun,
) -> Result<Items<WishRun>, NoMemory>
    requires runs { AreRuns (items_in runs) }
    requires filled { is_filled run.bits ≡ true }
    requires fits { run.lo + length run.bits < 2 ^ 32 }
    ensures wish { IfOk result (λ rs. runs_wish (items_in rs) ≡ with_bits (runs_wish (items_in runs)) run.due run.lo run.bits) }
    ensures filled { IfOk result (λ rs. EachFilled (items_in rs)) }
{
    match runs {
        Items::Empty => Ok(Items::One([run])),
        Items::One([first]) => with_second(alloc, first, run),
        Items::Many(runs) => Ok(Items::Many(with_run(alloc, runs, run)?)),
    }
}

/// The list of one run with one run more.
fn with_second(alloc: Global, first: WishRun, run: WishRun) -> Result<Items<WishRun>, NoMemory>
    requires runs { AreRuns (first ∷ []) }
    requires filled { is_filled run.bits ≡ true }
    requires fits { run.lo + length run.bits < 2 ^ 32 }
    ensures wish { IfOk result (λ rs. runs_wish (items_in rs) ≡ with_bits (runs_wish (first ∷ [])) run.due run.lo run.bits) }
    ensures filled { IfOk result (λ rs. EachFilled (items_in rs)) }
{
    if is_covered(&first, &run) {
        return Ok(Items::One([run]));
    }
    let runs = alone(alloc, first)?;
    Ok(Items::Many(with_run(alloc, runs, run)?))
}

/// A run alone, with room for one more.
fn alone(alloc: Global, run: WishRun) -> Result<Vec<WishRun>, NoMemory>
    ensures { IfOk result (λ rs. rs.items ≡ run ∷ []) }
{
    let mut runs = Vec::with_capacity(alloc, 2)?;
    runs.push(run)?;
    Ok(runs)
}

/// Adds a run at the end, unless it is empty.
pub(crate) fn put_filled(runs: &mut Vec<WishRun>, run: WishRun) -> Result<(), NoMemory>
    ensures wish { OnOk result (runs_wish runs.new.items ≡ runs_wish runs.old.items ++ run_wish run) }
    ensures filled { EachFilled runs.old.items → OnOk result (EachFilled runs.new.items) }
{
    if run.bits.len() == 0 {
        return Ok(());
    }
    runs.push(run)?;
    Ok(())
}

/// How many runs at the front are below a bit at an instant; by halves.
fn count_below(runs: &[WishRun], due: Instant, lo: u32) -> usize
    requires { AreRuns runs.now }
    ensures within { result ≤ length runs.now }
    ensures below { AllBelow (due_bit due lo) (runs_wish (take result runs.now)) }
{
    let mut low = 0;
    let mut high = runs.len();
    while low < high {
        let mid = low + (high - low) / 2;
        if runs[mid].is_below(due, lo) {
            low = mid + 1;
        } else {
            high = mid;
        }
    }
    low
}

/// The first place from a given one on behind which no run is below a bit at an instant.
fn place_from(runs: &[WishRun], from: usize, due: Instant, hi: u32) -> usize
    requires runs { AreRuns runs.now }
    requires within { from ≤ length runs.now }
    ensures from { from ≤ result }
    ensures within { result ≤ length runs.now }
    ensures above { AllFrom (due_bit due hi) (runs_wish (drop result runs.now)) }
{
    let mut to = from;
    while to < runs.len() && !runs[to].is_from(due, hi) {
        to += 1;
    }
    to
}

/// Whether nothing of a run is below another one, and nothing of it above.
fn is_covered(old: &WishRun, run: &WishRun) -> bool
    requires fits { run.now.lo + length run.now.bits < 2 ^ 32 }
    ensures from { IsTrue result → AllFrom (due_bit run.now.due run.now.lo) (run_wish old.now) }
    ensures below { IsTrue result → AllBelow (due_bit run.now.due (run.now.lo + length run.now.bits)) (run_wish old.now) }
{
    old.is_from(run.due, run.lo) && old.is_below(run.due, run.lo + run.bits.len())
}

/// The runs with one more; it replaces what they have for its bits at its instant.
fn with_run(alloc: Global, mut runs: Vec<WishRun>, run: WishRun) -> Result<Vec<WishRun>, NoMemory>
    requires runs { AreRuns runs.items }
    requires filled { is_filled run.bits ≡ true }
    requires fits { run.lo + length run.bits < 2 ^ 32 }
    ensures wish { IfOk result (λ rs. runs_wish rs.items ≡ with_bits (runs_wish runs.items) run.due run.lo run.bits) }
    ensures filled { IfOk result (λ rs. EachFilled rs.items) }
{
    let hi = run.lo + run.bits.len();
    let from = count_below(runs.as_slice(), run.due, run.lo);
    let to = place_from(runs.as_slice(), from, run.due, hi);
    if from == to {
        runs.insert(from, run)?;
        return Ok(runs);
    }
    if to == from + 1 && is_covered(&runs[from], &run) {
        // One run for another one: none of the others moves.
        runs[from] = run;
        return Ok(runs);
    }
    let after = runs.split_off(to)?;
    let cut = runs.split_off(from)?;
    replace(alloc, runs, cut.as_slice(), after, run, hi)
}

/// Runs, then what of the next ones is below a run, then the run, then what of them is above it, then further runs.
fn replace(
    alloc: Global,
    mut runs: Vec<WishRun>,
    cut: &[WishRun],
    mut after: Vec<WishRun>,
    run: WishRun,
    hi: u32,
) -> Result<Vec<WishRun>, NoMemory>
    requires before { EachFilled runs.items }
    requires after { EachFilled after.items }
    requires filled { is_filled run.bits ≡ true }
    ensures wish { IfOk result (λ rs. runs_wish rs.items ≡ runs_wish runs.items ++ (below (due_bit run.due run.lo) (runs_wish cut.now) ++ (run_wish run ++ (above (due_bit run.due hi) (runs_wish cut.now) ++ runs_wish after.items)))) }
    ensures filled { IfOk result (λ rs. EachFilled rs.items) }
{
    let mut rest = Vec::new(alloc);
    for r in cut {
        let low = r.low_part(run.due, run.lo)?;
        let high = r.high_part(run.due, hi)?;
        put_filled(&mut runs, low)?;
        put_filled(&mut rest, high)?;
    }
    runs.push(run)?;
    runs.append(&mut rest)?;
    runs.append(&mut after)?;
    Ok(runs)
}
