//! Lists of runs one over the other: what is wished later replaces what lies below it.
ghost use Rattle.std.specs.Prelude.{◌≡◌, ◌++◌, [], IfOk, OnOk};
ghost use Rattle.lh_types.specs.Wish.{Wish};
ghost use Rattle.lh_bits.specs.MostlyOne.{items_in};
ghost use Rattle.lh_eval_wishes.specs.Over.{over, stacked};
ghost use Rattle.lh_eval_wishes.specs.Runs.{runs_wish, AreRuns};

use crate::overlay::overlaid;
use crate::run::WishRun;
use lh_bits::mostly_one::Items;
use lh_types::memory::NoMemory;
use std::alloc::Global;
use std::marker::Model;

/// Runs in order, of which no two overlap and none is empty.
#[derive(Drop)]
pub(crate) struct Layer {
    runs: Vec<WishRun>,
}

impl Model for Layer {
    ghost use Rattle.std.specs.Coded.{codes};
    ghost use Rattle.lh_types.specs.Wish.{Wish};
    ghost use Rattle.lh_eval_wishes.specs.Runs.{runs_wish, AreRuns};

    ghost Value = { Wish };

    ghost coded = { Prim.hlevel codes };

    ghost view = { λ l. runs_wish l.runs.items };

    ghost invariant = { λ l. AreRuns l.runs.items };
}

impl Layer {
    /// These runs.
    pub(crate) fn new(runs: Vec<WishRun>) -> Layer
        requires { AreRuns runs.items }
        ensures { result ≡ runs_wish runs.items }
    {
        Layer { runs }
    }

    /// How many runs there are.
    fn len(&self) -> usize {
        self.runs.len()
    }

    /// What these make of a layer below them.
    fn over(self, alloc: Global, below: Layer) -> Result<Layer, NoMemory>
        ensures { IfOk result (λ both. (w : Wish) → over (over w below) self ≡ over w both) }
    {
        let runs = overlaid(alloc, below.runs, self.runs)?;
        Ok(Layer { runs })
    }

    /// The runs.
    fn into_runs(self) -> Vec<WishRun>
        ensures wish { runs_wish result.items ≡ self }
        ensures runs { AreRuns result.items }
    {
        self.runs
    }
}

/// Adds a layer over others, and joins it with those that are not at least twice as long. So there are few layers, and a run
/// is moved once for each of them at most.
pub(crate) fn put_layer(alloc: Global, layers: &mut Vec<Layer>, top: Layer) -> Result<(), NoMemory>
    ensures { OnOk result (stacked layers.new.items ≡ over (stacked layers.old.items) top) }
{
    let mut top = top;
    while let Some(below) = layers.pop() {
        if below.len() / 2 >= top.len() {
            layers.push(below)?;
            return push_top(layers, top);
        }
        top = top.over(alloc, below)?;
    }
    push_top(layers, top)
}

fn push_top(layers: &mut Vec<Layer>, top: Layer) -> Result<(), NoMemory>
    ensures { OnOk result (stacked layers.new.items ≡ over (stacked layers.old.items) top) }
{
    layers.push(top)?;
    Ok(())
}

/// Layers and runs over them as one list of runs.
pub(crate) fn flattened(
    alloc: Global,
    layers: Vec<Layer>,
    runs: Items<WishRun>,
) -> Result<Items<WishRun>, NoMemory>
    requires { AreRuns (items_in runs) }
    ensures wish { IfOk result (λ all. runs_wish (items_in all) ≡ over (stacked layers.items) (runs_wish (items_in runs))) }
    ensures runs { IfOk result (λ all. AreRuns (items_in all)) }
{
    if layers.is_empty() {
        return Ok(runs);
    }
    let top = Layer::new(listed(alloc, runs)?);
    let all = joined(alloc, layers, top)?;
    Ok(Items::Many(all.into_runs()))
}

/// The runs as a list.
fn listed(alloc: Global, runs: Items<WishRun>) -> Result<Vec<WishRun>, NoMemory>
    ensures { IfOk result (λ list. list.items ≡ items_in runs) }
{
    let mut list = Vec::new(alloc);
    match runs {
        Items::Empty => Ok(list),
        Items::One([run]) => {
            list.push(run)?;
            Ok(list)
        }
        Items::Many(runs) => Ok(runs),
    }
}

/// Layers, and one over them, as one.
fn joined(alloc: Global, mut layers: Vec<Layer>, top: Layer) -> Result<Layer, NoMemory>
    ensures { IfOk result (λ all. over [] all ≡ over (stacked layers.items) top) }
{
    let mut top = top;
    while let Some(below) = layers.pop() {
        top = top.over(alloc, below)?;
    }
    Ok(top)
}
