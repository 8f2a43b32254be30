//! The bits that an activation or a pass wishes, and when each is due.
ghost use Rattle.std.specs.Prelude.{◌≡◌, ◌+◌, ◌<◌, ◌^◌, length, OnOk, IfOk};
ghost use Rattle.lh_types.specs.Wish.{no_wish, with_bits, writes_wish};
ghost use Rattle.lh_eval_wishes.specs.Grouped.{IsGrouped};

use crate::grouping::grouped;
use crate::layers::{Layer, flattened, put_layer};
use crate::run::WishRun;
use crate::runs::with_more;
use lh_bits::bits::Bits;
use lh_bits::mostly_one::Items;
use lh_bits::writes::DueWrites;
use lh_time::Instant;
use lh_types::memory::NoMemory;
use std::alloc::Global;
use std::marker::Model;
use std::mem;

/// A map from instants and signal bits to bits: what is wished so far.
#[derive(Drop)]
pub struct Wishes {
    // What was wished before the runs. A run that belongs far in front would be expensive to insert, so it begins a new list.
    layers: Vec<Layer>,
    // In order of the instants, then of the bits; no two of them overlap, and none is empty.
    runs: Items<WishRun>,
    alloc: Global,
}

impl Model for Wishes {
    ghost use Rattle.std.specs.Coded.{codes};
    ghost use Rattle.lh_types.specs.Wish.{Wish};

    ghost Value = { Wish };

    ghost coded = { Prim.hlevel codes };

    ghost use Rattle.lh_bits.specs.MostlyOne.{items_in};
    ghost use Rattle.lh_eval_wishes.specs.Runs.{runs_wish, AreRuns};
    ghost use Rattle.lh_eval_wishes.specs.Over.{over, stacked};

    ghost view = { λ w. over (stacked w.layers.items) (runs_wish (items_in w.runs)) };

    ghost invariant = { λ w. AreRuns (items_in w.runs) };
}

impl Wishes {
    /// Nothing is wished; this takes no memory yet.
    pub fn new(alloc: Global) -> Wishes
        ensures { result ≡ no_wish }
    {
        Wishes {
            layers: Vec::new(alloc),
            runs: Items::Empty,
            alloc,
        }
    }

    /// These bits in a row, from bit `lo` of the signals on; they replace what was wished before for them at this instant.
    pub fn put_bits(&mut self, due: Instant, lo: u32, bits: Bits) -> Result<(), NoMemory>
        requires { lo + length bits < 2 ^ 32 }
        ensures { OnOk result (self.new ≡ with_bits self.old due lo bits) }
    {
        if bits.len() == 0 {
            return Ok(());
        }
        self.make_way(due, lo)?;
        let runs = mem::replace(&mut self.runs, Items::Empty);
        self.runs = with_more(self.alloc, runs, WishRun { due, lo, bits })?;
        Ok(())
    }

    /// Sets the runs aside where one from this bit on belongs far in front.
    fn make_way(&mut self, due: Instant, lo: u32) -> Result<(), NoMemory>
        ensures { OnOk result (self.new ≡ self.old) }
    {
        if is_deep(&self.runs, due, lo) {
            self.set_aside()
        } else {
            Ok(())
        }
    }

    /// The runs become a layer, where they are a list.
    fn set_aside(&mut self) -> Result<(), NoMemory>
        ensures { OnOk result (self.new ≡ self.old) }
    {
        match mem::replace(&mut self.runs, Items::Empty) {
            Items::Many(runs) => put_layer(self.alloc, &mut self.layers, Layer::new(runs)),
            few => {
                self.runs = few;
                Ok(())
            }
        }
    }

    /// The wishes as lists of writes, without a copy of the bits: the due instants strictly rise, none of the lists is empty, and
    /// in each of them the bits strictly rise.
    pub fn into_writes(self) -> Result<DueWrites, NoMemory>
        ensures wish { IfOk result (λ w. writes_wish w ≡ self) }
        ensures grouped { IfOk result IsGrouped }
    {
        let runs = flattened(self.alloc, self.layers, self.runs)?;
        grouped(self.alloc, runs)
    }
}

/// How many runs a new one is inserted before at most.
const NEAR: usize = 32;

/// Whether a run from this bit on belongs before more than a few others.
fn is_deep(runs: &Items<WishRun>, due: Instant, lo: u32) -> bool {
    match runs {
        Items::Many(runs) if runs.len() >= NEAR => !runs[runs.len() - NEAR].is_below(due, lo),
        _ => false,
    }
}
