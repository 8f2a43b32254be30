//! Sets of bits of arguments, each given by a list of parts.
#![tactic(auto)]

ghost use Rattle.std.specs.Prelude.{◌≡◌, List, IfOk};
ghost use Rattle.lh_term.specs.declared.part.Part.{Part};
ghost use Rattle.lh_term_cover.specs.Bits.{covers, same_bits};
ghost use Rattle.lh_term_cover.specs.Runs.{IsCover};

mod runs;

use crate::runs::{CoverRun, are_same, bits_from, is_within, merged, run_of, starts_by};
use lh_term::part::{Part, PartList};
use lh_types::memory::NoMemory;
use std::alloc::Global;

/// A set of bits of arguments: in order, ranges of which no two meet or touch.
#[derive(Drop)]
pub struct Cover {
    runs: Vec<CoverRun>,
}

impl Cover {
    /// The bits of these parts. It takes time in proportion to `n log n` for `n` parts.
    pub fn new(alloc: Global, parts: &PartList) -> Result<Cover, NoMemory>
        ensures { IfOk result (λ cover. IsCover cover parts.now) }
    {
        let mut sorted = bits_from(alloc, parts.as_slice())?;
        sorted.sort_unstable();
        let runs = merged(alloc, sorted.as_slice())?;
        Ok(Cover { runs })
    }

    /// Whether all bits of a part are of the set. It takes time in proportion to the logarithm of the number of ranges.
    pub fn has(&self, part: &Part) -> bool
        ensures { (parts : List Part) → IsCover self.now parts → result ≡ covers parts part.now }
    {
        let run = run_of(part);
        if run.lo == run.end {
            return true;
        }
        let after = self.runs.partition_point(|r| starts_by(r, &run));
        if after == 0 {
            return false;
        }
        is_within(&run, &self.runs[after - 1])
    }

    /// Whether the two sets are one.
    pub fn is_same(&self, other: &Cover) -> bool
        ensures { (parts others : List Part) → IsCover self.now parts → IsCover other.now others → result ≡ same_bits parts others }
    {
        are_same(self.runs.as_slice(), other.runs.as_slice())
    }
}
