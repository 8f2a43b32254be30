//! How the run of a file goes.
ghost use Rattle.std.specs.Prelude.{◌≡◌, [], ℕ, suc, List, IfOk};
ghost use Rattle.lh_types.specs.Pictures.{Picture};
ghost use Rattle.lh_unit.specs.Arena.{contents};
ghost use Rattle.lh_unit.specs.Trace.{at_bound, trace};
ghost use Rattle.lh_unit.specs.World.{World, next_instant};
ghost use Rattle.lh_kernel.specs.Simulation.{StandsFor};
ghost use Rattle.lh_selftest_design.specs.Summary.{WentSo, chain_name, counts_of, ending_of};
ghost use Rattle.lh_selftest.specs.SelfTest.{HasDesign};
ghost use Rattle.lh_selftest.specs.Courses.{StepComesTo, course_on};

use crate::design::design_of;
use lh_io::count::Count;
use lh_kernel::{Sim, SimStep};
use lh_selftest_design::summary::{Counts, RunEnd, RunSummary};
use lh_types::memory::NoMemory;
use lh_types::tally::Tally;
use lh_verify::verify::Verified;
use std::alloc::Global;

/// How the run from `@chain` down goes in at most so many frames, in a file that has a design.
pub fn course_of(alloc: Global, file: &Verified, frames: u32) -> Result<RunSummary, NoMemory>
    requires { HasDesign (contents file.now) }
    ensures { IfOk result (λ course. WentSo (trace (contents file.now) chain_name frames) course) }
{
    let design = design_of(alloc, file)?;
    let mut sim = Sim::new(alloc, file.module(), design)?;
    run(&mut sim, frames)
}

/// How a simulation goes in at most so many frames.
fn run(sim: &mut Sim<'_>, frames: u32) -> Result<RunSummary, NoMemory>
    ensures { IfOk result (λ course. (w : World) → StandsFor sim.old w → course ≡ course_on sim.old.arena sim.old.design [] frames w) }
{
    let mut counts = Counts::new();
    let mut tally = Count::new();
    for _frame in 0..frames {
        match step(sim, &mut tally, &mut counts)? {
            None => {}
            Some(ending) => return Ok(RunSummary { counts, ending }),
        }
    }
    let ending = ending_at_bound(sim);
    Ok(RunSummary { counts, ending })
}

/// Takes one step and counts its frame; the answer is how the run ended with it, if it did.
fn step<T: Tally>(
    sim: &mut Sim<'_>,
    tally: &mut T,
    counts: &mut Counts,
) -> Result<Option<RunEnd>, NoMemory>
    ensures comes { IfOk result (λ ending. (n : ℕ) (w : World) (seen : List Picture) → StandsFor sim.old w → counts.old ≡ counts_of seen →
        StepComesTo ending sim.old.arena sim.old.design n (course_on sim.old.arena sim.old.design seen (suc n) w) sim.new counts.new) }
    ensures module { sim.new.arena ≡ sim.old.arena }
    ensures design { sim.new.design ≡ sim.old.design }
{
    match sim.step(tally)? {
        SimStep::Quiet => Ok(Some(RunEnd::Quiet)),
        SimStep::Frame(frame) => {
            counts.see(&frame);
            Ok(None)
        }
        SimStep::Runaway(frame, _) => {
            counts.see(&frame);
            Ok(Some(RunEnd::Runaway))
        }
    }
}

/// How a run ends at the bound on its frames.
fn ending_at_bound(sim: &Sim<'_>) -> RunEnd
    ensures { (w : World) → StandsFor sim.now w → result ≡ ending_of (at_bound (next_instant w)).end }
{
    match sim.next() {
        None => RunEnd::Quiet,
        Some(_) => RunEnd::Steps,
    }
}
