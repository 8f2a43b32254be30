//! Ranges of bits of an argument.
ghost use Rattle.std.specs.Prelude.{◌≡◌, [], ◌∷◌, ◌++◌, IfOk, OnOk};
ghost use Rattle.lh_types.specs.Types.{bit_count};
ghost use Rattle.lh_term_cover.specs.Runs as spec;

use lh_term::part::Part;
use lh_types::memory::NoMemory;
use lh_types::ty::{Ty, TyKind, bits};
use std::alloc::Global;

/// The bits of an argument from `lo` to before `end`.
#[derive(Clone, Copy, PartialEq, Eq, PartialOrd, Ord)]
pub(crate) struct CoverRun {
    pub(crate) arg: u32,
    pub(crate) lo: u64,
    pub(crate) end: u64,
}

/// The bits of a part.
pub(crate) fn run_of(part: &Part) -> CoverRun
    ensures { result ≡ spec.run_of part.now }
{
    let lo = u64::from(part.lo);
    CoverRun {
        arg: part.arg,
        lo,
        end: lo + u64::from(bits_of(&part.ty)),
    }
}

/// How many bits a value of any type has; 0 for what carries none.
fn bits_of(ty: &Ty) -> u32
    ensures { result ≡ bit_count ty.now }
{
    match ty.kind() {
        TyKind::Time | TyKind::Void | TyKind::Pointer(_) => 0,
        TyKind::Signal(of) => bits(of),
        TyKind::Int(_) | TyKind::Array(_, _) | TyKind::Tuple(_) => bits(ty),
    }
}

/// The bits of each part that has some.
pub(crate) fn bits_from(alloc: Global, parts: &[Part]) -> Result<Vec<CoverRun>, NoMemory>
    ensures { IfOk result (λ runs. runs.items ≡ spec.runs_of parts.now) }
{
    let mut runs = Vec::new(alloc);
    for part in parts {
        let run = run_of(part);
        if run.lo < run.end {
            put(&mut runs, run)?;
        }
    }
    Ok(runs)
}

/// Sorted ranges, with those that meet or touch made one.
pub(crate) fn merged(alloc: Global, sorted: &[CoverRun]) -> Result<Vec<CoverRun>, NoMemory>
    ensures { IfOk result (λ runs. runs.items ≡ spec.merged sorted.now) }
{
    let mut runs = Vec::new(alloc);
    let [first, rest @ ..] = sorted else {
        return Ok(runs);
    };
    let mut last = *first;
    for run in rest {
        if touches(&last, run) {
            last.end = last.end.max(run.end);
        } else {
            put(&mut runs, last)?;
            last = *run;
        }
    }
    put(&mut runs, last)?;
    Ok(runs)
}

/// Whether a range that begins no earlier than another meets or touches it.
fn touches(last: &CoverRun, next: &CoverRun) -> bool
    ensures { result ≡ spec.touches last.now next.now }
{
    last.arg == next.arg && next.lo <= last.end
}

/// Whether a range begins no later than another.
pub(crate) fn starts_by(run: &CoverRun, other: &CoverRun) -> bool
    ensures { result ≡ spec.starts_by run.now other.now }
{
    run.arg < other.arg || run.arg == other.arg && run.lo <= other.lo
}

/// Whether a range has all bits of another that begins no earlier.
pub(crate) fn is_within(run: &CoverRun, other: &CoverRun) -> bool
    ensures { result ≡ spec.ends_within run.now other.now }
{
    run.arg == other.arg && run.end <= other.end
}

/// Whether these are the same ranges.
pub(crate) fn are_same(runs: &[CoverRun], others: &[CoverRun]) -> bool
    ensures { result ≡ spec.same_runs runs.now others.now }
{
    runs == others
}

fn put(runs: &mut Vec<CoverRun>, run: CoverRun) -> Result<(), NoMemory>
    ensures { OnOk result (runs.new.items ≡ runs.old.items ++ run ∷ []) }
{
    runs.push(run)?;
    Ok(())
}
