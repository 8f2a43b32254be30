//! The signals that wishes due at an instant may change.
ghost use Rattle.std.specs.Prelude.{◌≡◌, length, IfOk};
ghost use Rattle.lh_design.specs.Filling.{SignalsFill};
ghost use Rattle.lh_queue.specs.Queued.{NoneDueBefore, EachWithin};
ghost use Rattle.lh_time.specs.Order.{instant_eq};
ghost use Rattle.lh_kernel.specs.Touched.{MayChange, first_in};

use lh_design::Design;
use lh_kernel_changes::signals::touch_written;
use lh_kernel_wakes::gathered::Gathered;
use lh_kernel_wakes::rising::Rising;
use lh_queue::queue::{Bucket, Queue};
use lh_queue::wish::Wish;
use lh_time::Instant;
use lh_types::memory::NoMemory;
use std::alloc::Global;

/// The signals that the wishes due at an instant may change. None may be due before it. The work grows with these wishes alone.
pub(crate) fn touched_at(
    alloc: Global,
    design: &Design,
    queue: &Queue,
    at: Instant,
) -> Result<Rising, NoMemory>
    requires fill { SignalsFill design.now }
    requires within { EachWithin (length design.now.init) queue.now.held }
    requires due { NoneDueBefore at queue.now.held }
    ensures { IfOk result
        (λ touched. MayChange design.now.signals.items (length design.now.init) queue.now.held at touched) }
{
    let touched = gathered_at(alloc, design, queue, at)?.into_rising(alloc)?;
    Ok(touched)
}

/// These signals, as the wishes name them.
fn gathered_at(
    alloc: Global,
    design: &Design,
    queue: &Queue,
    at: Instant,
) -> Result<Gathered, NoMemory>
    requires fill { SignalsFill design.now }
    requires within { EachWithin (length design.now.init) queue.now.held }
    requires due { NoneDueBefore at queue.now.held }
    ensures { IfOk result
        (λ touched. MayChange design.now.signals.items (length design.now.init) queue.now.held at touched) }
{
    let mut touched = Gathered::new(alloc);
    let mut key = first_in(queue.buckets());
    while let Some(k) = key {
        let Some(wish) = queue.wish(k) else {
            return Ok(touched);
        };
        if !is_due(wish, at) {
            return Ok(touched);
        }
        touch_written(&mut touched, design, &wish.bits)?;
        key = queue.next_key(k);
    }
    Ok(touched)
}

/// The first key of the first bucket.
fn first_in(buckets: &[Bucket]) -> Option<usize>
    ensures { result ≡ first_in buckets.now }
{
    match buckets.first() {
        Some(bucket) => Some(bucket.first),
        None => None,
    }
}

/// Whether a wish is due at an instant.
fn is_due(wish: &Wish, at: Instant) -> bool
    ensures { result ≡ instant_eq wish.now.due at }
{
    wish.due == at
}
