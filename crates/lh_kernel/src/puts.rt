//! Taking what the instances of a frame did.
ghost use Rattle.std.specs.Prelude.{◌≡◌, ◌<◌, ◌≤◌, ◌+◌, length, slice_set};
ghost use Rattle.lh_unit.specs.Within.{Each};
ghost use Rattle.lh_kernel.specs.declared.run.Activation as ran;
ghost use Rattle.lh_kernel.specs.Ran.{states_after};
ghost use Rattle.lh_queue.specs.Queued.{NoneCompetes, NamesOnce};
ghost use Rattle.lh_kernel.specs.Puts.{wish_by, wishes_by, wishes_ran, WasPut, WerePut, CanBePut};

use crate::run::Activation;
use lh_bits::mostly_one::Items;
use lh_bits::writes::{BitWrites, DueWrites};
use lh_kernel_states::state::InstState;
use lh_queue::queue::Queue;
use lh_queue::wish::Wish;
use lh_time::Instant;

/// Takes what the instances did at an instant: their wishes into the queue, and their states. It takes no memory.
pub(crate) fn take_acts(
    queue: &mut Queue,
    states: &mut Vec<InstState>,
    at: Instant,
    acts: Vec<Activation>,
)
    requires can { CanBePut queue.old.held (wishes_ran at acts.items) }
    requires room { length (wishes_ran at acts.items) ≤ queue.old.spare }
    requires known { Each (λ (x : ran.Activation). x.instance < length states.old.items) acts.items }
    ensures put { WerePut queue.old.held (wishes_ran at acts.items) queue.new.held }
    ensures states { states.new.items ≡ states_after states.old.items acts.items }
{
    for done in acts {
        let Activation { instance, act } = done;
        let (next, wishes) = act.into_parts();
        put_wishes(queue, at, instance, wishes);
        set_state(states, instance, next);
    }
}

/// What is kept of an instance becomes this.
fn set_state(states: &mut Vec<InstState>, instance: u32, next: InstState)
    requires known { instance < length states.old.items }
    ensures { states.new.items ≡ slice_set states.old.items instance next }
{
    states[instance as usize] = next;
}

/// Puts the wishes that an instance made at an instant. It takes no memory.
fn put_wishes(queue: &mut Queue, at: Instant, instance: u32, wishes: DueWrites)
    requires can { CanBePut queue.old.held (wishes_by at instance wishes) }
    requires room { length wishes ≤ queue.old.spare }
    ensures put { WerePut queue.old.held (wishes_by at instance wishes) queue.new.held }
    ensures spare { queue.old.spare ≤ queue.new.spare + length wishes }
{
    match wishes.into_items() {
        Items::Empty => {}
        Items::One([wish]) => put_wish(queue, at, instance, wish),
        Items::Many(wishes) => put_many(queue, at, instance, wishes),
    }
}

/// Puts any number of wishes into the queue.
fn put_many(queue: &mut Queue, at: Instant, instance: u32, wishes: Vec<(Instant, BitWrites)>)
    requires can { CanBePut queue.old.held (wishes_by at instance wishes.items) }
    requires room { length wishes.items ≤ queue.old.spare }
    ensures put { WerePut queue.old.held (wishes_by at instance wishes.items) queue.new.held }
    ensures spare { queue.old.spare ≤ queue.new.spare + length wishes.items }
{
    for wish in wishes {
        put_wish(queue, at, instance, wish);
    }
}

/// Puts what an instance wished at an instant for one at which it is due.
fn put_wish(queue: &mut Queue, at: Instant, instance: u32, wish: (Instant, BitWrites))
    requires room { 0 < queue.old.spare }
    requires apart { NoneCompetes (wish_by at instance wish) queue.old.held }
    requires once { NamesOnce wish.1 }
    ensures put { WasPut queue.old.held (wish_by at instance wish) queue.new.held }
    ensures spare { queue.old.spare ≤ queue.new.spare + 1 }
{
    let (due, bits) = wish;
    queue.put(Wish {
        made: at,
        instance,
        due,
        bits,
    });
}
