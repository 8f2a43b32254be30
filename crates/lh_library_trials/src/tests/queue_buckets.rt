//! The buckets of a queue and the keys of its wishes, before and after a take.
ghost use Rattle.std.specs.Prelude.{◌≡◌, ◌≢◌, ◌⊎◌, ◌<◌, ℕ, length, get_or, true, IfOk};
ghost use Rattle.lh_time.specs.Order.{instant_le};
ghost use Rattle.lh_queue.specs.Queued.{EachWithin, BitsWithin, NamesOnce, NoneDueBefore};
ghost use Rattle.lh_library_trials.specs.declared.tests.queue_buckets.Row.{Row};

use crate::instants::instant;
use lh_bits::bits::Bits;
use lh_bits::writes::BitWrites;
use lh_queue::queue::{Bucket, Queue};
use lh_queue::wish::Wish;
use lh_time::Instant;
use lh_types::memory::NoMemory;
use std::alloc::Global;
use std::test::Fail;

/// A wish that is put: by which instance, when it is due, and what one bit becomes then.
#[derive(Clone, Copy)]
struct Row {
    instance: u32,
    due: Instant,
    bit: u32,
    value: bool,
}

const START: Instant = Instant {
    fs: 0,
    delta: 0,
    eps: 0,
};

fn row_of(instance: u32, due: Instant, bit: u32, value: bool) -> Row {
    Row {
        instance,
        due,
        bit,
        value,
    }
}

/// The wish of a row on one of 8 bits, made at the start.
fn wish(alloc: Global, row: &Row) -> Result<Wish, NoMemory>
    requires { row.now.bit < 8 }
    ensures of { IfOk result (λ w. (w.due ≡ row.now.due) × (w.instance ≡ row.now.instance)) }
    ensures within { IfOk result (λ w. BitsWithin 8 w.bits) }
    ensures once { IfOk result (λ w. NamesOnce w.bits) }
{
    let mut bits = BitWrites::new(alloc);
    bits.push((row.bit, row.value))?;
    Ok(Wish {
        made: START,
        instance: row.instance,
        due: row.due,
        bits,
    })
}

/// Whether two rows differ in their due instants or their instances.
fn differ(a: &Row, b: &Row) -> bool
    ensures { result ≡ true → (a.now.due ≢ b.now.due) ⊎ (a.now.instance ≢ b.now.instance) }
{
    a.due != b.due || a.instance != b.instance
}

/// Whether a row differs from each before it in its due instant or its instance.
fn is_new(rows: &[Row], k: usize) -> bool
    requires { k < length rows.now }
    ensures { result ≡ true → (j : ℕ) (r s : Row) → j < k → ((get_or rows.now k s).due ≢ (get_or rows.now j r).due) ⊎ ((get_or rows.now k s).instance ≢ (get_or rows.now j r).instance) }
{
    for j in 0..k {
        if !differ(&rows[k], &rows[j]) {
            return false;
        }
    }
    true
}

/// A queue with the wishes of these rows, of which no two have one due instant and one instance.
fn filled(alloc: Global, rows: &[Row]) -> Result<Queue, NoMemory>
    ensures { IfOk result (λ queue. EachWithin 8 queue.held) }
{
    let mut queue = Queue::new(alloc);
    for k in 0..rows.len() {
        if rows[k].bit >= 8 || !is_new(rows, k) {
            return Err(NoMemory);
        }
        let wish = wish(alloc, &rows[k])?;
        queue.reserve(1)?;
        queue.put(wish);
    }
    Ok(queue)
}

/// Whether an instant is no later than another one.
fn is_upto(a: Instant, b: Instant) -> bool
    ensures { result ≡ instant_le a b }
{
    a.cmp(&b).is_le()
}

/// Whether no held wish is due before an instant.
fn starts_from(queue: &Queue, at: Instant) -> bool
    ensures { result ≡ true → NoneDueBefore at queue.now.held }
{
    match queue.next_due() {
        Some(due) => is_upto(at, due),
        None => true,
    }
}

/// Takes the wishes due at an instant, where none is due before it.
fn take(queue: &mut Queue, at: Instant, now: &mut Bits)
    requires { EachWithin 8 queue.old.held }
    ensures { EachWithin 8 queue.new.held }
{
    if starts_from(queue, at) && now.len() == 8 {
        queue.take_due(at, now);
    }
}

/// The key of the wish that follows one in its bucket.
fn next(queue: &Queue, key: usize) -> Option<usize> {
    if queue.wish(key).is_none() {
        return None;
    }
    queue.next_key(key)
}

/// The due instant of the wish of a key.
fn due(queue: &Queue, key: usize) -> Option<Instant> {
    Some(queue.wish(key)?.due)
}

/// Three wishes, two of which are due at one physical time.
fn three(alloc: Global) -> Result<Queue, NoMemory>
    ensures { IfOk result (λ queue. EachWithin 8 queue.held) }
{
    let rows = [
        row_of(0, instant(5, 0), 0, true),
        row_of(0, instant(7, 0), 1, true),
        row_of(0, instant(5, 1), 2, true),
    ];
    filled(alloc, &rows)
}

/// The first keys of the first two buckets.
fn firsts(queue: &Queue) -> Option<(Bucket, Bucket)> {
    match queue.buckets() {
        [five, seven] => Some((*five, *seven)),
        _ => None,
    }
}

/// The due instants of the first two wishes of the first bucket, and of the first wish of the second bucket.
fn dues(queue: &Queue) -> Option<(Option<Instant>, Option<Instant>, Option<Instant>)> {
    let (five, seven) = firsts(queue)?;
    let second = match next(queue, five.first) {
        Some(key) => due(queue, key),
        None => None,
    };
    Some((due(queue, five.first), second, due(queue, seven.first)))
}

/// Whether the first bucket has these wishes, and the second one what it has all the time.
fn has(queue: &Queue, first: Instant, second: Option<Instant>) -> bool {
    dues(queue) == Some((Some(first), second, Some(instant(7, 0))))
}

/// The key of the first wish of the first bucket, and that of the one behind it.
fn keys(queue: &Queue) -> Option<(usize, Option<usize>)> {
    let (five, _) = firsts(queue)?;
    Some((five.first, next(queue, five.first)))
}

/// Whether the wish that was second before stands first now, alone, under the key that it had.
fn has_moved_up(before: Option<(usize, Option<usize>)>, queue: &Queue) -> bool {
    match (before, keys(queue)) {
        (Some((_, Some(second))), Some((first, None))) => first == second,
        _ => false,
    }
}

#[test]
fn buckets_and_keys(rt: HostRuntime) -> Result<(), Fail> {
    let mut queue = three(rt.alloc())?;
    let mut now = Bits::zeros(rt.alloc(), 8)?;
    assert!(rt; has(&queue, instant(5, 0), Some(instant(5, 1))));
    let before = keys(&queue);
    take(&mut queue, instant(5, 0), &mut now);
    assert!(rt; has(&queue, instant(5, 1), None));
    assert!(rt; has_moved_up(before, &queue));
    Ok(())
}

#[test]
fn room_for_many_wishes(rt: HostRuntime) -> Result<(), Fail> {
    let mut queue = Queue::new(rt.alloc());
    queue.reserve(1_000_000)?;
    assert!(rt; queue.next_due().is_none());
    Ok(())
}
