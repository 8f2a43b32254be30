//! A queue of wishes in buckets, a bucket for each physical time, with the wishes themselves in a slab.
ghost use Rattle.std.specs.Prelude.{◌≡◌, ◌≢◌, ◌≤◌, ◌<◌, ◌+◌, ◌∷◌, ℕ, [], length, IsSome, None, OnOk, OnErr, slice_get, option_copied};
ghost use Rattle.lh_types.specs.History.{values_by};
ghost use Rattle.lh_queue.specs.Queued.{QueuedWish, with_held, wish_at, due_later, NoneDueBefore, NoneCompetes, NamesOnce, EachWithin, IsLeastDue, AreInOrder, KeysDiffer};
ghost use Rattle.lh_queue.specs.Holds.{entries, HoldsFor, AreBitsAt, HoldsOn, HoldsOneWishMore, IsSoonestDue};
ghost use Rattle.lh_queue.specs.Buckets.{buckets_of, next_in, AreBuckets};
ghost use Rattle.lh_queue.specs.Places.{IsPlace, GoesAlone, IsFirstInBucket, GoesAfter, StandsBeforeInBucket, WishIsPut, earlier, first_key, first_wish, starts_at, first_of, comes_before, next_before, is_near};

use crate::hints::{Hints, LONG};
use crate::line::BucketLine;
use crate::wish::Wish;
use lh_bits::bits::Bits;
use lh_time::Instant;
use lh_types::memory::NoMemory;
use slab::Slab;
use std::alloc::Global;
use std::marker::Model;

/// A physical time at which wishes are due, and the first of them.
#[derive(Clone, Copy)]
pub struct Bucket {
    /// The time, in femtoseconds.
    pub fs: u64,
    /// The key of the first wish that is due then, by due instant, made instant and instance.
    pub first: usize,
}

/// A wish and the key of the next one of its bucket.
#[derive(Drop)]
struct Linked {
    wish: Wish,
    next: Option<usize>,
}

/// Where a wish goes: alone into a new bucket of this number, first into the bucket of this number, or behind the wish to which a
/// walk led.
#[derive(Clone, Copy)]
enum Insertion {
    Alone(usize),
    First(usize),
    After(Walk),
}

/// A walk along the chain of a bucket, from the wish of one key to that of another one.
#[derive(Clone, Copy)]
struct Walk {
    from: usize,
    to: usize,
    steps: usize,
}

/// The wishes that are still due.
///
/// Each has a key, which it keeps as long as it is held. Contracts see a queue as the list of its keys and wishes in order of
/// the wishes, and as the number of wishes that it takes without memory.
#[derive(Drop)]
pub struct Queue {
    links: Slab<Linked>,
    // The times rise.
    buckets: BucketLine,
    hints: Hints,
}

impl Model for Queue {
    ghost use Rattle.lh_queue.specs.Queued.{Waiting};

    ghost Value = { Waiting };

    ghost use Rattle.lh_queue.specs.Stored.{held_by, spare_by, StoresSome};

    ghost view = { λ q. record {
      held = held_by q.links q.buckets.items;
      spare = spare_by q.links q.buckets.spare;
    } };

    ghost invariant = { λ q. StoresSome q.links q.buckets.items };
}

impl Queue {
    /// An empty queue, which takes no memory yet.
    pub fn new(alloc: Global) -> Queue
        ensures held { result.held ≡ [] }
        ensures holds { HoldsFor result.held [] None }
    {
        Queue {
            links: Slab::new(alloc),
            buckets: BucketLine::new(alloc),
            hints: Hints::new(alloc),
        }
    }

    /// Makes room, so that `n` more wishes can be put without memory.
    ///
    /// The answer is `NoMemory` only when memory runs out, and never where there is room for them already. Whatever it answers, the wishes, their keys
    /// and the buckets stay.
    pub fn reserve(&mut self, n: usize) -> Result<(), NoMemory>
        ensures ok { OnOk result (n ≤ self.new.spare) }
        ensures full { OnErr result (self.old.spare < n) }
        ensures held { self.new.held ≡ self.old.held }
        ensures spare { self.old.spare ≤ self.new.spare }
    {
        let _ = self.links.capacity();
        self.links.reserve(n)?;
        self.buckets.reserve(n)?;
        self.hints.make_room(self.links.len().saturating_add(n));
        Ok(())
    }

    /// Adds a wish under a key that no held wish has; every other wish keeps its key. It takes no memory.
    ///
    /// There has to be room for it (`reserve`). No held wish may have its due instant, made instant and instance, and it may
    /// name each bit at most once.
    pub fn put(&mut self, w: Wish)
        requires room { 0 < self.old.spare }
        requires apart { NoneCompetes w self.old.held }
        requires once { NamesOnce w.bits }
        ensures adds { (key : ℕ) × (wish_at self.old.held key ≡ None) × (self.new.held ≡ with_held self.old.held (record { key = key; wish = w })) }
        ensures spare { self.old.spare ≤ self.new.spare + 1 }
        ensures holds { HoldsOneWishMore self.old.held w self.new.held }
    {
        match self.place(&w) {
            Insertion::Alone(k) => self.put_alone(k, w),
            Insertion::First(k) => self.put_first(k, w),
            Insertion::After(walk) => self.put_after(walk, w),
        }
    }

    /// The least instant at which a held wish is due; `None` exactly where no wish is held.
    ///
    /// Where each held wish names a bit, this is the soonest instant after the taking before at which anything ever wished is due.
    pub fn next_due(&self) -> Option<Instant>
        ensures least { IsLeastDue self.now.held result }
        ensures soonest { IsSoonestDue self.now.held result }
    {
        let _ = &self.links;
        match self.first() {
            Some(wish) => Some(wish.due),
            None => None,
        }
    }

    /// Takes out the wishes that are due at an instant, and sets their bits: of two that set one bit the one made later, and of
    /// two made together the one of the greater instance, decides. Every other wish keeps its key.
    ///
    /// No held wish may be due before the instant, and the held wishes name only bits below the length of `now`. Where `now` has
    /// the bits at the taking before, or at the first taking the initial ones, it then has those at this instant, by every
    /// history for which the wishes were held.
    pub fn take_due(&mut self, at: Instant, now: &mut Bits)
        requires due { NoneDueBefore at self.old.held }
        requires within { EachWithin (length now.old) self.old.held }
        ensures left { self.new.held ≡ due_later at self.old.held }
        ensures spare { self.old.spare ≤ self.new.spare }
        ensures bits { now.new ≡ values_by (entries self.old.held) at 0 now.old }
        ensures values { AreBitsAt self.old.held now.old at now.new }
        ensures holds { HoldsOn self.old.held at self.new.held }
    {
        let _ = &self.links;
        while self.starts_at(at) {
            let wish = self.take_first();
            wish.set(now);
            drop(wish);
        }
        self.hints.forget(at);
    }

    /// Sets the bits that taking out the wishes due at an instant would set, on the same conditions, and leaves the queue as it
    /// is. It takes no memory.
    pub fn look_due(&self, at: Instant, now: &mut Bits)
        requires due { NoneDueBefore at self.now.held }
        requires within { EachWithin (length now.old) self.now.held }
        ensures bits { now.new ≡ values_by (entries self.now.held) at 0 now.old }
        ensures values { AreBitsAt self.now.held now.old at now.new }
    {
        let _ = &self.links;
        let mut key = self.first_key();
        while let Some(k) = key {
            let Some(wish) = self.wish(k) else { return };
            if !wish.is_due(at) {
                return;
            }
            wish.set(now);
            key = self.next_key(k);
        }
    }

    /// The buckets: their times rise strictly, and are exactly the physical times at which held wishes are due. From the first
    /// key of each, by `next_key`, come the keys of exactly the wishes due at its time, each once, by due instant, made instant
    /// and instance.
    pub fn buckets(&self) -> &[Bucket]
        ensures list { result.now ≡ buckets_of self.now.held }
        ensures lead { AreBuckets self.now.held result.now }
        ensures order { AreInOrder self.now.held }
        ensures keys { KeysDiffer self.now.held }
    {
        self.buckets.as_slice()
    }

    /// The held wish of a key; `None` exactly where no held wish has the key.
    pub fn wish(&self, key: usize) -> Option<&Wish>
        ensures { option_copied result ≡ wish_at self.now.held key }
    {
        match self.links.get(key) {
            Some(linked) => Some(&linked.wish),
            None => None,
        }
    }

    /// The key of the wish that comes next in the bucket of the held wish of this key; `None` exactly where there is no further one.
    pub fn next_key(&self, key: usize) -> Option<usize>
        requires { IsSome (wish_at self.now.held key) }
        ensures { result ≡ next_in self.now.held key }
    {
        self.links[key].next
    }

    /// The key of the first wish.
    fn first_key(&self) -> Option<usize>
        ensures { result ≡ first_key self.now.held }
    {
        match self.buckets.as_slice().first() {
            Some(bucket) => Some(bucket.first),
            None => None,
        }
    }

    /// The first wish.
    fn first(&self) -> Option<&Wish>
        ensures { option_copied result ≡ first_wish self.now.held }
    {
        match self.first_key() {
            Some(key) => self.wish(key),
            None => None,
        }
    }

    /// Whether the first wish is due at an instant.
    fn starts_at(&self, at: Instant) -> bool
        ensures { result ≡ starts_at at self.now.held }
    {
        match self.first() {
            Some(wish) => wish.is_due(at),
            None => false,
        }
    }

    /// Takes out the first wish.
    fn take_first(&mut self) -> Wish
        requires { self.old.held ≢ [] }
        ensures held { (key : ℕ) × (self.old.held ≡ (record { key = key; wish = result }) ∷ self.new.held) }
        ensures spare { self.old.spare ≤ self.new.spare }
    {
        let bucket = self.buckets.get(0);
        let linked = self.links.remove(bucket.first);
        match linked.next {
            Some(first) => self.buckets.set(0, Bucket { first, ..bucket }),
            None => self.buckets.remove_first(),
        }
        linked.wish
    }

    /// Where a wish goes.
    fn place(&self, w: &Wish) -> Insertion
        requires { NoneCompetes w.now self.now.held }
        ensures { IsPlace self.now.held w.now result }
    {
        let k = self.first_from(w.due.fs);
        match self.first_of(k, w.due.fs) {
            None => Insertion::Alone(k),
            Some(first) => {
                if self.comes_before(first, w) {
                    let near = self.near(first, w);
                    Insertion::After(self.last_before(near, w))
                } else {
                    Insertion::First(k)
                }
            }
        }
    }

    /// The number of the first bucket that is not of an earlier time.
    fn first_from(&self, fs: u64) -> usize
        ensures number { result ≡ earlier fs (buckets_of self.now.held) }
        ensures order { AreInOrder self.now.held }
        ensures keys { KeysDiffer self.now.held }
    {
        self.buckets
            .as_slice()
            .partition_point(|bucket| bucket.fs < fs)
    }

    /// The first key of the bucket of this number, where it is of this time.
    fn first_of(&self, k: usize, fs: u64) -> Option<usize>
        ensures { result ≡ first_of (slice_get (buckets_of self.now.held) k) fs }
    {
        match self.buckets.as_slice().get(k) {
            None => None,
            Some(bucket) => {
                if bucket.fs == fs {
                    Some(bucket.first)
                } else {
                    None
                }
            }
        }
    }

    /// Whether the wish of this key comes before a wish.
    fn comes_before(&self, key: usize, w: &Wish) -> bool
        ensures { result ≡ comes_before self.now.held key w.now }
    {
        match self.wish(key) {
            Some(wish) => wish.is_before(w),
            None => false,
        }
    }

    /// The key of the wish that comes next in the bucket, where it comes before a wish.
    fn next_before(&self, key: usize, w: &Wish) -> Option<usize>
        requires { IsSome (wish_at self.now.held key) }
        ensures { result ≡ next_before self.now.held key w.now }
    {
        match self.next_key(key) {
            None => None,
            Some(next) => {
                if self.comes_before(next, w) {
                    Some(next)
                } else {
                    None
                }
            }
        }
    }

    /// Whether the wish of this key is due at the physical time of a wish, and comes before it.
    fn is_near(&self, key: usize, w: &Wish) -> bool
        ensures { result ≡ is_near self.now.held key w.now }
    {
        match self.wish(key) {
            Some(wish) => wish.due.fs == w.due.fs && wish.is_before(w),
            None => false,
        }
    }

    /// The wish that is known, where it comes before a wish in its bucket, and else the bucket's first.
    fn near(&self, first: usize, w: &Wish) -> usize
        requires order { AreInOrder self.now.held }
        requires keys { KeysDiffer self.now.held }
        requires starts { StandsBeforeInBucket self.now.held w.now first }
        ensures { StandsBeforeInBucket self.now.held w.now result }
    {
        match self.hints.get(w.due) {
            Some(key) => { if self.is_near(key, w) { key } else { first } }
            None => first,
        }
    }

    /// The walk from a wish of the same bucket that comes before a wish to the last such.
    fn last_before(&self, from: usize, w: &Wish) -> Walk
        requires apart { NoneCompetes w.now self.now.held }
        requires order { AreInOrder self.now.held }
        requires keys { KeysDiffer self.now.held }
        requires starts { StandsBeforeInBucket self.now.held w.now from }
        ensures { GoesAfter self.now.held w.now result.to }
    {
        let mut to = from;
        let mut steps = 0usize;
        while let Some(next) = self.next_before(to, w) {
            to = next;
            steps = steps.saturating_add(1);
        }
        Walk { from, to, steps }
    }

    /// Puts a wish alone into a new bucket of this number.
    fn put_alone(&mut self, k: usize, w: Wish)
        requires room { 0 < self.old.spare }
        requires place { GoesAlone self.old.held w k }
        requires once { NamesOnce w.bits }
        ensures { WishIsPut self.old self.new w }
    {
        let fs = w.due.fs;
        let first = self.links.insert_reserved(Linked {
            wish: w,
            next: None,
        });
        self.buckets.insert(k, Bucket { fs, first });
    }

    /// Puts a wish first into the bucket of this number.
    fn put_first(&mut self, k: usize, w: Wish)
        requires room { 0 < self.old.spare }
        requires place { IsFirstInBucket self.old.held w k }
        requires once { NamesOnce w.bits }
        ensures { WishIsPut self.old self.new w }
    {
        let bucket = self.buckets.get(k);
        let next = Some(bucket.first);
        let first = self.links.insert_reserved(Linked { wish: w, next });
        self.buckets.set(k, Bucket { first, ..bucket });
    }

    /// Puts a wish behind the one to which a walk led.
    fn put_after(&mut self, walk: Walk, w: Wish)
        requires room { 0 < self.old.spare }
        requires place { GoesAfter self.old.held w walk.to }
        requires once { NamesOnce w.bits }
        ensures { WishIsPut self.old self.new w }
    {
        let due = w.due;
        let near = walk.to;
        part(&self.links, &mut self.hints, walk);
        let next = self.links[near].next;
        let key = self.links.insert_reserved(Linked { wish: w, next });
        self.links[near].next = Some(key);
        self.hints.note(due, key);
    }
}

/// Makes stops along a walk, where it is long, so that no further one is.
fn part(links: &Slab<Linked>, hints: &mut Hints, walk: Walk) {
    if walk.steps < LONG {
        return;
    }
    let mut key = walk.from;
    for step in 0..walk.steps {
        let Some(linked) = links.get(key) else { return };
        hints.pass(step, linked.wish.due, key);
        let Some(next) = linked.next else { return };
        key = next;
    }
}
