//! The buckets of a queue in a row, of which the first is taken without moving the others.
ghost use Rattle.std.specs.Prelude.{◌≡◌, ◌≤◌, ◌<◌, ◌+◌, [], length, drop, vec_capacity, OnOk, OnErr, Some, slice_get, slice_set};
ghost use Rattle.std.specs.List.{insert};

use crate::queue::Bucket;
use lh_types::memory::NoMemory;
use std::alloc::Global;
use std::marker::Model;

/// From how many buckets on it is dear to move all of them.
const MANY: usize = 64;

/// Buckets in a row. Contracts see them as a list, and the number of buckets that go in without memory.
#[derive(Drop)]
pub struct BucketLine {
    all: Vec<Bucket>,
    // So many at the front are gone, or were never there.
    gone: usize,
}

impl Model for BucketLine {
    ghost use Rattle.std.specs.Prelude.{◌-◌, ◌≤◌, drop, length, vec_capacity};
    ghost use Rattle.lh_queue.specs.Line.{Buckets};

    ghost Value = { Buckets };

    ghost view = { λ l. record {
      items = drop l.gone l.all.items;
      spare = vec_capacity l.all - (length l.all.items - l.gone);
    } };

    ghost invariant = { λ l. l.gone ≤ length l.all.items };
}

impl BucketLine {
    /// No bucket; this takes no memory yet.
    pub fn new(alloc: Global) -> BucketLine
        ensures { result.items ≡ [] }
    {
        BucketLine {
            all: Vec::new(alloc),
            gone: 0,
        }
    }

    /// Makes room for so many more buckets, and for half as many as there are besides, where there is memory. It is refused only
    /// where there is no room for them already.
    pub fn reserve(&mut self, n: usize) -> Result<(), NoMemory>
        ensures ok { OnOk result (n ≤ self.new.spare) }
        ensures full { OnErr result (self.old.spare < n) }
        ensures items { self.new.items ≡ self.old.items }
        ensures spare { self.old.spare ≤ self.new.spare }
    {
        let count = self.all.len() - self.gone;
        let free = self.all.capacity() - count;
        if n <= free && count / 2 <= free - n {
            return Ok(());
        }
        let wide = self.all.reserve(n.saturating_add(count));
        if wide.is_ok() || n <= free {
            return Ok(());
        }
        self.all.reserve(n)?;
        Ok(())
    }

    /// The buckets in order.
    pub fn as_slice(&self) -> &[Bucket]
        ensures { result.now ≡ self.now.items }
    {
        &self.all[self.gone..]
    }

    /// The bucket at place `k`.
    pub fn get(&self, k: usize) -> Bucket
        requires { k < length self.now.items }
        ensures { slice_get self.now.items k ≡ Some result }
    {
        self.all[self.gone + k]
    }

    /// Puts a bucket at place `k`; the later ones move up, or the earlier ones down, whichever are fewer. It takes no memory.
    pub fn insert(&mut self, k: usize, bucket: Bucket)
        requires within { k ≤ length self.old.items }
        requires room { 0 < self.old.spare }
        ensures items { self.new.items ≡ insert self.old.items k bucket }
        ensures spare { self.old.spare ≤ self.new.spare + 1 }
    {
        self.make_way(k);
        let early = k < self.all.len() - self.gone - k;
        if self.gone > 0 && (early || self.all.len() == self.all.capacity()) {
            let free = self.gone - 1;
            self.all.copy_within(self.gone..self.gone + k, free);
            self.all[free + k] = bucket;
            self.gone = free;
            return;
        }
        match self.all.insert(self.gone + k, bucket) {
            Ok(()) => {}
            Err(_) => unreachable!(),
        }
    }

    /// Where there is no room on the side of place `k`, half of that on the other side goes there. This is rare.
    fn make_way(&mut self, k: usize)
        requires { k ≤ length self.old.items }
        ensures items { self.new.items ≡ self.old.items }
        ensures spare { self.old.spare ≤ self.new.spare }
    {
        if k < self.all.len() - self.gone - k {
            if self.gone == 0 && self.all.len() >= MANY {
                let free = self.all.capacity() - self.all.len();
                self.gone = move_up(&mut self.all, free.div_ceil(2));
            }
        } else if self.all.len() == self.all.capacity() {
            let by = self.gone.div_ceil(2);
            self.all.drain(..by);
            self.gone -= by;
        }
    }

    /// Makes the bucket at place `k` another one.
    pub fn set(&mut self, k: usize, bucket: Bucket)
        requires { k < length self.old.items }
        ensures items { self.new.items ≡ slice_set self.old.items k bucket }
        ensures spare { self.new.spare ≡ self.old.spare }
    {
        self.all[self.gone + k] = bucket;
    }

    /// Takes out the first bucket. The others move only where more than half of all are gone.
    pub fn remove_first(&mut self)
        requires { 0 < length self.old.items }
        ensures items { self.new.items ≡ drop 1 self.old.items }
        ensures spare { self.old.spare ≤ self.new.spare }
    {
        self.gone += 1;
        if self.gone > self.all.len() / 2 {
            self.all.drain(..self.gone);
            self.gone = 0;
        }
    }
}

/// Moves all buckets up, and says how far; what stands before them means nothing.
fn move_up(all: &mut Vec<Bucket>, by: usize) -> usize
    requires { length all.old.items + by ≤ vec_capacity all.old }
    ensures items { drop result all.new.items ≡ all.old.items }
    ensures within { result ≤ length all.new.items }
    ensures room { vec_capacity all.old ≤ vec_capacity all.new }
{
    let len = all.len();
    let unused = Bucket { fs: 0, first: 0 };
    if all.resize(len + by, unused).is_err() {
        return 0;
    }
    all.copy_within(0..len, by);
    by
}
