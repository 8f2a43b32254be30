//! Where to begin the search for the place of a wish. What is noted here is looked at before it is used, so no contract speaks of it.
ghost use Rattle.std.specs.Prelude.{◌<◌};

use lh_time::Instant;
use std::alloc::Global;
use std::collections::VecDeque;

/// How many classes of due instants there are.
const CLASSES: usize = 4;

/// From how many steps on a walk along a chain is long, and is parted by stops.
pub const LONG: usize = 32;

/// The class of a due instant: the nearest steps of one physical time have different ones.
fn class(due: Instant) -> usize
    ensures { result < 4 }
{
    (due.delta.wrapping_mul(3).wrapping_add(due.eps) % CLASSES as u64) as usize
}

/// The key of a wish, and when it is due.
#[derive(Clone, Copy)]
struct Stop {
    due: Instant,
    key: usize,
}

/// For each class of due instants the wish that was put last, and stops along the chains.
///
/// Most wishes of one due instant come in their order, and go behind the one before: then no chain is walked. For the others there
/// is a stop not far before their place, once a long way was walked.
#[derive(Drop)]
pub struct Hints {
    last: [Stop; CLASSES],
    // The due instants rise.
    stops: VecDeque<Stop>,
    // So many stops have room.
    room: usize,
}

impl Hints {
    /// Nothing is known.
    pub fn new(alloc: Global) -> Hints {
        let due = Instant {
            fs: 0,
            delta: 0,
            eps: 0,
        };
        Hints {
            last: [Stop { due, key: 0 }; CLASSES],
            stops: VecDeque::new(alloc),
            room: 0,
        }
    }

    /// Makes room for the stops of so many wishes, where there is memory: what does not fit is not known.
    pub fn make_room(&mut self, wishes: usize) {
        let most = wishes / LONG * 2;
        if most > self.room {
            let _ = self.stops.reserve(most.saturating_sub(self.stops.len()));
            self.room = self.stops.capacity();
        }
    }

    /// The key of a wish that is due then or not long before, as far as one is known.
    pub fn get(&self, due: Instant) -> Option<usize> {
        let last = &self.last[class(due)];
        if last.due == due {
            return Some(last.key);
        }
        self.nearest(due, *last)
    }

    /// The key of the later one of a stop and of the last one that is due then or before, as far as they are.
    fn nearest(&self, due: Instant, other: Stop) -> Option<usize> {
        match self.stop_upto(due) {
            Some(stop) if other.due < stop.due || due < other.due => Some(stop.key),
            Some(_) => Some(other.key),
            None if other.due < due => Some(other.key),
            None => None,
        }
    }

    /// The last stop that is due then or before.
    fn stop_upto(&self, due: Instant) -> Option<Stop> {
        let count = self.stops_upto(due);
        self.stops.get(count.checked_sub(1)?).copied()
    }

    /// How many stops are due then or before.
    fn stops_upto(&self, due: Instant) -> usize {
        self.stops.partition_point(|stop| stop.due <= due)
    }

    /// A wish that was put.
    pub fn note(&mut self, due: Instant, key: usize) {
        let last = &mut self.last[class(due)];
        let known = last.due == due;
        *last = Stop { due, key };
        if !known {
            self.move_stop(due, key);
        }
    }

    /// The stop of an instant, where there is one, becomes this wish. It is the answer whether there is one.
    fn move_stop(&mut self, due: Instant, key: usize) -> bool {
        let Some(k) = self.stops_upto(due).checked_sub(1) else {
            return false;
        };
        match self.stops.get_mut(k) {
            Some(stop) if stop.due == due => {
                stop.key = key;
                true
            }
            _ => false,
        }
    }

    /// Makes a wish a stop, after so many steps of a walk along its chain. It takes no memory.
    pub fn pass(&mut self, step: usize, due: Instant, key: usize) {
        if step % LONG != LONG - 1 || self.move_stop(due, key) {
            return;
        }
        let len = self.stops.len();
        if len < self.stops.capacity() {
            let k = self.stops_upto(due);
            let _ = self.stops.insert(k.min(len), Stop { due, key });
        }
    }

    /// The wishes due up to an instant are gone.
    pub fn forget(&mut self, at: Instant) {
        while let Some(stop) = self.stops.front() {
            if stop.due > at {
                return;
            }
            self.stops.pop_front();
        }
    }
}
