//! A place at which two threads wait for each other.
use pg_graph::{Memory, Superstep, WorkerId};
use pg_workers::Gate;
use std::sync::Arc;
use std::sync::atomic::{AtomicBool, Ordering};
use std::thread;
use tests_kit::{Listener, Moment};

/// Two flags, one of each side, and whether a side waited in vain. As a gate, worker 0 is one side, and all others are
/// the other.
#[derive(Drop)]
pub struct Meeting {
    first: AtomicBool,
    second: AtomicBool,
    missed: AtomicBool,
}

impl Meeting {
    /// None has come yet.
    pub fn new() -> Meeting {
        Meeting {
            first: AtomicBool::new(false),
            second: AtomicBool::new(false),
            missed: AtomicBool::new(false),
        }
    }

    /// One side sets its flag and waits until the other's is set, for so many turns at most.
    pub fn meet(&self, is_first: bool) {
        let (own, other) = if is_first {
            (&self.first, &self.second)
        } else {
            (&self.second, &self.first)
        };
        own.store(true, Ordering::SeqCst);
        if !is_set_in_time(other) {
            self.missed.store(true, Ordering::SeqCst);
        }
    }

    /// Whether both sides came, and neither waited in vain.
    pub fn was_held(&self) -> bool {
        let both = self.first.load(Ordering::SeqCst) && self.second.load(Ordering::SeqCst);
        both && !self.missed.load(Ordering::SeqCst)
    }
}

impl Gate for Meeting {
    fn pass(&self, worker: WorkerId, _superstep: Superstep) {
        self.meet(worker.number() == 0);
    }
}

/// Whether a flag is set, at once or within ten million turns, in each of which other threads may go on.
pub fn is_set_in_time(flag: &AtomicBool) -> bool {
    for _ in 0..10_000_000 {
        if flag.load(Ordering::SeqCst) {
            return true;
        }
        thread::yield_now();
    }
    false
}

/// The listener by which the vertices 1 and 2 of a program meet in superstep 0.
#[derive(Drop)]
pub struct Waiting {
    pub meeting: Arc<Meeting>,
}

impl Listener for Waiting {
    fn hear(&self, moment: Moment) -> Result<(), Memory> {
        if let Moment::Compute(superstep, vertex) = moment {
            if superstep.number() == 0 {
                self.meeting.meet(vertex.number() == 1);
            }
        }
        Ok(())
    }
}
