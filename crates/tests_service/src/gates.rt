//! A gate at which a worker waits for a reader.
use pg_graph::{Superstep, WorkerId};
use pg_service::Gate;
use std::sync::atomic::{AtomicBool, AtomicU64, Ordering};
use tests_rounds::is_set_in_time;

/// A gate at whose first pass the worker waits until a reader has looked; and how often worker 0 and worker 1 have
/// passed.
#[derive(Drop)]
pub(crate) struct Watched {
    entered: AtomicBool,
    looked: AtomicBool,
    missed: AtomicBool,
    first: AtomicU64,
    second: AtomicU64,
}

impl Watched {
    pub(crate) fn new() -> Watched {
        Watched {
            entered: AtomicBool::new(false),
            looked: AtomicBool::new(false),
            missed: AtomicBool::new(false),
            first: AtomicU64::new(0),
            second: AtomicU64::new(0),
        }
    }

    /// Waits until a worker is at the gate, and tells whether one came.
    pub(crate) fn is_entered(&self) -> bool {
        is_set_in_time(&self.entered)
    }

    /// Lets the worker pass that waits at the gate.
    pub(crate) fn let_pass(&self) {
        self.looked.store(true, Ordering::SeqCst);
    }

    /// Whether the worker at the gate waited in vain.
    pub(crate) fn was_missed(&self) -> bool {
        self.missed.load(Ordering::SeqCst)
    }

    /// How often worker 0 has passed.
    pub(crate) fn first_passed(&self) -> u64 {
        self.first.load(Ordering::SeqCst)
    }

    /// How often worker 1 has passed.
    pub(crate) fn second_passed(&self) -> u64 {
        self.second.load(Ordering::SeqCst)
    }
}

impl Gate for Watched {
    fn pass(&self, worker: WorkerId, _superstep: Superstep) {
        let passes = if worker.number() == 0 {
            &self.first
        } else {
            &self.second
        };
        passes.fetch_add(1, Ordering::SeqCst);
        if self.entered.swap(true, Ordering::SeqCst) {
            return;
        }
        if !is_set_in_time(&self.looked) {
            self.missed.store(true, Ordering::SeqCst);
        }
    }
}
