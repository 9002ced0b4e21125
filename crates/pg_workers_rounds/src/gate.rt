//! What a worker passes before it works.
use pg_graph::{Superstep, WorkerId};

/// What each worker passes before it works on a superstep.
pub trait Gate: Sync {
    /// Called by the worker's own thread, once a round.
    fn pass(&self, worker: WorkerId, superstep: Superstep);
}

/// A gate that stands open.
#[derive(Clone, Copy, Debug, PartialEq, Eq)]
pub struct NoGate;

impl Gate for NoGate {
    fn pass(&self, _worker: WorkerId, _superstep: Superstep) {}
}
