//! What is counted of a run on workers.
use pg_graph::{Superstep, WorkerId};
use pg_model::Sequence;
use pg_workers_rounds::Cause;

/// A worker that fell, the superstep of the round in which it did, and why.
#[derive(Clone, Copy, Debug, PartialEq, Eq)]
pub struct Loss {
    pub worker: WorkerId,
    pub superstep: Superstep,
    pub cause: Cause,
}

/// How many times compute was called in steps that were given back, which stops at 2^64 - 1; how many steps each
/// partition has made; and the workers that fell, in their order.
#[derive(Drop)]
pub struct Counts {
    pub calls: u64,
    pub steps: Sequence<u64>,
    pub losses: Sequence<Loss>,
}
