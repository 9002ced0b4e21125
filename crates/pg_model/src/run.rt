//! The answer of a run.
use crate::Sequence;
use pg_graph::VertexId;

/// Why a run ended.
#[derive(Clone, Copy, Debug, PartialEq, Eq)]
pub enum Ending {
    /// The master called halt.
    MasterHalted,
    /// All vertices are halted and no id has a message.
    Finished,
    /// As many supersteps were executed as the limit says.
    LimitReached,
}

/// The answer of a run.
#[derive(Drop)]
pub struct Run<V> {
    /// The value of each vertex, by rising id.
    pub values: Sequence<(VertexId, V)>,
    /// The gathered aggregates after the last superstep, by place.
    pub aggregates: Sequence<i64>,
    pub ending: Ending,
    /// How many supersteps were executed.
    pub supersteps: u32,
    /// How many messages were sent, before combining; it stops at 2^64 - 1.
    pub sent: u64,
    /// How many of them were dropped; it stops at 2^64 - 1.
    pub dropped: u64,
}
