//! What a superstep comes to in one partition.
use pg_model::Sequence;

/// How many vertices there are as a superstep begins.
#[derive(Clone, Copy, Debug, PartialEq, Eq)]
pub struct VertexCounts {
    pub vertices: u64,
    /// Their out-edges.
    pub edges: u64,
    /// Those of the vertices that aren't halted.
    pub unhalted: u64,
}

/// How many messages were sent in a superstep, before combining.
#[derive(Clone, Copy, Debug, PartialEq, Eq)]
pub struct MessageCounts {
    pub sent: u64,
    /// Those of the messages that were dropped, since they went to no vertex.
    pub dropped: u64,
}

/// What a partition has come to as a superstep begins.
#[derive(Drop)]
pub struct PartitionStats {
    pub vertex_counts: VertexCounts,
    /// Of the superstep before; nothing as a run begins.
    pub message_counts: MessageCounts,
    /// By place, what its vertices contributed in the superstep before comes to, from the initial value on.
    pub gathered: Sequence<i64>,
}
