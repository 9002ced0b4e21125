//! What stands at the start of a superstep.
use crate::Sequence;
use pg_graph::{Edges, VertexId};

/// The state of a vertex.
#[derive(Drop)]
pub struct VertexState<V> {
    pub id: VertexId,
    pub value: V,
    pub edges: Edges,
    pub halted: bool,
}

/// A vertex and what it has received.
#[derive(Drop)]
pub struct VertexWithInbox<V, M> {
    pub state: VertexState<V>,
    pub inbox: Sequence<M>,
}

/// What stands at the start of a superstep.
#[derive(Drop)]
pub struct Configuration<V, M> {
    /// The vertices that have a state, by rising id.
    pub with_inboxes: Sequence<VertexWithInbox<V, M>>,
    /// What waits for ids that have no state, by rising id; no inbox is empty.
    pub waiting: Sequence<(VertexId, Sequence<M>)>,
    /// The gathered aggregates, by place.
    pub gathered: Sequence<i64>,
    /// How many messages were sent so far, before combining; it stops at 2^64 - 1.
    pub sent: u64,
    /// How many of them were dropped; it stops at 2^64 - 1.
    pub dropped: u64,
}
