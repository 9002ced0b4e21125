//! A bundle with where it differs from the one of the run before.
use crate::Bundle;
use pg_graph::VertexId;
use pg_model::Sequence;
use pg_program::Plain;

/// A bundle of a run, and, where they are known, the targets at which it differs from that of the run before,
/// by rising id.
#[derive(Drop)]
pub struct LoggedBundle<M: Plain> {
    pub bundle: Bundle<M>,
    pub changed: Option<Sequence<VertexId>>,
}
