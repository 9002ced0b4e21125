//! The graph that a service keeps: rows by rising vertex id, and batches of edits that are made of it at once.
#![tactic(auto)]

mod batch;
mod draft;
mod entries;
mod graph;
mod grouped;
mod missing;

pub use batch::Batch;
pub use graph::Graph;
pub use missing::Missing;
pub use pg_graph_rows::{Edges, Edit, EditFault, EditKind, Row};
pub use pg_map::{
    Cursor, Edition, Ids, Iter, PartitionId, Superstep, VertexId, WorkerId, checked_u32,
};
pub use std::alloc::AllocError as Memory;
