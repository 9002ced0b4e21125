//! What a superstep comes to, in one partition and in all of them, and what changes make of a partition's stats: a new
//! run's are had from an old one's, or from the superstep before.
#![tactic(auto)]

mod gathering;
mod global_stats;
mod messages;
mod recorded;
mod stats;
mod vertices;

pub use gathering::{contribute_alike, gathered};
pub use global_stats::GlobalStats;
pub use messages::{message_counts, message_counts_warm};
pub use pg_graph::Memory;
pub use recorded::message_counts_recorded;
pub use stats::{MessageCounts, PartitionStats, VertexCounts};
pub use vertices::{
    VertexCountsDelta, vertex_counts, vertex_counts_among, vertex_counts_delta_among, with_delta,
};
