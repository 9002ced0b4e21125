//! One partition of a run: what it holds as a superstep begins, what a step makes of it, and what it came to in each
//! superstep so far.
#![tactic(auto)]

mod cold;
mod graphs;
mod part;
mod part_run;
mod resumed;
mod stats_history;
mod warm;

pub use graphs::member_changes;
pub use part::{DeferredPartDrop, Part, RetainedPart};
pub use part_run::{Lost, PartRun};
pub use pg_graph::Memory;
pub use pg_part_compute::rising;
pub use pg_part_routing::{PartitionOf, Partitioner, Rows, Sent};
pub use pg_stats::vertex_counts_among;
