//! Which vertices belong to which partition, with which states they begin, and what goes from partition to partition.
#![tactic(auto)]

mod begin;
mod partitioner;
mod received;
mod sending;
mod sent;

pub use begin::first_changes;
pub use partitioner::{PartitionOf, Partitioner, Rows};
pub use pg_graph::Memory;
pub use received::bundles_before;
pub use sent::{Sent, fresh_bundles, rebuilt_bundles, recorded_bundles};
