//! The records of a superstep, side by side in memory, as two runs share them.
#![tactic(auto)]

mod change;
mod changes;
mod record;
mod records;

pub use changes::{Executed, Extent, RecordChanges, record_of};
pub use pg_graph::Memory;
pub use record::RecordRef;
pub use records::Records;
