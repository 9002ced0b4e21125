//! The values with which a run over partitions ends, from scratch or against those of an old run.
#![tactic(auto)]

mod ended;
mod kept;
mod patching;
mod values;

pub use ended::Ended;
pub use kept::Values;
pub use patching::values_warm;
pub use pg_graph::Memory;
