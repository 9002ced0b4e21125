//! The vertices of a partition in one superstep: which are looked at, what they read, and what their executions give.
#![tactic(auto)]

mod changed;
mod diverged;
mod execution;
mod found;
mod ids;
mod reading;
mod vertex_pairs;

pub use changed::{dirty_ids, is_same_view};
pub use diverged::{Diverged, diverged_after};
pub use execution::{StepContext, StepDelta};
pub use found::VertexPair;
pub use ids::{copied, rising, with_ids};
pub use pg_graph::Memory;
pub use vertex_pairs::{execute_cold, execute_warm};
