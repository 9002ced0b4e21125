//! The ready programs: shortest paths, components, greatest inputs, in-degrees, ranks and cores, with their
//! master, and the job that they make.
#![tactic(auto)]

mod cc;
mod folds;
mod indegree;
mod max;
mod pagerank;
mod peel;
mod ready;
mod sssp;

pub use cc::Cc;
pub use indegree::Indegree;
pub use max::MaxValue;
pub use pagerank::Pagerank;
pub use peel::Peel;
pub use ready::{ReadyMaster, ReadyProgram};
pub use sssp::Sssp;
