//! Vertex programs: the trait that a program implements, and what it works on in one execution.
#![tactic(auto)]

mod coded;
mod computation;
mod context;
mod ids;
mod meter;
mod own_edges;
mod plain;
mod reading;
mod search;
mod shed;
mod tally;
mod vertex;

pub use coded::Coded;
pub use computation::Computation;
pub use context::Cx;
pub use meter::Meter;
pub use own_edges::EdgeRoom;
pub use pg_graph::Memory;
pub use pg_model::{Declared, Place, View};
pub use plain::Plain;
pub use reading::value_at;
pub use shed::Shed;
pub use tally::Tally;
pub use vertex::Vertex;
