//! What a job has besides its program: a combiner, aggregators by name, and a master.
#![tactic(auto)]

mod aggregator;
mod combiner;
mod gathering;
mod master;
mod registry;
mod seen;

pub use aggregator::{Aggregator, AnyAggregator, gather};
pub use combiner::{AnyCombiner, MessageCombiner};
pub use gathering::{copied, values_at, visible_in};
pub use master::{MasterCompute, MasterState, NoMaster};
pub use pg_model::{Ending, Run, Visible};
pub use registry::{RegisterFault, Registration, Registry};
pub use seen::view_of;
