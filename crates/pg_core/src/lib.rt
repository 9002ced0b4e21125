//! A run over partitions: the core that drives a run from event to event of the status machine.
#![tactic(auto)]

mod beginning;
mod closing;
mod combined_stats;
mod finishing;
mod losing;
mod run_totals;
mod running;
mod traces;

pub use finishing::Finished;
pub use pg_core_machine::{Closed, Event, Limits, State};
pub use run_totals::RunTotals;
pub use running::Core;
pub use traces::{DeferredDrop, Traces};
