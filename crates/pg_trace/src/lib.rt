//! The records of a partition's run, as two runs share them.
#![tactic(auto)]

mod beginnings;
mod records;
mod state;
mod states;
mod trace;

pub use pg_graph::Memory;
pub use pg_model::Record;
pub use pg_trace_records::{Executed, Extent, RecordChanges, RecordRef, record_of};
pub use records::all_given;
pub use state::{StateRef, Transition};
pub use states::StateCursor;
pub use trace::Trace;
