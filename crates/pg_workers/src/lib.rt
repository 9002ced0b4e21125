//! Workers: a run whose partitions are stepped by workers in threads. A worker may fall, and what it hosted goes on
//! elsewhere, from a checkpoint or anew.
#![tactic(auto)]

mod assigning;
mod coordinator;
mod counts;
mod fault;
mod job;
mod outcomes;
mod recovering;
mod round;
mod saving;

pub use counts::{Counts, Loss};
pub use fault::RefreshFault;
pub use job::run_job;
pub use pg_checkpoint::{MemShelf, Shelf, ShelfFault};
pub use pg_core::{Core, DeferredDrop, Finished, Limits, Traces};
pub use pg_workers_rounds::{Cause, Done, Fate, Gate, NoFate, NoGate, Round, work};
