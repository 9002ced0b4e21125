//! A run of a vertex program from scratch, superstep by superstep.
//!
//! [`run`] is the plain, single-threaded runner. Its contract says that its answer is the one that the
//! definition of a run gives, and that the meter rises by the number of executions of that run.
//!
//! Each superstep delivers its messages to the vertices of a table, and drops or keeps those that are undeliverable. It
//! keeps the list of the places of active vertices, so that a superstep costs what its active vertices and its messages
//! cost.
#![tactic(auto)]

mod beginning;
mod delivery;
mod execution;
mod gathering;
mod ids;
mod inbox;
mod receiving;
mod runner;
mod superstep;
mod totals;
mod undeliverable;
mod vertex_table;
mod worklist;

pub use runner::{RunFault, run};
