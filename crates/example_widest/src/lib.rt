//! Widest paths: a vertex program against the ready ones, with an aggregator, a master and a service
//! of its own. docs/PROGRAMS.md goes through it.
#![tactic(auto)]

mod master;
mod program;
mod search;
#[cfg(test)]
mod tests;

pub use master::WidestMaster;
pub use program::Widest;
pub use search::{Search, Searching, searching, widest_paths};
