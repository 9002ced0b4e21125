//! Tests of the libraries, by their public calls: what no contract says.
//!
//! They stand in a crate of their own because a crate with tests is proved twice, once with them. Those of programs and
//! of the runner stand in `tests_runs`, so that neither is long in one process.
#![tactic(auto)]

#[cfg(test)]
mod global;
#[cfg(test)]
mod import;
#[cfg(test)]
mod model;
#[cfg(test)]
mod publish;
#[cfg(test)]
mod publish_threads;
