//! Tests of the libraries that store vertices and edges, by their public calls: what no contract says.
//!
//! They stand in a crate of their own because a crate with tests is proved twice, once with them.
#![tactic(auto)]

#[cfg(test)]
mod batches;
#[cfg(test)]
mod graph;
#[cfg(test)]
mod import;
#[cfg(test)]
mod map;
#[cfg(test)]
mod order;
#[cfg(test)]
mod plain;
