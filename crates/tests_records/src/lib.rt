//! Tests of the libraries that keep records and messages, by their public calls: what no contract says.
//!
//! They stand in a crate of their own because a crate with tests is proved twice, once with them.
#![tactic(auto)]

#[cfg(test)]
mod changes;
#[cfg(test)]
mod inbox;
#[cfg(test)]
mod trace;
