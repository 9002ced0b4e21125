//! Tests of checkpoints, by their public calls: bytes that were found by hand.
//!
//! They stand in a crate of their own because a crate with tests is proved twice, once with them.
#![tactic(auto)]

#[cfg(test)]
mod loading;
#[cfg(test)]
mod mutating;
#[cfg(test)]
mod saving;
