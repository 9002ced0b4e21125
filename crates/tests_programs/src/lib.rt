//! Tests of the ready programs on a run from scratch: worked examples, and random graphs against a second computation.
//!
//! They stand in a crate of their own because a crate with tests is proved twice, once with them.
#![tactic(auto)]

#[cfg(test)]
mod agreement;
#[cfg(test)]
mod rows;
