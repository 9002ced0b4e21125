//! Tests of what a program may do in its compute, and of runs from scratch: what no contract says.
//!
//! They stand in a crate of their own because a crate with tests is proved twice, once with them.
#![tactic(auto)]

#[cfg(test)]
mod program;
#[cfg(test)]
mod scratch;
