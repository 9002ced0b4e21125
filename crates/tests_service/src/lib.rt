//! Tests of the service, by its public calls: what no contract says.
//!
//! A call of the service has a function of its own that hands on plain values, which the tests compare.
#![tactic(auto)]

#[cfg(test)]
mod counting;
#[cfg(test)]
mod falling;
#[cfg(test)]
mod gates;
#[cfg(test)]
mod hops;
#[cfg(test)]
mod overlap;
#[cfg(test)]
mod publishing;
#[cfg(test)]
mod rows;
#[cfg(test)]
mod sessions;
#[cfg(test)]
mod shedding;
#[cfg(test)]
mod shelves;
#[cfg(test)]
mod starving;
#[cfg(test)]
mod trials;
