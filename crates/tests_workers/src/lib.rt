//! Tests of workers, by their public calls: what no contract says.
#![tactic(auto)]

#[cfg(test)]
mod gates;
#[cfg(test)]
mod jobs;
#[cfg(test)]
mod overlap;
#[cfg(test)]
mod random;
#[cfg(test)]
mod rounds;
#[cfg(test)]
mod rows;
#[cfg(test)]
mod shelves;
#[cfg(test)]
mod starving;
