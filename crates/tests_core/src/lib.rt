//! Tests of partitions and of a run over them, by their public calls: what no contract says, and which vertices a step
//! calls.
#![tactic(auto)]

#[cfg(test)]
mod calls;
#[cfg(test)]
mod graphs;
#[cfg(test)]
mod happenings;
#[cfg(test)]
mod losses;
#[cfg(test)]
mod noting;
#[cfg(test)]
mod orders;
#[cfg(test)]
mod part_run;
#[cfg(test)]
mod recorded;
#[cfg(test)]
mod recovery;
#[cfg(test)]
mod runs;
#[cfg(test)]
mod stepping;
