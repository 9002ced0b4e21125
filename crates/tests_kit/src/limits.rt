//! Limits by hand.
use pg_core_machine::Limits;
use std::test::Fail;

/// So many partitions and workers; each partition is saved after so many supersteps, and so many losses are borne.
pub fn limits_of(
    partitions: u32,
    workers: u32,
    every: u32,
    max_losses: u32,
) -> Result<Limits, Fail> {
    Ok(Limits::new(partitions, workers, 1_000, every, max_losses).ok_or("no such limits")?)
}
