//! The bundles that a partition receives.
ghost use Rattle.std.specs.Prelude.{◌≡◌, IfOk};
ghost use Rattle.std.specs.List.{AllByRecursion};
ghost use Rattle.pg_inbox.specs.Handed.{HoldAll};
ghost use Rattle.pg_part_routing.specs.Routes.{bundles_at, bundles_before};

use crate::Partitioner;
use pg_graph::{Memory, PartitionId, Superstep};
use pg_inbox::{Bundle, Logs};
use pg_program::Plain;
use std::alloc::Global;

/// The bundles to a partition that a superstep receives, by the partition that sent them. Costs a count for each.
pub fn bundles_before<M: Plain>(
    alloc: Global,
    logs: &Logs<M>,
    partitions: Partitioner,
    to: PartitionId,
    superstep: Superstep,
) -> Result<Vec<Bundle<M>>, Memory>
    ensures value { IfOk result
        (λ bundles. bundles.items ≡ bundles_before logs.now partitions to superstep) }
    ensures hold { IfOk result (λ bundles. AllByRecursion (HoldAll M.is_value) bundles.items) }
{
    match superstep.number().checked_sub(1) {
        Some(before) => bundles_at(alloc, logs, partitions, to, Superstep::new(before)),
        None => Ok(Vec::new(alloc)),
    }
}

/// The bundles to a partition of one superstep.
fn bundles_at<M: Plain>(
    alloc: Global,
    logs: &Logs<M>,
    partitions: Partitioner,
    to: PartitionId,
    superstep: Superstep,
) -> Result<Vec<Bundle<M>>, Memory>
    ensures value { IfOk result (λ bundles. bundles.items ≡ bundles_at logs.now partitions to superstep) }
    ensures hold { IfOk result (λ bundles. AllByRecursion (HoldAll M.is_value) bundles.items) }
{
    let mut bundles = Vec::new(alloc);
    for from in 0..partitions.partitions() {
        if let Some(logged) = logs.get(superstep, PartitionId::new(from), to) {
            bundles.push(logged.bundle.cheap_clone()?)?;
        }
    }
    Ok(bundles)
}
