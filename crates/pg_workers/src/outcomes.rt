//! The steps of a round, by partition, and its losses.
ghost use Rattle.std.specs.Prelude.{◌≡◌, None, Some, IfOk, slice_index_or, slice_set};
ghost use Rattle.pg_workers.specs.Rounds.{HasNone, IsCollected, with_steps};

use crate::Loss;
use pg_graph::{Memory, PartitionId, Superstep};
use pg_program::Plain;
use pg_workers_rounds::{Done, Outcome};
use std::alloc::Global;

/// The steps that a round gave back, by partition, and the workers that fell in it, by rising worker.
#[derive(Drop)]
pub(crate) struct RoundResult<V, M: Plain> {
    pub(crate) steps: Vec<Option<Done<V, M>>>,
    pub(crate) fallen: Vec<Loss>,
}

/// What the outcomes of a round at a superstep come to.
pub(crate) fn collected<V: Plain, M: Plain>(
    alloc: Global,
    partitions: u32,
    superstep: Superstep,
    outcomes: Vec<Outcome<V, M>>,
) -> Result<RoundResult<V, M>, Memory>
    ensures { IfOk result (IsCollected superstep outcomes.items) }
{
    let mut steps = no_steps(alloc, partitions)?;
    let mut fallen = Vec::new(alloc);
    for outcome in outcomes {
        let Outcome { worker, done } = outcome;
        match done {
            Ok(dones) => put_all(&mut steps, dones),
            Err(cause) => fallen.push(Loss {
                worker,
                superstep,
                cause,
            })?,
        }
    }
    Ok(RoundResult { steps, fallen })
}

/// No step of any partition.
fn no_steps<V: Plain, M: Plain>(
    alloc: Global,
    partitions: u32,
) -> Result<Vec<Option<Done<V, M>>>, Memory>
    ensures { IfOk result (λ steps. HasNone steps.items) }
{
    let mut steps = Vec::with_capacity(alloc, partitions as usize)?;
    for _ in 0..partitions {
        steps.push(None)?;
    }
    Ok(steps)
}

/// Puts the steps of a worker where they belong.
fn put_all<V: Plain, M: Plain>(steps: &mut Vec<Option<Done<V, M>>>, dones: Vec<Done<V, M>>)
    ensures { steps.new.items ≡ with_steps dones.items steps.old.items }
{
    for done in dones {
        let partition = done.part.partition();
        put(steps, partition, done);
    }
}

/// Puts the step of a partition where it belongs.
fn put<V: Plain, M: Plain>(
    steps: &mut Vec<Option<Done<V, M>>>,
    partition: PartitionId,
    done: Done<V, M>,
)
    ensures { steps.new.items ≡ slice_set steps.old.items partition (Some done) }
{
    let index = partition.number() as usize;
    if index < steps.len() {
        steps[index] = Some(done);
    }
}

/// Takes out the step of a partition, if there is one.
pub(crate) fn taken<V: Plain, M: Plain>(
    steps: &mut Vec<Option<Done<V, M>>>,
    partition: PartitionId,
) -> Option<Done<V, M>>
    ensures value { result ≡ slice_index_or steps.old.items partition None }
    ensures rest { steps.new.items ≡ slice_set steps.old.items partition None }
{
    let index = partition.number() as usize;
    if index >= steps.len() {
        return None;
    }
    steps[index].take()
}
