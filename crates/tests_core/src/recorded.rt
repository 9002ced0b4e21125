// What a partition has recorded, kept next to a run as a checkpoint would, and the part that goes on from it.
ghost use Rattle.std.specs.Prelude.{◌≡◌, IfOk};
ghost use Rattle.std.specs.Map.{keys_of};
ghost use Rattle.pg_core.specs.Losing.{IsOf};

use pg_core::Core;
use pg_global::{MasterCompute, MessageCombiner};
use pg_graph::{Memory, PartitionId, Superstep, VertexId};
use pg_model::{Record, Sequence};
use pg_part::{Part, Partitioner};
use pg_program::{Computation, Plain};
use pg_trace::RecordRef;
use std::alloc::{AllocError, Global};
use std::marker::Model;

/// The records of the supersteps that a partition has made, by superstep and rising id.
#[derive(Drop)]
pub(crate) struct Recorded<V, M> {
    supersteps: Vec<Vec<(VertexId, Record<V, M>)>>,
}

impl<V, M> Model for Recorded<V, M> {
    ghost use Rattle.std.specs.Prelude.{◌<◌, ◌^◌, length};
    ghost use Rattle.std.specs.List.{AllByRecursion};
    ghost use Rattle.pg_map.specs.Entries.{HasRisingIds};

    ghost Value = { Unit {0} };

    ghost view = { λ _. tt };

    ghost invariant = { λ r. (length r.supersteps.items < 2 ^ 32)
        × AllByRecursion (λ l. HasRisingIds l.items) r.supersteps.items };
}

impl<V: Plain, M: Plain> Recorded<V, M> {
    /// A copy of what a part has recorded.
    pub(crate) fn of(alloc: Global, part: &Part<V, M>) -> Result<Recorded<V, M>, Memory> {
        let mut supersteps = Vec::new(alloc);
        for number in 0..part.place().number() {
            let records = part.trace().records(alloc, Superstep::new(number))?;
            supersteps.push(copied(alloc, records.as_slice())?)?;
        }
        Ok(Recorded { supersteps })
    }

    /// The part of a partition of this run that has recorded it.
    pub(crate) fn resumed<
        P: Computation<Value = V, Message = M>,
        C: MessageCombiner<M>,
        A: MasterCompute,
    >(
        self,
        alloc: Global,
        core: &Core<'_, P, C, A>,
        partition: PartitionId,
    ) -> Result<Part<V, M>, Memory>
        ensures { IfOk result (IsOf core.now.limits.partitions partition) }
    {
        let partitioner = Partitioner::new(core.limits().partitions()).ok_or(AllocError)?;
        let rows = partitioner.rows(core.graph(), partition);
        let missing = core.limits().missing();
        let part = Part::begin(alloc, rows, missing, core.registry(), core.program())?;
        part.resume(alloc, self.supersteps, core.registry())
    }
}

fn copied<V: Plain, M: Plain>(
    alloc: Global,
    records: &[(VertexId, RecordRef<'_, V, M>)],
) -> Result<Vec<(VertexId, Record<V, M>)>, Memory>
    ensures { IfOk result (λ list. keys_of list.items ≡ keys_of records.now) }
{
    let mut list = Vec::with_capacity(alloc, records.len())?;
    for (vertex, record) in records {
        list.push((*vertex, copy_of(alloc, record)?))?;
    }
    Ok(list)
}

fn copy_of<V: Plain, M: Plain>(
    alloc: Global,
    record: &RecordRef<'_, V, M>,
) -> Result<Record<V, M>, Memory> {
    let mut sent = Sequence::new(alloc);
    for (target, message) in record.sent() {
        sent.push((*target, message.copy(alloc)?))?;
    }
    Ok(Record {
        value: record.value().copy(alloc)?,
        edges: record.edges().copy()?,
        halted: record.halted(),
        sent,
        contributed: Sequence::from_vec(Vec::from_slice(alloc, record.contributed())?),
    })
}
