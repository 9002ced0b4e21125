//! The bundles that a step sends, or has sent.
ghost use Rattle.std.specs.Prelude.{◌≡◌, ℕ, ◌<◌, ◌≤◌, [], length, map, slice_get, slice_index_or, Some, IfOk, IfSome};
ghost use Rattle.std.specs.List.{flat_map};
ghost use Rattle.std.specs.Option.{option_copied};
ghost use Rattle.pg_inbox.specs.LoggedBundle.{slot_at};
ghost use Rattle.pg_part_routing.specs.Sending.{IsFresh, IsRebuilt, items_to, pairs_of, sends_by_records, sends_of};
ghost use Rattle.pg_trace.specs.Trace.{records_of};

use crate::Partitioner;
use crate::sending::{recorded_sends, retracted_of, sends_of};
use pg_global::MessageCombiner;
use pg_graph::{Memory, PartitionId, Superstep, VertexId};
use pg_inbox::{LoggedBundle, Logs, Outbox, OutboxRef, bundle, patch};
use pg_model::Sequence;
use pg_program::Plain;
use pg_trace::{RecordChanges, Trace};
use std::alloc::Global;
use std::marker::Model;

/// What a step sends: its bundle to each of 1 to 64 partitions, with the targets at which that differs from the old
/// run's where it has the superstep.
pub struct Sent<M: Plain> {
    bundles: Vec<LoggedBundle<M>>,
}

// By hand, so that it is let go by one call wherever that is, and not field by field.
impl<M: Plain> Drop for Sent<M> {
    fn drop(self) {
        let Sent { bundles: _ } = self;
    }
}

impl<M: Plain> Model for Sent<M> {
    ghost use Rattle.std.specs.Prelude.{◌<◌, ◌≤◌, List, length};
    ghost use Rattle.pg_inbox.specs.Handed.{LoggedBundle};

    ghost Value = { List (LoggedBundle M) };

    ghost view = { λ s. s.bundles.items };

    ghost invariant = { λ s. (0 < length s.bundles.items) × (length s.bundles.items ≤ 64) };
}

impl<M: Plain> Sent<M> {
    /// The bundles, by the partition that receives them.
    pub fn bundles(&self) -> &[LoggedBundle<M>]
        ensures value { result.now ≡ self.now }
        ensures some { 0 < length self.now }
        ensures most { length self.now ≤ 64 }
    {
        self.bundles.as_slice()
    }

    /// The bundles, to keep.
    pub fn into_bundles(self) -> Vec<LoggedBundle<M>>
        ensures { result.items ≡ self }
    {
        let Sent { bundles } = self;
        bundles
    }

    fn of(bundles: Vec<LoggedBundle<M>>) -> Sent<M>
        requires some { 0 < length bundles.items }
        requires most { length bundles.items ≤ 64 }
        ensures { result ≡ bundles.items }
    {
        Sent { bundles }
    }
}

/// The bundles of what these changes of records send, to each partition. Costs a sort of what is sent and two copies of
/// each message; for one partition, where what the vertices send lies in their order in one list, one copy, and a list
/// of the senders.
pub fn fresh_bundles<V: Plain, M: Plain, C: MessageCombiner<M>>(
    alloc: Global,
    partitions: Partitioner,
    changes: &RecordChanges<V, M>,
    combiner: &C,
) -> Result<Sent<M>, Memory>
    ensures some { 0 < partitions }
    ensures to_each { IfOk result (λ sent. length sent ≡ partitions) }
    ensures sends { IfOk result (λ sent. (q : ℕ) → q < partitions
        → IsFresh (C.combining combiner.now) (items_to partitions q (flat_map sends_of changes.now))
        (slice_get sent q)) }
{
    if partitions.partitions() == 1 {
        if let Some(logged) = fresh_of_all(alloc, changes, combiner)? {
            let mut bundles = Vec::with_capacity(alloc, 1)?;
            bundles.push(logged)?;
            return Ok(Sent::of(bundles));
        }
    }
    let parts = sends_of(alloc, partitions, changes)?;
    let bundles = each_fresh(alloc, parts.as_slice(), combiner)?;
    Ok(Sent::of(bundles))
}

/// The bundle of all that these changes of records send, if that lies in one list.
fn fresh_of_all<V: Plain, M: Plain, C: MessageCombiner<M>>(
    alloc: Global,
    changes: &RecordChanges<V, M>,
    combiner: &C,
) -> Result<Option<LoggedBundle<M>>, Memory>
    ensures { IfOk result (λ made. IfSome made (λ logged.
        IsFresh (C.combining combiner.now) (map (λ i. i.1) (flat_map sends_of changes.now)) (Some logged))) }
{
    match changes.all_sent(alloc)? {
        Some((senders, sent)) => {
            let sends = OutboxRef::of(senders.as_slice(), sent);
            Ok(Some(fresh(alloc, &sends, combiner)?))
        }
        None => Ok(None),
    }
}

/// The bundles of the sends to each partition.
fn each_fresh<M: Plain, C: MessageCombiner<M>>(
    alloc: Global,
    parts: &[Outbox<M>],
    combiner: &C,
) -> Result<Vec<LoggedBundle<M>>, Memory>
    ensures len { IfOk result (λ bundles. length bundles.items ≡ length parts.now) }
    ensures bundles { IfOk result (λ bundles. (q : ℕ) → q < length parts.now
        → IsFresh (C.combining combiner.now) (slice_index_or parts.now q []) (slice_get bundles.items q)) }
{
    let mut bundles = Vec::with_capacity(alloc, parts.len())?;
    for sends in parts {
        bundles.push(fresh(alloc, &sends.as_ref(), combiner)?)?;
    }
    Ok(bundles)
}

/// A bundle of which nothing is known but what is in it.
fn fresh<M: Plain, C: MessageCombiner<M>>(
    alloc: Global,
    sends: &OutboxRef<'_, M>,
    combiner: &C,
) -> Result<LoggedBundle<M>, Memory>
    ensures { IfOk result (λ logged. IsFresh (C.combining combiner.now) sends.now (Some logged)) }
{
    Ok(LoggedBundle {
        bundle: bundle(alloc, sends, combiner)?,
        changed: None,
    })
}

/// The bundles of what a trace has sent in a superstep, to each partition. Costs a look at each record of it, a sort of
/// what they sent, and two copies of each message.
pub fn recorded_bundles<V: Plain, M: Plain, C: MessageCombiner<M>>(
    alloc: Global,
    partitions: Partitioner,
    trace: &Trace<V, M>,
    superstep: Superstep,
    combiner: &C,
) -> Result<Sent<M>, Memory>
    ensures to_each { IfOk result (λ sent. length sent ≡ partitions) }
    ensures sends { IfOk result (λ sent. (q : ℕ) → q < partitions
        → IsFresh (C.combining combiner.now) (items_to partitions q (sends_by_records (records_of superstep trace.now)))
        (slice_get sent q)) }
{
    let records = trace.records(alloc, superstep)?;
    let sends = recorded_sends(alloc, partitions, records.as_slice())?;
    let bundles = each_fresh(alloc, sends.as_slice(), combiner)?;
    Ok(Sent::of(bundles))
}

/// The old run's bundles with what its vertices sent by their old records replaced by what these changes send. Costs a
/// sort of that, and of what is sent now; the rest of a bundle is shared.
pub fn rebuilt_bundles<V: Plain, M: Plain, C: MessageCombiner<M>>(
    alloc: Global,
    partitions: Partitioner,
    from: PartitionId,
    superstep: Superstep,
    changes: &RecordChanges<V, M>,
    old: &Trace<V, M>,
    logs: &Logs<M>,
    combiner: &C,
) -> Result<Sent<M>, Memory>
    ensures some { 0 < partitions }
    ensures to_each { IfOk result (λ sent. length sent ≡ partitions) }
    ensures sends { IfOk result (λ sent. (q : ℕ) → q < partitions
        → IsRebuilt (C.combining combiner.now)
        (items_to partitions q (flat_map (pairs_of old.now superstep) changes.now))
        (items_to partitions q (flat_map sends_of changes.now)) (slot_at logs.now superstep from q)
        (slice_get sent q)) }
{
    let retracted = retracted_of(alloc, partitions, old, superstep, changes)?;
    let added = sends_of(alloc, partitions, changes)?;
    let bundles = each_rebuilt(
        alloc,
        partitions,
        from,
        superstep,
        retracted.as_slice(),
        added.as_slice(),
        logs,
        combiner,
    )?;
    Ok(Sent::of(bundles))
}

/// The old bundle to each partition with these messages retracted and added.
fn each_rebuilt<M: Plain, C: MessageCombiner<M>>(
    alloc: Global,
    partitions: Partitioner,
    from: PartitionId,
    superstep: Superstep,
    retracted: &[Sequence<(VertexId, VertexId)>],
    added: &[Outbox<M>],
    logs: &Logs<M>,
    combiner: &C,
) -> Result<Vec<LoggedBundle<M>>, Memory>
    requires retracted { length retracted.now ≡ partitions }
    requires added { length added.now ≡ partitions }
    ensures len { IfOk result (λ bundles. length bundles.items ≡ partitions) }
    ensures few { IfOk result (λ _. (0 < partitions) × (partitions ≤ 64)) }
    ensures bundles { IfOk result (λ bundles. (q : ℕ) → q < partitions
        → IsRebuilt (C.combining combiner.now) (slice_index_or retracted.now q []) (slice_index_or added.now q [])
        (slot_at logs.now superstep from q) (slice_get bundles.items q)) }
{
    let mut bundles = Vec::with_capacity(alloc, added.len())?;
    for to in 0..partitions.partitions() {
        let before = logs.get(superstep, from, PartitionId::new(to));
        let retracted = retracted[to as usize].as_slice();
        let added = added[to as usize].as_ref();
        bundles.push(rebuilt(alloc, before, retracted, &added, combiner)?)?;
    }
    Ok(bundles)
}

/// The old bundle with these messages retracted and added, or a fresh one where there is none.
fn rebuilt<M: Plain, C: MessageCombiner<M>>(
    alloc: Global,
    before: Option<&LoggedBundle<M>>,
    retracted: &[(VertexId, VertexId)],
    added: &OutboxRef<'_, M>,
    combiner: &C,
) -> Result<LoggedBundle<M>, Memory>
    ensures { IfOk result (λ logged. IsRebuilt (C.combining combiner.now) retracted.now added.now
        (option_copied before.entry) (Some logged)) }
{
    match before {
        Some(before) => patch(alloc, &before.bundle, retracted, added, combiner),
        None => fresh(alloc, added, combiner),
    }
}
