//! What a step sends, by the partition that receives it.
ghost use Rattle.std.specs.Prelude.{◌≡◌, ◌<◌, ◌≤◌, [], ◌∷◌, length, map, IfOk, OnOk};
ghost use Rattle.std.specs.List.{flat_map};
ghost use Rattle.std.specs.Option.{option_copied};
ghost use Rattle.pg_part_routing.specs.Sending.{AreParts, HaveMore, pairs_by, pairs_of, sends_by, sends_by_records};
ghost use Rattle.pg_part_routing.specs.Sending.{sends_of};

use crate::Partitioner;
use pg_graph::{Memory, Superstep, VertexId};
use pg_inbox::Outbox;
use pg_model::Sequence;
use pg_program::Plain;
use pg_trace::{RecordChanges, RecordRef, Trace};
use std::alloc::Global;

/// What is sent by these changes of records, by the partition of the target.
pub(crate) fn sends_of<V: Plain, M: Plain>(
    alloc: Global,
    partitions: Partitioner,
    changes: &RecordChanges<V, M>,
) -> Result<Vec<Outbox<M>>, Memory>
    ensures len { IfOk result (λ parts. length parts.items ≡ partitions) }
    ensures parts { IfOk result (λ parts. AreParts partitions (flat_map sends_of changes.now) parts.items) }
{
    let mut parts = no_sends_each(alloc, partitions, changes.messages())?;
    for place in 0..changes.len() {
        let (sender, given) = changes.at(place);
        add_sends(alloc, partitions, &mut parts, sender, &given)?;
    }
    Ok(parts)
}

fn add_sends<V: Plain, M: Plain>(
    alloc: Global,
    partitions: Partitioner,
    parts: &mut Vec<Outbox<M>>,
    sender: VertexId,
    by: &Option<RecordRef<'_, V, M>>,
) -> Result<(), Memory>
    requires { length parts.old.items ≡ partitions }
    ensures len { OnOk result (length parts.new.items ≡ partitions) }
    ensures more { OnOk result (HaveMore partitions (sends_by sender by.now) parts.old.items parts.new.items) }
{
    match by {
        Some(given) => push_sends(alloc, partitions, parts, sender, given.sent()),
        None => Ok(()),
    }
}

/// What is sent by these records, by the partition of the target.
pub(crate) fn recorded_sends<V: Plain, M: Plain>(
    alloc: Global,
    partitions: Partitioner,
    records: &[(VertexId, RecordRef<'_, V, M>)],
) -> Result<Vec<Outbox<M>>, Memory>
    ensures len { IfOk result (λ parts. length parts.items ≡ partitions) }
    ensures few { IfOk result (λ _. (0 < partitions) × (partitions ≤ 64)) }
    ensures parts { IfOk result (λ parts. AreParts partitions (sends_by_records records.now) parts.items) }
{
    let mut parts = no_sends_each(alloc, partitions, 0)?;
    for (sender, given) in records {
        push_sends(alloc, partitions, &mut parts, *sender, given.sent())?;
    }
    Ok(parts)
}

fn push_sends<M: Plain>(
    alloc: Global,
    partitions: Partitioner,
    parts: &mut Vec<Outbox<M>>,
    sender: VertexId,
    sent: &[(VertexId, M)],
) -> Result<(), Memory>
    requires { length parts.old.items ≡ partitions }
    ensures len { OnOk result (length parts.new.items ≡ partitions) }
    ensures more { OnOk result
        (HaveMore partitions (map (λ m. (m.0, (sender, m.0, m.1))) sent.now) parts.old.items parts.new.items) }
{
    for (target, message) in sent {
        let message = message.copy(alloc)?;
        put_send(partitions, parts, sender, *target, message)?;
    }
    Ok(())
}

/// Puts a message with the partition of its target.
fn put_send<M: Drop>(
    partitions: Partitioner,
    parts: &mut Vec<Outbox<M>>,
    sender: VertexId,
    target: VertexId,
    message: M,
) -> Result<(), Memory>
    requires { length parts.old.items ≡ partitions }
    ensures len { OnOk result (length parts.new.items ≡ partitions) }
    ensures more { OnOk result
        (HaveMore partitions ((target, (sender, target, message)) ∷ []) parts.old.items parts.new.items) }
{
    let place = partitions.partition(target).number() as usize;
    parts[place].push(sender, target, message)?;
    Ok(())
}

/// No message for each partition, with room for an even share of so many.
fn no_sends_each<M: Drop>(
    alloc: Global,
    partitions: Partitioner,
    messages: usize,
) -> Result<Vec<Outbox<M>>, Memory>
    ensures len { IfOk result (λ none. length none.items ≡ partitions) }
    ensures few { IfOk result (λ _. (0 < partitions) × (partitions ≤ 64)) }
    ensures none { IfOk result (λ none. AreParts partitions [] none.items) }
{
    let share = messages / partitions.partitions() as usize;
    let mut none = Vec::new(alloc);
    for place in 0..partitions.partitions() {
        let _ = place;
        none.push(Outbox::with_room(alloc, share)?)?;
    }
    Ok(none)
}

/// What the old run has sent by the vertices of these changes, as (sender, target), by the partition of the target.
pub(crate) fn retracted_of<V: Plain, M: Plain>(
    alloc: Global,
    partitions: Partitioner,
    old: &Trace<V, M>,
    superstep: Superstep,
    changes: &RecordChanges<V, M>,
) -> Result<Vec<Sequence<(VertexId, VertexId)>>, Memory>
    ensures some { 0 < partitions }
    ensures len { IfOk result (λ parts. length parts.items ≡ partitions) }
    ensures parts { IfOk result
        (λ parts. AreParts partitions (flat_map (pairs_of old.now superstep) changes.now) parts.items) }
{
    let mut parts = nothing_each(alloc, partitions)?;
    for place in 0..changes.len() {
        let (sender, _) = changes.at(place);
        let before = old.record_at(sender, superstep);
        add_pairs(partitions, &mut parts, sender, &before)?;
    }
    Ok(parts)
}

fn add_pairs<V: Plain, M: Plain>(
    partitions: Partitioner,
    parts: &mut Vec<Sequence<(VertexId, VertexId)>>,
    sender: VertexId,
    by: &Option<RecordRef<'_, V, M>>,
) -> Result<(), Memory>
    requires { length parts.old.items ≡ partitions }
    ensures len { OnOk result (length parts.new.items ≡ partitions) }
    ensures more { OnOk result (HaveMore partitions (pairs_by sender by.now) parts.old.items parts.new.items) }
{
    match by {
        Some(given) => push_pairs(partitions, parts, sender, given.sent()),
        None => Ok(()),
    }
}

fn push_pairs<M: Plain>(
    partitions: Partitioner,
    parts: &mut Vec<Sequence<(VertexId, VertexId)>>,
    sender: VertexId,
    sent: &[(VertexId, M)],
) -> Result<(), Memory>
    requires { length parts.old.items ≡ partitions }
    ensures len { OnOk result (length parts.new.items ≡ partitions) }
    ensures more { OnOk result
        (HaveMore partitions (map (λ m. (m.0, (sender, m.0))) sent.now) parts.old.items parts.new.items) }
{
    for (target, _) in sent {
        put(partitions, parts, *target, (sender, *target))?;
    }
    Ok(())
}

/// Puts an item with the partition of its target.
fn put<X: Drop>(
    partitions: Partitioner,
    parts: &mut Vec<Sequence<X>>,
    target: VertexId,
    item: X,
) -> Result<(), Memory>
    requires { length parts.old.items ≡ partitions }
    ensures len { OnOk result (length parts.new.items ≡ partitions) }
    ensures more { OnOk result (HaveMore partitions ((target, item) ∷ []) parts.old.items parts.new.items) }
{
    let place = partitions.partition(target).number() as usize;
    parts[place].push(item)?;
    Ok(())
}

/// Nothing for each partition.
fn nothing_each<X: Drop>(alloc: Global, partitions: Partitioner) -> Result<Vec<Sequence<X>>, Memory>
    ensures some { 0 < partitions }
    ensures len { IfOk result (λ none. length none.items ≡ partitions) }
    ensures none { IfOk result (λ none. AreParts partitions [] none.items) }
{
    let mut none = Vec::new(alloc);
    for place in 0..partitions.partitions() {
        let _ = place;
        none.push(Sequence::new(alloc))?;
    }
    Ok(none)
}
