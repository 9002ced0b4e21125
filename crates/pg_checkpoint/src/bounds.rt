//! Which records a part of a partition may hold.
ghost use Rattle.std.specs.Prelude.{◌≡◌, ◌+◌, ◌<◌, ◌≤◌, ◌^◌, ◌==◌, true, false, length, map, IsTrue};
ghost use Rattle.std.specs.List.{list_all};
ghost use Rattle.std.specs.List.Sorted.{IsStrictlySortedBy};
ghost use Rattle.std.specs.Map.{keys_of};
ghost use Rattle.std.specs.Ordering.{nat_cmp};
ghost use Rattle.pg_checkpoint.specs.Bounds.{MayHold, MayHoldAll, MayHoldFrom, Within, may_run};
ghost use Rattle.pg_checkpoint.specs.Contents.{record_of, records_of};
ghost use Rattle.pg_model.specs.Job.{has_place};

use crate::reading::{RecordParts, Unread};
use pg_graph::{Edges, Graph, Missing, VertexId};
use pg_model::{Place, Record, Sequence};
use pg_part::PartitionOf;
use std::alloc::Global;
use std::marker::Model;

/// What the records of a part are held against.
#[derive(Drop)]
pub struct Bounds<'a> {
    pub graph: &'a Graph,
    pub share: PartitionOf,
    pub missing: Missing,
    /// The places to which the program contributes.
    pub writes: u16,
}

impl<'a> Model for Bounds<'a> {
    ghost use Rattle.pg_checkpoint.specs.Bounds.{Limits};

    ghost Value = { Limits };

    ghost view = { λ b. record {
      rows = record { graph = b.graph.now; partition = b.share.partition; partitions = b.share.partitions };
      missing = b.missing;
      writes = b.writes;
    } };
}

impl<'a> Bounds<'a> {
    /// The places to which the program contributes.
    fn writes(&self) -> u16
        ensures { result ≡ self.now.writes }
    {
        self.writes
    }
}

/// Whether a vertex may run in a superstep.
fn may_run(bounds: &Bounds<'_>, id: VertexId, superstep: u32) -> bool
    ensures { result ≡ may_run bounds.now superstep id }
{
    let is_there = bounds.graph.row(id).is_some();
    let is_made = bounds.missing == Missing::Create && superstep != 0;
    bounds.share.has(id) && (is_there || is_made)
}

/// Whether a program contributes to a place.
fn is_declared(writes: u16, place: Place) -> bool
    ensures { result ≡ has_place writes place }
{
    let number = place.number();
    number < 16 && (writes >> number) & 1 == 1
}

/// Whether it contributes to all of these places.
fn are_declared(writes: u16, contributed: &[(Place, i64)]) -> bool
    ensures { result ≡ list_all (λ c. has_place writes c.0) contributed.now }
{
    for contribution in contributed {
        if !is_declared(writes, contribution.0) {
            return false;
        }
    }
    true
}

/// Whether the ids of entries rise.
fn rise<X>(entries: &[(VertexId, X)]) -> bool
    ensures yes { IsTrue result → IsStrictlySortedBy nat_cmp (keys_of entries.now) }
    ensures no { result ≡ false → IsStrictlySortedBy nat_cmp (keys_of entries.now) → ⊥ }
{
    for place in 1..entries.len() {
        if entries[place].0.number() <= entries[place - 1].0.number() {
            return false;
        }
    }
    true
}

/// The record of these parts, if a part may hold it in a superstep.
fn record_within<V: Drop, M: Drop>(
    alloc: Global,
    parts: RecordParts<V, M>,
    bounds: &Bounds<'_>,
    superstep: u32,
) -> Result<(VertexId, Record<V, M>), Unread>
    ensures { Within (λ r. r ≡ record_of parts)
        (MayHold bounds.now superstep (record_of parts)) result }
{
    let RecordParts {
        id,
        halted,
        value,
        edges,
        sent,
        contributed,
    } = parts;
    if !may_run(bounds, id, superstep) {
        return Err(Unread::Damaged);
    }
    if !are_declared(bounds.writes(), contributed.as_slice()) {
        return Err(Unread::Damaged);
    }
    if !rise(edges.as_slice()) {
        return Err(Unread::Damaged);
    }
    let edges = Edges::from_rising(alloc, edges.into_vec())?;
    let record = Record {
        value,
        edges,
        halted,
        sent,
        contributed,
    };
    Ok((id, record))
}

/// The records of these parts, if a part may hold them in a superstep.
fn superstep_within<V: Drop, M: Drop>(
    alloc: Global,
    parts: Sequence<RecordParts<V, M>>,
    bounds: &Bounds<'_>,
    superstep: u32,
) -> Result<Vec<(VertexId, Record<V, M>)>, Unread>
    ensures { Within (λ records. records.items ≡ map record_of parts)
        (MayHoldAll bounds.now superstep (map record_of parts)) result }
{
    let mut records = Sequence::new(alloc);
    for one in parts.into_vec() {
        let record = record_within(alloc, one, bounds, superstep)?;
        records.push(record)?;
    }
    if rise(records.as_slice()) {
        Ok(records.into_vec())
    } else {
        Err(Unread::Damaged)
    }
}

/// The records of these parts by superstep, from superstep 0 on, if a part may hold them.
pub(crate) fn records_within<V: Drop, M: Drop>(
    alloc: Global,
    supersteps: Sequence<Sequence<RecordParts<V, M>>>,
    bounds: &Bounds<'_>,
) -> Result<Vec<Vec<(VertexId, Record<V, M>)>>, Unread>
    requires { length supersteps < 2 ^ 32 }
    ensures { Within (λ records. map (λ l. l.items) records.items ≡ records_of supersteps)
        (MayHoldFrom bounds.now 0 (records_of supersteps)) result }
{
    let mut records = Sequence::new(alloc);
    let mut number = 0;
    for parts in supersteps.into_vec() {
        let superstep = superstep_within(alloc, parts, bounds, number)?;
        records.push(superstep)?;
        number += 1;
    }
    Ok(records.into_vec())
}
