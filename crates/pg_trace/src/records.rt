//! The records of supersteps, one superstep or many at a time.
ghost use Rattle.std.specs.Prelude.{◌≡◌, ◌++◌, ◌∷◌, [], length, map, take, slice_index_or, ◌≤◌, None, Some, IfOk, OnOk};
ghost use Rattle.pg_map.specs.Entries.{ChangesRise, HasRisingIds};
ghost use Rattle.pg_trace_index.specs.Occurrences.{IsIndex};
ghost use Rattle.pg_trace_index.specs.Records.{put_at};

use pg_graph::{Memory, VertexId, checked_u32};
use pg_model::{Record, VertexState};
use pg_trace_index::Index;
use pg_trace_records::{RecordChanges, RecordRef, Records};
use std::alloc::Global;

/// A copy of the supersteps, which shares their memory.
pub(crate) fn shared<V: Drop, M: Drop>(
    alloc: Global,
    supersteps: &[Records<V, M>],
) -> Result<Vec<Records<V, M>>, Memory>
    ensures { IfOk result (λ shared. shared.items ≡ supersteps.now) }
{
    let mut shared = Vec::with_capacity(alloc, supersteps.len())?;
    for records in supersteps {
        shared.push(records.cheap_clone()?)?;
    }
    Ok(shared)
}

/// Supersteps with these changes of the records of one, which they have or which comes next. Where it comes next its
/// records are the changes, in their memory; else it costs a copy of what is changed.
pub(crate) fn put_records<V: Drop, M: Drop>(
    alloc: Global,
    supersteps: Vec<Records<V, M>>,
    place: usize,
    changes: RecordChanges<V, M>,
) -> Result<Vec<Records<V, M>>, Memory>
    requires rise { ChangesRise changes }
    requires within { place ≤ length supersteps.items }
    ensures put { IfOk result (λ after. after.items ≡ put_at place changes supersteps.items) }
    ensures rising { IfOk result (λ after. HasRisingIds (slice_index_or supersteps.items place [])) }
{
    let mut supersteps = supersteps;
    if place == supersteps.len() {
        supersteps.push(Records::of(alloc, changes)?)?;
        return Ok(supersteps);
    }
    let changed = supersteps[place].changed(alloc, changes)?;
    supersteps[place] = changed;
    Ok(supersteps)
}

/// The index of the first of these supersteps, so many, by one of all. It has no notes.
pub(crate) fn cut_index<V: Drop, M: Drop>(
    alloc: Global,
    ran: &Index,
    supersteps: &[Records<V, M>],
    len: usize,
) -> Result<Index, Memory>
    requires index { IsIndex supersteps.now ran.now }
    requires within { len ≤ length supersteps.now }
    ensures { IfOk result (λ first. IsIndex (take len supersteps.now) first) }
{
    let mut first = ran.cheap_clone(alloc)?;
    let mut remaining = supersteps.len();
    while remaining > len {
        remaining -= 1;
        let none = none_given(alloc, &supersteps[remaining])?;
        first = first.noted(alloc, checked_u32(remaining)?, none.as_slice())?;
    }
    first.sealed(alloc)
}

/// No place for the ids of a superstep's records.
fn none_given<V: Drop, M: Drop>(
    alloc: Global,
    records: &Records<V, M>,
) -> Result<Vec<(VertexId, Option<u32>)>, Memory>
    ensures none { IfOk result (λ none. none.items ≡ map (λ e. (e.0, None)) records.now) }
    ensures rising { HasRisingIds records.now }
{
    let all = records.listed(alloc)?;
    none_for(alloc, all.as_slice())
}

/// No place for the ids of these records.
fn none_for<V: Drop, M: Drop>(
    alloc: Global,
    records: &[(VertexId, RecordRef<'_, V, M>)],
) -> Result<Vec<(VertexId, Option<u32>)>, Memory>
    ensures { IfOk result (λ none. none.items ≡ map (λ e. (e.0, None)) records.now) }
{
    let mut none = Vec::with_capacity(alloc, records.len())?;
    for (id, _) in records {
        none.push((*id, None))?;
    }
    Ok(none)
}

/// The changes that give these records. What they send and contribute is moved.
pub fn all_given<V: Drop, M: Drop>(
    alloc: Global,
    records: Vec<(VertexId, Record<V, M>)>,
) -> Result<RecordChanges<V, M>, Memory>
    ensures { IfOk result (λ changes. changes ≡ map (λ e. (e.0, Some e.1)) records.items) }
{
    let mut changes = RecordChanges::new(alloc, records.len())?;
    for (id, record) in records {
        add_record(&mut changes, id, record)?;
    }
    Ok(changes)
}

/// These changes, side by side.
pub(crate) fn all_changed<V: Drop, M: Drop>(
    alloc: Global,
    replaced: Vec<(VertexId, Option<Record<V, M>>)>,
) -> Result<RecordChanges<V, M>, Memory>
    ensures { IfOk result (λ changes. changes ≡ replaced.items) }
{
    let mut changes = RecordChanges::new(alloc, replaced.len())?;
    for (id, given) in replaced {
        add_change(&mut changes, id, given)?;
    }
    Ok(changes)
}

/// Adds the record that a vertex is given, or that it has none any more.
fn add_change<V: Drop, M: Drop>(
    changes: &mut RecordChanges<V, M>,
    id: VertexId,
    given: Option<Record<V, M>>,
) -> Result<(), Memory>
    ensures { OnOk result (changes.new ≡ changes.old ++ (id, given) ∷ []) }
{
    match given {
        Some(given) => add_record(changes, id, given),
        None => changes.add_none(id),
    }
}

/// Adds the record that a vertex is given.
fn add_record<V: Drop, M: Drop>(
    changes: &mut RecordChanges<V, M>,
    id: VertexId,
    given: Record<V, M>,
) -> Result<(), Memory>
    ensures { OnOk result (changes.new ≡ changes.old ++ (id, Some given) ∷ []) }
{
    let Record {
        value,
        edges,
        halted,
        sent,
        contributed,
    } = given;
    let state = VertexState {
        id,
        value,
        edges,
        halted,
    };
    changes.add(state, sent.into_vec(), contributed.into_vec())
}
