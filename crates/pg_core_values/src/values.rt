//! The values of a run's vertices, read from the traces of its partitions.
ghost use Rattle.std.specs.Prelude.{◌≡◌, ◌++◌, IfOk, OnOk};
ghost use Rattle.std.specs.List.{flat_map};
ghost use Rattle.std.specs.Map.{keys_of};
ghost use Rattle.std.specs.Option.{option_map};
ghost use Rattle.pg_core_values.specs.Values.{HaveShares, ids_before, ids_of_part, ran_between, state_by, traces_of};
ghost use Rattle.pg_core_values.specs.Values.{valued};
ghost use Rattle.pg_graph.specs.Rows.{Rows};
ghost use Rattle.pg_model.specs.Job.{Job};
ghost use Rattle.pg_model.specs.Run.{configuration, values_of};

use crate::Values;
use crate::kept::SharedValue;
use pg_graph::{Memory, Missing, Superstep, VertexId};
use pg_part::{Part, Partitioner, rising};
use pg_program::Plain;
use pg_trace::{RecordRef, StateCursor, StateRef, Trace};
use std::alloc::Global;

/// The values of the vertices as a superstep begins, by rising id. Costs a sort of their ids and a look-up for each;
/// where messages make vertices, of the ids of all executions before.
pub(crate) fn values_at<V: Plain, M: Plain>(
    alloc: Global,
    partitioner: Partitioner,
    missing: Missing,
    parts: &[Option<Part<V, M>>],
    superstep: Superstep,
) -> Result<Values<V>, Memory>
    ensures { IfOk result (λ values. (job : Job V M) (rows : Rows) → job.missing ≡ missing
        → HaveShares job rows partitioner superstep parts.now
        → values ≡ values_of job rows (configuration job rows superstep)) }
{
    let ids = rising(all_ids(alloc, missing, parts, superstep)?);
    let held = values_of_ids(alloc, partitioner, parts, ids.as_slice(), superstep)?;
    let values = Values::of(alloc, held)?;
    Ok(values)
}

/// The values of those of these ids that have a state.
fn values_of_ids<V: Plain, M: Plain>(
    alloc: Global,
    partitioner: Partitioner,
    parts: &[Option<Part<V, M>>],
    ids: &[VertexId],
    superstep: Superstep,
) -> Result<Vec<(VertexId, SharedValue<V>)>, Memory>
    ensures { IfOk result (λ values. values.items
        ≡ flat_map (λ id. valued id (state_by partitioner superstep (traces_of parts.now) id)) ids.now) }
{
    let mut states = all_states(alloc, parts)?;
    let mut values = Vec::with_capacity(alloc, ids.len())?;
    for id in ids {
        add_value(alloc, &mut values, partitioner, &mut states, *id, superstep)?;
    }
    Ok(values)
}

/// Look-ups in the traces of these parts.
pub(crate) fn all_states<'t, V: Plain, M: Plain>(
    alloc: Global,
    parts: &'t [Option<Part<V, M>>],
) -> Result<Vec<Option<StateCursor<'t, V, M>>>, Memory>
    ensures { IfOk result (λ states. states.items ≡ traces_of parts.now) }
{
    let mut states = Vec::with_capacity(alloc, parts.len())?;
    for part in parts {
        states.push(states_of(part))?;
    }
    Ok(states)
}

/// Look-ups in the trace of a part.
fn states_of<'t, V: Plain, M: Plain>(part: &'t Option<Part<V, M>>) -> Option<StateCursor<'t, V, M>>
    ensures { result ≡ option_map (λ p. p.part_run.trace) part.now }
{
    match part {
        Some(part) => Some(part.trace().states()),
        None => None,
    }
}

/// Adds the value of an id, if it has a state.
fn add_value<'t, V: Plain, M: Plain>(
    alloc: Global,
    values: &mut Vec<(VertexId, SharedValue<V>)>,
    partitioner: Partitioner,
    states: &mut Vec<Option<StateCursor<'t, V, M>>>,
    id: VertexId,
    superstep: Superstep,
) -> Result<(), Memory>
    ensures added { OnOk result (values.new.items
        ≡ values.old.items ++ valued id (state_by partitioner superstep states.old.items id)) }
    ensures same { states.new.items ≡ states.old.items }
{
    if let Some(state) = state_by(partitioner, states, id, superstep) {
        let value = state.value().copy(alloc)?;
        values.push((id, SharedValue { value }))?;
    }
    Ok(())
}

/// The state of an id as its partition has it.
pub(crate) fn state_by<'t, V: Plain, M: Plain>(
    partitioner: Partitioner,
    states: &mut Vec<Option<StateCursor<'t, V, M>>>,
    id: VertexId,
    superstep: Superstep,
) -> Option<StateRef<'t, V>>
    ensures value { result ≡ state_by partitioner superstep states.old.items id }
    ensures same { states.new.items ≡ states.old.items }
{
    let place = partitioner.partition(id).number() as usize;
    if place >= states.len() {
        return None;
    }
    match &mut states[place] {
        Some(states) => states.state_at(id, superstep),
        None => None,
    }
}

/// Ids among which are all that have a state as a superstep begins.
fn all_ids<V: Plain, M: Plain>(
    alloc: Global,
    missing: Missing,
    parts: &[Option<Part<V, M>>],
    superstep: Superstep,
) -> Result<Vec<VertexId>, Memory>
    ensures { IfOk result (λ ids. ids.items ≡ flat_map (ids_of_part missing superstep) parts.now) }
{
    let mut ids = Vec::new(alloc);
    for part in parts {
        if let Some(part) = part {
            add_ids(alloc, &mut ids, missing, part.trace(), superstep)?;
        }
    }
    Ok(ids)
}

/// Adds those of one partition.
fn add_ids<V: Plain, M: Plain>(
    alloc: Global,
    ids: &mut Vec<VertexId>,
    missing: Missing,
    trace: &Trace<V, M>,
    superstep: Superstep,
) -> Result<(), Memory>
    ensures { OnOk result
        (ids.new.items ≡ ids.old.items ++ ids_before missing superstep trace.now) }
{
    let initial = trace.initial_ids(alloc)?;
    add_all(ids, initial.as_slice())?;
    match missing {
        Missing::Drop => Ok(()),
        Missing::Create => add_ran(alloc, ids, trace, 0, superstep.number()),
    }
}

/// Adds the ids that ran in the supersteps from one on and before another.
pub(crate) fn add_ran<V: Plain, M: Plain>(
    alloc: Global,
    ids: &mut Vec<VertexId>,
    trace: &Trace<V, M>,
    from: u32,
    to: u32,
) -> Result<(), Memory>
    ensures { OnOk result (ids.new.items ≡ ids.old.items ++ ran_between from to trace.now) }
{
    for place in from..to {
        let records = trace.records(alloc, Superstep::new(place))?;
        add_keys(ids, records.as_slice())?;
    }
    Ok(())
}

/// Adds the ids of records.
fn add_keys<V, M>(
    ids: &mut Vec<VertexId>,
    records: &[(VertexId, RecordRef<'_, V, M>)],
) -> Result<(), Memory>
    ensures { OnOk result (ids.new.items ≡ ids.old.items ++ keys_of records.now) }
{
    for (id, _) in records {
        ids.push(*id)?;
    }
    Ok(())
}

/// Adds ids.
pub(crate) fn add_all(ids: &mut Vec<VertexId>, more: &[VertexId]) -> Result<(), Memory>
    ensures { OnOk result (ids.new.items ≡ ids.old.items ++ more.now) }
{
    for id in more {
        ids.push(*id)?;
    }
    Ok(())
}
