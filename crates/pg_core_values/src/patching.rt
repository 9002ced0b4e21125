//! The values of a run's vertices, made of those with which the kept run ended.
ghost use Rattle.std.specs.Prelude.{◌≡◌, ℕ, ◌++◌, Option, Some, IfOk, OnOk};
ghost use Rattle.std.specs.List.{flat_map};
ghost use Rattle.std.specs.Option.{option_map};
ghost use Rattle.pg_core_values.specs.Values.{HaveEnded, KeepsEnd, apart_in, new_values, traces_of};
ghost use Rattle.pg_graph.specs.Rows.{Rows};
ghost use Rattle.pg_model.specs.Job.{Job};
ghost use Rattle.pg_model.specs.Run.{configuration, values_of};

use crate::kept::SharedValue;
use crate::values::{add_all, add_ran, all_states, state_by, values_at};
use crate::{Ended, Values};
use pg_graph::{Memory, Missing, Superstep, VertexId, checked_u32};
use pg_part::{Part, Partitioner, rising};
use pg_program::Plain;
use pg_trace::StateRef;
use std::alloc::Global;

/// The values of the vertices as a run of so many supersteps ends, by rising id.
///
/// How an old run ended may be given only where each part is against that run: a part that isn't doesn't know what
/// ended otherwise. Then it costs a look-up for each vertex that may have ended otherwise, which the parts know, and a
/// copy of those of the old run's values that lie near them; the others are shared. Else it costs a sort of the
/// vertices' ids and a look-up for each; where messages make vertices, of the ids of all executions.
pub fn values_warm<V: Plain, M: Plain>(
    alloc: Global,
    partitioner: Partitioner,
    missing: Missing,
    parts: &[Option<Part<V, M>>],
    kept: Option<Ended<'_, V>>,
    superstep: Superstep,
) -> Result<Values<V>, Memory>
    ensures { IfOk result (λ values. (job : Job V M) (keeps : ℕ → Option Rows) (rows : Rows) → job.missing ≡ missing
        → HaveEnded job keeps rows partitioner superstep parts.now
        → KeepsEnd job keeps partitioner kept.entry
        → values ≡ values_of job rows (configuration job rows superstep)) }
{
    match kept {
        None => values_at(alloc, partitioner, missing, parts, superstep),
        Some(kept) => values_patched(alloc, partitioner, parts, kept, superstep),
    }
}

/// The values as a run against a kept one ends: the kept run's, with those of the vertices that may have ended
/// otherwise.
fn values_patched<V: Plain, M: Plain>(
    alloc: Global,
    partitioner: Partitioner,
    parts: &[Option<Part<V, M>>],
    kept: Ended<'_, V>,
    superstep: Superstep,
) -> Result<Values<V>, Memory>
    ensures { IfOk result (λ values. (job : Job V M) (keeps : ℕ → Option Rows) (rows : Rows)
        → HaveEnded job keeps rows partitioner superstep parts.now
        → KeepsEnd job keeps partitioner (Some kept.entry)
        → values ≡ values_of job rows (configuration job rows superstep)) }
{
    let ids = rising(changed_ids(alloc, parts, superstep, kept.supersteps())?);
    let changes = changes_at(alloc, partitioner, parts, ids.as_slice(), superstep)?;
    let values = kept.values().changed(alloc, changes.as_slice())?;
    Ok(values)
}

/// Ids outside of which all vertices ended as in an old run of so many supersteps.
fn changed_ids<V: Plain, M: Plain>(
    alloc: Global,
    parts: &[Option<Part<V, M>>],
    superstep: Superstep,
    old: usize,
) -> Result<Vec<VertexId>, Memory>
    ensures { IfOk result (λ ids. ids.items ≡ flat_map (apart_in superstep old) parts.now) }
{
    let old = checked_u32(old)?;
    let mut ids = Vec::new(alloc);
    for part in parts {
        if let Some(part) = part {
            add_apart(alloc, &mut ids, part, superstep, old)?;
        }
    }
    Ok(ids)
}

/// Adds those of one partition.
fn add_apart<V: Plain, M: Plain>(
    alloc: Global,
    ids: &mut Vec<VertexId>,
    part: &Part<V, M>,
    superstep: Superstep,
    old: u32,
) -> Result<(), Memory>
    ensures { OnOk result (ids.new.items ≡ ids.old.items ++ apart_in superstep old (Some part.now)) }
{
    let diverged = part.diverged(alloc)?;
    add_all(ids, diverged.as_slice())?;
    add_ran(alloc, ids, part.trace(), superstep.number(), old)?;
    Ok(())
}

/// The values of these ids as a superstep begins, for those that have a state.
fn changes_at<V: Plain, M: Plain>(
    alloc: Global,
    partitioner: Partitioner,
    parts: &[Option<Part<V, M>>],
    ids: &[VertexId],
    superstep: Superstep,
) -> Result<Vec<(VertexId, Option<SharedValue<V>>)>, Memory>
    ensures { IfOk result (λ changes. changes.items ≡ new_values partitioner superstep (traces_of parts.now) ids.now) }
{
    let mut states = all_states(alloc, parts)?;
    let mut changes = Vec::with_capacity(alloc, ids.len())?;
    for id in ids {
        let state = state_by(partitioner, &mut states, *id, superstep);
        changes.push((*id, value_of(alloc, state)?))?;
    }
    Ok(changes)
}

/// A copy of the value of a state, if there is one.
fn value_of<V: Plain>(
    alloc: Global,
    state: Option<StateRef<'_, V>>,
) -> Result<Option<SharedValue<V>>, Memory>
    ensures { IfOk result (λ value. value ≡ option_map (λ x. x.value) state.entry) }
{
    match state {
        Some(state) => Ok(Some(SharedValue {
            value: state.value().copy(alloc)?,
        })),
        None => Ok(None),
    }
}
