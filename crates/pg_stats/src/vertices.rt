//! How many vertices there are, from how many there were.
ghost use Rattle.std.specs.Prelude.{◌≡◌, ℕ, ◌+◌, cond, IfOk};
ghost use Rattle.std.specs.Option.{option_copied, option_to_list};
ghost use Rattle.pg_stats.specs.VertexCounts.{HasCountDelta, IsSum, AddsToVertexCountsDelta, of_none, of_one};
ghost use Rattle.pg_stats.specs.VertexCounts.{states_among};
ghost use Rattle.pg_stats.specs.Stats.{vertex_counts_of};

use crate::VertexCounts;
use pg_graph::{Memory, Superstep, VertexId};
use pg_model::VertexState;
use pg_program::Plain;
use pg_trace::{RecordRef, StateRef, Trace};
use std::alloc::AllocError;

/// The counts of these vertices.
pub fn vertex_counts<V: Plain>(states: &[VertexState<V>]) -> Result<VertexCounts, Memory>
    ensures { IfOk result (λ vertex_counts. vertex_counts ≡ vertex_counts_of states.now) }
{
    let mut vertex_counts = no_vertices();
    for state in states {
        vertex_counts = with_vertex(vertex_counts, state.edges.as_slice().len(), state.halted)?;
    }
    Ok(vertex_counts)
}

/// The counts of those of these vertices that have a state as a superstep begins. Costs a look-up for each.
pub fn vertex_counts_among<V: Plain, M: Plain>(
    trace: &Trace<V, M>,
    superstep: Superstep,
    ids: &[VertexId],
) -> Result<VertexCounts, Memory>
    ensures { IfOk result (λ vertex_counts. vertex_counts ≡ vertex_counts_of
        (states_among superstep ids.now trace.now)) }
{
    let mut states = trace.states();
    let mut vertex_counts = no_vertices();
    for id in ids {
        vertex_counts = with_state(vertex_counts, &states.state_at(*id, superstep))?;
    }
    Ok(vertex_counts)
}

/// The counts of some vertices before and after a superstep.
#[derive(Clone, Copy, Debug, PartialEq, Eq)]
pub struct VertexCountsDelta {
    /// Of those that have a state as the superstep begins.
    pub removed: VertexCounts,
    /// Of those that have a state as the next one begins.
    pub added: VertexCounts,
}

impl VertexCountsDelta {
    /// Of no vertices.
    pub fn no_vertices() -> VertexCountsDelta
        ensures removed { result.removed ≡ of_none }
        ensures added { result.added ≡ of_none }
    {
        VertexCountsDelta {
            removed: no_vertices(),
            added: no_vertices(),
        }
    }

    /// With one vertex more, which has this state as the superstep begins, if any, and as the next one begins that
    /// which this record leaves, or else the same. Costs O(1).
    #[inline(always)]
    pub fn with<V: Plain, M>(
        self,
        before: &Option<StateRef<'_, V>>,
        given: &Option<RecordRef<'_, V, M>>,
    ) -> Result<VertexCountsDelta, Memory>
        ensures { (id : ℕ) → IfOk result (AddsToVertexCountsDelta self before.now given.now id) }
    {
        let added = match given {
            Some(now) => with_vertex(self.added, now.edges().as_slice().len(), now.halted())?,
            None => with_state(self.added, before)?,
        };
        Ok(VertexCountsDelta {
            removed: with_state(self.removed, before)?,
            added,
        })
    }
}

/// The counts of those of these vertices that have a state as a superstep begins, and as the next one begins. Costs one
/// look-up for each.
pub fn vertex_counts_delta_among<V: Plain, M: Plain>(
    trace: &Trace<V, M>,
    superstep: Superstep,
    ids: &[VertexId],
) -> Result<VertexCountsDelta, Memory>
    ensures removed { IfOk result
        (λ vertex_counts_delta. vertex_counts_delta.removed ≡ vertex_counts_of
        (states_among superstep ids.now trace.now)) }
    ensures added { IfOk result
        (λ vertex_counts_delta. vertex_counts_delta.added ≡ vertex_counts_of
        (states_among (superstep + 1) ids.now trace.now)) }
{
    let mut states = trace.states();
    let mut removed = no_vertices();
    let mut added = no_vertices();
    for id in ids {
        let turn = states.transition_at(*id, superstep);
        removed = with_state(removed, &turn.before)?;
        added = with_state(added, &turn.after)?;
    }
    Ok(VertexCountsDelta { removed, added })
}

/// The vertex counts of before, without what is removed and with what is added.
pub fn with_delta(
    before: VertexCounts,
    removed: VertexCounts,
    added: VertexCounts,
) -> Result<VertexCounts, Memory>
    ensures { IfOk result (λ after. HasCountDelta before removed added after) }
{
    Ok(VertexCounts {
        vertices: with_count_delta(before.vertices, removed.vertices, added.vertices)?,
        edges: with_count_delta(before.edges, removed.edges, added.edges)?,
        unhalted: with_count_delta(before.unhalted, removed.unhalted, added.unhalted)?,
    })
}

/// A count without some and with others. No memory holds more than fit the count.
pub(crate) fn with_count_delta(before: u64, removed: u64, added: u64) -> Result<u64, Memory>
    ensures { IfOk result (λ after. after + removed ≡ before + added) }
{
    let sum = before.checked_add(added).ok_or(AllocError)?;
    sum.checked_sub(removed).ok_or(AllocError)
}

/// The counts of no vertices.
fn no_vertices() -> VertexCounts
    ensures { result ≡ of_none }
{
    VertexCounts {
        vertices: 0,
        edges: 0,
        unhalted: 0,
    }
}

/// With one vertex more. No memory holds more edges than fit the count.
fn with_vertex(
    vertex_counts: VertexCounts,
    degree: usize,
    halted: bool,
) -> Result<VertexCounts, Memory>
    ensures { IfOk result (λ after. IsSum vertex_counts (of_one degree halted) after) }
{
    Ok(VertexCounts {
        vertices: vertex_counts.vertices.checked_add(1).ok_or(AllocError)?,
        edges: vertex_counts
            .edges
            .checked_add(degree as u64)
            .ok_or(AllocError)?,
        unhalted: vertex_counts
            .unhalted
            .checked_add(one_if(!halted))
            .ok_or(AllocError)?,
    })
}

/// With the vertex that has this state more, if there is one.
fn with_state<V: Plain>(
    vertex_counts: VertexCounts,
    state: &Option<StateRef<'_, V>>,
) -> Result<VertexCounts, Memory>
    ensures { IfOk result (λ after. IsSum vertex_counts (vertex_counts_of (option_to_list state.now)) after) }
{
    match state {
        Some(state) => with_vertex(
            vertex_counts,
            state.edges().as_slice().len(),
            state.halted(),
        ),
        None => Ok(vertex_counts),
    }
}

fn one_if(counts: bool) -> u64
    ensures { result ≡ cond counts 1 0 }
{
    if counts { 1 } else { 0 }
}
