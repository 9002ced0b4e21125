//! Look-ups of states that come near one another.
ghost use Rattle.std.specs.Prelude.{◌≡◌, ◌+◌, [], slice_index_or};
ghost use Rattle.std.specs.Option.{option_and_then, option_copied, option_map, option_or};
ghost use Rattle.pg_map.specs.Entries.{value_at};
ghost use Rattle.pg_trace_index.specs.Occurrences.{IsIndex};
ghost use Rattle.pg_trace.specs.OfRun.{IsOfRun};
ghost use Rattle.pg_trace.specs.Trace.{left_by, state_at};

use crate::beginnings::{Beginnings, InitialCursor};
use crate::{StateRef, Transition};
use pg_graph::{Superstep, VertexId};
use pg_model::VertexState;
use pg_trace_index::{Index, IndexCursor, LastOccurrences, Occurrence};
use pg_trace_records::{RecordRef, Records};
use std::marker::Model;

/// Looks up the states of vertices in a trace. Where an id lies near the one before, it costs a search near that.
/// A contract sees the trace.
#[derive(Drop)]
pub struct StateCursor<'a, V, M> {
    initial: InitialCursor<'a, V>,
    runs: IndexCursor<'a>,
    supersteps: &'a [Records<V, M>],
}

impl<'a, V, M> Model for StateCursor<'a, V, M> {
    ghost use Rattle.pg_trace.specs.Trace.{Trace};

    ghost Value = { Trace V M };

    ghost use Rattle.pg_trace_index.specs.Occurrences.{IsIndex};

    ghost view = { λ s. record { initial = s.initial; records = s.supersteps.now } };

    ghost invariant = { λ s. IsIndex s.supersteps.now s.runs };
}

impl<'a, V: Drop, M: Drop> StateCursor<'a, V, M> {
    /// Look-ups in a trace of these parts.
    pub(crate) fn of(
        initial: &'a Beginnings<V>,
        ran: &'a Index,
        supersteps: &'a [Records<V, M>],
    ) -> StateCursor<'a, V, M>
        requires { IsIndex supersteps.now ran.now }
        ensures { result ≡ record { initial = initial.now; records = supersteps.now } }
    {
        StateCursor {
            initial: initial.cursor(),
            runs: ran.cursor(),
            supersteps,
        }
    }

    /// The state of a vertex as a superstep begins: that of its last record before it, else its initial one. There is
    /// none where it has neither.
    ///
    /// Where the trace holds a run so far, it is the state in that run.
    #[inline(always)]
    pub fn state_at(&mut self, id: VertexId, superstep: Superstep) -> Option<StateRef<'a, V>>
        ensures value { result ≡ state_at id superstep self.old }
        ensures run { IsOfRun self.old id superstep result }
        ensures same { self.new ≡ self.old }
    {
        self.state_before(id, superstep.number())
    }

    /// The states of a vertex as a superstep begins and as the next one begins: those that `state_at` finds, by one
    /// look-up of the vertex. Where it didn't run in the superstep both are one state, which is found once.
    pub fn transition_at(&mut self, id: VertexId, superstep: Superstep) -> Transition<'a, V>
        ensures before { result.before ≡ state_at id superstep self.old }
        ensures after { result.after ≡ state_at id (superstep + 1) self.old }
        ensures same { self.new ≡ self.old }
    {
        let supersteps = self.supersteps;
        let LastOccurrences { before, after } = self.runs.last_around(id, superstep.number());
        let before = record_of(supersteps, id, before);
        let after = record_of(supersteps, id, after);
        if let (Some(before), Some(after)) = (&before, &after) {
            return Transition {
                before: Some(StateRef::of_record(id, before)),
                after: Some(StateRef::of_record(id, after)),
            };
        }
        let begun = self.initial.get(id);
        Transition {
            before: state_left(id, &before, begun),
            after: state_left(id, &after, begun),
        }
    }

    /// The state of a vertex as a superstep begins.
    #[inline(always)]
    fn state_before(&mut self, id: VertexId, superstep: u32) -> Option<StateRef<'a, V>>
        ensures value { result ≡ state_at id superstep self.old }
        ensures same { self.new ≡ self.old }
    {
        let supersteps = self.supersteps;
        let run = self.runs.last_before(id, superstep);
        match record_of(supersteps, id, run) {
            Some(produced) => Some(StateRef::of_record(id, &produced)),
            None => {
                let state = self.initial.get(id)?;
                Some(StateRef::of_state(state))
            }
        }
    }
}

/// The record of a run of a vertex, if there is one.
#[inline(always)]
fn record_of<'a, V: Drop, M: Drop>(
    supersteps: &'a [Records<V, M>],
    id: VertexId,
    run: Option<Occurrence>,
) -> Option<RecordRef<'a, V, M>>
    ensures { result
        ≡ option_and_then (λ t. value_at id (slice_index_or supersteps.now t [])) (option_map (λ r. r.superstep) run) }
{
    let run = run?;
    let records = supersteps.get(run.superstep as usize)?;
    records.get(id, run.place as usize)
}

/// The state that a record leaves, or where there is none the one with which the vertex began.
fn state_left<'a, V, M>(
    id: VertexId,
    produced: &Option<RecordRef<'a, V, M>>,
    begun: Option<&'a VertexState<V>>,
) -> Option<StateRef<'a, V>>
    ensures { result ≡ option_or (option_map (left_by id) (produced.now)) (option_copied begun.entry) }
{
    match produced {
        Some(produced) => Some(StateRef::of_record(id, produced)),
        None => Some(StateRef::of_state(begun?)),
    }
}
