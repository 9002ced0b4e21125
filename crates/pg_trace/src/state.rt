//! The state of a vertex, borrowed from where a trace has it.
ghost use Rattle.std.specs.Prelude.{◌≡◌};
ghost use Rattle.pg_trace.specs.Trace.{left_by};

use pg_graph::{Edges, VertexId};
use pg_model::VertexState;
use pg_trace_records::RecordRef;
use std::marker::Model;

/// The state of a vertex as a superstep begins. A contract sees it as a `VertexState`.
#[derive(Drop)]
pub struct StateRef<'a, V> {
    id: VertexId,
    value: &'a V,
    edges: &'a Edges,
    halted: bool,
}

impl<'a, V> Model for StateRef<'a, V> {
    ghost use Rattle.pg_model.specs.declared.configuration.VertexState.{VertexState};

    ghost Value = { VertexState V };

    ghost view = { λ s. record { id = s.id; value = s.value.now; edges = s.edges.now; halted = s.halted } };
}

impl<'a, V> StateRef<'a, V> {
    /// A state as it is.
    pub(crate) fn of_state(state: &'a VertexState<V>) -> StateRef<'a, V>
        ensures { result ≡ state.now }
    {
        StateRef {
            id: state.id,
            value: &state.value,
            edges: &state.edges,
            halted: state.halted,
        }
    }

    /// The state that a record leaves.
    pub(crate) fn of_record<M>(id: VertexId, produced: &RecordRef<'a, V, M>) -> StateRef<'a, V>
        ensures { result ≡ left_by id produced.now }
    {
        StateRef {
            id,
            value: produced.value(),
            edges: produced.edges(),
            halted: produced.halted(),
        }
    }

    /// The vertex.
    pub fn id(&self) -> VertexId
        ensures { result ≡ self.now.id }
    {
        self.id
    }

    /// Its value.
    pub fn value(&self) -> &'a V
        ensures { result.now ≡ self.now.value }
    {
        self.value
    }

    /// Its out-edges.
    pub fn edges(&self) -> &'a Edges
        ensures { result.now ≡ self.now.edges }
    {
        self.edges
    }

    /// Whether it is halted.
    pub fn halted(&self) -> bool
        ensures { result ≡ self.now.halted }
    {
        self.halted
    }
}

/// What a superstep makes of a vertex: its state as that begins, and as the next one begins.
#[derive(Drop)]
pub struct Transition<'a, V> {
    /// The state as the superstep begins, if there is one.
    pub before: Option<StateRef<'a, V>>,
    /// The state as the next one begins, if there is one.
    pub after: Option<StateRef<'a, V>>,
}
