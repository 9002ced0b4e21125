//! The vertices that a step looks at.
ghost use Rattle.std.specs.Prelude.{◌≡◌, ◌&&◌, not, IfOk};
ghost use Rattle.std.specs.List.{AllByRecursion};
ghost use Rattle.pg_model.specs.Superstep.{is_active};
ghost use Rattle.pg_part_compute.specs.Found.{HasValues, are_same_reading, is_running, is_same_vertex, with_inbox_of};
ghost use Rattle.pg_part_compute.specs.Found.{vertex_of};
ghost use Rattle.pg_trace.specs.Trace.{state_at};

use pg_graph::{Edges, Memory, Missing, Superstep, VertexId};
use pg_inbox::copied_message;
use pg_model::{Sequence, VertexState, VertexWithInbox};
use pg_program::{Computation, Plain};
use pg_trace::{StateCursor, StateRef};
use std::alloc::Global;

/// A vertex that a step looks at, as it finds it in the old run and in the new one, if it is there.
#[derive(Drop)]
pub struct VertexPair<V, M> {
    pub id: VertexId,
    pub old: Option<VertexWithInbox<V, M>>,
    pub new: Option<VertexWithInbox<V, M>>,
}

/// The vertex with an id as a superstep begins, with what is delivered to it.
pub(crate) fn vertex_at<P: Computation>(
    alloc: Global,
    program: &P,
    missing: Missing,
    states: &mut StateCursor<'_, P::Value, P::Message>,
    superstep: Superstep,
    id: VertexId,
    delivered: Sequence<P::Message>,
) -> Result<Option<VertexWithInbox<P::Value, P::Message>>, Memory>
    ensures found { IfOk result
        (λ x. x ≡ vertex_of (P.program program.now) missing id (state_at id superstep states.old) delivered) }
    ensures values { AllByRecursion P.Message.is_value delivered
        → IfOk result (HasValues P.Value.is_value P.Message.is_value) }
    ensures same { states.new ≡ states.old }
{
    let state = states.state_at(id, superstep);
    vertex_by(alloc, program, missing, id, &state, delivered)
}

/// The vertex with an id by its state, if it has one, with what is delivered to it. Without a state it is there where
/// messages make it.
fn vertex_by<P: Computation>(
    alloc: Global,
    program: &P,
    missing: Missing,
    id: VertexId,
    state: &Option<StateRef<'_, P::Value>>,
    delivered: Sequence<P::Message>,
) -> Result<Option<VertexWithInbox<P::Value, P::Message>>, Memory>
    ensures found { IfOk result (λ x. x ≡ vertex_of (P.program program.now) missing id state.now delivered) }
    ensures values { AllByRecursion P.Message.is_value delivered
        → IfOk result (HasValues P.Value.is_value P.Message.is_value) }
{
    let state = state_by(alloc, program, missing, id, state, delivered.as_slice())?;
    match state {
        Some(state) => Ok(Some(with_inbox(state, delivered))),
        None => Ok(None),
    }
}

/// A vertex with what is delivered to it. Its value is one of its type.
fn with_inbox<V: Plain, M: Plain>(
    state: VertexState<V>,
    delivered: Sequence<M>,
) -> VertexWithInbox<V, M>
    ensures same { result ≡ record { state = state; inbox = delivered } }
    ensures value { V.is_value state.value }
{
    state.value.fits();
    VertexWithInbox {
        state,
        inbox: delivered,
    }
}

/// The state of a vertex, if it has one, or the one with which what is delivered to it makes it.
#[inline(always)]
pub(crate) fn state_by<P: Computation>(
    alloc: Global,
    program: &P,
    missing: Missing,
    id: VertexId,
    state: &Option<StateRef<'_, P::Value>>,
    delivered: &[P::Message],
) -> Result<Option<VertexState<P::Value>>, Memory>
    ensures { IfOk result
        (λ x. with_inbox_of x delivered.now ≡ vertex_of (P.program program.now) missing id state.now delivered.now) }
{
    match state {
        Some(state) => Ok(Some(copied(alloc, state)?)),
        None => made_by(alloc, program, missing, id, delivered),
    }
}

/// Copies of messages, which are values of their type.
pub(crate) fn copied_messages<M: Plain>(
    alloc: Global,
    messages: &[M],
) -> Result<Sequence<M>, Memory>
    ensures same { IfOk result (λ copies. copies ≡ messages.now) }
    ensures values { IfOk result (λ copies. AllByRecursion M.is_value copies) }
{
    let mut copies = Vec::with_capacity(alloc, messages.len())?;
    for message in messages {
        copies.push(copied_message(alloc, message)?)?;
    }
    Ok(Sequence::from_vec(copies))
}

/// A copy of a state, which shares its edges.
#[inline(always)]
fn copied<V: Plain>(alloc: Global, state: &StateRef<'_, V>) -> Result<VertexState<V>, Memory>
    ensures { IfOk result (λ copy. copy ≡ state.now) }
{
    Ok(VertexState {
        id: state.id(),
        value: state.value().copy(alloc)?,
        edges: state.edges().copy()?,
        halted: state.halted(),
    })
}

/// The state of the vertex that messages make of an id without one, if any do.
fn made_by<P: Computation>(
    alloc: Global,
    program: &P,
    missing: Missing,
    id: VertexId,
    delivered: &[P::Message],
) -> Result<Option<VertexState<P::Value>>, Memory>
    ensures { IfOk result
        (λ x. with_inbox_of x delivered.now ≡ vertex_of (P.program program.now) missing id None delivered.now) }
{
    if missing == Missing::Drop || delivered.is_empty() {
        return Ok(None);
    }
    Ok(Some(VertexState {
        id,
        value: program.initial(alloc, id, 0)?,
        edges: Edges::new(),
        halted: false,
    }))
}

/// Whether a vertex is executed.
pub(crate) fn is_active<V, M>(vertex: &VertexWithInbox<V, M>) -> bool
    ensures { result ≡ is_active vertex.now }
{
    !vertex.state.halted || vertex.inbox.len() != 0
}

/// Whether a vertex is there and active in both runs, and the same.
pub(crate) fn are_same_reading<V: Plain, M: Plain>(
    old: &Option<VertexWithInbox<V, M>>,
    new: &Option<VertexWithInbox<V, M>>,
) -> bool
    ensures { result ≡ are_same_reading V.PartialEq.eq M.PartialEq.eq old.now new.now }
{
    match (old, new) {
        (Some(old), Some(new)) => is_active(old) && is_active(new) && is_same_vertex(old, new),
        _ => false,
    }
}

/// Whether a vertex is executed in the old run, and isn't in the new one.
pub(crate) fn is_stopping<V, M>(
    old: &Option<VertexWithInbox<V, M>>,
    new: &Option<VertexWithInbox<V, M>>,
) -> bool
    ensures { result ≡ (is_running old.now && not (is_running new.now)) }
{
    is_running(old) && !is_running(new)
}

/// Whether a vertex is there and executed.
fn is_running<V, M>(vertex: &Option<VertexWithInbox<V, M>>) -> bool
    ensures { result ≡ is_running vertex.now }
{
    match vertex {
        Some(vertex) => is_active(vertex),
        None => false,
    }
}

/// Whether two vertices have the same id, value, edges and messages.
fn is_same_vertex<V: Plain, M: Plain>(
    old: &VertexWithInbox<V, M>,
    new: &VertexWithInbox<V, M>,
) -> bool
    ensures { result ≡ is_same_vertex V.PartialEq.eq M.PartialEq.eq old.now new.now }
{
    old.state.id == new.state.id
        && old.state.value == new.state.value
        && old.state.edges.as_slice() == new.state.edges.as_slice()
        && old.inbox.as_slice() == new.inbox.as_slice()
}
