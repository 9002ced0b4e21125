//! What stands as a run begins, and its answer.
ghost use Rattle.std.specs.Prelude.{◌≡◌, ◌≤◌, map, length, IfOk};
ghost use Rattle.pg_model.specs.Run.{beginning};
ghost use Rattle.pg_global.specs.Registry.{aggregating_of};

use pg_global::{Aggregator, Registration, Registry};
use pg_graph::{Graph, Memory, Row, VertexId};
use pg_model::{Sequence, VertexState, VertexWithInbox};
use pg_program::Computation;
use std::alloc::Global;

/// The vertices as a run begins.
pub(crate) fn with_inboxes_of<P: Computation>(
    alloc: Global,
    graph: &Graph,
    program: &P,
) -> Result<Vec<VertexWithInbox<P::Value, P::Message>>, Memory>
    ensures { IfOk result
        (λ with_inboxes. with_inboxes.items ≡ map (beginning (P.program program.now)) graph.now) }
{
    let mut with_inboxes = Vec::with_capacity(alloc, graph.vertices() as usize)?;
    for (id, row) in graph.iter() {
        with_inboxes.push(with_inbox_of(alloc, program, *id, row)?)?;
    }
    Ok(with_inboxes)
}

/// A vertex as a run begins.
fn with_inbox_of<P: Computation>(
    alloc: Global,
    program: &P,
    id: VertexId,
    row: &Row,
) -> Result<VertexWithInbox<P::Value, P::Message>, Memory>
    ensures { IfOk result (λ x. x ≡ beginning (P.program program.now) (id, row.now)) }
{
    let state = VertexState {
        id,
        value: program.initial(alloc, id, row.input)?,
        edges: row.edges.copy()?,
        halted: false,
    };
    Ok(VertexWithInbox {
        state,
        inbox: Sequence::new(alloc),
    })
}

/// What each aggregator begins with.
pub(crate) fn initial_values(
    alloc: Global,
    registrations: &[Registration],
) -> Result<Sequence<i64>, Memory>
    ensures { IfOk result
        (λ values. values ≡ map (λ r. (aggregating_of r).initial) registrations.now) }
{
    let mut values = Sequence::new(alloc);
    for registration in registrations {
        values.push(registration.kind.initial_value())?;
    }
    Ok(values)
}

/// What is registered, by place.
pub(crate) fn registrations_of(
    alloc: Global,
    registry: &Registry,
) -> Result<Vec<Registration>, Memory>
    ensures value { IfOk result (λ v. v.items ≡ map (λ e. e.1) registry.now) }
    ensures few { length registry.now ≤ 16 }
{
    let mut registrations = Vec::new(alloc);
    for place in 0..registry.len() {
        registrations.push(registry.registration(place))?;
    }
    Ok(registrations)
}
