//! The vertices of a superstep: those that have a state, and those that messages make.
ghost use Rattle.std.specs.Prelude.{◌≡◌, ℕ, [], ◌∷◌, ◌++◌, false, List, map, IfOk, OnOk};
ghost use Rattle.std.specs.Ordering.{nat_cmp};
ghost use Rattle.std.specs.List.Sorted.{IsStrictlySortedBy};
ghost use Rattle.pg_model.specs.InOrder.{AreWaiting};
ghost use Rattle.pg_model.specs.Superstep.{ids as ids_of, made as made_vertex, with_made};
ghost use Rattle.pg_scratch.specs.VertexTable.{IsInPlace, Takes, first_is_below};

use crate::ids::IdIndex;
use crate::worklist::active_places;
use pg_graph::{Edges, Memory, VertexId};
use pg_model::{Sequence, VertexState, VertexWithInbox};
use pg_program::Computation;
use std::alloc::Global;
use std::collections::VecDeque;

/// Vertices by rising id, their ids, and the list of the places of the active ones, on which others may stand.
#[derive(Drop)]
pub struct VertexTable<V, M> {
    pub with_inboxes: Vec<VertexWithInbox<V, M>>,
    pub ids: IdIndex,
    pub work: Vec<usize>,
}

/// The vertices with those that messages make: of each id that something waits for, which has no state, a vertex
/// by its rising id. It begins with what the program gives an id without an input, has no edges, isn't halted, and
/// has received what waits.
///
/// # Cost
///
/// Nothing, where nothing waits, and else one walk over the vertices.
pub fn with_waiting<P: Computation>(
    alloc: Global,
    program: &P,
    vertex_table: VertexTable<P::Value, P::Message>,
    waiting: Sequence<(VertexId, Sequence<P::Message>)>,
) -> Result<VertexTable<P::Value, P::Message>, Memory>
    requires in_place { IsInPlace vertex_table }
    requires waiting { AreWaiting (ids_of vertex_table.with_inboxes.items) waiting }
    ensures with_inboxes { IfOk result
        (λ r. r.with_inboxes.items
        ≡ with_made (P.program program.now) vertex_table.with_inboxes.items waiting) }
    ensures in_place { IfOk result (λ r. IsInPlace r) }
{
    if waiting.len() == 0 {
        return Ok(vertex_table);
    }
    let VertexTable {
        with_inboxes,
        ids: _,
        work: _,
    } = vertex_table;
    let with_inboxes = merged(alloc, program, with_inboxes, waiting.into_vec())?;
    let ids = IdIndex::of_vertices(alloc, with_inboxes.as_slice())?;
    let work = active_places(alloc, with_inboxes.as_slice())?;
    Ok(VertexTable {
        with_inboxes,
        ids,
        work,
    })
}

/// Vertices and those that messages make, by rising id.
fn merged<P: Computation>(
    alloc: Global,
    program: &P,
    with_inboxes: Vec<VertexWithInbox<P::Value, P::Message>>,
    waiting: Vec<(VertexId, Sequence<P::Message>)>,
) -> Result<Vec<VertexWithInbox<P::Value, P::Message>>, Memory>
    requires rising { IsStrictlySortedBy nat_cmp (ids_of with_inboxes.items) }
    requires waiting { AreWaiting (ids_of with_inboxes.items) waiting.items }
    ensures { IfOk result
        (λ xs. xs.items ≡ with_made (P.program program.now) with_inboxes.items waiting.items) }
{
    let mut waiting = VecDeque::from(waiting);
    let mut merged = Vec::with_capacity(alloc, with_inboxes.len())?;
    for with_inbox in with_inboxes {
        let id = id_of(&with_inbox);
        push_below(alloc, program, id, &mut waiting, &mut merged)?;
        merged.push(with_inbox)?;
    }
    push_rest(alloc, program, waiting, &mut merged)?;
    Ok(merged)
}

/// The id of a vertex.
fn id_of<V, M>(with_inbox: &VertexWithInbox<V, M>) -> VertexId
    ensures { result ≡ with_inbox.now.state.id }
{
    with_inbox.state.id
}

/// Adds the vertices that wait below an id.
fn push_below<P: Computation>(
    alloc: Global,
    program: &P,
    id: VertexId,
    waiting: &mut VecDeque<(VertexId, Sequence<P::Message>)>,
    merged: &mut Vec<VertexWithInbox<P::Value, P::Message>>,
) -> Result<(), Memory>
    ensures takes { OnOk result
        (Takes (P.program program.now) id waiting.old.items waiting.new.items merged.old.items merged.new.items) }
    ensures rest { OnOk result (first_is_below id waiting.new.items ≡ false) }
{
    while is_first_below(waiting, id) {
        push_first(alloc, program, waiting, merged)?;
    }
    Ok(())
}

/// Whether the first one that waits has an id below this one.
fn is_first_below<M>(waiting: &VecDeque<(VertexId, Sequence<M>)>, id: VertexId) -> bool
    ensures { result ≡ first_is_below id waiting.now.items }
{
    match waiting.front() {
        Some((first, _)) => *first < id,
        None => false,
    }
}

/// Adds the vertex that waits first, if there is one.
fn push_first<P: Computation>(
    alloc: Global,
    program: &P,
    waiting: &mut VecDeque<(VertexId, Sequence<P::Message>)>,
    merged: &mut Vec<VertexWithInbox<P::Value, P::Message>>,
) -> Result<(), Memory>
    ensures { OnOk result
        ((w : ℕ × List P.Message) (ws : List (ℕ × List P.Message)) → waiting.old.items ≡ w ∷ ws
        → (waiting.new.items ≡ ws)
        × (merged.new.items ≡ merged.old.items ++ made_vertex (P.program program.now) w ∷ [])) }
{
    if let Some((id, inbox)) = waiting.pop_front() {
        merged.push(made(alloc, program, id, inbox)?)?;
    }
    Ok(())
}

/// Adds all vertices that wait.
fn push_rest<P: Computation>(
    alloc: Global,
    program: &P,
    waiting: VecDeque<(VertexId, Sequence<P::Message>)>,
    merged: &mut Vec<VertexWithInbox<P::Value, P::Message>>,
) -> Result<(), Memory>
    ensures { OnOk result
        (merged.new.items
        ≡ merged.old.items ++ map (made_vertex (P.program program.now)) waiting.items) }
{
    for (id, inbox) in waiting {
        merged.push(made(alloc, program, id, inbox)?)?;
    }
    Ok(())
}

/// A vertex that its first messages make.
fn made<P: Computation>(
    alloc: Global,
    program: &P,
    id: VertexId,
    inbox: Sequence<P::Message>,
) -> Result<VertexWithInbox<P::Value, P::Message>, Memory>
    ensures { IfOk result (λ x. x ≡ made_vertex (P.program program.now) (id, inbox)) }
{
    let state = VertexState {
        id,
        value: program.initial(alloc, id, 0)?,
        edges: Edges::new(),
        halted: false,
    };
    Ok(VertexWithInbox { state, inbox })
}
