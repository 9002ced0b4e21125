//! The executions of a superstep.
ghost use Rattle.std.specs.Prelude.{◌≡◌, ◌++◌, ◌+◌, ◌<◌, ◌^◌, true, length, map, slice_get, slice_set, Some};
ghost use Rattle.std.specs.Prelude.{OnOk, IfOk, IfSome, ◌≤◌};
ghost use Rattle.std.specs.Ordering.{nat_cmp};
ghost use Rattle.std.specs.List.Sorted.{IsStrictlySortedBy};
ghost use Rattle.pg_model.specs.Superstep.{is_active as active_test, outcome, capped, edges_of};
ghost use Rattle.pg_model.specs.declared.configuration.VertexWithInbox.{VertexWithInbox};
ghost use Rattle.pg_program.specs.Context.{ShowsDeclared};
ghost use Rattle.pg_scratch.specs.Pass.{ran, context_after, ran_context, with_unhalted};
ghost use Rattle.pg_scratch.specs.Totals.{Counts, Exchanges};
ghost use Rattle.pg_scratch.specs.Worklist.{ListsActive};

use crate::totals::{exact, exchanged};
use crate::worklist::is_active;
use pg_graph::Memory;
use pg_model::VertexWithInbox;
use pg_program::{Computation, Cx, EdgeRoom, Plain, Vertex};
use std::alloc::Global;

/// What a pass over the vertices finds: the places of those that aren't halted then, and how many edges all
/// vertices have, where it is known.
#[derive(Drop)]
pub(crate) struct Findings {
    pub unhalted: Vec<usize>,
    pub edges: Option<u64>,
}

/// Executes an active vertex, which has then received nothing since. It works in `vertex`.
fn execute<P: Computation>(
    alloc: Global,
    program: &P,
    with_inbox: &mut VertexWithInbox<P::Value, P::Message>,
    vertex: &mut Vertex<P::Value>,
    cx: &mut Cx<P::Message>,
) -> Result<(), Memory>
    requires active { active_test with_inbox.old ≡ true }
    requires shown { ShowsDeclared (P.program program.now).declared cx.old.view }
    requires writes { cx.old.writes ≡ (P.program program.now).declared.writes }
    ensures with_inbox { OnOk result
        (with_inbox.new ≡ ran (P.program program.now) cx.old.view with_inbox.old) }
    ensures context { OnOk result (cx.new ≡ record {
      view = cx.old.view;
      writes = cx.old.writes;
      sent = cx.old.sent ++ (outcome (P.program program.now) cx.old.view with_inbox.old).sent;
      contributed = cx.old.contributed ++ (outcome (P.program program.now) cx.old.view with_inbox.old).contributed;
      calls = capped (cx.old.calls + 1);
    }) }
{
    vertex.take(&mut with_inbox.state)?;
    program.compute(alloc, vertex, with_inbox.inbox.as_slice(), cx)?;
    with_inbox.inbox.clear();
    vertex.give_back(alloc, &mut with_inbox.state)?;
    Ok(())
}

/// Executes the active vertices, whose places are on the list `work`, by rising place. `edges` is how many
/// edges the vertices have before, at most 2^64 - 1.
pub(crate) fn execute_all<P: Computation>(
    alloc: Global,
    program: &P,
    with_inboxes: &mut Vec<VertexWithInbox<P::Value, P::Message>>,
    work: &[usize],
    edges: u64,
    cx: &mut Cx<P::Message>,
) -> Result<Findings, Memory>
    requires lists { ListsActive with_inboxes.old.items work.now }
    requires rising { IsStrictlySortedBy nat_cmp work.now }
    requires edges { edges ≡ capped (edges_of with_inboxes.old.items) }
    requires shown { ShowsDeclared (P.program program.now).declared cx.old.view }
    requires writes { cx.old.writes ≡ (P.program program.now).declared.writes }
    requires fits { cx.old.calls < 2 ^ 64 }
    ensures with_inboxes { OnOk result
        (with_inboxes.new.items ≡ map (ran (P.program program.now) cx.old.view) with_inboxes.old.items) }
    ensures context { OnOk result
        (cx.new ≡ ran_context (P.program program.now) cx.old with_inboxes.old.items) }
    ensures lists { IfOk result (λ found. ListsActive with_inboxes.new.items found.unhalted.items) }
    ensures edges { IfOk result (λ found. Counts found.edges (edges_of with_inboxes.new.items)) }
{
    let unhalted = Vec::with_capacity(alloc, work.len())?;
    let mut found = Findings {
        unhalted,
        edges: exact(edges),
    };
    if work.is_empty() {
        return Ok(found);
    }
    let mut vertex = vertex_like(alloc, &with_inboxes[work[0]])?;
    for place in work {
        execute_at(
            alloc,
            program,
            with_inboxes,
            *place,
            &mut vertex,
            cx,
            &mut found,
        )?;
    }
    Ok(found)
}

/// A vertex to work in, which is a copy of another.
fn vertex_like<V: Plain, M>(
    alloc: Global,
    with_inbox: &VertexWithInbox<V, M>,
) -> Result<Vertex<V>, Memory> {
    let value = with_inbox.state.value.copy(alloc)?;
    let edges = with_inbox.state.edges.copy()?;
    Vertex::new(with_inbox.state.id, value, edges, EdgeRoom::new(alloc))
}

/// Executes a vertex, if it is active.
fn visit<P: Computation>(
    alloc: Global,
    program: &P,
    with_inbox: &mut VertexWithInbox<P::Value, P::Message>,
    vertex: &mut Vertex<P::Value>,
    cx: &mut Cx<P::Message>,
) -> Result<(), Memory>
    requires shown { ShowsDeclared (P.program program.now).declared cx.old.view }
    requires writes { cx.old.writes ≡ (P.program program.now).declared.writes }
    requires fits { cx.old.calls < 2 ^ 64 }
    ensures with_inbox { OnOk result
        (with_inbox.new ≡ ran (P.program program.now) cx.old.view with_inbox.old) }
    ensures context { OnOk result
        (cx.new ≡ context_after (P.program program.now) cx.old with_inbox.old) }
{
    if !is_active(with_inbox) {
        return Ok(());
    }
    execute(alloc, program, with_inbox, vertex, cx)?;
    Ok(())
}

/// Executes a vertex, if it is active, and keeps the number of all edges.
fn visit_counted<P: Computation>(
    alloc: Global,
    program: &P,
    with_inbox: &mut VertexWithInbox<P::Value, P::Message>,
    vertex: &mut Vertex<P::Value>,
    cx: &mut Cx<P::Message>,
    edges: &mut Option<u64>,
) -> Result<(), Memory>
    requires shown { ShowsDeclared (P.program program.now).declared cx.old.view }
    requires writes { cx.old.writes ≡ (P.program program.now).declared.writes }
    requires fits { cx.old.calls < 2 ^ 64 }
    requires edges { IfSome edges.old (λ n. length with_inbox.old.state.edges ≤ n) }
    ensures with_inbox { OnOk result
        (with_inbox.new ≡ ran (P.program program.now) cx.old.view with_inbox.old) }
    ensures context { OnOk result
        (cx.new ≡ context_after (P.program program.now) cx.old with_inbox.old) }
    ensures edges { OnOk result
        (Exchanges edges.old edges.new with_inbox.old
        (ran (P.program program.now) cx.old.view with_inbox.old)) }
{
    let before = with_inbox.state.edges.as_slice().len();
    visit(alloc, program, with_inbox, vertex, cx)?;
    let after = with_inbox.state.edges.as_slice().len();
    *edges = exchanged(*edges, before, after);
    Ok(())
}

/// Executes the vertex at a place, if it is active, and notes what it finds there.
fn execute_at<P: Computation>(
    alloc: Global,
    program: &P,
    with_inboxes: &mut Vec<VertexWithInbox<P::Value, P::Message>>,
    place: usize,
    vertex: &mut Vertex<P::Value>,
    cx: &mut Cx<P::Message>,
    found: &mut Findings,
) -> Result<(), Memory>
    requires within { place < length with_inboxes.old.items }
    requires shown { ShowsDeclared (P.program program.now).declared cx.old.view }
    requires writes { cx.old.writes ≡ (P.program program.now).declared.writes }
    requires fits { cx.old.calls < 2 ^ 64 }
    requires edges { (x : VertexWithInbox P.Value P.Message) → slice_get with_inboxes.old.items place ≡ Some x
        → IfSome found.old.edges (λ n. length x.state.edges ≤ n) }
    ensures with_inboxes { OnOk result
        ((x : VertexWithInbox P.Value P.Message) → slice_get with_inboxes.old.items place ≡ Some x
        → with_inboxes.new.items ≡ slice_set with_inboxes.old.items place (ran (P.program program.now) cx.old.view x)) }
    ensures context { OnOk result
        ((x : VertexWithInbox P.Value P.Message) → slice_get with_inboxes.old.items place ≡ Some x
        → cx.new ≡ context_after (P.program program.now) cx.old x) }
    ensures unhalted { OnOk result
        ((x : VertexWithInbox P.Value P.Message) → slice_get with_inboxes.old.items place ≡ Some x
        → found.new.unhalted.items ≡ with_unhalted found.old.unhalted.items place
        (ran (P.program program.now) cx.old.view x)) }
    ensures edges { OnOk result
        ((x : VertexWithInbox P.Value P.Message) → slice_get with_inboxes.old.items place ≡ Some x
        → Exchanges found.old.edges found.new.edges x (ran (P.program program.now) cx.old.view x)) }
{
    let with_inbox = &mut with_inboxes[place];
    visit_counted(alloc, program, with_inbox, vertex, cx, &mut found.edges)?;
    if !with_inbox.state.halted {
        found.unhalted.push(place)?;
    }
    Ok(())
}
