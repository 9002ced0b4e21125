//! The executions of a step.
ghost use Rattle.std.specs.Prelude.{◌≡◌, ◌+◌, ◌^◌, ◌<◌, ◌≤◌, true, length, cond, is_some, map, IfOk, OnOk, None, []};
ghost use Rattle.std.specs.Prelude.{◌∷◌, ◌++◌};
ghost use Rattle.std.specs.List.{count_by, flat_map};
ghost use Rattle.pg_global.specs.Master.{has_places};
ghost use Rattle.pg_model.specs.Superstep.{capped, inputs_of, view_of};
ghost use Rattle.pg_part_compute.specs.Found.{are_inactive, change_cold, change_of, change_unless, is_run, reads};
ghost use Rattle.pg_part_compute.specs.Found.{with_inbox_of};
ghost use Rattle.pg_program.specs.Context.{ShowsDeclared};
ghost use Rattle.pg_part_compute.specs.Executor.{IsReady, changes_of};
ghost use Rattle.pg_part_compute.specs.VertexCountsDeltas.{given_at};
ghost use Rattle.pg_trace.specs.Handed.{AreWithin};

use crate::found::{VertexPair, are_same_reading, is_stopping};
use pg_global::{Visible, view_of};
use pg_graph::{Memory, Superstep, VertexId};
use pg_model::{Sequence, VertexState, VertexWithInbox, View};
use pg_program::{Computation, Cx, EdgeRoom, Meter, Vertex};
use pg_stats::VertexCountsDelta;
use pg_trace::{Executed, Extent, RecordChanges, RecordRef, record_of};
use std::alloc::Global;
use std::mem;

/// What the executions of a superstep see, and the meter.
#[derive(Drop)]
pub struct StepContext {
    pub view: View,
    pub meter: Meter,
}

impl StepContext {
    /// What the executions of a superstep see, as the master shows it, with a meter that goes on.
    pub fn new<P: Computation>(
        alloc: Global,
        program: &P,
        superstep: Superstep,
        visible: &Visible,
        meter: Meter,
    ) -> Result<StepContext, Memory>
        requires few { length visible.now.values ≤ 16 }
        requires declared { has_places (P.program program.now).declared (length visible.now.values) ≡ true }
        ensures view { IfOk result
            (λ step_context. step_context.view ≡ view_of (P.program program.now).declared superstep visible.now) }
        ensures shown { IfOk result (λ step_context. ShowsDeclared (P.program program.now).declared step_context.view) }
        ensures meter { IfOk result (λ step_context. step_context.meter ≡ meter) }
        ensures fits { IfOk result (λ step_context. step_context.meter < 2 ^ 64) }
    {
        let view = view_of(alloc, program.declared(), superstep, visible)?;
        Ok(StepContext { view, meter })
    }
}

/// The executions of a superstep, one after another: the context in which they send and contribute, what each vertex
/// has produced, or that it has no record any more, and room for changed edges. What was sent and contributed lies side
/// by side in the context, and each execution has its part of it.
#[derive(Drop)]
pub(crate) struct Executor<V, M> {
    cx: Cx<M>,
    produced: Vec<(VertexId, Option<Executed<V>>)>,
    room: EdgeRoom,
}

impl<V: Drop, M: Drop> Executor<V, M> {
    /// No execution of a program yet, with room for what so many vertices leave and for so many messages.
    pub(crate) fn of<P: Computation>(
        alloc: Global,
        program: &P,
        step_context: StepContext,
        vertices: usize,
        messages: usize,
    ) -> Result<Executor<V, M>, Memory>
        ensures changes { IfOk result (λ executor. changes_of executor ≡ []) }
        ensures view { IfOk result (λ executor. executor.cx.view ≡ step_context.view) }
        ensures meter { IfOk result (λ executor. executor.cx.calls ≡ step_context.meter) }
        ensures ready { IfOk result (λ executor. IsReady (P.program program.now).declared executor) }
    {
        let StepContext { view, meter } = step_context;
        let sent = Sequence::from_vec(Vec::with_capacity(alloc, messages)?);
        let contributed = Sequence::new(alloc);
        Ok(Executor {
            cx: Cx::with_room(view, program.declared(), meter, sent, contributed),
            produced: Vec::with_capacity(alloc, vertices)?,
            room: EdgeRoom::new(alloc),
        })
    }

    /// How many vertices it has changed the records of.
    pub(crate) fn len(&self) -> usize
        ensures { result ≡ length (changes_of self.now) }
    {
        self.produced.len()
    }

    /// The record that the change at a place gives, if there is one.
    #[inline(always)]
    pub(crate) fn given_at(&self, place: usize) -> Option<RecordRef<'_, V, M>>
        requires { AreWithin self.now.cx.sent self.now.cx.contributed self.now.produced.items }
        ensures { result ≡ given_at (changes_of self.now) place }
    {
        let (_, produced) = self.produced.get(place)?;
        match produced {
            Some(produced) => Some(record_of(self.cx.sent(), self.cx.contributed(), produced)),
            None => None,
        }
    }

    /// What the executions have made of these vertices.
    pub(crate) fn into_step_delta(
        self,
        dirty_ids: Vec<VertexId>,
        vertex_counts_delta: Option<VertexCountsDelta>,
    ) -> StepDelta<V, M>
        requires { AreWithin self.cx.sent self.cx.contributed self.produced.items }
        ensures dirty_ids { result.dirty_ids.items ≡ dirty_ids.items }
        ensures changes { result.changes ≡ changes_of self }
        ensures meter { result.meter ≡ self.cx.calls }
        ensures vertex_counts_delta { result.vertex_counts_delta ≡ vertex_counts_delta }
    {
        let Executor { cx, produced, .. } = self;
        let (_view, sent, contributed, meter) = cx.into_parts();
        StepDelta {
            dirty_ids,
            changes: RecordChanges::of(produced, sent.into_vec(), contributed.into_vec()),
            meter,
            vertex_counts_delta,
        }
    }
}

/// What a step makes of the vertices that it looks at: which they are, what becomes of their records where it isn't
/// what stands there, the meter afterwards, and their vertex counts before and after it where it knows them without a
/// look-up.
#[derive(Drop)]
pub struct StepDelta<V, M> {
    pub dirty_ids: Vec<VertexId>,
    pub changes: RecordChanges<V, M>,
    pub meter: Meter,
    pub vertex_counts_delta: Option<VertexCountsDelta>,
}

/// Executes each vertex that is active, but for those that read what they read in the old run, where the
/// view is seen again.
pub(crate) fn execute_pairs<P: Computation>(
    alloc: Global,
    program: &P,
    vertex_pairs: Vec<VertexPair<P::Value, P::Message>>,
    same_view: bool,
    step_context: StepContext,
) -> Result<StepDelta<P::Value, P::Message>, Memory>
    requires shown { ShowsDeclared (P.program program.now).declared step_context.view }
    requires fits { step_context.meter < 2 ^ 64 }
    ensures dirty_ids { IfOk result (λ p. p.dirty_ids.items ≡ map (λ c. c.id) vertex_pairs.items) }
    ensures changes { IfOk result (λ p. p.changes
        ≡ flat_map (change_of P.Value.PartialEq.eq P.Message.PartialEq.eq (P.program program.now) step_context.view
        same_view) vertex_pairs.items) }
    ensures meter { IfOk result (λ p. p.meter
        ≡ capped (step_context.meter + count_by
        (is_run P.Value.PartialEq.eq P.Message.PartialEq.eq (P.program program.now) step_context.view same_view)
        vertex_pairs.items)) }
{
    let mut dirty_ids = Vec::with_capacity(alloc, vertex_pairs.len())?;
    let mut executor = Executor::of(alloc, program, step_context, 0, 0)?;
    for vertex_pair in vertex_pairs {
        dirty_ids.push(vertex_pair.id)?;
        execute_one(alloc, program, vertex_pair, same_view, &mut executor)?;
    }
    Ok(executor.into_step_delta(dirty_ids, None))
}

/// Executes a vertex if it is active and doesn't read what it read in the old run.
fn execute_one<P: Computation>(
    alloc: Global,
    program: &P,
    vertex_pair: VertexPair<P::Value, P::Message>,
    same_view: bool,
    executor: &mut Executor<P::Value, P::Message>,
) -> Result<(), Memory>
    requires shown { ShowsDeclared (P.program program.now).declared executor.old.cx.view }
    requires fits { executor.old.cx.calls < 2 ^ 64 }
    requires ready { IsReady (P.program program.now).declared executor.old }
    ensures changes { OnOk result (changes_of executor.new
        ≡ changes_of executor.old ++ change_of P.Value.PartialEq.eq P.Message.PartialEq.eq (P.program program.now)
        executor.old.cx.view same_view vertex_pair) }
    ensures view { OnOk result (executor.new.cx.view ≡ executor.old.cx.view) }
    ensures ready { OnOk result (IsReady (P.program program.now).declared executor.new) }
    ensures meter { OnOk result (executor.new.cx.calls
        ≡ capped (executor.old.cx.calls
        + cond (is_run P.Value.PartialEq.eq P.Message.PartialEq.eq (P.program program.now)
        executor.old.cx.view same_view vertex_pair) 1 0)) }
{
    if same_view && are_same_reading(&vertex_pair.old, &vertex_pair.new) {
        return Ok(());
    }
    execute_other(alloc, program, vertex_pair, executor)
}

/// Executes a vertex, if it is active.
fn execute_other<P: Computation>(
    alloc: Global,
    program: &P,
    vertex_pair: VertexPair<P::Value, P::Message>,
    executor: &mut Executor<P::Value, P::Message>,
) -> Result<(), Memory>
    requires shown { ShowsDeclared (P.program program.now).declared executor.old.cx.view }
    requires fits { executor.old.cx.calls < 2 ^ 64 }
    requires ready { IsReady (P.program program.now).declared executor.old }
    ensures changes { OnOk result (changes_of executor.new
        ≡ changes_of executor.old ++ change_unless (P.program program.now) executor.old.cx.view
        (are_inactive vertex_pair.old vertex_pair.new) vertex_pair) }
    ensures view { OnOk result (executor.new.cx.view ≡ executor.old.cx.view) }
    ensures ready { OnOk result (IsReady (P.program program.now).declared executor.new) }
    ensures meter { OnOk result (executor.new.cx.calls
        ≡ capped (executor.old.cx.calls + cond (is_some (reads executor.old.cx.view vertex_pair.new)) 1 0)) }
{
    let VertexPair { id, old, new } = vertex_pair;
    let stops = is_stopping(&old, &new);
    push_if_stopping(&mut executor.produced, stops, id)?;
    execute_vertex(alloc, program, id, new, executor)
}

/// Adds that there is no record any more, where a vertex stops running.
fn push_if_stopping<V: Drop>(
    produced: &mut Vec<(VertexId, Option<Executed<V>>)>,
    stops: bool,
    id: VertexId,
) -> Result<(), Memory>
    ensures { OnOk result (produced.new.items ≡ produced.old.items ++ cond stops ((id, None) ∷ []) []) }
{
    if stops {
        produced.push((id, None))?;
    }
    Ok(())
}

/// Executes a vertex, if it is there and active, and adds its record.
fn execute_vertex<P: Computation>(
    alloc: Global,
    program: &P,
    id: VertexId,
    vertex: Option<VertexWithInbox<P::Value, P::Message>>,
    executor: &mut Executor<P::Value, P::Message>,
) -> Result<(), Memory>
    requires shown { ShowsDeclared (P.program program.now).declared executor.old.cx.view }
    requires fits { executor.old.cx.calls < 2 ^ 64 }
    requires ready { IsReady (P.program program.now).declared executor.old }
    ensures changes { OnOk result (changes_of executor.new
        ≡ changes_of executor.old ++ change_cold (P.program program.now) executor.old.cx.view
        (record { id = id; old = None; new = vertex })) }
    ensures view { OnOk result (executor.new.cx.view ≡ executor.old.cx.view) }
    ensures ready { OnOk result (IsReady (P.program program.now).declared executor.new) }
    ensures meter { OnOk result
        (executor.new.cx.calls ≡ capped
        (executor.old.cx.calls + cond (is_some (reads executor.old.cx.view vertex)) 1 0)) }
{
    match vertex {
        Some(VertexWithInbox { state, inbox }) => {
            execute_found(alloc, program, id, Some(state), inbox.as_slice(), executor)
        }
        None => Ok(()),
    }
}

/// Executes a vertex with this state, if there is one and it is active, and adds its record.
#[inline(always)]
pub(crate) fn execute_found<P: Computation>(
    alloc: Global,
    program: &P,
    id: VertexId,
    state: Option<VertexState<P::Value>>,
    delivered: &[P::Message],
    executor: &mut Executor<P::Value, P::Message>,
) -> Result<(), Memory>
    requires shown { ShowsDeclared (P.program program.now).declared executor.old.cx.view }
    requires fits { executor.old.cx.calls < 2 ^ 64 }
    requires ready { IsReady (P.program program.now).declared executor.old }
    ensures changes { OnOk result (changes_of executor.new ≡ changes_of executor.old
        ++ change_cold (P.program program.now) executor.old.cx.view
        (record { id = id; old = None; new = with_inbox_of state delivered.now })) }
    ensures view { OnOk result (executor.new.cx.view ≡ executor.old.cx.view) }
    ensures ready { OnOk result (IsReady (P.program program.now).declared executor.new) }
    ensures meter { OnOk result
        (executor.new.cx.calls ≡ capped
        (executor.old.cx.calls + cond (is_some (reads executor.old.cx.view (with_inbox_of state delivered.now))) 1
        0)) }
{
    match state {
        Some(state) => {
            if state.halted && delivered.is_empty() {
                return Ok(());
            }
            execute(alloc, program, id, state, delivered, executor)
        }
        None => Ok(()),
    }
}

/// Executes a vertex, and adds its record.
#[inline(always)]
fn execute<P: Computation>(
    alloc: Global,
    program: &P,
    id: VertexId,
    state: VertexState<P::Value>,
    delivered: &[P::Message],
    executor: &mut Executor<P::Value, P::Message>,
) -> Result<(), Memory>
    requires shown { ShowsDeclared (P.program program.now).declared executor.old.cx.view }
    requires ready { IsReady (P.program program.now).declared executor.old }
    ensures given { OnOk result (changes_of executor.new ≡ changes_of executor.old ++ (
      id,
      Some ((P.program program.now).step
          (inputs_of executor.old.cx.view (record { state = state; inbox = delivered.now }))),
    ) ∷ []) }
    ensures view { OnOk result (executor.new.cx.view ≡ executor.old.cx.view) }
    ensures ready { OnOk result (IsReady (P.program program.now).declared executor.new) }
    ensures meter { OnOk result (executor.new.cx.calls ≡ capped (executor.old.cx.calls + 1)) }
{
    let sent = executor.cx.sent().len();
    let contributed = executor.cx.contributed().len();
    let room = mem::replace(&mut executor.room, EdgeRoom::new(alloc));
    let mut vertex = Vertex::new(state.id, state.value, state.edges, room)?;
    program.compute(alloc, &mut vertex, delivered, &mut executor.cx)?;
    let (state, room) = vertex.into_parts(alloc)?;
    executor.room = room;
    let produced = Executed {
        value: state.value,
        edges: state.edges,
        halted: state.halted,
        sent: Extent::between(sent, executor.cx.sent().len())?,
        contributed: Extent::between(contributed, executor.cx.contributed().len())?,
    };
    // `push` hands the entry back where memory is refused, and so it goes through memory once more.
    executor.produced.reserve(1)?;
    executor.produced.push_reserved((id, Some(produced)));
    Ok(())
}
