//! One superstep.
ghost use Rattle.std.specs.Prelude.{◌≡◌, ◌<◌, ◌^◌, length, IfOk};
ghost use Rattle.pg_model.specs.Superstep.{capped, edges_of};
ghost use Rattle.pg_program.specs.Context.{ShowsDeclared};
ghost use Rattle.pg_global.specs.Master.{job_of};
ghost use Rattle.pg_scratch.specs.VertexTable.{IsInPlace};
ghost use Rattle.pg_scratch.specs.Stages.{HasExecuted, HasStepped, IsReady, IsPrepared};

use crate::execution::execute_all;
use crate::gathering::gather_all;
use crate::ids::IdIndex;
use crate::receiving::{Received, receive};
use crate::totals::capped_total;
use crate::vertex_table::{VertexTable, with_waiting};
use pg_global::{MasterCompute, MessageCombiner, Registration, view_of, visible_in};
use pg_graph::{Memory, Missing, Superstep, VertexId};
use pg_model::{Configuration, Place, Sequence, View};
use pg_program::{Computation, Cx, Meter};
use std::alloc::Global;

/// What a run is made with: all that stays the same in its supersteps.
#[derive(Drop)]
pub(crate) struct Runner<'a, P, C, M> {
    pub program: &'a P,
    pub combiner: &'a C,
    pub master: &'a M,
    pub registrations: &'a [Registration],
    pub missing: Missing,
    pub limit: u32,
}

/// The memory of what a superstep sent and contributed, which the next one uses again.
#[derive(Drop)]
pub(crate) struct Spare<M> {
    pub sent: Sequence<(VertexId, M)>,
    pub contributed: Sequence<(Place, i64)>,
}

/// A run between two supersteps: what stands, the ids of the vertices that have a state, the places of the
/// active ones, how many edges they have (at most 2^64 - 1), the meter, and memory to use again.
#[derive(Drop)]
pub(crate) struct Progress<V, M> {
    pub configuration: Configuration<V, M>,
    pub ids: IdIndex,
    pub work: Vec<usize>,
    pub edges: u64,
    pub meter: Meter,
    pub spare: Spare<M>,
}

/// What the executions of a superstep leave: the vertices, with the places of those that aren't halted,
/// what they sent and contributed, how many edges they have then, and the meter.
#[derive(Drop)]
pub(crate) struct Executed<V, M> {
    pub vertex_table: VertexTable<V, M>,
    pub sent: Sequence<(VertexId, M)>,
    pub contributed: Sequence<(Place, i64)>,
    pub edges: u64,
    pub meter: Meter,
}

/// Executes the active vertices.
fn execute<P: Computation>(
    alloc: Global,
    program: &P,
    view: View,
    vertex_table: VertexTable<P::Value, P::Message>,
    edges: u64,
    meter: Meter,
    spare: Spare<P::Message>,
) -> Result<Executed<P::Value, P::Message>, Memory>
    requires shown { ShowsDeclared (P.program program.now).declared view }
    requires in_place { IsInPlace vertex_table }
    requires edges { edges ≡ capped (edges_of vertex_table.with_inboxes.items) }
    requires fits { meter < 2 ^ 64 }
    ensures { IfOk result (λ p. HasExecuted (P.program program.now) view vertex_table meter p) }
{
    let VertexTable {
        mut with_inboxes,
        ids,
        work,
    } = vertex_table;
    let Spare { sent, contributed } = spare;
    let mut cx = Cx::with_room(view, program.declared(), meter, sent, contributed);
    let found = execute_all(
        alloc,
        program,
        &mut with_inboxes,
        work.as_slice(),
        edges,
        &mut cx,
    )?;
    let (_, sent, contributed, meter) = cx.into_parts();
    let edges = capped_total(found.edges, with_inboxes.as_slice());
    Ok(Executed {
        vertex_table: VertexTable {
            with_inboxes,
            ids,
            work: found.unhalted,
        },
        sent,
        contributed,
        edges,
        meter,
    })
}

/// Executes a superstep. Gives what stands after it, and whether the master halted.
pub(crate) fn superstep<P: Computation, C: MessageCombiner<P::Message>, M: MasterCompute>(
    alloc: Global,
    runner: &Runner<'_, P, C, M>,
    superstep: Superstep,
    progress: Progress<P::Value, P::Message>,
) -> Result<(Progress<P::Value, P::Message>, bool), Memory>
    requires prepared { IsPrepared (P.program runner.now.program.now)
        (M.master runner.now.master.now) runner.now.registrations.now }
    requires ready { IsReady (length runner.now.registrations.now) progress }
    requires fits { progress.meter < 2 ^ 64 }
    ensures { let job = job_of (P.program runner.now.program.now)
        (C.combining runner.now.combiner.now)
        (M.master runner.now.master.now) runner.now.missing runner.now.limit in
        IfOk result (λ r. HasStepped job (length runner.now.registrations.now) superstep progress r.0 r.1) }
{
    let Progress {
        configuration,
        ids,
        work,
        edges,
        meter,
        spare,
    } = progress;
    let Configuration {
        with_inboxes,
        waiting,
        gathered,
        sent,
        dropped,
    } = configuration;
    let vertices = with_inboxes.len() as u64;
    let visible = visible_in(alloc, runner.master, superstep, vertices, edges, gathered)?;
    let view = view_of(alloc, runner.program.declared(), superstep, &visible)?;
    let with_inboxes = with_inboxes.into_vec();
    let vertex_table = VertexTable {
        with_inboxes,
        ids,
        work,
    };
    let vertex_table = with_waiting(alloc, runner.program, vertex_table, waiting)?;
    let Executed {
        vertex_table,
        sent: now_sent,
        contributed,
        edges,
        meter,
    } = execute(
        alloc,
        runner.program,
        view,
        vertex_table,
        edges,
        meter,
        spare,
    )?;
    let gathered = gather_all(
        alloc,
        runner.registrations,
        visible.values.as_slice(),
        contributed.as_slice(),
    )?;
    let sent = sent.saturating_add(now_sent.len() as u64);
    let Received {
        vertex_table,
        undeliverable,
        sent: delivered,
    } = receive(
        alloc,
        runner.combiner,
        runner.missing,
        vertex_table,
        now_sent,
    )?;
    let VertexTable {
        with_inboxes,
        ids,
        work,
    } = vertex_table;
    let configuration = Configuration {
        with_inboxes: Sequence::from_vec(with_inboxes),
        waiting: undeliverable.waiting,
        gathered,
        sent,
        dropped: dropped.saturating_add(undeliverable.dropped),
    };
    let progress = Progress {
        configuration,
        ids,
        work,
        edges,
        meter,
        spare: Spare {
            sent: Sequence::from_vec(delivered),
            contributed,
        },
    };
    Ok((progress, visible.halt))
}
