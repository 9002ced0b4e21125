//! A step from scratch, or past the end of an old run: each active vertex is executed.
ghost use Rattle.std.specs.Prelude.{◌+◌, ◌^◌, ◌<◌, ◌≡◌, None, true, false, IfOk, IfSome};
ghost use Rattle.pg_map.specs.Entries.{ChangesRise};
ghost use Rattle.pg_part_compute.specs.VertexPairs.{IsStepDelta, unhalted_ids};
ghost use Rattle.pg_part_compute.specs.VertexCountsDeltas.{IsVertexCountsDelta};
ghost use Rattle.pg_part.specs.Cold.{IsFinishedStepCold, diverged_past_end, advanced_past_end};
ghost use Rattle.pg_program.specs.Context.{ShowsDeclared};

use crate::PartRun;
use crate::part_run::{Stepped, with_records};
use pg_global::MessageCombiner;
use pg_graph::{Memory, Superstep, VertexId};
use pg_inbox::Bundle;
use pg_part_compute::{Diverged, StepContext, StepDelta, execute_cold, with_ids};
use pg_part_routing::{PartitionOf, fresh_bundles};
use pg_program::{Computation, Plain};
use pg_stats::VertexCountsDelta;
use pg_trace::{RecordChanges, Trace};
use std::alloc::Global;

/// Executes the active vertices of a part run.
pub(crate) fn step_delta<P: Computation, C: MessageCombiner<P::Message>>(
    alloc: Global,
    part_run: &PartRun<P::Value, P::Message>,
    bundles: &[Bundle<P::Message>],
    program: &P,
    combiner: &C,
    step_context: StepContext,
) -> Result<StepDelta<P::Value, P::Message>, Memory>
    requires shown { ShowsDeclared (P.program program.now).declared step_context.view }
    requires fits { step_context.meter < 2 ^ 64 }
    ensures step_delta { IfOk result (λ step_delta.
        IsStepDelta P.Value.PartialEq.eq P.Message.PartialEq.eq (P.program program.now) part_run.now.missing
        (C.combining combiner.now) step_context.view part_run.now.partitions part_run.now.partition part_run.now.place
        part_run.now.trace
        bundles.now None (unhalted_ids part_run.now.place part_run.now.trace) true false step_context.meter
        step_delta) }
    ensures vertex_counts_delta { IfOk result (λ step_delta. IfSome step_delta.vertex_counts_delta
        (IsVertexCountsDelta part_run.now.place part_run.now.trace step_delta.dirty_ids.items step_delta.changes)) }
{
    let share = PartitionOf {
        partition: part_run.partition,
        partitions: part_run.partitions,
    };
    execute_cold(
        alloc,
        program,
        combiner,
        part_run.missing,
        share,
        part_run.place,
        &part_run.trace,
        bundles,
        step_context,
    )
}

/// The part run with the changed records, and what it sends.
pub(crate) fn finish_step_cold<V: Plain, M: Plain, C: MessageCombiner<M>>(
    alloc: Global,
    part_run: PartRun<V, M>,
    step_delta: StepDelta<V, M>,
    combiner: &C,
) -> Result<Stepped<V, M>, Memory>
    requires rise { ChangesRise step_delta.changes }
    requires counts { part_run.place + 1 < 2 ^ 32 }
    requires vertex_counts_delta { IfSome step_delta.vertex_counts_delta
        (IsVertexCountsDelta part_run.place part_run.trace step_delta.dirty_ids.items step_delta.changes) }
    ensures some { 0 < part_run.partitions }
    ensures finish_step { IfOk result (λ stepped.
        IsFinishedStepCold part_run step_delta.dirty_ids.items step_delta.changes (C.combining combiner.now)
        stepped.part_run stepped.sent) }
    ensures counted { IfOk result (λ stepped. stepped.meter ≡ step_delta.meter) }
{
    let StepDelta {
        dirty_ids,
        changes,
        meter,
        vertex_counts_delta,
    } = step_delta;
    let sent = fresh_bundles(alloc, part_run.partitions(), &changes, combiner)?;
    let part_run = advanced_past_end(alloc, part_run, dirty_ids, changes, vertex_counts_delta)?;
    Ok(Stepped {
        part_run,
        sent,
        meter,
    })
}

/// The part run one superstep further, with these changes of records, and with the counts of the vertices that were
/// looked at where they are known.
fn advanced_past_end<V: Plain, M: Plain>(
    alloc: Global,
    part_run: PartRun<V, M>,
    dirty_ids: Vec<VertexId>,
    changes: RecordChanges<V, M>,
    vertex_counts_delta: Option<VertexCountsDelta>,
) -> Result<PartRun<V, M>, Memory>
    requires rise { ChangesRise changes }
    requires counts { part_run.place + 1 < 2 ^ 32 }
    requires vertex_counts_delta { IfSome vertex_counts_delta
        (IsVertexCountsDelta part_run.place part_run.trace dirty_ids.items changes) }
    ensures { IfOk result (λ after. after ≡ advanced_past_end part_run dirty_ids.items changes) }
{
    let PartRun {
        partition,
        partitions,
        missing,
        place,
        trace,
        kept,
        diverged,
        ..
    } = part_run;
    let Diverged { live, quiescent } = diverged;
    let live = diverged_past_end(&kept, live, dirty_ids.as_slice())?;
    let trace = with_records(alloc, trace, place, changes)?;
    Ok(PartRun {
        partition,
        partitions,
        missing,
        place: Superstep::new(place.number() + 1),
        trace,
        kept,
        diverged: Diverged { live, quiescent },
        changed: dirty_ids,
        was_warm: false,
        vertex_counts_delta,
    })
}

/// These vertices that may differ after a step past the end of an old run, if there is one: those that did before, and
/// those that the step changed.
fn diverged_past_end<V, M>(
    old: &Option<Trace<V, M>>,
    diverged: Vec<VertexId>,
    changed: &[VertexId],
) -> Result<Vec<VertexId>, Memory>
    ensures { IfOk result (λ all. all.items ≡ diverged_past_end old.now diverged.items changed.now) }
{
    match old {
        None => Ok(diverged),
        Some(_) => with_ids(diverged, changed),
    }
}
