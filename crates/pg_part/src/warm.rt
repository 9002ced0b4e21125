//! A step against an old run: what stands there is taken over where nothing has changed.
ghost use Rattle.std.specs.Prelude.{◌+◌, ◌^◌, ◌<◌, ◌≡◌, IfOk};
ghost use Rattle.std.specs.List.Sorted.{IsStrictlySortedBy};
ghost use Rattle.std.specs.Ordering.{nat_cmp};
ghost use Rattle.pg_map.specs.Entries.{ChangesRise};
ghost use Rattle.pg_part.specs.Warm.{AreCompared, AreTheQuiescent, IsFinishedStep, IsStepDeltaWarm, IsSentWarm};
ghost use Rattle.pg_part.specs.Warm.{advanced};
ghost use Rattle.pg_program.specs.Context.{ShowsDeclared};

use crate::PartRun;
use crate::part_run::{Stepped, with_records};
use pg_global::MessageCombiner;
use pg_graph::{Memory, Superstep, VertexId};
use pg_inbox::{Bundle, Logs};
use pg_model::View;
use pg_part_compute::{
    StepContext, StepDelta, dirty_ids, diverged_after, execute_warm, is_same_view,
};
use pg_part_routing::{PartitionOf, Sent, bundles_before, rebuilt_bundles};
use pg_program::{Computation, Plain};
use pg_trace::{RecordChanges, Trace};
use std::alloc::Global;

/// Looks at the vertices that may read something else than in the old run, and executes those that do.
pub(crate) fn step_delta_warm<P: Computation, C: MessageCombiner<P::Message>>(
    alloc: Global,
    part_run: &PartRun<P::Value, P::Message>,
    old: &Trace<P::Value, P::Message>,
    logs: &Logs<P::Message>,
    old_logs: &Logs<P::Message>,
    bundles: &[Bundle<P::Message>],
    old_view: &View,
    program: &P,
    combiner: &C,
    step_context: StepContext,
) -> Result<StepDelta<P::Value, P::Message>, Memory>
    requires shown { ShowsDeclared (P.program program.now).declared step_context.view }
    requires fits { step_context.meter < 2 ^ 64 }
    ensures { IfOk result (λ step_delta.
        IsStepDeltaWarm P.Value.PartialEq.eq P.Message.PartialEq.eq (C.combining combiner.now) part_run.now old.now
        old_logs.now
        (P.program program.now) logs.now old_view.now step_context.view bundles.now step_context.meter step_delta) }
{
    let old_bundles = bundles_before(
        alloc,
        old_logs,
        part_run.partitions,
        part_run.partition,
        part_run.place,
    )?;
    let same_view = is_same_view(old_view, &step_context.view);
    let ids = dirty_ids(
        alloc,
        part_run.partitions,
        part_run.partition,
        part_run.place,
        &part_run.trace,
        &part_run.diverged,
        logs,
        old_logs,
        bundles,
        same_view,
    )?;
    execute_warm(
        alloc,
        program,
        combiner,
        part_run.missing,
        PartitionOf {
            partition: part_run.partition,
            partitions: part_run.partitions,
        },
        part_run.place,
        &part_run.trace,
        bundles,
        old,
        old_bundles.as_slice(),
        ids.as_slice(),
        same_view,
        step_context,
    )
}

/// The part run with the changed records, and what it sends.
pub(crate) fn finish_step<V: Plain, M: Plain, C: MessageCombiner<M>>(
    alloc: Global,
    part_run: PartRun<V, M>,
    old: Trace<V, M>,
    step_delta: StepDelta<V, M>,
    old_logs: &Logs<M>,
    combiner: &C,
) -> Result<Stepped<V, M>, Memory>
    requires rise { ChangesRise step_delta.changes }
    requires dirty_ids_rise { IsStrictlySortedBy nat_cmp step_delta.dirty_ids.items }
    requires counts { part_run.place + 1 < 2 ^ 32 }
    ensures some { 0 < part_run.partitions }
    ensures finish_step { IfOk result (λ stepped.
        IsFinishedStep V.PartialEq.eq M.PartialEq.eq (C.combining combiner.now) part_run old old_logs.now
        step_delta.dirty_ids.items step_delta.changes stepped.part_run stepped.sent) }
    ensures counted { IfOk result (λ stepped. stepped.meter ≡ step_delta.meter) }
{
    let StepDelta {
        dirty_ids,
        changes,
        meter,
        vertex_counts_delta: _,
    } = step_delta;
    let sent = rebuilt(alloc, &part_run, &old, &changes, old_logs, combiner)?;
    let part_run = advanced(alloc, part_run, old, dirty_ids, changes)?;
    Ok(Stepped {
        part_run,
        sent,
        meter,
    })
}

/// What the part run sends: what the old run sent, rebuilt by these changes of records.
fn rebuilt<V: Plain, M: Plain, C: MessageCombiner<M>>(
    alloc: Global,
    part_run: &PartRun<V, M>,
    old: &Trace<V, M>,
    changes: &RecordChanges<V, M>,
    old_logs: &Logs<M>,
    combiner: &C,
) -> Result<Sent<M>, Memory>
    ensures some { 0 < part_run.now.partitions }
    ensures sent { IfOk result (λ sent.
        IsSentWarm (C.combining combiner.now) part_run.now old.now old_logs.now changes.now sent) }
{
    rebuilt_bundles(
        alloc,
        part_run.partitions,
        part_run.partition,
        part_run.place,
        changes,
        old,
        old_logs,
        combiner,
    )
}

/// The part run one superstep further, with these changes of records, and with the trace of the old run.
fn advanced<V: Plain, M: Plain>(
    alloc: Global,
    part_run: PartRun<V, M>,
    old: Trace<V, M>,
    dirty_ids: Vec<VertexId>,
    changes: RecordChanges<V, M>,
) -> Result<PartRun<V, M>, Memory>
    requires rise { ChangesRise changes }
    requires dirty_ids_rise { IsStrictlySortedBy nat_cmp dirty_ids.items }
    requires counts { part_run.place + 1 < 2 ^ 32 }
    ensures advanced { IfOk result (λ after.
        after ≡ advanced V.PartialEq.eq part_run old dirty_ids.items changes after.quiescent) }
    ensures quiescent { IfOk result (λ after.
        AreTheQuiescent V.PartialEq.eq part_run old dirty_ids.items changes after.quiescent) }
    ensures eq_is_sound { IfOk result (λ _. AreCompared V.PartialEq.eq part_run old dirty_ids.items changes) }
{
    let PartRun {
        partition,
        partitions,
        missing,
        place,
        trace,
        diverged,
        ..
    } = part_run;
    let trace = with_records(alloc, trace, place, changes)?;
    let place = Superstep::new(place.number() + 1);
    let diverged = diverged_after(alloc, &old, &trace, place, dirty_ids.as_slice(), &diverged)?;
    Ok(PartRun {
        partition,
        partitions,
        missing,
        place,
        trace,
        kept: Some(old),
        diverged,
        changed: dirty_ids,
        was_warm: true,
        vertex_counts_delta: None,
    })
}
