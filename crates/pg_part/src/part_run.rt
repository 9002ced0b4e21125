//! One partition of a run, and its steps.
ghost use Rattle.std.specs.Prelude.{◌≡◌, ℕ, ◌+◌, ◌<◌, ◌≤◌, ◌^◌, true, length, Option, None, Some, IfOk, IfSome};
ghost use Rattle.std.specs.List.Sorted.{IsStrictlySortedBy};
ghost use Rattle.std.specs.Option.{option_copied, option_map};
ghost use Rattle.std.specs.Ordering.{nat_cmp};
ghost use Rattle.pg_global.specs.Master.{has_places};
ghost use Rattle.pg_graph.specs.Rows.{Rows as GraphRows};
ghost use Rattle.pg_inbox.specs.LoggedBundle.{Slots};
ghost use Rattle.pg_map.specs.Entries.{ChangesRise, HasRisingIds};
ghost use Rattle.pg_model.specs.Job.{Job};
ghost use Rattle.pg_model.specs.Run.{run_length, view_at};
ghost use Rattle.pg_model.specs.Superstep.{capped, has_id, view_of as shown_view};
ghost use Rattle.pg_model.specs.declared.view.Visible.{Visible as Seen};
ghost use Rattle.pg_part_routing.specs.Routes.{HasMessages, bundles_before};
ghost use Rattle.pg_part.specs.StepInput.{IsOldStepView, IsStepInput, IsOldStepInput};
ghost use Rattle.pg_part.specs.PartRun.{AreTouched, HasBegun, HasStepped, HasVertexCountsDelta, Holds, IsAdvanced};
ghost use Rattle.pg_part.specs.PartRun.{IsWhole, diverged, kept_length};
ghost use Rattle.pg_program.specs.Context.{ShowsDeclared};
ghost use Rattle.pg_part_routing.specs.Starting.{first_states};
ghost use Rattle.pg_trace.specs.Trace.{StatesRise, begun, reaching, with_replaced};

use crate::cold::{finish_step_cold, step_delta};
use crate::warm::{finish_step, step_delta_warm};
use pg_global::{MessageCombiner, Visible, view_of};
use pg_graph::{Memory, Missing, PartitionId, Superstep, VertexId};
use pg_inbox::{Bundle, Logs};
use pg_model::{VertexState, View};
use pg_part_compute::{Diverged, StepContext, copied, rising, with_ids};
use pg_part_routing::{PartitionOf, Partitioner, Rows, Sent, bundles_before, first_changes};
use pg_program::{Computation, Meter, Plain};
use pg_stats::VertexCountsDelta;
use pg_trace::{RecordChanges, Trace};
use std::alloc::Global;
use std::marker::Model;

/// One partition of a run as a superstep begins: the states with which it began, and the records of
/// the supersteps before. A warm one also has the trace of an old run, and steps against that: its own trace
/// goes on as that one does.
#[derive(Drop)]
pub struct PartRun<V, M> {
    pub(crate) partition: PartitionId,
    pub(crate) partitions: Partitioner,
    pub(crate) missing: Missing,
    pub(crate) place: Superstep,
    pub(crate) trace: Trace<V, M>,
    pub(crate) kept: Option<Trace<V, M>>,
    pub(crate) diverged: Diverged,
    pub(crate) changed: Vec<VertexId>,
    pub(crate) was_warm: bool,
    pub(crate) vertex_counts_delta: Option<VertexCountsDelta>,
}

impl<V, M> Model for PartRun<V, M> {
    ghost use Rattle.std.specs.Prelude.{◌≤◌, length, IfSome};
    ghost use Rattle.pg_part.specs.PartRun.{HasVertexCountsDelta, PartRunState};

    ghost Value = { PartRunState V M };

    ghost view = { λ p. record {
      partition = p.partition;
      partitions = p.partitions;
      missing = p.missing;
      place = p.place;
      trace = p.trace;
      kept = p.kept;
      live = p.diverged.live.items;
      quiescent = p.diverged.quiescent.items;
      changed = p.changed.items;
      was_warm = p.was_warm;
    } };

    ghost invariant = { λ p. (p.place ≤ length p.trace.records)
        × IfSome p.vertex_counts_delta (HasVertexCountsDelta p.place p.changed.items p.trace) };
}

/// A step was given up, and its part run with it, since memory was refused.
#[derive(Clone, Copy, Debug, PartialEq, Eq)]
pub struct Lost;

/// What a step makes of a part run.
#[derive(Drop)]
pub(crate) struct Stepped<V, M: Plain> {
    pub part_run: PartRun<V, M>,
    pub sent: Sent<M>,
    pub meter: Meter,
}

/// What a step reads: what its executions see, with the meter, what the old run saw where that is given, and the
/// bundles that it receives.
#[derive(Drop)]
struct StepInput<M: Plain> {
    step_context: StepContext,
    old_view: Option<View>,
    bundles: Vec<Bundle<M>>,
}

impl<V: Plain, M: Plain> PartRun<V, M> {
    /// The number of the partition.
    pub fn partition(&self) -> PartitionId
        ensures { result ≡ self.now.partition }
    {
        self.partition
    }

    /// How many partitions there are.
    pub fn partitions(&self) -> Partitioner
        ensures { result ≡ self.now.partitions }
    {
        self.partitions
    }

    /// What becomes of messages to no vertex.
    pub fn missing(&self) -> Missing
        ensures { result ≡ self.now.missing }
    {
        self.missing
    }

    /// The superstep at which it stands.
    pub fn place(&self) -> Superstep
        ensures { result ≡ self.now.place }
    {
        self.place
    }

    /// The trace of the old run, where the partition is warm.
    pub fn kept(&self) -> Option<&Trace<V, M>>
        ensures { option_copied result ≡ self.now.kept }
    {
        self.kept.as_ref()
    }

    /// The vertices whose states may differ from those of the old run, or past its end from those with which it ended;
    /// by rising id as a run begins.
    pub fn diverged(&self, alloc: Global) -> Result<Vec<VertexId>, Memory>
        ensures { IfOk result (λ ids. ids.items ≡ diverged self.now) }
    {
        let live = copied(alloc, self.diverged.live.as_slice())?;
        with_ids(live, self.diverged.quiescent.as_slice())
    }

    /// How many these are, at most 2^64 - 1. Costs no walk over them.
    pub fn diverged_len(&self) -> usize
        ensures { result ≡ capped (length (diverged self.now)) }
    {
        let Diverged { live, quiescent } = &self.diverged;
        live.len().saturating_add(quiescent.len())
    }

    /// The vertices that its last step may have changed otherwise than the old run did, by rising id; none as a run
    /// begins.
    pub fn changed(&self) -> &[VertexId]
        ensures { result.now ≡ self.now.changed }
    {
        self.changed.as_slice()
    }

    /// Whether all other vertices have the records and the states of the old run. Else they had no record in its last
    /// step and have the states from before it.
    pub fn was_warm(&self) -> bool
        ensures { result ≡ self.now.was_warm }
    {
        self.was_warm
    }

    /// The counts of the vertices that its last step may have changed, before and after that; none where they would
    /// have to be looked up.
    pub fn vertex_counts_delta(&self) -> Option<VertexCountsDelta>
        ensures { IfSome result (HasVertexCountsDelta self.now.place self.now.changed self.now.trace) }
    {
        self.vertex_counts_delta
    }

    /// Its trace: the states with which it began, and its records so far.
    pub fn trace(&self) -> &Trace<V, M>
        ensures { result.now ≡ self.now.trace }
    {
        &self.trace
    }

    /// The trace, to keep, and that of the old run where the partition is warm.
    pub fn into_traces(self) -> (Trace<V, M>, Option<Trace<V, M>>)
        ensures own { result.0 ≡ self.trace }
        ensures kept { result.1 ≡ self.kept }
    {
        let PartRun { trace, kept, .. } = self;
        (trace, kept)
    }

    /// A partition as a run begins with these states of its vertices, which are to be those of the rows.
    pub fn begin(
        alloc: Global,
        rows: Rows<'_>,
        missing: Missing,
        states: Vec<VertexState<V>>,
    ) -> Result<PartRun<V, M>, Memory>
        requires rise { StatesRise states.items }
        ensures begins { IfOk result (λ part_run. HasBegun rows.entry missing part_run) }
        ensures cold { IfOk result (λ part_run. part_run.kept ≡ None) }
        ensures trace { IfOk result (λ part_run. part_run.trace ≡ begun states.items) }
        ensures holds { IfOk result (λ part_run. (job : Job V M) → HasRisingIds rows.entry.graph → job.missing ≡ missing
            → states.items ≡ first_states job.program rows.entry.graph rows.entry.partitions rows.entry.partition
            → Holds job None rows.entry.graph rows.entry.partitions rows.entry.partition 0 part_run) }
    {
        let Rows {
            partition,
            partitions,
            ..
        } = rows;
        let trace = Trace::new(alloc, states)?;
        Ok(PartRun {
            partition,
            partitions,
            missing,
            place: Superstep::new(0),
            trace,
            kept: None,
            diverged: Diverged::of(alloc, Vec::new(alloc)),
            changed: Vec::new(alloc),
            was_warm: false,
            vertex_counts_delta: None,
        })
    }

    /// A partition as a run begins against an old one: with its trace of that, and with ids outside of which the
    /// graph's rows are those of the old run's graph. Costs k look-ups for k such ids, a sort of them, a copy of the
    /// chunks of the trace's first states that they lie in, and one count a superstep of the old run.
    pub fn begin_warm<P: Computation<Value = V, Message = M>>(
        alloc: Global,
        rows: Rows<'_>,
        missing: Missing,
        old: Trace<V, M>,
        touched: &[VertexId],
        program: &P,
    ) -> Result<PartRun<V, M>, Memory>
        ensures begins { IfOk result (λ part_run. HasBegun rows.entry missing part_run) }
        ensures rise { IfOk result (λ part_run. IsStrictlySortedBy nat_cmp (diverged part_run)) }
        ensures diverged { IfOk result (λ part_run. (id : ℕ) → has_id (diverged part_run) id ≡ has_id touched.now id) }
        ensures kept { IfOk result (λ part_run. part_run.kept ≡ Some old) }
        ensures holds { IfOk result (λ part_run. (job : Job V M) (kept : GraphRows)
            → job.program ≡ P.program program.now → job.missing ≡ missing
            → IsWhole job kept rows.entry.partitions rows.entry.partition old
            → AreTouched touched.now kept rows.entry.graph
            → Holds job (Some kept) rows.entry.graph rows.entry.partitions rows.entry.partition 0 part_run) }
    {
        let Rows {
            graph,
            partition,
            partitions,
        } = rows;
        let share = PartitionOf {
            partition,
            partitions,
        };
        let diverged = rising(copied(alloc, touched)?);
        let changes = first_changes(alloc, graph, &share, diverged.as_slice(), program)?;
        let trace = old.restarted(alloc, changes)?;
        Ok(PartRun {
            partition,
            partitions,
            missing,
            place: Superstep::new(0),
            trace,
            kept: Some(old),
            diverged: Diverged::of(alloc, diverged),
            changed: Vec::new(alloc),
            was_warm: false,
            vertex_counts_delta: None,
        })
    }

    /// One superstep. It reads what the logs have from each partition to this one of the superstep before, and what
    /// is visible; and where the part run is warm and the old run has the superstep, the logs and the visible values of
    /// that run, which are to be given then and else not. A part run whose step answers `Lost` is gone.
    ///
    /// A cold part run executes each active vertex once; so does a warm one past the end of the old run. Else those are
    /// executed that don't read what they read there. Each execution is counted.
    ///
    /// Costs what it executes, the messages that it receives and sends, and a walk over the records of the superstep
    /// before; against an old run that saw the same only the vertices whose states or messages may differ, and what
    /// these send.
    pub fn step<P: Computation<Value = V, Message = M>, C: MessageCombiner<M>>(
        self,
        alloc: Global,
        logs: &Logs<M>,
        visible: &Visible,
        old_logs: Option<&Logs<M>>,
        old_visible: Option<&Visible>,
        program: &P,
        combiner: &C,
        meter: &mut Meter,
    ) -> Result<(PartRun<V, M>, Sent<M>), Lost>
        requires few { length visible.now.values ≤ 16 }
        requires few_old { IfSome (option_copied old_visible) (λ v. length v.values ≤ 16) }
        requires declared { has_places (P.program program.now).declared (length visible.now.values) ≡ true }
        requires counts { self.place + 1 < 2 ^ 32 }
        ensures advanced { IfOk result (λ stepped. IsAdvanced self stepped.0) }
        ensures to_each { IfOk result (λ stepped. length stepped.1 ≡ self.partitions) }
        ensures stepped { IfOk result
            (λ stepped. (job : Job V M) (kept : Option GraphRows) (rows : GraphRows) (n p r : ℕ)
            → job.program ≡ P.program program.now → job.combining ≡ C.combining combiner.now
            → Holds job kept rows n p r self → IsStepInput job rows n p r logs.now visible.now
            → IsOldStepInput job kept n p r logs.now (option_copied old_logs.entry) (option_copied old_visible.entry)
            → HasStepped job V.PartialEq.eq M.PartialEq.eq kept rows n p r stepped.0 stepped.1 meter.old meter.new) }
    {
        match self.step_with_input(
            alloc,
            logs,
            visible,
            old_logs,
            old_visible,
            program,
            combiner,
            meter.copy(),
        ) {
            Ok(stepped) => {
                let Stepped {
                    part_run,
                    sent,
                    meter: counted,
                } = stepped;
                *meter = counted;
                Ok((part_run, sent))
            }
            Err(_) => Err(Lost),
        }
    }
}

impl<V: Plain, M: Plain> PartRun<V, M> {
    /// A step with its input.
    fn step_with_input<P: Computation<Value = V, Message = M>, C: MessageCombiner<M>>(
        self,
        alloc: Global,
        logs: &Logs<M>,
        visible: &Visible,
        old_logs: Option<&Logs<M>>,
        old_visible: Option<&Visible>,
        program: &P,
        combiner: &C,
        meter: Meter,
    ) -> Result<Stepped<V, M>, Memory>
        requires few { length visible.now.values ≤ 16 }
        requires few_old { IfSome (option_copied old_visible) (λ v. length v.values ≤ 16) }
        requires declared { has_places (P.program program.now).declared (length visible.now.values) ≡ true }
        requires counts { self.place + 1 < 2 ^ 32 }
        ensures advanced { IfOk result (λ stepped. IsAdvanced self stepped.part_run) }
        ensures to_each { IfOk result (λ stepped. length stepped.sent ≡ self.partitions) }
        ensures stepped { IfOk result
            (λ stepped. (job : Job V M) (kept : Option GraphRows) (rows : GraphRows) (n p r : ℕ)
            → job.program ≡ P.program program.now → job.combining ≡ C.combining combiner.now
            → Holds job kept rows n p r self → IsStepInput job rows n p r logs.now visible.now
            → IsOldStepInput job kept n p r logs.now (option_copied old_logs.entry) (option_copied old_visible.entry)
            → HasStepped job V.PartialEq.eq M.PartialEq.eq kept rows n p r stepped.part_run stepped.sent meter
            stepped.meter) }
    {
        let step_input = self.step_input(alloc, logs, visible, old_visible, program, meter)?;
        self.step_with(alloc, logs, old_logs, step_input, program, combiner)
    }

    /// What a step reads.
    fn step_input<P: Computation<Value = V, Message = M>>(
        &self,
        alloc: Global,
        logs: &Logs<M>,
        visible: &Visible,
        old_visible: Option<&Visible>,
        program: &P,
        meter: Meter,
    ) -> Result<StepInput<M>, Memory>
        requires few { length visible.now.values ≤ 16 }
        requires few_old { IfSome (option_copied old_visible) (λ v. length v.values ≤ 16) }
        requires declared { has_places (P.program program.now).declared (length visible.now.values) ≡ true }
        ensures shown { IfOk result
            (λ step_input. ShowsDeclared (P.program program.now).declared step_input.step_context.view) }
        ensures fits { IfOk result (λ step_input. step_input.step_context.meter < 2 ^ 64) }
        ensures meter { IfOk result (λ step_input. step_input.step_context.meter ≡ meter) }
        ensures view { IfOk result
            (λ step_input. step_input.step_context.view ≡ shown_view (P.program program.now).declared self.now.place
            visible.now) }
        ensures old_view { IfOk result (λ step_input. step_input.old_view
            ≡ option_map (shown_view (P.program program.now).declared self.now.place)
            (option_copied old_visible.entry)) }
        ensures bundles { IfOk result (λ step_input. step_input.bundles.items
            ≡ bundles_before logs.now self.now.partitions self.now.partition self.now.place) }
    {
        let step_context = StepContext::new(alloc, program, self.place(), visible, meter)?;
        let old_view = old_view(alloc, program, self.place(), old_visible)?;
        let bundles = self.received(alloc, logs)?;
        Ok(StepInput {
            step_context,
            old_view,
            bundles,
        })
    }

    /// A step with what it reads: against the old run where both its logs and what it saw are borrowed.
    fn step_with<P: Computation<Value = V, Message = M>, C: MessageCombiner<M>>(
        self,
        alloc: Global,
        logs: &Logs<M>,
        old_logs: Option<&Logs<M>>,
        step_input: StepInput<M>,
        program: &P,
        combiner: &C,
    ) -> Result<Stepped<V, M>, Memory>
        requires shown { ShowsDeclared (P.program program.now).declared step_input.step_context.view }
        requires fits { step_input.step_context.meter < 2 ^ 64 }
        requires counts { self.place + 1 < 2 ^ 32 }
        ensures advanced { IfOk result (λ stepped. IsAdvanced self stepped.part_run) }
        ensures to_each { IfOk result (λ stepped. length stepped.sent ≡ self.partitions) }
        ensures stepped { IfOk result
            (λ stepped. (job : Job V M) (kept : Option GraphRows) (rows : GraphRows) (n p s : ℕ)
            (old_visible : Option Seen)
            → job.program ≡ P.program program.now → job.combining ≡ C.combining combiner.now
            → Holds job kept rows n p s self → s < run_length job rows
            → HasMessages job rows n p s logs.now → step_input.bundles.items ≡ bundles_before logs.now n p s
            → step_input.step_context.view ≡ view_at job rows s
            → step_input.old_view ≡ option_map (shown_view job.program.declared s) old_visible
            → IsOldStepInput job kept n p s logs.now (option_copied old_logs.entry) old_visible
            → HasStepped job V.PartialEq.eq M.PartialEq.eq kept rows n p s stepped.part_run stepped.sent
            step_input.step_context.meter stepped.meter) }
    {
        let StepInput {
            step_context,
            old_view,
            bundles,
        } = step_input;
        match old_logs.zip(old_view) {
            Some((old_logs, old_view)) => self.step_warm(
                alloc,
                bundles.as_slice(),
                logs,
                old_logs,
                &old_view,
                program,
                combiner,
                step_context,
            ),
            None => self.step_cold(alloc, bundles.as_slice(), program, combiner, step_context),
        }
    }

    /// The bundles that it receives.
    fn received(&self, alloc: Global, logs: &Logs<M>) -> Result<Vec<Bundle<M>>, Memory>
        ensures { IfOk result (λ bundles. bundles.items
            ≡ bundles_before logs.now self.now.partitions self.now.partition self.now.place) }
    {
        bundles_before(alloc, logs, self.partitions, self.partition, self.place)
    }

    /// Its trace of the old run, and the rest of it.
    fn split_trace(self) -> (PartRun<V, M>, Option<Trace<V, M>>)
        ensures rest { result.0 ≡ record self { kept = None } }
        ensures kept { result.1 ≡ self.kept }
    {
        let mut part_run = self;
        let kept = part_run.kept.take();
        (part_run, kept)
    }

    /// A step against an old run that has the superstep.
    fn step_warm<P: Computation<Value = V, Message = M>, C: MessageCombiner<M>>(
        self,
        alloc: Global,
        bundles: &[Bundle<M>],
        logs: &Logs<M>,
        old_logs: &Logs<M>,
        old_view: &View,
        program: &P,
        combiner: &C,
        step_context: StepContext,
    ) -> Result<Stepped<V, M>, Memory>
        requires shown { ShowsDeclared (P.program program.now).declared step_context.view }
        requires fits { step_context.meter < 2 ^ 64 }
        requires counts { self.place + 1 < 2 ^ 32 }
        ensures advanced { IfOk result (λ stepped. IsAdvanced self stepped.part_run) }
        ensures to_each { IfOk result (λ stepped. length stepped.sent ≡ self.partitions) }
        ensures stepped { IfOk result
            (λ stepped. (job : Job V M) (kept : Option GraphRows) (rows : GraphRows) (n p s : ℕ)
            → job.program ≡ P.program program.now → job.combining ≡ C.combining combiner.now
            → Holds job kept rows n p s self → s < run_length job rows
            → HasMessages job rows n p s logs.now → bundles.now ≡ bundles_before logs.now n p s
            → step_context.view ≡ view_at job rows s
            → IsOldStepView job kept n p s logs.now old_logs.now old_view.now
            → HasStepped job V.PartialEq.eq M.PartialEq.eq kept rows n p s stepped.part_run stepped.sent
            step_context.meter stepped.meter) }
    {
        let (part_run, kept) = self.split_trace();
        match kept {
            Some(old) => {
                let step_delta = step_delta_warm(
                    alloc,
                    &part_run,
                    &old,
                    logs,
                    old_logs,
                    bundles,
                    old_view,
                    program,
                    combiner,
                    step_context,
                )?;
                finish_step(alloc, part_run, old, step_delta, old_logs, combiner)
            }
            None => part_run.step_cold(alloc, bundles, program, combiner, step_context),
        }
    }

    /// A step from scratch, or past the end of the old run: each active vertex is executed.
    fn step_cold<P: Computation<Value = V, Message = M>, C: MessageCombiner<M>>(
        self,
        alloc: Global,
        bundles: &[Bundle<M>],
        program: &P,
        combiner: &C,
        step_context: StepContext,
    ) -> Result<Stepped<V, M>, Memory>
        requires shown { ShowsDeclared (P.program program.now).declared step_context.view }
        requires fits { step_context.meter < 2 ^ 64 }
        requires counts { self.place + 1 < 2 ^ 32 }
        ensures advanced { IfOk result (λ stepped. IsAdvanced self stepped.part_run) }
        ensures to_each { IfOk result (λ stepped. length stepped.sent ≡ self.partitions) }
        ensures stepped { IfOk result
            (λ stepped. (job : Job V M) (kept : Option GraphRows) (rows : GraphRows) (n p s : ℕ) (logs : Slots M)
            → job.program ≡ P.program program.now → job.combining ≡ C.combining combiner.now
            → Holds job kept rows n p s self → kept_length job kept ≤ s → s < run_length job rows
            → HasMessages job rows n p s logs → bundles.now ≡ bundles_before logs n p s
            → step_context.view ≡ view_at job rows s
            → HasStepped job V.PartialEq.eq M.PartialEq.eq kept rows n p s stepped.part_run stepped.sent
            step_context.meter stepped.meter) }
    {
        let step_delta = step_delta(alloc, &self, bundles, program, combiner, step_context)?;
        finish_step_cold(alloc, self, step_delta, combiner)
    }
}

/// What the old run saw, where that is given.
fn old_view<P: Computation>(
    alloc: Global,
    program: &P,
    superstep: Superstep,
    visible: Option<&Visible>,
) -> Result<Option<View>, Memory>
    requires { IfSome (option_copied visible) (λ v. length v.values ≤ 16) }
    ensures { IfOk result (λ view. view
        ≡ option_map (shown_view (P.program program.now).declared superstep) (option_copied visible.entry)) }
{
    match visible {
        Some(visible) => Ok(Some(view_of(alloc, program.declared(), superstep, visible)?)),
        None => Ok(None),
    }
}

/// A trace with these changes of the records of a superstep, which it has or which comes next.
pub(crate) fn with_records<V: Plain, M: Plain>(
    alloc: Global,
    trace: Trace<V, M>,
    superstep: Superstep,
    changes: RecordChanges<V, M>,
) -> Result<Trace<V, M>, Memory>
    requires rise { ChangesRise changes }
    requires within { superstep ≤ length trace.records }
    ensures { IfOk result
        (λ after. after ≡ with_replaced superstep changes (reaching superstep trace)) }
{
    trace.recorded(alloc, superstep, changes)
}
