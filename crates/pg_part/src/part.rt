//! One partition of a run with what it has come to, and its steps.
ghost use Rattle.std.specs.Prelude.{◌≡◌, ℕ, ◌+◌, ◌<◌, ◌≤◌, ◌^◌, true, is_some, [], length, map, take, Option, None};
ghost use Rattle.std.specs.Prelude.{Some};
ghost use Rattle.std.specs.Prelude.{Ok, IfErr, IfOk, IfSome};
ghost use Rattle.std.specs.Option.{option_copied};
ghost use Rattle.std.specs.List.{AllByRecursion, slice_get};
ghost use Rattle.pg_part.specs.PartRun.{AreTouched, HasBegun, IsAdvanced, IsResumed, IsSentTo, diverged, with_resumed};
ghost use Rattle.pg_part.specs.StepInput.{IsStepInput, IsOldStepInput};
ghost use Rattle.pg_global.specs.Master.{has_places};
ghost use Rattle.pg_graph.specs.Rows.{Rows as GraphRows};
ghost use Rattle.pg_map.specs.Entries.{HasRisingIds};
ghost use Rattle.pg_model.specs.Job.{Job};
ghost use Rattle.pg_model.specs.Run.{run_length};
ghost use Rattle.pg_model.specs.Share.{records_below, records_in};
ghost use Rattle.pg_model.specs.Superstep.{capped};
ghost use Rattle.pg_part.specs.Part.{HasMadeStep, HoldsShare, IsRetained, PartState};
ghost use Rattle.pg_stats.specs.MessageCounts.{AreMemberChanges};
ghost use Rattle.pg_part_routing.specs.Sending.{IsFresh, items_to, sends_by_records};
ghost use Rattle.pg_stats.specs.GlobalStats.{aggregators_of};
ghost use Rattle.pg_trace.specs.Trace.{records_of};

use crate::stats_history::{StatsHistory, first_stats, first_stats_warm};
use crate::{Lost, PartRun, Rows, Sent};
use pg_global::{MessageCombiner, Registry, Visible};
use pg_graph::{Memory, Missing, PartitionId, Superstep, VertexId};
use pg_inbox::Logs;
use pg_part_routing::recorded_bundles;
use pg_program::{Computation, Meter, Plain};
use pg_stats::{PartitionStats, vertex_counts};
use pg_trace::{Record, Trace};
use std::alloc::Global;
use std::marker::Model;

/// One partition of a run as a superstep begins: its records so far, and what it has come to as each superstep began.
/// A warm one also has both of an old run, and steps against that.
pub struct Part<V, M> {
    part_run: PartRun<V, M>,
    stats_history: StatsHistory,
}

// By hand, so that a part is let go by one call wherever that is, and not field by field.
impl<V: Drop, M: Drop> Drop for Part<V, M> {
    fn drop(self) {
        let Part {
            part_run: _,
            stats_history: _,
        } = self;
    }
}

impl<V, M> Model for Part<V, M> {
    ghost use Rattle.std.specs.Prelude.{◌≡◌, ◌+◌, length};
    ghost use Rattle.pg_part.specs.Part.{PartState};

    ghost Value = { PartState V M };

    ghost view = { λ p. record {
      part_run = p.part_run;
      graph = p.stats_history.graph;
      member_changes = p.stats_history.member_changes.items;
      stats = p.stats_history.stats.items;
      old_stats = p.stats_history.old_stats.items;
    } };

    ghost invariant = { λ p. length p.stats_history.stats.items ≡ p.part_run.place + 1 };
}

/// What a partition leaves of a whole run, for a warm one after it: its trace, and what it came to as each superstep
/// began and as the run ended.
#[derive(Drop)]
pub struct RetainedPart<V, M> {
    trace: Trace<V, M>,
    stats: Vec<PartitionStats>,
}

impl<V, M> Model for RetainedPart<V, M> {
    ghost use Rattle.std.specs.Prelude.{◌<◌, length};
    ghost use Rattle.pg_part.specs.Part.{RetainedPartOf};

    ghost Value = { RetainedPartOf V M };

    ghost view = { λ l. record { trace = l.trace; stats = l.stats.items } };

    ghost invariant = { λ l. 0 < length l.stats.items };
}

/// What a partition has no more use for once it has done a run: the trace of the old run, where it was warm, as far as
/// its own is another. It is kept only to be freed at a time when no caller waits. A contract sees nothing of it.
pub struct DeferredPartDrop<V, M> {
    kept: Option<Trace<V, M>>,
}

// By hand, so that it is let go by one call wherever that is, and not field by field.
impl<V: Drop, M: Drop> Drop for DeferredPartDrop<V, M> {
    fn drop(self) {
        let DeferredPartDrop { kept: _ } = self;
    }
}

impl<V, M> Model for DeferredPartDrop<V, M> {
    ghost Value = { Unit {0} };

    ghost view = { λ _. tt };
}

impl<V: Plain, M: Plain> Part<V, M> {
    /// The number of the partition.
    pub fn partition(&self) -> PartitionId
        ensures { result ≡ self.now.part_run.partition }
    {
        self.part_run.partition()
    }

    /// The superstep at which it stands.
    pub fn place(&self) -> Superstep
        ensures { result ≡ self.now.part_run.place }
    {
        self.part_run.place()
    }

    /// Its trace: the states with which it began, and its records so far.
    pub fn trace(&self) -> &Trace<V, M>
        ensures { result.now ≡ self.now.part_run.trace }
    {
        self.part_run.trace()
    }

    /// Whether it has the trace of an old run.
    pub fn is_warm(&self) -> bool
        ensures { result ≡ is_some self.now.part_run.kept }
    {
        self.part_run.kept().is_some()
    }

    /// The vertices whose states may differ from those of the old run, or past its end from those with which it ended.
    pub fn diverged(&self, alloc: Global) -> Result<Vec<VertexId>, Memory>
        ensures { IfOk result (λ ids. ids.items ≡ diverged self.now.part_run) }
    {
        self.part_run.diverged(alloc)
    }

    /// How many these are, at most 2^64 - 1. Costs no walk over them.
    pub fn diverged_len(&self) -> usize
        ensures { result ≡ capped (length (diverged self.now.part_run)) }
    {
        self.part_run.diverged_len()
    }

    /// What it has come to as its superstep begins.
    pub fn stats(&self) -> &PartitionStats
        ensures value { slice_get self.now.stats self.now.part_run.place ≡ Some result.now }
    {
        &self.stats_history.stats[self.part_run.place().number() as usize]
    }

    /// By place, what its vertices contributed in the superstep before comes to, from the initial value on.
    pub fn gathered(&self) -> &[i64]
        ensures { IfSome (slice_get self.now.stats self.now.part_run.place) (λ stats. result.now ≡ stats.gathered) }
    {
        self.stats().gathered.as_slice()
    }

    /// How many out-edges its vertices have as its superstep begins.
    pub fn num_edges(&self) -> u64
        ensures { IfSome (slice_get self.now.stats self.now.part_run.place)
            (λ stats. result ≡ stats.vertex_counts.edges) }
    {
        self.stats().vertex_counts.edges
    }

    /// A partition as a run begins. Costs one walk over the graph's rows.
    pub fn begin<P: Computation<Value = V, Message = M>>(
        alloc: Global,
        rows: Rows<'_>,
        missing: Missing,
        registry: &Registry,
        program: &P,
    ) -> Result<Part<V, M>, Memory>
        ensures begins { IfOk result (λ part. HasBegun rows.entry missing part.part_run) }
        ensures cold { IfOk result (λ part. part.part_run.kept ≡ None) }
        ensures unrecorded { IfOk result (λ part. part.part_run.trace.records ≡ []) }
        ensures holds { IfOk result (λ part. (job : Job V M)
            → job.program ≡ P.program program.now → job.missing ≡ missing
            → job.aggregators ≡ aggregators_of registry.now
            → HoldsShare job None rows.entry.graph rows.entry.partitions rows.entry.partition 0 part) }
    {
        let graph = rows.graph();
        let states = rows.first_states(alloc, program)?;
        let vertex_counts = vertex_counts(states.as_slice())?;
        let first = first_stats(alloc, registry, vertex_counts)?;
        let part_run = PartRun::begin(alloc, rows, missing, states)?;
        let stats_history = StatsHistory::begun(alloc, graph, &[], first, Vec::new(alloc))?;
        Ok(Part {
            part_run,
            stats_history,
        })
    }

    /// A partition as a run begins against an old one: with what it retained of that, with ids outside of which the
    /// graph's rows are those of the old run's graph, and with those of them that are a vertex of just one of the two
    /// graphs. Costs k look-ups for k such ids, a sort of them, a copy of the chunks of the trace's first states that they lie
    /// in, and one count a superstep of the old run.
    pub fn begin_warm<P: Computation<Value = V, Message = M>>(
        alloc: Global,
        rows: Rows<'_>,
        missing: Missing,
        registry: &Registry,
        old: RetainedPart<V, M>,
        touched: &[VertexId],
        member_changes: &[VertexId],
        program: &P,
    ) -> Result<Part<V, M>, Memory>
        ensures begins { IfOk result (λ part. HasBegun rows.entry missing part.part_run) }
        ensures holds { IfOk result (λ part. (job : Job V M) (kept : GraphRows)
            → job.program ≡ P.program program.now → job.missing ≡ missing
            → job.aggregators ≡ aggregators_of registry.now
            → IsRetained job kept rows.entry.partitions rows.entry.partition old
            → AreTouched touched.now kept rows.entry.graph
            → AreMemberChanges member_changes.now kept rows.entry.graph
            → HoldsShare job (Some kept) rows.entry.graph rows.entry.partitions rows.entry.partition 0 part) }
    {
        let graph = rows.graph();
        let RetainedPart { trace, stats } = old;
        let part_run = PartRun::begin_warm(alloc, rows, missing, trace, touched, program)?;
        let first = first_stats_warm(alloc, registry, &part_run, stats.as_slice())?;
        let stats_history = StatsHistory::begun(alloc, graph, member_changes, first, stats)?;
        Ok(Part {
            part_run,
            stats_history,
        })
    }

    /// One superstep. It reads what the logs have from each partition to this one of the superstep before, and what
    /// is visible; and where the part is warm and the old run has the superstep, the logs and the visible values of
    /// that run, which are to be given then and else not. A part whose step answers `Lost` is gone, and nothing was
    /// counted.
    ///
    /// A cold part executes each active vertex once; so does a warm one past the end of the old run. Else those are
    /// executed that don't read what they read there. Each execution is counted.
    ///
    /// Costs what it executes, the messages that it receives and sends, and a walk over the records of the superstep
    /// before; against an old run that saw the same only the vertices whose states or messages may differ, and what
    /// these send, and a walk over the superstep's records where they contribute something else.
    pub fn step<P: Computation<Value = V, Message = M>, C: MessageCombiner<M>>(
        self,
        alloc: Global,
        logs: &Logs<M>,
        visible: &Visible,
        old_logs: Option<&Logs<M>>,
        old_visible: Option<&Visible>,
        registry: &Registry,
        program: &P,
        combiner: &C,
        meter: &mut Meter,
    ) -> Result<(Part<V, M>, Sent<M>), Lost>
        requires few { length visible.now.values ≤ 16 }
        requires few_old { IfSome (option_copied old_visible) (λ v. length v.values ≤ 16) }
        requires declared { has_places (P.program program.now).declared (length visible.now.values) ≡ true }
        requires counts { self.part_run.place + 1 < 2 ^ 32 }
        ensures advanced { IfOk result (λ stepped. IsAdvanced self.part_run stepped.0.part_run) }
        ensures uncounted { IfErr result (λ lost. meter.new ≡ meter.old) }
        ensures stepped { IfOk result
            (λ stepped. (job : Job V M) (kept : Option GraphRows) (rows : GraphRows) (n p r : ℕ)
            → job.program ≡ P.program program.now → job.combining ≡ C.combining combiner.now
            → job.aggregators ≡ aggregators_of registry.now
            → HoldsShare job kept rows n p r self → IsStepInput job rows n p r logs.now visible.now
            → IsOldStepInput job kept n p r logs.now (option_copied old_logs.entry) (option_copied old_visible.entry)
            → HasMadeStep job V.PartialEq.eq M.PartialEq.eq kept rows n p r stepped.0 stepped.1 meter.old meter.new) }
    {
        let Part {
            part_run,
            stats_history,
        } = self;
        let superstep = part_run.place();
        let mut counted = meter.copy();
        let (part_run, sent) = part_run.step(
            alloc,
            logs,
            visible,
            old_logs,
            old_visible,
            program,
            combiner,
            &mut counted,
        )?;
        let bundles = sent.bundles();
        let stats_history = stats_history.after(
            alloc, registry, old_logs, &part_run, superstep, bundles,
        );
        let stats_history = or_lost(stats_history)?;
        *meter = counted;
        Ok((
            Part {
                part_run,
                stats_history,
            },
            sent,
        ))
    }

    /// Goes on from where it began past as many supersteps as these are the records of: what its vertices gave as they
    /// were executed. It executes nothing and sends nothing. What it came to as each superstep began is counted by the
    /// records. Where memory is refused the part is gone.
    ///
    /// It holds its share of a run where these are the run's records, as those are that a part has recorded which held
    /// its share, against an old run or not.
    ///
    /// Costs a few look-ups for each record, whose messages and contributions are moved; a look-up of each target,
    /// where messages to no vertex are dropped; and a walk over the contributions for each aggregator.
    pub fn resume(
        self,
        alloc: Global,
        records: Vec<Vec<(VertexId, Record<V, M>)>>,
        registry: &Registry,
    ) -> Result<Part<V, M>, Memory>
        requires first { self.part_run.place ≡ 0 }
        requires cold { self.part_run.kept ≡ None }
        requires unrecorded { self.part_run.trace.records ≡ [] }
        requires rise { AllByRecursion (λ l. HasRisingIds l.items) records.items }
        requires counts { length records.items < 2 ^ 32 }
        ensures resumed { IfOk result
            (λ part. IsResumed (map (λ l. l.items) records.items) self.part_run part.part_run) }
        ensures holds { IfOk result (λ part. (job : Job V M) (rows : GraphRows) (n p : ℕ)
            → job.aggregators ≡ aggregators_of registry.now
            → HoldsShare job None rows n p 0 self → length records.items ≤ run_length job rows
            → map (λ l. l.items) records.items ≡ records_below job rows n p (length records.items)
            → HoldsShare job None rows n p (length records.items) part) }
        ensures again { IfOk result
            (λ part. (job : Job V M) (kept : Option GraphRows) (rows : GraphRows) (n p r : ℕ) (before : PartState V M)
            → job.aggregators ≡ aggregators_of registry.now
            → HoldsShare job None rows n p 0 self → r ≤ run_length job rows → HoldsShare job kept rows n p r before
            → map (λ l. l.items) records.items ≡ take r before.part_run.trace.records
            → HoldsShare job None rows n p r part) }
    {
        let mut part = self;
        for superstep in records {
            part = part.resumed(alloc, superstep, registry)?;
        }
        Ok(part)
    }

    /// One superstep further by the records of that.
    fn resumed(
        self,
        alloc: Global,
        records: Vec<(VertexId, Record<V, M>)>,
        registry: &Registry,
    ) -> Result<Part<V, M>, Memory>
        requires rise { HasRisingIds records.items }
        requires next { length self.part_run.trace.records ≡ self.part_run.place }
        requires counts { self.part_run.place + 1 < 2 ^ 32 }
        ensures part_run { IfOk result (λ part. part.part_run ≡ with_resumed records.items self.part_run) }
        ensures holds { IfOk result (λ part. (job : Job V M) (rows : GraphRows) (n p s : ℕ)
            → job.aggregators ≡ aggregators_of registry.now
            → HoldsShare job None rows n p s self → s < run_length job rows
            → records.items ≡ records_in job rows n p s → HoldsShare job None rows n p (s + 1) part) }
    {
        let Part {
            part_run,
            stats_history,
        } = self;
        let superstep = part_run.place();
        let part_run = part_run.resumed(alloc, records)?;
        let stats_history = stats_history.resumed(alloc, registry, &part_run, superstep)?;
        Ok(Part {
            part_run,
            stats_history,
        })
    }

    /// The bundles of what it sent in a superstep that it has made, to each partition. They tell nothing of those of an
    /// old run. Costs a look at each of its records of the superstep, a sort of what they sent, and two copies of each
    /// message.
    pub fn sent_in<C: MessageCombiner<M>>(
        &self,
        alloc: Global,
        superstep: Superstep,
        combiner: &C,
    ) -> Result<Sent<M>, Memory>
        requires { superstep < self.now.part_run.place }
        ensures to_each { IfOk result (λ sent. length sent ≡ self.now.part_run.partitions) }
        ensures sends { IfOk result (λ sent. (q : ℕ) → q < self.now.part_run.partitions
            → IsFresh (C.combining combiner.now)
            (items_to self.now.part_run.partitions q (sends_by_records (records_of superstep self.now.part_run.trace)))
            (slice_get sent q)) }
        ensures right { IfOk result (λ sent. (job : Job V M) (kept : Option GraphRows) (rows : GraphRows) (n p r q : ℕ)
            → job.combining ≡ C.combining combiner.now
            → HoldsShare job kept rows n p r self.now → superstep < r → q < n
            → IsSentTo job None rows n p q superstep (slice_get sent q)) }
    {
        let partitions = self.part_run.partitions();
        let trace = self.part_run.trace();
        recorded_bundles(alloc, partitions, trace, superstep, combiner)
    }

    /// What it leaves of a run of so many supersteps, at the end of which it stands, and what it has no more use for.
    /// Costs what is cut where the old run was longer, and O(1) a record where there was none; against an old run it
    /// copies the chunks of the trace's index with the vertices whose records are others.
    pub fn leave(
        self,
        alloc: Global,
        supersteps: Superstep,
    ) -> Result<(RetainedPart<V, M>, DeferredPartDrop<V, M>), Memory>
        ensures { IfOk result (λ r. (job : Job V M) (kept : Option GraphRows) (rows : GraphRows) (n p : ℕ)
            → supersteps ≡ run_length job rows → HoldsShare job kept rows n p supersteps self
            → IsRetained job rows n p r.0) }
    {
        let Part {
            part_run,
            stats_history,
        } = self;
        let stats = stats_history.into_stats();
        let (mut trace, kept) = part_run.into_traces();
        trace.cut(alloc, supersteps)?;
        let trace = trace.sealed(alloc)?;
        Ok((RetainedPart { trace, stats }, DeferredPartDrop { kept }))
    }
}

/// What was found. Where memory was refused, a step is lost.
fn or_lost<T>(found: Result<T, Memory>) -> Result<T, Lost>
    ensures { IfOk result (λ value. found ≡ Ok value) }
{
    match found {
        Ok(value) => Ok(value),
        Err(_) => Err(Lost),
    }
}
