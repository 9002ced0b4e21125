//! What a partition has come to as a superstep begins, by what it or the old run had come to.
ghost use Rattle.std.specs.Prelude.{◌≡◌, ◌+◌, ◌<◌, ◌≤◌, ◌^◌, ◌∷◌, [], true, false, length, IfOk, IsSome, Some};
ghost use Rattle.std.specs.List.{list_all, slice_get};
ghost use Rattle.std.specs.Option.{option_copied};
ghost use Rattle.pg_part.specs.StatsHistories.{HasBegunWarm, HasNextStats, HasResumedStats, IsCountedWarm, IsNextStats};
ghost use Rattle.pg_part.specs.StatsHistories.{IsStatsHistory, IsStatsHistoryWarm, IsStatsHistoryByRecords};
ghost use Rattle.pg_part.specs.StatsHistories.{AreCountsWithDelta, begun_with, gathered_of};
ghost use Rattle.pg_stats.specs.Contributed.{contributes_alike};
ghost use Rattle.pg_trace.specs.Trace.{Trace as TraceOf};

use crate::PartRun;
use pg_global::{Registry, copied};
use pg_graph::{Graph, Memory, Superstep, VertexId};
use pg_inbox::{LoggedBundle, Logs};
use pg_model::Sequence;
use pg_program::Plain;
use pg_stats::{
    MessageCounts, PartitionStats, VertexCounts, contribute_alike, gathered, message_counts,
    message_counts_recorded, message_counts_warm, vertex_counts_among, vertex_counts_delta_among,
    with_delta,
};
use pg_trace::Trace;
use std::alloc::Global;

/// What a partition has come to as each superstep so far began, and what tells it: the graph and, against an old run,
/// the ids that are a vertex of just one of the two graphs, and what the partition came to in that run.
#[derive(Drop)]
pub(crate) struct StatsHistory {
    pub(crate) graph: Graph,
    pub(crate) member_changes: Vec<VertexId>,
    pub(crate) stats: Vec<PartitionStats>,
    pub(crate) old_stats: Vec<PartitionStats>,
}

impl StatsHistory {
    /// As a run begins with these stats.
    pub(crate) fn begun(
        alloc: Global,
        graph: &Graph,
        member_changes: &[VertexId],
        first: PartitionStats,
        old_stats: Vec<PartitionStats>,
    ) -> Result<StatsHistory, Memory>
        ensures graph_is { IfOk result (λ stats_history. stats_history.graph ≡ graph.now) }
        ensures member_changes_are { IfOk result
            (λ stats_history. stats_history.member_changes.items ≡ member_changes.now) }
        ensures stats_are { IfOk result (λ stats_history. stats_history.stats.items ≡ first ∷ []) }
        ensures old_stats_are { IfOk result (λ stats_history. stats_history.old_stats.items ≡ old_stats.items) }
    {
        let graph = graph.copy(alloc)?;
        let member_changes = Vec::from_slice(alloc, member_changes)?;
        let mut stats = Vec::new(alloc);
        stats.push(first)?;
        Ok(StatsHistory {
            graph,
            member_changes,
            stats,
            old_stats,
        })
    }

    /// After a superstep that the partition has made: with the stats after it.
    pub(crate) fn after<V: Plain, M: Plain>(
        self,
        alloc: Global,
        registry: &Registry,
        old_logs: Option<&Logs<M>>,
        part_run: &PartRun<V, M>,
        superstep: Superstep,
        bundles: &[LoggedBundle<M>],
    ) -> Result<StatsHistory, Memory>
        requires counts { superstep + 1 < 2 ^ 32 }
        requires few { length bundles.now ≤ 64 }
        requires there { superstep < length self.stats.items }
        ensures { IfOk result (λ after. HasNextStats registry.now (option_copied old_logs.entry) part_run.now superstep
            bundles.now self after) }
    {
        let next = next_stats(
            alloc,
            registry,
            &self.graph,
            self.member_changes.as_slice(),
            self.stats.as_slice(),
            self.old_stats.as_slice(),
            old_logs,
            part_run,
            superstep,
            bundles,
        )?;
        let mut stats_history = self;
        stats_history.stats.push(next)?;
        Ok(stats_history)
    }

    /// After a superstep by whose records the partition has gone on: with the stats after it.
    pub(crate) fn resumed<V: Plain, M: Plain>(
        self,
        alloc: Global,
        registry: &Registry,
        part_run: &PartRun<V, M>,
        superstep: Superstep,
    ) -> Result<StatsHistory, Memory>
        requires { superstep < length self.stats.items }
        ensures { IfOk result (λ after. HasResumedStats registry.now part_run.now superstep self after) }
    {
        let before = &self.stats[superstep.number() as usize];
        let next = stats_recorded(alloc, registry, &self.graph, part_run, superstep, before)?;
        let mut resumed = self;
        resumed.stats.push(next)?;
        Ok(resumed)
    }

    /// What the partition has come to as each superstep so far began.
    pub(crate) fn into_stats(self) -> Vec<PartitionStats>
        ensures { result.items ≡ self.stats.items }
    {
        self.stats
    }
}

/// The stats as a run begins, with these vertex counts.
pub(crate) fn first_stats(
    alloc: Global,
    registry: &Registry,
    vertex_counts: VertexCounts,
) -> Result<PartitionStats, Memory>
    ensures { IfOk result (λ stats. stats ≡ begun_with registry.now vertex_counts) }
{
    let message_counts = MessageCounts {
        sent: 0,
        dropped: 0,
    };
    let gathered = gathered(alloc, registry, &[])?;
    Ok(PartitionStats {
        vertex_counts,
        message_counts,
        gathered,
    })
}

/// The stats as a run against an old one begins, by those that the partition had as the old run began.
pub(crate) fn first_stats_warm<V: Plain, M: Plain>(
    alloc: Global,
    registry: &Registry,
    part_run: &PartRun<V, M>,
    old_stats: &[PartitionStats],
) -> Result<PartitionStats, Memory>
    requires some { 0 < length old_stats.now }
    requires warm { IsSome part_run.now.kept }
    ensures { IfOk result (λ stats. (old : TraceOf V M) (before : PartitionStats) → part_run.now.kept ≡ Some old
        → slice_get old_stats.now 0 ≡ Some before → HasBegunWarm registry.now old part_run.now before stats) }
{
    let start = Superstep::new(0);
    let kept = part_run.kept().unwrap();
    let before = old_stats[0].vertex_counts;
    let trace = part_run.trace();
    let ids = part_run.diverged(alloc)?;
    let vertex_counts = counts_with_delta(before, kept, start, trace, start, ids.as_slice())?;
    first_stats(alloc, registry, vertex_counts)
}

/// The vertex counts as a superstep begins, by those as one begins in another trace, where all other vertices have the
/// same states.
pub(crate) fn counts_with_delta<V: Plain, M: Plain>(
    before: VertexCounts,
    old: &Trace<V, M>,
    from: Superstep,
    new: &Trace<V, M>,
    to: Superstep,
    ids: &[VertexId],
) -> Result<VertexCounts, Memory>
    ensures { IfOk result (λ after. AreCountsWithDelta old.now from new.now to ids.now before after) }
{
    let removed = vertex_counts_among(old, from, ids)?;
    let added = vertex_counts_among(new, to, ids)?;
    with_delta(before, removed, added)
}

/// The vertex counts after a superstep, by those before it, where all other vertices have the same states before and
/// after it. Costs a look-up for each of these.
fn vertex_counts_after<V: Plain, M: Plain>(
    before: VertexCounts,
    trace: &Trace<V, M>,
    superstep: Superstep,
    ids: &[VertexId],
) -> Result<VertexCounts, Memory>
    ensures { IfOk result (λ after. AreCountsWithDelta trace.now superstep trace.now (superstep + 1) ids.now before
        after) }
{
    let vertex_counts_delta = vertex_counts_delta_among(trace, superstep, ids)?;
    with_delta(
        before,
        vertex_counts_delta.removed,
        vertex_counts_delta.added,
    )
}

/// The vertex counts after the superstep that a part run made last, by those before it. Costs a look-up for each vertex
/// that the step may have changed, where it doesn't know their vertex counts.
fn vertex_counts_next<V: Plain, M: Plain>(
    before: VertexCounts,
    part_run: &PartRun<V, M>,
    superstep: Superstep,
) -> Result<VertexCounts, Memory>
    ensures { IfOk result (λ after. AreCountsWithDelta part_run.now.trace superstep part_run.now.trace (superstep + 1)
        part_run.now.changed before after) }
{
    if let Some(vertex_counts_delta) = part_run.vertex_counts_delta() {
        if superstep.number().checked_add(1) == Some(part_run.place().number()) {
            return with_delta(
                before,
                vertex_counts_delta.removed,
                vertex_counts_delta.added,
            );
        }
    }
    vertex_counts_after(before, part_run.trace(), superstep, part_run.changed())
}

/// The vertex counts after a superstep, by those before it and by those of the old run before and after it, where all
/// other vertices had the same transition as in the old run, or none. Costs two look-ups for each of these.
fn vertex_counts_warm<V: Plain, M: Plain>(
    old: &Trace<V, M>,
    new: &Trace<V, M>,
    superstep: Superstep,
    ids: &[VertexId],
    before: VertexCounts,
    old_before: VertexCounts,
    old_after: VertexCounts,
) -> Result<VertexCounts, Memory>
    ensures { IfOk result (λ after. IsCountedWarm old.now new.now superstep ids.now before old_before old_after after) }
{
    let vertex_counts_delta = vertex_counts_after(before, new, superstep, ids)?;
    let old_vertex_counts_delta = vertex_counts_after(old_before, old, superstep, ids)?;
    with_delta(vertex_counts_delta, old_vertex_counts_delta, old_after)
}

/// What the vertices contribute in a superstep comes to.
fn gathered_in<V: Plain, M: Plain>(
    alloc: Global,
    registry: &Registry,
    trace: &Trace<V, M>,
    superstep: Superstep,
) -> Result<Sequence<i64>, Memory>
    ensures { IfOk result (λ gathered. gathered ≡ gathered_of registry.now trace.now superstep) }
{
    if registry.len() == 0 {
        return Ok(Sequence::new(alloc));
    }
    let contributions = trace.contributions(alloc, superstep)?;
    gathered(alloc, registry, contributions.as_slice())
}

/// The stats after a superstep, by those before it.
fn stats_after<V: Plain, M: Plain>(
    alloc: Global,
    registry: &Registry,
    graph: &Graph,
    part_run: &PartRun<V, M>,
    superstep: Superstep,
    bundles: &[LoggedBundle<M>],
    before: &PartitionStats,
) -> Result<PartitionStats, Memory>
    ensures { IfOk result (λ after. IsStatsHistory registry.now graph.now part_run.now superstep bundles.now before.now
        after) }
{
    Ok(PartitionStats {
        vertex_counts: vertex_counts_next(before.vertex_counts, part_run, superstep)?,
        message_counts: message_counts(alloc, bundles, graph, part_run.missing())?,
        gathered: gathered_in(alloc, registry, part_run.trace(), superstep)?,
    })
}

/// The stats after a superstep of a run against an old one, by those of the old run before and after it too.
fn stats_warm<V: Plain, M: Plain>(
    alloc: Global,
    registry: &Registry,
    graph: &Graph,
    member_changes: &[VertexId],
    old: &Trace<V, M>,
    old_logs: &Logs<M>,
    part_run: &PartRun<V, M>,
    superstep: Superstep,
    bundles: &[LoggedBundle<M>],
    before: &PartitionStats,
    old_before: &PartitionStats,
    old_after: &PartitionStats,
) -> Result<PartitionStats, Memory>
    requires { length bundles.now ≤ 64 }
    ensures { IfOk result (λ after. IsStatsHistoryWarm registry.now graph.now member_changes.now old.now old_logs.now
        part_run.now
        superstep bundles.now before.now old_before.now old_after.now after) }
{
    let trace = part_run.trace();
    let changed = part_run.changed();
    let vertex_counts = vertex_counts_warm(
        old,
        trace,
        superstep,
        changed,
        before.vertex_counts,
        old_before.vertex_counts,
        old_after.vertex_counts,
    )?;
    let message_counts = message_counts_warm(
        old_after.message_counts,
        old_logs,
        superstep,
        part_run.partition(),
        bundles,
        graph,
        part_run.missing(),
        member_changes,
    )?;
    let gathered = gathered_warm(
        alloc,
        registry,
        old,
        trace,
        superstep,
        changed,
        &old_after.gathered,
    )?;
    Ok(PartitionStats {
        vertex_counts,
        message_counts,
        gathered,
    })
}

/// What the vertices contribute in a superstep comes to: the same as in the old run, where none of these contributes
/// otherwise.
fn gathered_warm<V: Plain, M: Plain>(
    alloc: Global,
    registry: &Registry,
    old: &Trace<V, M>,
    trace: &Trace<V, M>,
    superstep: Superstep,
    changed: &[VertexId],
    before: &Sequence<i64>,
) -> Result<Sequence<i64>, Memory>
    ensures alike { IfOk result (λ gathered. list_all (contributes_alike old.now trace.now superstep) changed.now ≡ true
        → gathered ≡ before.now) }
    ensures otherwise { IfOk result
        (λ gathered. list_all (contributes_alike old.now trace.now superstep) changed.now ≡ false
        → gathered ≡ gathered_of registry.now trace.now superstep) }
{
    if registry.len() == 0 && before.len() == 0 {
        return Ok(Sequence::new(alloc));
    }
    if contribute_alike(old, trace, superstep, changed) {
        return copied(alloc, before);
    }
    gathered_in(alloc, registry, trace, superstep)
}

/// The stats after a superstep, by its records and by the stats before it. Costs a walk over the records and look-ups
/// of their vertices; and a look-up of each target where messages to no vertex are dropped.
fn stats_recorded<V: Plain, M: Plain>(
    alloc: Global,
    registry: &Registry,
    graph: &Graph,
    part_run: &PartRun<V, M>,
    superstep: Superstep,
    before: &PartitionStats,
) -> Result<PartitionStats, Memory>
    ensures { IfOk result (λ after. IsStatsHistoryByRecords registry.now graph.now part_run.now superstep before.now
        after) }
{
    let trace = part_run.trace();
    let records = trace.records(alloc, superstep)?;
    Ok(PartitionStats {
        vertex_counts: vertex_counts_next(before.vertex_counts, part_run, superstep)?,
        message_counts: message_counts_recorded(records.as_slice(), graph, part_run.missing())?,
        gathered: gathered_in(alloc, registry, trace, superstep)?,
    })
}

/// The stats after a superstep that a partition has made: by those before it, and by those of the old run too where it
/// made it against that.
///
/// Against the old run it costs look-ups for each vertex that the superstep may have changed and for each target that
/// the bundles name as changed, and a walk over the superstep's records where something else is contributed than in the
/// old run; else a walk over the records and the messages.
fn next_stats<V: Plain, M: Plain>(
    alloc: Global,
    registry: &Registry,
    graph: &Graph,
    member_changes: &[VertexId],
    stats: &[PartitionStats],
    old_stats: &[PartitionStats],
    old_logs: Option<&Logs<M>>,
    part_run: &PartRun<V, M>,
    superstep: Superstep,
    bundles: &[LoggedBundle<M>],
) -> Result<PartitionStats, Memory>
    requires counts { superstep + 1 < 2 ^ 32 }
    requires few { length bundles.now ≤ 64 }
    requires there { superstep < length stats.now }
    ensures { IfOk result (λ after. IsNextStats registry.now graph.now member_changes.now stats.now old_stats.now
        (option_copied old_logs.entry) part_run.now superstep bundles.now after) }
{
    let place = superstep.number() as usize;
    if part_run.was_warm() {
        let found = (part_run.kept(), old_logs, old_stats.get(place + 1));
        if let (Some(old), Some(old_logs), Some(old_after)) = found {
            let (before, old_before) = (&stats[place], &old_stats[place]);
            return stats_warm(
                alloc,
                registry,
                graph,
                member_changes,
                old,
                old_logs,
                part_run,
                superstep,
                bundles,
                before,
                old_before,
                old_after,
            );
        }
    }
    stats_after(
        alloc,
        registry,
        graph,
        part_run,
        superstep,
        bundles,
        &stats[place],
    )
}
