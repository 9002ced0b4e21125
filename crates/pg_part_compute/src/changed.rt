//! The vertices that a step against an old run has to look at.
ghost use Rattle.std.specs.Prelude.{◌≡◌, ℕ, ◌+◌, ◌<◌, false, Option, IfOk, OnOk};
ghost use Rattle.std.specs.List.{AllByRecursion};
ghost use Rattle.std.specs.Option.{option_copied};
ghost use Rattle.pg_inbox.specs.Handed.{HoldAll};
ghost use Rattle.pg_inbox.specs.LoggedBundle.{slot_at};
ghost use Rattle.pg_model.specs.Job.{Combining};
ghost use Rattle.pg_model.specs.Superstep.{has_id};
ghost use Rattle.pg_part_compute.specs.VertexPairs.{AreDirtyIds, unhalted_ids};
ghost use Rattle.pg_part_compute.specs.Found.{is_same_view};
ghost use Rattle.pg_part_routing.specs.Routes.{AreSameIn, AreSameTo, IsSameAtChanged, bundle_in};

use crate::diverged::Diverged;
use crate::ids::{add_all, rising};
use crate::vertex_pairs::unhalted_ids;
use pg_graph::{Memory, PartitionId, Superstep, VertexId};
use pg_inbox::{Bundle, LoggedBundle, Logs, add_receivers, changed_targets};
use pg_model::View;
use pg_part_routing::Partitioner;
use pg_program::Plain;
use pg_trace::Trace;
use std::alloc::Global;

/// Whether the vertices of a superstep see what those of the old run saw.
pub fn is_same_view(old: &View, new: &View) -> bool
    ensures { result ≡ is_same_view old.now new.now }
{
    old.superstep == new.superstep
        && old.aggregates.as_slice() == new.aggregates.as_slice()
        && old.total_vertices == new.total_vertices
        && old.total_edges == new.total_edges
}

/// The vertices whose states may differ from those of the old run, but for those quiescent in both that receive
/// nothing; those to which something else may be sent; and where the old run saw something else all that aren't halted:
/// by rising id. Costs a sort of them, a look at each bundle, and for each quiescent vertex a look-up in each bundle,
/// near the one before.
pub fn dirty_ids<V: Plain, M: Plain>(
    alloc: Global,
    partitions: Partitioner,
    partition: PartitionId,
    superstep: Superstep,
    trace: &Trace<V, M>,
    diverged: &Diverged,
    logs: &Logs<M>,
    old_logs: &Logs<M>,
    bundles: &[Bundle<M>],
    same_view: bool,
) -> Result<Vec<VertexId>, Memory>
    ensures dirty { IfOk result (λ ids. (combining : Option (Combining M)) →
        AreDirtyIds combining bundles.now partitions partition superstep trace.now diverged.now.live.items
        diverged.now.quiescent.items logs.now old_logs.now same_view ids.items) }
    ensures hold { IfOk result (λ _. AllByRecursion (HoldAll M.is_value) bundles.now) }
{
    let mut ids = changed_before(alloc, partitions, partition, superstep, logs, old_logs)?;
    add_all(&mut ids, diverged.live.as_slice())?;
    add_receivers(&mut ids, diverged.quiescent.as_slice(), bundles)?;
    add_unhalted(alloc, &mut ids, superstep, trace, same_view)?;
    Ok(rising(ids))
}

/// Adds the vertices that aren't halted, where the old run saw something else.
fn add_unhalted<V: Plain, M: Plain>(
    alloc: Global,
    ids: &mut Vec<VertexId>,
    superstep: Superstep,
    trace: &Trace<V, M>,
    same_view: bool,
) -> Result<(), Memory>
    ensures { OnOk result ((id : ℕ) → has_id ids.new.items id ≡ false
        → (has_id ids.old.items id ≡ false)
        × (same_view ≡ false → has_id (unhalted_ids superstep trace.now) id ≡ false)) }
{
    if same_view {
        return Ok(());
    }
    let unhalted = unhalted_ids(alloc, trace, superstep)?;
    add_all(ids, unhalted.as_slice())
}

/// The targets at which what the partitions sent to this one for a superstep may differ from what they sent in the
/// old run.
fn changed_before<M: Plain>(
    alloc: Global,
    partitions: Partitioner,
    to: PartitionId,
    superstep: Superstep,
    logs: &Logs<M>,
    old_logs: &Logs<M>,
) -> Result<Vec<VertexId>, Memory>
    ensures { IfOk result (λ ids. (s q id : ℕ) → s + 1 ≡ superstep → q < partitions → has_id ids.items id ≡ false
        → AreSameTo id (slot_at old_logs.now s q to) (slot_at logs.now s q to)) }
{
    match superstep.number().checked_sub(1) {
        Some(before) => {
            let before = Superstep::new(before);
            changed_at(alloc, partitions, to, before, logs, old_logs)
        }
        None => Ok(Vec::new(alloc)),
    }
}

/// The targets at which what the partitions sent to this one in a superstep may differ from what they sent in the old
/// run's.
fn changed_at<M: Plain>(
    alloc: Global,
    partitions: Partitioner,
    to: PartitionId,
    superstep: Superstep,
    logs: &Logs<M>,
    old_logs: &Logs<M>,
) -> Result<Vec<VertexId>, Memory>
    ensures { IfOk result (λ ids. (q id : ℕ) → q < partitions → has_id ids.items id ≡ false
        → AreSameTo id (slot_at old_logs.now superstep q to) (slot_at logs.now superstep q to)) }
{
    let mut ids = Vec::new(alloc);
    for from in 0..partitions.partitions() {
        let from = PartitionId::new(from);
        let old = old_logs.get(superstep, from, to);
        let new = logs.get(superstep, from, to);
        add_changed(alloc, &mut ids, old, new)?;
    }
    Ok(ids)
}

/// Adds the targets at which a bundle may differ from the old one.
fn add_changed<M: Plain>(
    alloc: Global,
    ids: &mut Vec<VertexId>,
    old: Option<&LoggedBundle<M>>,
    new: Option<&LoggedBundle<M>>,
) -> Result<(), Memory>
    ensures { OnOk result ((id : ℕ) → has_id ids.new.items id ≡ false
        → (has_id ids.old.items id ≡ false) × AreSameTo id (option_copied old.entry) (option_copied new.entry)) }
{
    if let Some(new) = new {
        return add_stated(alloc, ids, bundle_in(old), new);
    }
    add_found(alloc, ids, bundle_in(old), bundle_in(new))
}

/// Adds those that the bundle tells, or else those that are found.
fn add_stated<M: Plain>(
    alloc: Global,
    ids: &mut Vec<VertexId>,
    old: Option<&Bundle<M>>,
    new: &LoggedBundle<M>,
) -> Result<(), Memory>
    ensures { OnOk result ((id : ℕ) → has_id ids.new.items id ≡ false
        → (has_id ids.old.items id ≡ false) × IsSameAtChanged id (option_copied old.entry) new.now) }
{
    match &new.changed {
        Some(eq_is_sound) => add_all(ids, eq_is_sound.as_slice()),
        None => add_found(alloc, ids, old, Some(&new.bundle)),
    }
}

/// Adds the targets at which two bundles differ.
fn add_found<M: Plain>(
    alloc: Global,
    ids: &mut Vec<VertexId>,
    old: Option<&Bundle<M>>,
    new: Option<&Bundle<M>>,
) -> Result<(), Memory>
    ensures { OnOk result ((id : ℕ) → has_id ids.new.items id ≡ false
        → (has_id ids.old.items id ≡ false) × AreSameIn id (option_copied old.entry) (option_copied new.entry)) }
{
    let found = changed_targets(alloc, old, new)?;
    add_all(ids, found.as_slice())?;
    Ok(())
}

fn bundle_in<M: Plain>(logged: Option<&LoggedBundle<M>>) -> Option<&Bundle<M>>
    ensures { option_copied result ≡ bundle_in (option_copied logged.entry) }
{
    match logged {
        Some(logged) => Some(&logged.bundle),
        None => None,
    }
}
