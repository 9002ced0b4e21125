//! The parts that a round hands to the workers, and what they borrow.
ghost use Rattle.std.specs.Prelude.{◌≡◌, ◌≤◌, true, length, IfOk, IsTrue, Some};
ghost use Rattle.pg_core.specs.Progress.{is_ready as ready_test};
ghost use Rattle.pg_global.specs.Master.{has_places};
ghost use Rattle.pg_core.specs.Handed.{host_of, place_at};
ghost use Rattle.pg_workers.specs.Meaning.{meaning};
ghost use Rattle.pg_workers.specs.Rounds.{AreAssigned, Borrows, TakesParts};

use pg_core::Core;
use pg_global::{MasterCompute, MessageCombiner};
use pg_graph::{Memory, PartitionId, Superstep, WorkerId};
use pg_inbox::LoggedBundle;
use pg_program::{Computation, Plain};
use pg_workers_rounds::{Assignment, Part, Round};
use std::alloc::Global;

/// As many vertices are looked at in about the time that it takes to start the threads of a round.
const LITTLE: usize = 64;

/// Takes the parts that are ready at a superstep, by rising worker; a worker that has none is omitted.
pub(crate) fn assign<P: Computation, C: MessageCombiner<P::Message>, M: MasterCompute>(
    alloc: Global,
    core: &mut Core<'_, P, C, M>,
    superstep: Superstep,
) -> Result<Vec<Assignment<P::Value, P::Message>>, Memory>
    ensures { let own = meaning P.program C.combining M.master P.Value.PartialEq.eq P.Message.PartialEq.eq
        P.Value.is_value P.Value.coding P.Message.is_value P.Message.coding in
        IfOk result (λ assignments.
        AreAssigned own core.old superstep core.old.limits.workers core.new assignments.items) }
{
    let mut assignments = Vec::new(alloc);
    for number in 0..core.limits().workers() {
        let worker = WorkerId::new(number);
        let parts = parts_of(alloc, core, worker, superstep)?;
        if !parts.is_empty() {
            assignments.push(Assignment { worker, parts })?;
        }
    }
    Ok(assignments)
}

/// Takes those of one worker, by rising partition.
fn parts_of<P: Computation, C: MessageCombiner<P::Message>, M: MasterCompute>(
    alloc: Global,
    core: &mut Core<'_, P, C, M>,
    worker: WorkerId,
    superstep: Superstep,
) -> Result<Vec<Part<P::Value, P::Message>>, Memory>
    ensures { let own = meaning P.program C.combining M.master P.Value.PartialEq.eq P.Message.PartialEq.eq
        P.Value.is_value P.Value.coding P.Message.is_value P.Message.coding in
        IfOk result (λ parts. TakesParts own core.old core.new superstep worker parts.items) }
{
    let mut parts = Vec::new(alloc);
    for number in 0..core.limits().partitions() {
        let partition = PartitionId::new(number);
        if is_due(core, partition, worker, superstep) {
            parts.push(core.take(partition))?;
        }
    }
    Ok(parts)
}

/// Whether a partition is ready at a superstep, and a worker hosts it.
fn is_due<P: Computation, C: MessageCombiner<P::Message>, M: MasterCompute>(
    core: &Core<'_, P, C, M>,
    partition: PartitionId,
    worker: WorkerId,
    superstep: Superstep,
) -> bool
    ensures host { IsTrue result → host_of partition core.now.state ≡ worker }
    ensures place { IsTrue result → place_at partition core.now.state ≡ Some superstep }
    ensures ready { IsTrue result → ready_test core.now partition ≡ true }
{
    let state = core.state();
    state.host(partition) == worker
        && state.place(partition) == Some(superstep)
        && core.is_ready(partition)
}

/// What a round at a superstep borrows, where so many losses were recorded before it. The worker that it names is to be
/// replaced by each.
pub(crate) fn step_input<'a, P: Computation, C: MessageCombiner<P::Message>, M: MasterCompute>(
    core: &'a Core<'_, P, C, M>,
    superstep: Superstep,
    attempt: u32,
) -> Round<'a, P::Message>
    requires { superstep ≤ core.now.state.current }
    ensures borrows { let own = meaning P.program C.combining M.master P.Value.PartialEq.eq P.Message.PartialEq.eq
        P.Value.is_value P.Value.coding P.Message.is_value P.Message.coding in
        Borrows own core.now superstep attempt result }
    ensures declared { has_places (P.program core.now.program).declared (length result.visible.values) ≡ true }
{
    Round::new(
        core.logs(),
        core.visible(superstep),
        core.old_logs(superstep),
        core.old_visible(superstep),
        core.registry(),
        superstep,
        attempt,
        WorkerId::new(0),
    )
}

/// Whether only one worker has anything to do, or the steps of these parts look at so few vertices that to start
/// threads would take longer. Of few it is never so where the kept run hasn't the superstep, or a part is cold. It is a
/// hint, of which nothing is promised.
pub(crate) fn is_little<P: Computation, C: MessageCombiner<P::Message>, M: MasterCompute>(
    core: &Core<'_, P, C, M>,
    superstep: Superstep,
    assignments: &[Assignment<P::Value, P::Message>],
) -> bool {
    if assignments.len() <= 1 {
        return true;
    }
    if core.old_logs(superstep).is_none() {
        return false;
    }
    let mut dirty_ids = 0usize;
    for assignment in assignments {
        for part in assignment.parts.as_slice() {
            dirty_ids = dirty_ids.saturating_add(most_dirty_ids(core, superstep, part));
        }
    }
    dirty_ids <= LITTLE
}

/// At most how many vertices a step of a part against the kept run looks at, where the two saw the same; the greatest
/// number where that isn't known.
fn most_dirty_ids<P: Computation, C: MessageCombiner<P::Message>, M: MasterCompute>(
    core: &Core<'_, P, C, M>,
    superstep: Superstep,
    part: &Part<P::Value, P::Message>,
) -> usize {
    if !part.is_warm() {
        return usize::MAX;
    }
    let mut most = part.diverged_len();
    if let Some(before) = superstep.number().checked_sub(1) {
        for from in 0..core.limits().partitions() {
            let before = Superstep::new(before);
            let sent = core
                .logs()
                .get(before, PartitionId::new(from), part.partition());
            most = most.saturating_add(changed_targets(sent));
        }
    }
    most
}

/// At how many targets a bundle differs from the kept run's; the greatest number where it doesn't tell.
fn changed_targets<M: Plain>(sent: Option<&LoggedBundle<M>>) -> usize {
    match sent {
        Some(
            LoggedBundle {
                changed: Some(changed),
                ..
            },
        ) => changed.len(),
        _ => usize::MAX,
    }
}
