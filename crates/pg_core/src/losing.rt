//! Workers that fall, and the recovery of the partitions that they hosted.
ghost use Rattle.std.specs.Prelude.{◌≡◌, ℕ, ◌<◌, ◌≤◌, ◌==◌, ◌&&◌, true, cond, length, None, Option, Some, IfOk, IfSome};
ghost use Rattle.std.specs.Prelude.{OnOk, slice_index_or};
ghost use Rattle.pg_core.specs.Losing.{AreLost, HasFallen, HasSentAgain, HasSentIn, IsAsFound, IsForgotten, IsOf};
ghost use Rattle.pg_core.specs.Losing.{IsRestored, IsShareFound};
ghost use Rattle.pg_core.specs.Losing.{place_found, with_event};
ghost use Rattle.pg_core.specs.Progress.{IsRight, job_of_core};
ghost use Rattle.pg_graph.specs.Rows.{Rows};
ghost use Rattle.pg_inbox.specs.LoggedBundle.{slot_at};
ghost use Rattle.pg_core_machine.specs.Machine.{is_allowed};

use crate::running::{partitioner_of, put_all, put_part};
use crate::{Core, Event, State};
use pg_global::{MasterCompute, MessageCombiner};
use pg_graph::{Memory, PartitionId, Superstep, WorkerId};
use pg_inbox::Logs;
use pg_part::Part;
use pg_program::{Computation, Plain};
use std::alloc::Global;

impl<'a, P: Computation, C: MessageCombiner<P::Message>, M: MasterCompute> Core<'a, P, C, M> {
    /// A worker has fallen. The parts of its partitions are gone, those that were taken too, and so is all that these
    /// sent in this run. Where memory is refused the core is to be given up.
    pub fn lose(&mut self, worker: WorkerId) -> Result<(), Memory>
        requires { is_allowed self.old.state (Event.Lose worker) ≡ true }
        ensures core { OnOk result (HasFallen worker self.old self.new) }
        ensures right { let job = job_of_core P.program C.combining M.master self.old in
            OnOk result ((kept : Option Rows)
            → IsRight job kept self.old → IsRight job kept self.new) }
    {
        self.history.push(Event::Lose(worker))?;
        let partitions = self.limits.partitions();
        lose_hosted(
            worker,
            partitions,
            &self.state,
            &mut self.parts,
            &mut self.logs,
        );
        self.state.lose(worker);
        Ok(())
    }

    /// A worker hosts a partition from now on. Where memory is refused the core is to be given up.
    pub fn host(&mut self, partition: PartitionId, worker: WorkerId) -> Result<(), Memory>
        requires { is_allowed self.old.state (Event.Host partition worker) ≡ true }
        ensures core { OnOk result (self.new ≡ with_event (Event.Host partition worker) self.old) }
        ensures right { let job = job_of_core P.program C.combining M.master self.old in
            OnOk result ((kept : Option Rows)
            → IsRight job kept self.old → IsRight job kept self.new) }
    {
        self.history.push(Event::Host(partition, worker))?;
        self.state.host_on(partition, worker);
        Ok(())
    }

    /// The part of a partition was saved as it is. Where memory is refused the core is to be given up.
    pub fn saved(&mut self, partition: PartitionId) -> Result<(), Memory>
        requires { is_allowed self.old.state (Event.Save partition) ≡ true }
        ensures core { OnOk result (self.new ≡ with_event (Event.Save partition) self.old) }
        ensures right { let job = job_of_core P.program C.combining M.master self.old in
            OnOk result ((kept : Option Rows)
            → IsRight job kept self.old → IsRight job kept self.new) }
    {
        self.history.push(Event::Save(partition))?;
        self.state.save(partition);
        Ok(())
    }

    /// A lost partition goes on from the part that was found, or from superstep 0 where none was, without an old run.
    /// What the part has sent on its way is sent again, to be read by partitions that are behind and by the next run.
    /// Costs a copy of each message that the part has recorded; from superstep 0 on, one walk over the graph's rows.
    /// Where memory is refused the core is to be given up.
    pub fn restore(
        &mut self,
        alloc: Global,
        partition: PartitionId,
        found: Option<Part<P::Value, P::Message>>,
    ) -> Result<(), Memory>
        requires allowed { is_allowed self.old.state (Event.Restore partition (place_found found)) ≡ true }
        requires own { IfSome found (IsOf self.old.limits.partitions partition) }
        ensures core { OnOk result (IsRestored (C.combining self.old.combiner) partition found self.old self.new) }
        ensures right { let job = job_of_core P.program C.combining M.master self.old in
            OnOk result ((kept : Option Rows) → IsRight job kept self.old
            → IsShareFound job self.old partition found → IsRight job kept self.new) }
    {
        let part = self.found_or_begun(alloc, partition, found)?;
        let place = part.place();
        send_again(alloc, &mut self.logs, partition, &part, self.combiner)?;
        self.history.push(Event::Restore(partition, place))?;
        self.state.restore(partition, place);
        put_part(&mut self.parts, partition, part);
        Ok(())
    }

    /// The part that was found of a partition, or the one with which it begins.
    fn found_or_begun(
        &self,
        alloc: Global,
        partition: PartitionId,
        found: Option<Part<P::Value, P::Message>>,
    ) -> Result<Part<P::Value, P::Message>, Memory>
        requires inside { partition < self.now.limits.partitions }
        requires own { IfSome found (IsOf self.now.limits.partitions partition) }
        ensures found { IfOk result (IsAsFound found) }
        ensures own { IfOk result (IsOf self.now.limits.partitions partition) }
        ensures share { let job = job_of_core P.program C.combining M.master self.now in
            IfOk result (λ part. IsShareFound job self.now partition found
            → IsShareFound job self.now partition (Some part)) }
    {
        match found {
            Some(part) => Ok(part),
            None => {
                let rows = partitioner_of(self.limits).rows(self.graph, partition);
                Part::begin(
                    alloc,
                    rows,
                    self.limits.missing(),
                    &self.registry,
                    self.program,
                )
            }
        }
    }
}

/// Lets go of the parts of the partitions that a worker hosts, and of what they sent.
fn lose_hosted<V: Plain, M: Plain>(
    worker: WorkerId,
    partitions: u32,
    state: &State,
    parts: &mut Vec<Option<Part<V, M>>>,
    logs: &mut Logs<M>,
)
    requires { length parts.old.items ≡ partitions }
    ensures parts { AreLost worker state.now parts.old.items parts.new.items }
    ensures logs { IsForgotten partitions worker state.now logs.old logs.new }
{
    for number in 0..partitions {
        let partition = PartitionId::new(number);
        lose_if_hosted(worker, state.host(partition), partition, parts, logs);
    }
}

/// Lets go of the part of a partition, and of what it sent, if its host is that worker.
fn lose_if_hosted<V: Plain, M: Plain>(
    worker: WorkerId,
    host: WorkerId,
    partition: PartitionId,
    parts: &mut Vec<Option<Part<V, M>>>,
    logs: &mut Logs<M>,
)
    requires { partition < length parts.old.items }
    ensures each { length parts.new.items ≡ length parts.old.items }
    ensures parts { (p : ℕ) → slice_index_or parts.new.items p None
        ≡ cond ((host == worker) && (partition == p)) None (slice_index_or parts.old.items p None) }
    ensures logs { (s p q : ℕ) → slot_at logs.new s p q
        ≡ cond ((host == worker) && (partition == p)) None (slot_at logs.old s p q) }
{
    if host == worker {
        drop(parts[partition.number() as usize].take());
        logs.forget(partition);
    }
}

/// Sends again what a part has recorded, superstep by superstep.
fn send_again<V: Plain, M: Plain, C: MessageCombiner<M>>(
    alloc: Global,
    logs: &mut Logs<M>,
    partition: PartitionId,
    part: &Part<V, M>,
    combiner: &C,
) -> Result<(), Memory>
    requires { part.now.part_run.partitions ≤ 64 }
    ensures { OnOk result (HasSentAgain (C.combining combiner.now) part.now.part_run.partitions partition
        part.now.part_run.place part.now.part_run.trace logs.old logs.new) }
{
    for number in 0..part.place().number() {
        send_again_in(
            alloc,
            logs,
            partition,
            part,
            Superstep::new(number),
            combiner,
        )?;
    }
    Ok(())
}

/// Sends again what a part has recorded in one superstep.
fn send_again_in<V: Plain, M: Plain, C: MessageCombiner<M>>(
    alloc: Global,
    logs: &mut Logs<M>,
    partition: PartitionId,
    part: &Part<V, M>,
    superstep: Superstep,
    combiner: &C,
) -> Result<(), Memory>
    requires few { part.now.part_run.partitions ≤ 64 }
    requires before { superstep < part.now.part_run.place }
    ensures { OnOk result (HasSentIn (C.combining combiner.now) part.now.part_run.partitions partition
        superstep part.now.part_run.trace logs.old logs.new) }
{
    let sent = part.sent_in(alloc, superstep, combiner)?;
    put_all(alloc, logs, superstep, partition, sent.into_bundles())
}
