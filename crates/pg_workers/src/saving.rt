//! Saving the partitions of a run.
ghost use Rattle.std.specs.Prelude.{◌≡◌, ◌≤◌, ◌<◌, ◌+◌, ◌^◌, IfErr, IsSome, OnOk};
ghost use Rattle.pg_checkpoint.specs.Shelf.{IsCounted};
ghost use Rattle.pg_core.specs.Progress.{part_at};
ghost use Rattle.pg_workers_rounds.specs.Handed.{PartState};
ghost use Rattle.pg_workers.specs.Meaning.{meaning};
ghost use Rattle.pg_workers.specs.Refused.{IsOfShelf, is_failure};
ghost use Rattle.pg_workers.specs.Running.{GoesOn, HasPut};

use crate::RefreshFault;
use crate::coordinator::Coordinator;
use pg_checkpoint::{Shelf, ShelfFault, save};
use pg_global::{MasterCompute, MessageCombiner};
use pg_graph::PartitionId;
use pg_program::Computation;
use std::alloc::Global;

impl<'a, P: Computation, C: MessageCombiner<P::Message>, M: MasterCompute> Coordinator<
    'a,
    P,
    C,
    M,
> {
    /// Saves each partition, where that is due before the open superstep.
    pub(crate) fn save_all<S: Shelf>(
        &mut self,
        alloc: Global,
        shelf: &mut S,
    ) -> Result<(), RefreshFault>
        requires counts { (S.state shelf.old).failures + 1 < 2 ^ 64 }
        ensures keeps { let own = meaning P.program C.combining M.master P.Value.PartialEq.eq P.Message.PartialEq.eq
            P.Value.is_value P.Value.coding P.Message.is_value P.Message.coding in
            OnOk result (GoesOn own (S.state shelf.old) self.old (S.state shelf.new) self.new) }
        ensures limits { OnOk result (self.new.core.limits ≡ self.old.core.limits) }
        ensures losses { OnOk result (self.new.losses ≡ self.old.losses) }
        ensures fault { IfErr result IsOfShelf }
        ensures counted { IsCounted (S.state shelf.old) (is_failure result) (S.state shelf.new) }
    {
        let open = self.core.state().current().number();
        if !is_due(open, self.core.limits().every()) {
            return Ok(());
        }
        for number in 0..self.core.limits().partitions() {
            self.save_one(alloc, shelf, PartitionId::new(number))?;
        }
        Ok(())
    }

    /// Saves a partition whose part is here.
    fn save_one<S: Shelf>(
        &mut self,
        alloc: Global,
        shelf: &mut S,
        partition: PartitionId,
    ) -> Result<(), RefreshFault>
        requires inside { partition < self.old.core.limits.partitions }
        requires few { self.old.core.limits.partitions ≤ 64 }
        requires counts { (S.state shelf.old).failures + 1 < 2 ^ 64 }
        ensures keeps { let own = meaning P.program C.combining M.master P.Value.PartialEq.eq P.Message.PartialEq.eq
            P.Value.is_value P.Value.coding P.Message.is_value P.Message.coding in
            OnOk result (GoesOn own (S.state shelf.old) self.old (S.state shelf.new) self.new) }
        ensures limits { OnOk result (self.new.core.limits ≡ self.old.core.limits) }
        ensures losses { OnOk result (self.new.losses ≡ self.old.losses) }
        ensures fault { IfErr result IsOfShelf }
        ensures counted { IsCounted (S.state shelf.old) (is_failure result) (S.state shelf.new) }
    {
        if !self.core.is_here(partition) || !self.core.state().may_save(partition) {
            return Ok(());
        }
        self.put(alloc, shelf, partition)?;
        self.core.saved(partition)?;
        Ok(())
    }

    /// Puts the part of a partition that is here on the shelf.
    fn put<S: Shelf>(
        &self,
        alloc: Global,
        shelf: &mut S,
        partition: PartitionId,
    ) -> Result<(), ShelfFault>
        requires here { IsSome (part_at partition self.now.core) }
        requires counts { (S.state shelf.old).failures + 1 < 2 ^ 64 }
        ensures { (part : PartState P.Value P.Message)
            × HasPut P.Value.is_value P.Value.coding P.Message.is_value P.Message.coding
            self.now.core partition part (S.state shelf.old) result (S.state shelf.new) }
    {
        let run = self.core.run();
        let part = self.core.part(partition);
        save(alloc, shelf, part, run)
    }
}

/// Whether partitions are saved before a superstep, where that is done every so many; never where that is 0.
fn is_due(superstep: u32, every: u32) -> bool {
    superstep.checked_rem(every) == Some(0)
}
