//! What is done about workers that fell.
ghost use Rattle.std.specs.Prelude.{◌≡◌, ◌≤◌, ◌<◌, ◌+◌, ◌^◌, ◌∷◌, ℕ, [], false, length, List, Some, IfErr};
ghost use Rattle.std.specs.Prelude.{IfOk, IfSome, OnOk};
ghost use Rattle.pg_checkpoint.specs.Shelf.{IsCounted, ShelfState};
ghost use Rattle.pg_core.specs.Losing.{IsOf, place_found};
ghost use Rattle.pg_core.specs.Progress.{Progress};
ghost use Rattle.pg_core.specs.Handed.{is_alive, saved_at};
ghost use Rattle.pg_workers.specs.Losses.{Fated};
ghost use Rattle.pg_workers.specs.Meaning.{meaning};
ghost use Rattle.pg_workers.specs.Recovering.{AreFalls, IsFoundRight, LosesOn};
ghost use Rattle.pg_workers.specs.Refused.{IsOfShelf, MayRefuse, is_failure};
ghost use Rattle.pg_workers.specs.Running.{GoesOn, GoesOnAnywhere, IsRunning};

use crate::coordinator::Coordinator;
use crate::{Loss, RefreshFault};
use pg_checkpoint::{Loaded, Shelf, load};
use pg_global::{MasterCompute, MessageCombiner};
use pg_graph::{Memory, PartitionId, Superstep, WorkerId};
use pg_program::{Computation, Plain};
use pg_workers_rounds::{Part, Partitioner};
use std::alloc::Global;
use std::mem;

impl<'a, P: Computation, C: MessageCombiner<P::Message>, M: MasterCompute> Coordinator<
    'a,
    P,
    C,
    M,
> {
    /// Records the losses of a round, and has the partitions that are lost go on elsewhere. Refused where more workers
    /// fell than may, and else where none remains.
    pub(crate) fn recover<S: Shelf>(
        &mut self,
        alloc: Global,
        shelf: &mut S,
        fallen: Vec<Loss>,
    ) -> Result<(), RefreshFault>
        requires few { length self.old.losses ≤ self.old.core.limits.max_losses }
        requires counts { (S.state shelf.old).failures + 1 < 2 ^ 64 }
        ensures keeps { let own = meaning P.program C.combining M.master P.Value.PartialEq.eq P.Message.PartialEq.eq
            P.Value.is_value P.Value.coding P.Message.is_value P.Message.coding in
            OnOk result ((fated : Fated) (first : Progress P C M P.Value P.Message)
            → IsRunning own fated first (S.state shelf.old) self.old
            → AreFalls fated (length self.old.losses) self.old.core.state fallen.items
            → IsRunning own fated first (S.state shelf.new) self.new) }
        ensures few { OnOk result (length self.new.losses ≤ self.new.core.limits.max_losses) }
        ensures refused { let own = meaning P.program C.combining M.master P.Value.PartialEq.eq P.Message.PartialEq.eq
            P.Value.is_value P.Value.coding P.Message.is_value P.Message.coding in
            IfErr result (λ fault. (fated : Fated) (first : Progress P C M P.Value P.Message)
            → IsRunning own fated first (S.state shelf.old) self.old
            → AreFalls fated (length self.old.losses) self.old.core.state fallen.items
            → MayRefuse fated first.limits fault) }
        ensures counted { IsCounted (S.state shelf.old) (is_failure result) (S.state shelf.new) }
    {
        if fallen.is_empty() {
            return Ok(());
        }
        self.lose_all(fallen)?;
        if self.losses.len() > self.core.limits().max_losses() as usize {
            let losses = mem::replace(&mut self.losses, Vec::new(alloc));
            return Err(RefreshFault::TooManyLosses(losses));
        }
        let alive = self.alive(alloc)?;
        if alive.is_empty() {
            let losses = mem::replace(&mut self.losses, Vec::new(alloc));
            return Err(RefreshFault::NoWorkers(losses));
        }
        self.restore_all(alloc, shelf, alive.as_slice())
    }

    /// Records losses.
    fn lose_all(&mut self, fallen: Vec<Loss>) -> Result<(), Memory>
        ensures limits { OnOk result (self.new.core.limits ≡ self.old.core.limits) }
        ensures keeps { let own = meaning P.program C.combining M.master P.Value.PartialEq.eq P.Message.PartialEq.eq
            P.Value.is_value P.Value.coding P.Message.is_value P.Message.coding in
            OnOk result ((fated : Fated) (first : Progress P C M P.Value P.Message) (shelf : ShelfState)
            → IsRunning own fated first shelf self.old
            → AreFalls fated (length self.old.losses) self.old.core.state fallen.items
            → IsRunning own fated first shelf self.new) }
    {
        for loss in fallen {
            self.lose(loss)?;
        }
        Ok(())
    }

    /// Records a loss, of a worker that is alive.
    fn lose(&mut self, loss: Loss) -> Result<(), Memory>
        ensures limits { OnOk result (self.new.core.limits ≡ self.old.core.limits) }
        ensures keeps { let own = meaning P.program C.combining M.master P.Value.PartialEq.eq P.Message.PartialEq.eq
            P.Value.is_value P.Value.coding P.Message.is_value P.Message.coding in
            OnOk result ((fated : Fated) (first : Progress P C M P.Value P.Message) (shelf : ShelfState) (attempt : ℕ)
            (rest : List Loss)
            → LosesOn own fated first shelf attempt self.old (loss ∷ rest)
            → LosesOn own fated first shelf attempt self.new rest) }
    {
        if self.core.state().may_lose(loss.worker) {
            self.core.lose(loss.worker)?;
            self.losses.push(loss)?;
        }
        Ok(())
    }

    /// The workers that are alive, by rising number.
    fn alive(&self, alloc: Global) -> Result<Vec<WorkerId>, Memory>
        ensures { IfOk result (λ alive. alive.items ≡ [] → (w : ℕ)
            → w < self.now.core.limits.workers → is_alive w self.now.core.state ≡ false) }
    {
        let mut alive = Vec::new(alloc);
        for number in 0..self.core.limits().workers() {
            let worker = WorkerId::new(number);
            if self.core.state().is_alive(worker) {
                alive.push(worker)?;
            }
        }
        Ok(alive)
    }

    /// Has each partition that is lost go on at one of these workers.
    fn restore_all<S: Shelf>(
        &mut self,
        alloc: Global,
        shelf: &mut S,
        alive: &[WorkerId],
    ) -> Result<(), RefreshFault>
        requires some { 0 < length alive.now }
        requires counts { (S.state shelf.old).failures + 1 < 2 ^ 64 }
        ensures keeps { let own = meaning P.program C.combining M.master P.Value.PartialEq.eq P.Message.PartialEq.eq
            P.Value.is_value P.Value.coding P.Message.is_value P.Message.coding in
            OnOk result (GoesOn own (S.state shelf.old) self.old (S.state shelf.new) self.new) }
        ensures limits { OnOk result (self.new.core.limits ≡ self.old.core.limits) }
        ensures losses { OnOk result (self.new.losses ≡ self.old.losses) }
        ensures fault { IfErr result IsOfShelf }
        ensures counted { IsCounted (S.state shelf.old) (is_failure result) (S.state shelf.new) }
    {
        for number in 0..self.core.limits().partitions() {
            let partition = PartitionId::new(number);
            let worker = alive[number as usize % alive.len()];
            self.restore_at(alloc, shelf, partition, worker)?;
        }
        Ok(())
    }

    /// Where a partition is lost, has it go on at a worker, from what was saved of it, or else anew.
    fn restore_at<S: Shelf>(
        &mut self,
        alloc: Global,
        shelf: &mut S,
        partition: PartitionId,
        worker: WorkerId,
    ) -> Result<(), RefreshFault>
        requires inside { partition < self.old.core.limits.partitions }
        requires counts { (S.state shelf.old).failures + 1 < 2 ^ 64 }
        ensures keeps { let own = meaning P.program C.combining M.master P.Value.PartialEq.eq P.Message.PartialEq.eq
            P.Value.is_value P.Value.coding P.Message.is_value P.Message.coding in
            OnOk result (GoesOn own (S.state shelf.old) self.old (S.state shelf.new) self.new) }
        ensures limits { OnOk result (self.new.core.limits ≡ self.old.core.limits) }
        ensures losses { OnOk result (self.new.losses ≡ self.old.losses) }
        ensures fault { IfErr result IsOfShelf }
        ensures counted { IsCounted (S.state shelf.old) (is_failure result) (S.state shelf.new) }
    {
        if self.core.state().place(partition).is_some() {
            return Ok(());
        }
        self.host(partition, worker)?;
        let found = self.found(alloc, shelf, partition)?;
        self.restore(alloc, partition, found)?;
        Ok(())
    }

    /// A worker that is alive hosts a partition from now on.
    fn host(&mut self, partition: PartitionId, worker: WorkerId) -> Result<(), Memory>
        ensures keeps { let own = meaning P.program C.combining M.master P.Value.PartialEq.eq P.Message.PartialEq.eq
            P.Value.is_value P.Value.coding P.Message.is_value P.Message.coding in
            OnOk result (GoesOnAnywhere own self.old self.new) }
        ensures limits { OnOk result (self.new.core.limits ≡ self.old.core.limits) }
        ensures losses { OnOk result (self.new.losses ≡ self.old.losses) }
    {
        if self.core.state().may_host(partition, worker) {
            self.core.host(partition, worker)?;
        }
        Ok(())
    }

    /// A partition that is lost goes on from the part that was found, or else anew.
    fn restore(
        &mut self,
        alloc: Global,
        partition: PartitionId,
        found: Option<Part<P::Value, P::Message>>,
    ) -> Result<(), Memory>
        requires { IfSome found (IsOf self.old.core.limits.partitions partition) }
        ensures keeps { let own = meaning P.program C.combining M.master P.Value.PartialEq.eq P.Message.PartialEq.eq
            P.Value.is_value P.Value.coding P.Message.is_value P.Message.coding in
            OnOk result ((fated : Fated) (first : Progress P C M P.Value P.Message) (shelf : ShelfState)
            → IsRunning own fated first shelf self.old → IsFoundRight own first shelf self.old.core partition found
            → IsRunning own fated first shelf self.new) }
        ensures limits { OnOk result (self.new.core.limits ≡ self.old.core.limits) }
        ensures losses { OnOk result (self.new.losses ≡ self.old.losses) }
    {
        let place = place_of(&found);
        if self.core.state().may_restore(partition, place) {
            self.core.restore(alloc, partition, found)?;
        }
        Ok(())
    }

    /// The part of a partition that was saved in this run, if there is one and the shelf has it whole.
    fn found<S: Shelf>(
        &self,
        alloc: Global,
        shelf: &mut S,
        partition: PartitionId,
    ) -> Result<Option<Part<P::Value, P::Message>>, RefreshFault>
        requires inside { partition < self.now.core.limits.partitions }
        requires counts { (S.state shelf.old).failures + 1 < 2 ^ 64 }
        ensures own { IfOk result (λ found. IfSome found (IsOf self.now.core.limits.partitions partition)) }
        ensures right { let own = meaning P.program C.combining M.master P.Value.PartialEq.eq P.Message.PartialEq.eq
            P.Value.is_value P.Value.coding P.Message.is_value P.Message.coding in
            IfOk result (λ found. (fated : Fated) (first : Progress P C M P.Value P.Message)
            → IsRunning own fated first (S.state shelf.old) self.now
            → IsFoundRight own first (S.state shelf.new) self.now.core partition found) }
        ensures keeps { let own = meaning P.program C.combining M.master P.Value.PartialEq.eq P.Message.PartialEq.eq
            P.Value.is_value P.Value.coding P.Message.is_value P.Message.coding in
            OnOk result (GoesOn own (S.state shelf.old) self.now (S.state shelf.new) self.now) }
        ensures fault { IfErr result IsOfShelf }
        ensures counted { IsCounted (S.state shelf.old) (is_failure result) (S.state shelf.new) }
    {
        match self.core.state().saved_place(partition) {
            Some(place) if place.number() > 0 => self.found_at(alloc, shelf, partition, place),
            _ => Ok(None),
        }
    }

    /// What its checkpoint of this superstep gives, at which it was saved last.
    fn found_at<S: Shelf>(
        &self,
        alloc: Global,
        shelf: &mut S,
        partition: PartitionId,
        place: Superstep,
    ) -> Result<Option<Part<P::Value, P::Message>>, RefreshFault>
        requires inside { partition < self.now.core.limits.partitions }
        requires saved { saved_at partition self.now.core.state ≡ Some place }
        requires later { 0 < place }
        requires counts { (S.state shelf.old).failures + 1 < 2 ^ 64 }
        ensures own { IfOk result (λ found. IfSome found (IsOf self.now.core.limits.partitions partition)) }
        ensures right { let own = meaning P.program C.combining M.master P.Value.PartialEq.eq P.Message.PartialEq.eq
            P.Value.is_value P.Value.coding P.Message.is_value P.Message.coding in
            IfOk result (λ found. (fated : Fated) (first : Progress P C M P.Value P.Message)
            → IsRunning own fated first (S.state shelf.old) self.now
            → IsFoundRight own first (S.state shelf.new) self.now.core partition found) }
        ensures keeps { let own = meaning P.program C.combining M.master P.Value.PartialEq.eq P.Message.PartialEq.eq
            P.Value.is_value P.Value.coding P.Message.is_value P.Message.coding in
            OnOk result (GoesOn own (S.state shelf.old) self.now (S.state shelf.new) self.now) }
        ensures fault { IfErr result IsOfShelf }
        ensures counted { IsCounted (S.state shelf.old) (is_failure result) (S.state shelf.new) }
    {
        let core = &self.core;
        let partitioner = Partitioner::new(core.limits().partitions()).unwrap();
        let loaded = load(
            alloc,
            shelf,
            core.run(),
            partitioner.rows(core.graph(), partition),
            core.limits().missing(),
            core.registry(),
            core.program(),
        )?;
        match loaded {
            Loaded::Found(part) if part.place() == place => Ok(Some(part)),
            _ => Ok(None),
        }
    }
}

/// The superstep at which a part stands that was found, or else the first.
fn place_of<V: Plain, M: Plain>(found: &Option<Part<V, M>>) -> Superstep
    ensures { result ≡ place_found found.now }
{
    match found {
        Some(part) => part.place(),
        None => Superstep::new(0),
    }
}
