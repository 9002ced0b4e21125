//! A run that is driven to its end by workers.
ghost use Rattle.std.specs.Prelude.{◌≡◌, ◌≤◌, ◌<◌, ◌+◌, ◌^◌, [], true, false, length, map, IfErr, IfOk, OnOk};
ghost use Rattle.std.specs.Prelude.{Option};
ghost use Rattle.std.specs.List.{range_with_len};
ghost use Rattle.pg_checkpoint.specs.Shelf.{IsCounted, ShelfState};
ghost use Rattle.pg_core.specs.Progress.{IsRight, Progress};
ghost use Rattle.pg_graph.specs.Rows.{Rows};
ghost use Rattle.pg_core.specs.Handed.{is_allowed, is_step as step_test, steps_of};
ghost use Rattle.pg_workers.specs.Losses.{Fated};
ghost use Rattle.pg_workers.specs.Driven.{IsDriven, IsUnlost};
ghost use Rattle.pg_workers.specs.Meaning.{job_of_meaning, meaning};
ghost use Rattle.pg_workers.specs.Refused.{IsOfShelf, MayRefuse, is_failure};
ghost use Rattle.pg_workers.specs.Running.{GoesOn, IsRunning, Keeps, MayEnd};

use crate::coordinator::Coordinator;
use crate::{Counts, RefreshFault};
use pg_checkpoint::Shelf;
use pg_core::{Closed, Core, Event, Finished};
use pg_global::{MasterCompute, MessageCombiner};
use pg_graph::{Memory, PartitionId};
use pg_model::Sequence;
use pg_program::Computation;
use pg_workers_rounds::{Fate, Gate};
use std::alloc::Global;
use std::sync::Wait;
use std::thread::Threads;

/// Drives a run to its end by workers, in rounds: each worker steps its partitions that are ready, all workers at the
/// same time. A worker that falls stays away; its partitions go to the workers that remain, partition p to the one at
/// position p modulo their number, and go on from what was saved of them, or else from superstep 0. Where the run's
/// limits say so, each partition is saved after every so many supersteps.
///
/// # Errors
///
/// `Memory` where a growth was refused outside of a worker's steps, `Device` where the shelf's device failed,
/// `TooManyLosses` and else `NoWorkers` after a round in which workers fell. The run is gone then.
///
/// # Cost
///
/// That of the steps, of which those of different workers are made at the same time; for each round what threads cost,
/// unless so little is to be done that the caller's own thread does it; for each save a walk over the partition's
/// records so far; and for each loss what its partitions have to make again.
pub fn run_job<
    'a,
    R: Threads + Wait + Sync,
    P: Computation,
    C: MessageCombiner<P::Message>,
    M: MasterCompute,
    S: Shelf,
    F: Fate,
    G: Gate,
>(
    rt: &R,
    alloc: Global,
    core: Core<'a, P, C, M>,
    shelf: &mut S,
    fate: &F,
    gate: &G,
) -> Result<(Finished<P::Value, P::Message>, Counts), RefreshFault>
    requires begins { core.history ≡ [] }
    requires counts { (S.state shelf.old).failures + 1 < 2 ^ 64 }
    ensures driven { let own = meaning P.program C.combining M.master P.Value.PartialEq.eq P.Message.PartialEq.eq
        P.Value.is_value P.Value.coding P.Message.is_value P.Message.coding in
        IfOk result (λ done. IsDriven own (F.fated fate.now)
        (S.state shelf.old).is_honest core.entry done.0.0 done.0.1 done.1) }
    ensures unlost { let own = meaning P.program C.combining M.master P.Value.PartialEq.eq P.Message.PartialEq.eq
        P.Value.is_value P.Value.coding P.Message.is_value P.Message.coding in
        IfOk result (λ done. (kept : Option Rows) → IsRight (job_of_meaning own core.entry) kept core.entry
        → done.1.losses ≡ [] → IsUnlost own kept core.entry done.0.0 done.0.1 done.1) }
    ensures cold { IfOk result (λ done. core.entry.limits.workers ≡ 1 → done.1.losses ≡ []) }
    ensures refused { IfErr result (MayRefuse (F.fated fate.now) core.entry.limits) }
    ensures counted { IsCounted (S.state shelf.old) (is_failure result) (S.state shelf.new) }
{
    let mut coordinator = Coordinator::new(alloc, core);
    coordinator.drive(rt, alloc, shelf, fate, gate)?;
    Ok(coordinator.finish(alloc)?)
}

impl<'a, P: Computation, C: MessageCombiner<P::Message>, M: MasterCompute> Coordinator<
    'a,
    P,
    C,
    M,
> {
    /// Drives the run until it has ended.
    fn drive<R: Threads + Wait + Sync, S: Shelf, F: Fate, G: Gate>(
        &mut self,
        rt: &R,
        alloc: Global,
        shelf: &mut S,
        fate: &F,
        gate: &G,
    ) -> Result<(), RefreshFault>
        requires few { length self.old.losses ≤ self.old.core.limits.max_losses }
        requires counts { (S.state shelf.old).failures + 1 < 2 ^ 64 }
        ensures keeps { let own = meaning P.program C.combining M.master P.Value.PartialEq.eq P.Message.PartialEq.eq
            P.Value.is_value P.Value.coding P.Message.is_value P.Message.coding in
            OnOk result (Keeps own (F.fated fate.now) (S.state shelf.old) self.old (S.state shelf.new) self.new) }
        ensures few { OnOk result (length self.new.losses ≤ self.new.core.limits.max_losses) }
        ensures refused { let own = meaning P.program C.combining M.master P.Value.PartialEq.eq P.Message.PartialEq.eq
            P.Value.is_value P.Value.coding P.Message.is_value P.Message.coding in
            IfErr result (MayEnd own (F.fated fate.now) (S.state shelf.old) self.old) }
        ensures ended { OnOk result (self.new.core.state.ended ≡ true) }
        ensures counted { IsCounted (S.state shelf.old) (is_failure result) (S.state shelf.new) }
    {
        for _ in rt.forever() {
            if self.core.state().ended() {
                return Ok(());
            }
            self.turn(rt, alloc, shelf, fate, gate)?;
        }
        unreachable!()
    }

    /// Closes the open superstep, where that may be, and else makes a round.
    fn turn<R: Threads + Sync, S: Shelf, F: Fate, G: Gate>(
        &mut self,
        rt: &R,
        alloc: Global,
        shelf: &mut S,
        fate: &F,
        gate: &G,
    ) -> Result<(), RefreshFault>
        requires few { length self.old.losses ≤ self.old.core.limits.max_losses }
        requires counts { (S.state shelf.old).failures + 1 < 2 ^ 64 }
        ensures keeps { let own = meaning P.program C.combining M.master P.Value.PartialEq.eq P.Message.PartialEq.eq
            P.Value.is_value P.Value.coding P.Message.is_value P.Message.coding in
            OnOk result (Keeps own (F.fated fate.now) (S.state shelf.old) self.old (S.state shelf.new) self.new) }
        ensures few { OnOk result (length self.new.losses ≤ self.new.core.limits.max_losses) }
        ensures refused { let own = meaning P.program C.combining M.master P.Value.PartialEq.eq P.Message.PartialEq.eq
            P.Value.is_value P.Value.coding P.Message.is_value P.Message.coding in
            IfErr result (MayEnd own (F.fated fate.now) (S.state shelf.old) self.old) }
        ensures counted { IsCounted (S.state shelf.old) (is_failure result) (S.state shelf.new) }
    {
        if self.core.may_close() {
            return self.close(alloc, shelf);
        }
        match self.ready_place() {
            Some(superstep) => self.round(rt, alloc, superstep, shelf, fate, gate),
            None => Ok(()),
        }
    }

    /// Closes the open superstep, and saves the partitions where that is due as the next one opens.
    fn close<S: Shelf>(&mut self, alloc: Global, shelf: &mut S) -> Result<(), RefreshFault>
        requires allowed { is_allowed self.old.core.state (Event.Close Closed.Next) ≡ true }
        requires counts { (S.state shelf.old).failures + 1 < 2 ^ 64 }
        ensures keeps { let own = meaning P.program C.combining M.master P.Value.PartialEq.eq P.Message.PartialEq.eq
            P.Value.is_value P.Value.coding P.Message.is_value P.Message.coding in
            OnOk result (GoesOn own (S.state shelf.old) self.old (S.state shelf.new) self.new) }
        ensures limits { OnOk result (self.new.core.limits ≡ self.old.core.limits) }
        ensures losses { OnOk result (self.new.losses ≡ self.old.losses) }
        ensures fault { IfErr result IsOfShelf }
        ensures counted { IsCounted (S.state shelf.old) (is_failure result) (S.state shelf.new) }
    {
        match self.core.close(alloc)? {
            Closed::Ended => Ok(()),
            Closed::Next => self.save_all(alloc, shelf),
        }
    }

    /// What a run that has ended gives, and what was counted.
    fn finish(self, alloc: Global) -> Result<(Finished<P::Value, P::Message>, Counts), Memory>
        requires { self.core.state.ended ≡ true }
        ensures driven { let own = meaning P.program C.combining M.master P.Value.PartialEq.eq P.Message.PartialEq.eq
            P.Value.is_value P.Value.coding P.Message.is_value P.Message.coding in
            IfOk result (λ done. (fated : Fated) (first : Progress P C M P.Value P.Message) (shelf : ShelfState)
            → IsRunning own fated first shelf self.entry → length self.entry.losses ≤ first.limits.max_losses
            → IsDriven own fated shelf.is_honest first done.0.0 done.0.1 done.1) }
        ensures unlost { let own = meaning P.program C.combining M.master P.Value.PartialEq.eq P.Message.PartialEq.eq
            P.Value.is_value P.Value.coding P.Message.is_value P.Message.coding in
            IfOk result (λ done. (fated : Fated) (first : Progress P C M P.Value P.Message) (shelf : ShelfState)
            → IsRunning own fated first shelf self.entry → (kept : Option Rows)
            → IsRight (job_of_meaning own first) kept first
            → done.1.losses ≡ [] → IsUnlost own kept first done.0.0 done.0.1 done.1) }
        ensures cold { let own = meaning P.program C.combining M.master P.Value.PartialEq.eq P.Message.PartialEq.eq
            P.Value.is_value P.Value.coding P.Message.is_value P.Message.coding in
            IfOk result (λ done. (fated : Fated) (first : Progress P C M P.Value P.Message) (shelf : ShelfState)
            → IsRunning own fated first shelf self.entry → first.limits.workers ≡ 1 → done.1.losses ≡ []) }
    {
        let Coordinator {
            core,
            calls,
            losses,
        } = self;
        let steps = steps_made(alloc, core.history(), core.limits().partitions())?;
        let finished = core.finish(alloc)?;
        let counts = Counts {
            calls,
            steps,
            losses: Sequence::from_vec(losses),
        };
        Ok((finished, counts))
    }
}

/// How many steps each partition has made.
fn steps_made(alloc: Global, history: &[Event], partitions: u32) -> Result<Sequence<u64>, Memory>
    ensures { IfOk result (λ steps. steps ≡ map (λ p. steps_of p history.now) (range_with_len 0 partitions)) }
{
    let mut steps = Sequence::new(alloc);
    for number in 0..partitions {
        steps.push(steps_of(history, PartitionId::new(number)))?;
    }
    Ok(steps)
}

/// How many steps a partition has made.
fn steps_of(history: &[Event], partition: PartitionId) -> u64
    ensures { result ≡ steps_of partition history.now }
{
    history
        .iter()
        .filter(|event| is_step(**event, partition))
        .count() as u64
}

/// Whether an event is a step of a partition.
fn is_step(event: Event, partition: PartitionId) -> bool
    ensures { result ≡ step_test partition event }
{
    match event {
        Event::Step(stepped) => stepped == partition,
        _ => false,
    }
}
