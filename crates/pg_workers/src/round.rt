//! One round of a run on workers.
ghost use Rattle.std.specs.Prelude.{◌≡◌, ◌≤◌, ◌<◌, ◌+◌, ◌^◌, ℕ, true, length, All, IfErr, IfOk, OnOk, Option};
ghost use Rattle.pg_checkpoint.specs.Shelf.{IsCounted, ShelfState};
ghost use Rattle.pg_core.specs.Progress.{IsNext, IsRight, Progress};
ghost use Rattle.pg_graph.specs.Rows.{Rows};
ghost use Rattle.pg_core.specs.Handed.{is_allowed};
ghost use Rattle.pg_workers.specs.Losses.{Fated, Trusts};
ghost use Rattle.pg_workers.specs.Meaning.{job_of_meaning, meaning};
ghost use Rattle.pg_workers.specs.Refused.{is_failure};
ghost use Rattle.pg_workers.specs.Rounds.{AreAssigned, AreNext, AreRecorded, AreReturned, AreStepsRight, IsStepRight};
ghost use Rattle.pg_workers.specs.Running.{Happens, IsRunning, Keeps, MayEnd};
ghost use Rattle.pg_workers_rounds.specs.Work.{AreAt};

use crate::RefreshFault;
use crate::assigning::{assign, is_little, step_input};
use crate::coordinator::Coordinator;
use crate::outcomes::{RoundResult, collected, taken};
use pg_checkpoint::Shelf;
use pg_core::Event;
use pg_global::{MasterCompute, MessageCombiner};
use pg_graph::{Memory, PartitionId, Superstep};
use pg_program::Computation;
use pg_workers_rounds::{Assignment, Done, Fate, Gate, Outcome, in_threads, in_turn};
use std::alloc::Global;
use std::thread::Threads;

impl<'a, P: Computation, C: MessageCombiner<P::Message>, M: MasterCompute> Coordinator<
    'a,
    P,
    C,
    M,
> {
    /// One round: the parts that are ready at a superstep are stepped by their workers, the steps that are given back
    /// are recorded by rising partition, and then the losses by rising worker, and what is lost is recovered.
    pub(crate) fn round<R: Threads + Sync, S: Shelf, F: Fate, G: Gate>(
        &mut self,
        rt: &R,
        alloc: Global,
        superstep: Superstep,
        shelf: &mut S,
        fate: &F,
        gate: &G,
    ) -> Result<(), RefreshFault>
        requires reached { superstep ≤ self.old.core.state.current }
        requires few { length self.old.losses ≤ self.old.core.limits.max_losses }
        requires counts { (S.state shelf.old).failures + 1 < 2 ^ 64 }
        ensures keeps { let own = meaning P.program C.combining M.master P.Value.PartialEq.eq P.Message.PartialEq.eq
            P.Value.is_value P.Value.coding P.Message.is_value P.Message.coding in
            OnOk result (Keeps own (F.fated fate.now) (S.state shelf.old) self.old (S.state shelf.new) self.new) }
        ensures few { OnOk result (length self.new.losses ≤ self.new.core.limits.max_losses) }
        ensures refused { let own = meaning P.program C.combining M.master P.Value.PartialEq.eq P.Message.PartialEq.eq
            P.Value.is_value P.Value.coding P.Message.is_value P.Message.coding in
            IfErr result (MayEnd own (F.fated fate.now) (S.state shelf.old) self.old) }
        ensures counted { IsCounted (S.state shelf.old) (is_failure result) (S.state shelf.new) }
    {
        let partitions = self.core.limits().partitions();
        let assignments = assign(alloc, &mut self.core, superstep)?;
        let outcomes = self.outcomes(rt, alloc, superstep, assignments, fate, gate)?;
        let RoundResult { steps, fallen } = collected(alloc, partitions, superstep, outcomes)?;
        self.take_in(alloc, steps)?;
        self.recover(alloc, shelf, fallen)
    }

    /// What the workers make of what they are assigned, in order: in threads, or one after another where there is
    /// little to do.
    fn outcomes<R: Threads + Sync, F: Fate, G: Gate>(
        &self,
        rt: &R,
        alloc: Global,
        superstep: Superstep,
        assignments: Vec<Assignment<P::Value, P::Message>>,
        fate: &F,
        gate: &G,
    ) -> Result<Vec<Outcome<P::Value, P::Message>>, Memory>
        requires reached { superstep ≤ self.now.core.state.current }
        requires few { length self.now.losses ≤ 16 }
        requires at { All (λ assignment. AreAt superstep assignment.parts.items) assignments.items }
        ensures { let own = meaning P.program C.combining M.master P.Value.PartialEq.eq P.Message.PartialEq.eq
            P.Value.is_value P.Value.coding P.Message.is_value P.Message.coding in
            IfOk result (λ outcomes. (before : Progress P C M P.Value P.Message) (below : ℕ)
            → AreAssigned own before superstep below self.now.core assignments.items
            → AreReturned own (F.fated fate.now) superstep (length self.now.losses) before outcomes.items) }
    {
        let (program, combiner) = (self.core.program(), self.core.combiner());
        let round = step_input(&self.core, superstep, self.losses.len() as u32);
        if is_little(&self.core, superstep, assignments.as_slice()) {
            in_turn(alloc, assignments, &round, program, combiner, fate, gate)
        } else {
            in_threads(
                rt,
                alloc,
                assignments,
                &round,
                program,
                combiner,
                fate,
                gate,
            )
        }
    }

    /// Records steps, by rising partition.
    fn take_in(
        &mut self,
        alloc: Global,
        steps: Vec<Option<Done<P::Value, P::Message>>>,
    ) -> Result<(), Memory>
        requires { AreNext self.old.core steps.items }
        ensures recorded { OnOk result (AreRecorded steps.items self.old.core.state self.new.core.state) }
        ensures limits { OnOk result (self.new.core.limits ≡ self.old.core.limits) }
        ensures losses { OnOk result (self.new.losses ≡ self.old.losses) }
        ensures keeps { let own = meaning P.program C.combining M.master P.Value.PartialEq.eq P.Message.PartialEq.eq
            P.Value.is_value P.Value.coding P.Message.is_value P.Message.coding in
            OnOk result ((fated : Fated) (first : Progress P C M P.Value P.Message) (shelf : ShelfState)
            → IsRunning own fated first shelf self.old
            → ((kept : Option Rows) → IsRight (job_of_meaning own first) kept first
            → Trusts shelf.is_honest self.old.core.history → AreStepsRight own kept self.old.core steps.items)
            → IsRunning own fated first shelf self.new) }
    {
        let mut steps = steps;
        for number in 0..self.core.limits().partitions() {
            let partition = PartitionId::new(number);
            if let Some(done) = taken(&mut steps, partition) {
                self.take_in_one(alloc, partition, done)?;
            }
        }
        Ok(())
    }

    /// Records a step of a partition.
    fn take_in_one(
        &mut self,
        alloc: Global,
        partition: PartitionId,
        done: Done<P::Value, P::Message>,
    ) -> Result<(), Memory>
        requires allowed { is_allowed self.old.core.state (Event.Step partition) ≡ true }
        requires next { IsNext self.old.core.limits.partitions self.old.core.state partition done.part }
        ensures happens { OnOk result (Happens (Event.Step partition) self.old.core self.new.core) }
        ensures losses { OnOk result (self.new.losses ≡ self.old.losses) }
        ensures keeps { let own = meaning P.program C.combining M.master P.Value.PartialEq.eq P.Message.PartialEq.eq
            P.Value.is_value P.Value.coding P.Message.is_value P.Message.coding in
            OnOk result ((fated : Fated) (first : Progress P C M P.Value P.Message) (shelf : ShelfState)
            → IsRunning own fated first shelf self.old
            → ((kept : Option Rows) → IsRight (job_of_meaning own first) kept first
            → Trusts shelf.is_honest self.old.core.history → IsStepRight own kept self.old.core partition done)
            → IsRunning own fated first shelf self.new) }
    {
        let Done { part, sent, calls } = done;
        self.core.stepped(alloc, partition, part, sent)?;
        self.calls = self.calls.saturating_add(calls);
        Ok(())
    }
}
