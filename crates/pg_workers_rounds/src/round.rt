//! What a worker borrows for one round.
ghost use Rattle.std.specs.Prelude.{◌≡◌, ◌≤◌, length, IfSome};
ghost use Rattle.std.specs.Option.{option_copied};

use pg_global::{Registry, Visible};
use pg_graph::{Superstep, WorkerId};
use pg_inbox::Logs;
use pg_program::Plain;
use std::marker::Model;

/// What a worker borrows for one round: what was sent so far, and what is visible in the superstep at which its parts
/// stand; the same of the old run, where this has the superstep; the master's aggregators; that superstep, how many
/// losses were recorded before the round, and which worker it is.
#[derive(Drop)]
pub struct Round<'a, M: Plain> {
    logs: &'a Logs<M>,
    visible: &'a Visible,
    old_logs: Option<&'a Logs<M>>,
    old_visible: Option<&'a Visible>,
    registry: &'a Registry,
    superstep: Superstep,
    attempt: u32,
    worker: WorkerId,
}

impl<'a, M: Plain> Model for Round<'a, M> {
    ghost use Rattle.std.specs.Prelude.{◌≤◌, length, IfSome};
    ghost use Rattle.std.specs.Option.{option_copied};
    ghost use Rattle.pg_workers_rounds.specs.Round.{RoundOf};

    ghost Value = { RoundOf M };

    ghost view = { λ r. record {
      logs = r.logs.now;
      visible = r.visible.now;
      old_logs = option_copied r.old_logs;
      old_visible = option_copied r.old_visible;
      registry = r.registry.now;
      superstep = r.superstep;
      attempt = r.attempt;
      worker = r.worker;
    } };

    ghost invariant = { λ r. (length r.visible.now.values ≤ 16)
        × IfSome (option_copied r.old_visible) (λ v. length v.values ≤ 16) };
}

impl<'a, M: Plain> Round<'a, M> {
    /// A round of a worker that borrows just this.
    pub fn new(
        logs: &'a Logs<M>,
        visible: &'a Visible,
        old_logs: Option<&'a Logs<M>>,
        old_visible: Option<&'a Visible>,
        registry: &'a Registry,
        superstep: Superstep,
        attempt: u32,
        worker: WorkerId,
    ) -> Round<'a, M>
        requires few { length visible.now.values ≤ 16 }
        requires few_old { IfSome (option_copied old_visible) (λ v. length v.values ≤ 16) }
        ensures { result ≡ record {
          logs = logs.entry.now;
          visible = visible.entry.now;
          old_logs = option_copied old_logs.entry;
          old_visible = option_copied old_visible.entry;
          registry = registry.entry.now;
          superstep = superstep;
          attempt = attempt;
          worker = worker;
        } }
    {
        Round {
            logs,
            visible,
            old_logs,
            old_visible,
            registry,
            superstep,
            attempt,
            worker,
        }
    }

    /// The round of this worker.
    pub fn of(&self, worker: WorkerId) -> Round<'a, M>
        ensures { result ≡ record self.now { worker = worker } }
    {
        Round {
            logs: self.logs,
            visible: self.visible,
            old_logs: self.old_logs,
            old_visible: self.old_visible,
            registry: self.registry,
            superstep: self.superstep,
            attempt: self.attempt,
            worker,
        }
    }

    /// The superstep at which the worker's parts stand.
    pub fn superstep(&self) -> Superstep
        ensures { result ≡ self.now.superstep }
    {
        self.superstep
    }

    /// How many losses were recorded before the round.
    pub fn attempt(&self) -> u32
        ensures { result ≡ self.now.attempt }
    {
        self.attempt
    }

    /// The worker.
    pub fn worker(&self) -> WorkerId
        ensures { result ≡ self.now.worker }
    {
        self.worker
    }

    /// What was sent so far.
    pub fn logs(&self) -> &'a Logs<M>
        ensures { result.now ≡ self.now.logs }
    {
        self.logs
    }

    /// What is visible in the superstep.
    pub fn visible(&self) -> &'a Visible
        ensures value { result.now ≡ self.now.visible }
        ensures few { length result.now.values ≤ 16 }
    {
        self.visible
    }

    /// What was sent in the old run, where it has the superstep.
    pub fn old_logs(&self) -> Option<&'a Logs<M>>
        ensures { option_copied result ≡ self.now.old_logs }
    {
        self.old_logs
    }

    /// What was visible in the old run, where it has the superstep.
    pub fn old_visible(&self) -> Option<&'a Visible>
        ensures value { option_copied result ≡ self.now.old_visible }
        ensures few { IfSome (option_copied result) (λ v. length v.values ≤ 16) }
    {
        self.old_visible
    }

    /// The master's aggregators.
    pub fn registry(&self) -> &'a Registry
        ensures { result.now ≡ self.now.registry }
    {
        self.registry
    }
}
