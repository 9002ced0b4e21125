//! What a whole run over partitions leaves, for a warm run after it.
ghost use Rattle.std.specs.Prelude.{◌≡◌, ◌≤◌, length, Some, IfSome, option_map};
ghost use Rattle.std.specs.Option.{option_copied};
ghost use Rattle.pg_core.specs.Traces.{ended_by, logs_in, visible_in};

use pg_core_values::{Ended, Values};
use pg_global::Visible;
use pg_graph::{Graph, Superstep};
use pg_inbox::Logs;
use pg_part::{DeferredPartDrop, RetainedPart};
use pg_program::Plain;
use std::marker::Model;

/// What all partitions of a whole run have in common: what they sent, what the master showed in each superstep, and the
/// values with which the vertices ended, by rising id.
pub(crate) struct RetainedRun<V, M: Plain> {
    pub(crate) logs: Logs<M>,
    pub(crate) shown: Vec<Visible>,
    pub(crate) values: Values<V>,
}

// By hand, so that it is let go by one call wherever that is, and not field by field.
impl<V: Drop, M: Plain> Drop for RetainedRun<V, M> {
    fn drop(self) {
        let RetainedRun {
            logs: _,
            shown: _,
            values: _,
        } = self;
    }
}

impl<V, M: Plain> Model for RetainedRun<V, M> {
    ghost use Rattle.std.specs.Prelude.{All, length, ◌≤◌};
    ghost use Rattle.pg_core.specs.Traces.{RetainedRun};

    ghost Value = { RetainedRun V M };

    ghost view = { λ k. record { logs = k.logs; shown = k.shown.items; values = k.values } };

    ghost invariant = { λ k. All (λ v. length v.values ≤ 16) k.shown.items };
}

impl<V, M: Plain> RetainedRun<V, M> {
    /// What was sent, for a step in a superstep that the run has.
    pub(crate) fn logs_in(&self, superstep: Superstep) -> Option<&Logs<M>>
        ensures { option_copied result ≡ logs_in superstep (Some self.now) }
    {
        if (superstep.number() as usize) < self.shown.len() {
            Some(&self.logs)
        } else {
            None
        }
    }

    /// What the master showed in a superstep that the run has.
    pub(crate) fn visible_in(&self, superstep: Superstep) -> Option<&Visible>
        ensures value { option_copied result ≡ visible_in superstep (Some self.now) }
        ensures few { IfSome (option_copied result) (λ v. length v.values ≤ 16) }
    {
        self.shown.get(superstep.number() as usize)
    }
}

/// How the kept run ended, if there is one.
pub(crate) fn ended_of<V, M: Plain>(kept: &Option<RetainedRun<V, M>>) -> Option<Ended<'_, V>>
    ensures { result ≡ option_map ended_by kept.now }
{
    match kept {
        Some(kept) => Some(Ended::new(&kept.values, kept.shown.len())),
        None => None,
    }
}

/// What a whole run leaves: what each partition leaves, the graph, what the partitions sent, what the master showed,
/// and the values with which the vertices ended. A run on another graph opens warm on it.
pub struct Traces<V, M: Plain> {
    pub(crate) retained_parts: Vec<RetainedPart<V, M>>,
    pub(crate) graph: Graph,
    pub(crate) retained_run: RetainedRun<V, M>,
}

// By hand, so that it is let go by one call wherever that is, and not field by field.
impl<V: Drop, M: Plain> Drop for Traces<V, M> {
    fn drop(self) {
        let Traces {
            retained_parts: _,
            graph: _,
            retained_run: _,
        } = self;
    }
}

impl<V, M: Plain> Model for Traces<V, M> {
    ghost use Rattle.pg_core.specs.Traces.{Traces};

    ghost Value = { Traces V M };

    ghost view = { λ t. record {
      retained_parts = t.retained_parts.items;
      graph = t.graph;
      retained_run = t.retained_run;
    } };
}

impl<V, M: Plain> Traces<V, M> {
    /// What each partition leaves, the graph, and what all have in common.
    pub(crate) fn into_parts(self) -> (Vec<RetainedPart<V, M>>, Graph, RetainedRun<V, M>)
        ensures retained_parts { result.0.items ≡ self.retained_parts }
        ensures graph { result.1 ≡ self.graph }
        ensures retained_run { result.2 ≡ self.retained_run }
    {
        let Traces {
            retained_parts,
            graph,
            retained_run,
        } = self;
        (retained_parts, graph, retained_run)
    }
}

/// What is dropped only once the answer is out: of the run against which it was made, what each partition recorded,
/// what the partitions sent, and the values with which it ended, as far as the two differ. It is kept
/// only to be freed at a time when no caller waits, which costs as much as it was to make what differs. A contract sees
/// nothing of it.
pub struct DeferredDrop<V, M: Plain> {
    parts: Vec<DeferredPartDrop<V, M>>,
    kept: Option<RetainedRun<V, M>>,
}

// By hand, so that it is let go by one call wherever that is, and not field by field.
impl<V: Drop, M: Plain> Drop for DeferredDrop<V, M> {
    fn drop(self) {
        let DeferredDrop { parts: _, kept: _ } = self;
    }
}

impl<V, M: Plain> Model for DeferredDrop<V, M> {
    ghost Value = { Unit {0} };

    ghost view = { λ _. tt };
}

impl<V, M: Plain> DeferredDrop<V, M> {
    /// What the partitions have no more use for, and what the run keeps of the one against which it was made.
    pub(crate) fn of(
        parts: Vec<DeferredPartDrop<V, M>>,
        kept: Option<RetainedRun<V, M>>,
    ) -> DeferredDrop<V, M> {
        DeferredDrop { parts, kept }
    }
}
