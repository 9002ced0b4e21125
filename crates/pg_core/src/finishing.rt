//! What a run over partitions gives once it has ended.
ghost use Rattle.std.specs.Prelude.{◌≡◌, ℕ, ◌+◌, ◌<◌, true, cond, length, Option, None, IsSome, IfOk, option_map};
ghost use Rattle.std.specs.Prelude.{slice_index_or};
ghost use Rattle.std.specs.List.{list_all};
ghost use Rattle.pg_core_values.specs.Values.{is_warm};
ghost use Rattle.pg_core.specs.Closing.{AreGiven, IsFinished, answer_with};
ghost use Rattle.pg_core.specs.Progress.{IsRight, job_of_core};
ghost use Rattle.pg_core.specs.Traces.{HaveRetained, ended_by};
ghost use Rattle.pg_graph.specs.Rows.{Rows};
ghost use Rattle.pg_model.specs.Run.{configuration, values_of};

use crate::running::partitioner_of;
use crate::traces::{RetainedRun, ended_of};
use crate::{Core, DeferredDrop, RunTotals, Traces};
use pg_core_values::{Ended, Values, values_warm};
use pg_global::{MasterCompute, MessageCombiner};
use pg_graph::{Graph, Memory, Superstep, VertexId};
use pg_model::{Ending, Run, Sequence};
use pg_part::{DeferredPartDrop, Part, RetainedPart};
use pg_program::{Computation, Plain};
use std::alloc::Global;

/// The answer of a run, what it leaves, and what it has no more use for.
pub type Finished<V, M> = (Run<V>, Traces<V, M>, DeferredDrop<V, M>);

impl<'a, P: Computation, C: MessageCombiner<P::Message>, M: MasterCompute> Core<'a, P, C, M> {
    /// The answer of a run that has ended, with an aggregate for each of the master's registrations, all that the run
    /// leaves for a warm one, and what isn't needed any more.
    ///
    /// Costs a copy of the vertices' values, a look-up for each vertex that may have ended otherwise than in the kept
    /// run, and what is cut where that was longer. In a cold run, and where a loss took a partition, it costs a sort of
    /// the vertices' ids and a look-up for each.
    pub fn finish(self, alloc: Global) -> Result<Finished<P::Value, P::Message>, Memory>
        requires { self.state.ended ≡ true }
        ensures each { IfOk result (λ done. length done.1.retained_parts ≡ self.entry.limits.partitions) }
        ensures places { IfOk result
            (λ done. length done.0.aggregates ≡ length (M.master self.entry.master).registrations) }
        ensures finished { let job = job_of_core P.program C.combining M.master self.entry in
            IfOk result (λ done. (kept : Option Rows) → IsRight job kept self.entry
            → IsFinished job self.entry done.0 done.1) }
    {
        let values = self.end_values(alloc)?;
        self.finish_with(alloc, values)
    }

    /// The values with which the vertices of a run that has ended did so.
    fn end_values(&self, alloc: Global) -> Result<Values<P::Value>, Memory>
        requires { self.now.state.ended ≡ true }
        ensures { let job = job_of_core P.program C.combining M.master self.now in
            IfOk result (λ values. (kept : Option Rows) → IsRight job kept self.now
            → values ≡ values_of job self.now.graph
            (configuration job self.now.graph (self.now.state.current + 1))) }
    {
        let missing = self.limits.missing();
        let parts = self.parts.as_slice();
        let ended = end_warm(&self.kept, parts);
        let supersteps = self.next_superstep();
        values_warm(
            alloc,
            partitioner_of(self.limits),
            missing,
            parts,
            ended,
            supersteps,
        )
    }
}

/// How the kept run ended, where each of these parts is warm. One that isn't tells nothing of what ended
/// otherwise.
fn end_warm<'k, V: Plain, M: Plain>(
    kept: &'k Option<RetainedRun<V, M>>,
    parts: &[Option<Part<V, M>>],
) -> Option<Ended<'k, V>>
    ensures { result ≡ cond (list_all is_warm parts.now) (option_map ended_by kept.now) None }
{
    if are_warm(parts) {
        ended_of(kept)
    } else {
        None
    }
}

/// Whether each of these parts is here, and warm.
fn are_warm<V: Plain, M: Plain>(parts: &[Option<Part<V, M>>]) -> bool
    ensures { result ≡ list_all is_warm parts.now }
{
    parts.iter().all(|part| match part {
        Some(part) => part.is_warm(),
        None => false,
    })
}

/// The answer of a run of so many supersteps on a graph, what it leaves, and what it has no more use for: it leaves
/// what its parts do, which stand at its end, and what all partitions have in common. What was counted, and why the run
/// ended, is in the answer.
pub(crate) fn finished<V: Plain, M: Plain>(
    alloc: Global,
    graph: &Graph,
    parts: Vec<Option<Part<V, M>>>,
    retained_run: RetainedRun<V, M>,
    run_totals: RunTotals,
    ending: Option<Ending>,
    supersteps: Superstep,
    kept: Option<RetainedRun<V, M>>,
) -> Result<Finished<V, M>, Memory>
    requires here { (p : ℕ) → p < length parts.items → IsSome (slice_index_or parts.items p None) }
    ensures { IfOk result (λ done. AreGiven graph.now parts.items retained_run run_totals ending supersteps done.0
        done.1) }
{
    let listed = retained_run.values.listed(alloc)?;
    let (retained_parts, deferred_drop) = retained_parts_of(alloc, parts, supersteps)?;
    let graph = graph.copy(alloc)?;
    let run = answer_of(listed, run_totals, ending, supersteps);
    let traces = Traces {
        retained_parts,
        graph,
        retained_run,
    };
    Ok((run, traces, DeferredDrop::of(deferred_drop, kept)))
}

/// The answer of a run of so many supersteps, with the values with which its vertices ended, what was counted, and why
/// it ended.
fn answer_of<V>(
    values: Sequence<(VertexId, V)>,
    run_totals: RunTotals,
    ending: Option<Ending>,
    supersteps: Superstep,
) -> Run<V>
    ensures { result ≡ answer_with values run_totals ending supersteps }
{
    Run {
        values,
        aggregates: run_totals.gathered,
        ending: ending.unwrap_or(Ending::LimitReached),
        supersteps: supersteps.number(),
        sent: run_totals.sent,
        dropped: run_totals.dropped,
    }
}

/// What all parts leave of a run of so many supersteps, at the end of which they stand, and what they have no more use
/// for.
fn retained_parts_of<V: Plain, M: Plain>(
    alloc: Global,
    parts: Vec<Option<Part<V, M>>>,
    supersteps: Superstep,
) -> Result<(Vec<RetainedPart<V, M>>, Vec<DeferredPartDrop<V, M>>), Memory>
    requires here { (p : ℕ) → p < length parts.items → IsSome (slice_index_or parts.items p None) }
    ensures each { IfOk result (λ r. length r.0.items ≡ length parts.items) }
    ensures retained { IfOk result (λ r. HaveRetained supersteps parts.items (length parts.items) r.0.items) }
{
    let mut retained_parts = Vec::with_capacity(alloc, parts.len())?;
    let mut deferred_drop = Vec::with_capacity(alloc, parts.len())?;
    for part in parts {
        let (retained, own) = part.unwrap().leave(alloc, supersteps)?;
        retained_parts.push(retained)?;
        deferred_drop.push(own)?;
    }
    Ok((retained_parts, deferred_drop))
}
