//! What a service keeps of its last run, for the next one.
ghost use Rattle.std.specs.Prelude.{◌≡◌, ◌≤◌, ◌++◌, ℕ, List, [], length, Ok, IfErr, IfSome, OnOk, OnErr, option_map};
ghost use Rattle.pg_graph.specs.Edit.{batch_edited, batch_limit};
ghost use Rattle.pg_graph.specs.Handed.{source_of};
ghost use Rattle.pg_graph.specs.Rows.{Rows};
ghost use Rattle.pg_model.specs.Job.{Job};
ghost use Rattle.pg_service.specs.Kept.{IsKept, sources};

use pg_graph::{Batch, Edit, Memory, VertexId};
use pg_program::Plain;
use pg_workers::Traces;
use std::alloc::Global;
use std::marker::Model;

/// No batch has more edits.
const BATCH_LIMIT: usize = 100_000;

/// What a run retained, and ids outside of which the graph as it stands has the rows of the run's.
#[derive(Drop)]
pub(crate) struct KeptRun<V, M: Plain> {
    pub(crate) traces: Traces<V, M>,
    pub(crate) touched: Vec<VertexId>,
}

impl<V, M: Plain> Model for KeptRun<V, M> {
    ghost use Rattle.pg_service.specs.Kept.{KeptRun};

    ghost Value = { KeptRun V M };

    ghost view = { λ k. record { traces = k.traces; touched = k.touched.items } };
}

impl<V, M: Plain> KeptRun<V, M> {
    /// What was retained of a run on the graph as it stands.
    pub(crate) fn new(alloc: Global, traces: Traces<V, M>) -> KeptRun<V, M>
        ensures { result ≡ record { traces = traces; touched = [] } }
    {
        KeptRun {
            traces,
            touched: Vec::new(alloc),
        }
    }
}

/// Notes what a batch may change of the graph against the one of the run that is kept, if one is, before it is applied.
/// A batch that is too long changes nothing, and costs nothing here.
pub(crate) fn mark_touched<V, M: Plain>(
    kept: &mut Option<KeptRun<V, M>>,
    batch: &Batch,
) -> Result<(), Memory>
    ensures graph { option_map (λ k. k.traces.graph) kept.new ≡ option_map (λ k. k.traces.graph) kept.old }
    ensures before { (job : Job V M) (n : ℕ) (graph : Rows)
        → IfSome kept.old (IsKept job n graph) → IfSome kept.new (IsKept job n graph) }
    ensures after { OnOk result ((job : Job V M) (n : ℕ) (graph made : Rows)
        → batch_edited graph batch.now ≡ Ok made
        → IfSome kept.old (IsKept job n graph) → IfSome kept.new (IsKept job n made)) }
    ensures short { IfErr result (λ _. length batch.now ≤ batch_limit) }
{
    let edits = batch.as_slice();
    if edits.len() > BATCH_LIMIT {
        return Ok(());
    }
    match kept {
        Some(run) => add_sources(&mut run.touched, edits),
        None => Ok(()),
    }
}

/// Adds the vertices whose rows these edits change. Where memory is refused some of them may be added.
fn add_sources(ids: &mut Vec<VertexId>, edits: &[Edit]) -> Result<(), Memory>
    ensures ok { OnOk result (ids.new.items ≡ ids.old.items ++ sources edits.now) }
    ensures err { OnErr result ((rest : List ℕ) × (ids.new.items ≡ ids.old.items ++ rest)) }
{
    for edit in edits {
        ids.push(source_of(*edit))?;
    }
    Ok(())
}

/// The vertex whose row an edit changes.
fn source_of(edit: Edit) -> VertexId
    ensures { result ≡ source_of edit }
{
    match edit {
        Edit::AddVertex(id, _) => id,
        Edit::RemoveVertex(id) => id,
        Edit::SetInput(id, _) => id,
        Edit::AddEdge(source, _, _) => source,
        Edit::SetEdge(source, _, _) => source,
        Edit::RemoveEdge(source, _) => source,
    }
}
