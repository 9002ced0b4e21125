//! A batch of edits, made of a graph at once.
ghost use Rattle.std.specs.Prelude.{◌≡◌, ◌⊎◌, ◌<◌, ◌≤◌, length, Ok, Err, IfOk, IfErr, IsTrue, OnOk, OnErr};
ghost use Rattle.pg_graph.specs.Edit.{batch_edited, batch_limit, too_long_fault, RefusesBatch};
ghost use Rattle.pg_graph_rows.specs.EditFault.{memory_fault};
ghost use Rattle.pg_graph.specs.RowEdit.{AreRowsMade, HasRoom, IsEarliestFault, edges_added, vertices_added};
ghost use Rattle.pg_graph.specs.Rows.{HasRisingIds, edge_count, vertex_count};
ghost use Rattle.pg_graph.specs.Draft.{Makes};
ghost use Rattle.pg_map.specs.Entries.{with_changes};

use super::Graph;
use crate::draft::{BATCH_LIMIT, Draft, EDGE_LIMIT, RowChanges, VERTEX_LIMIT};
use crate::grouped::{ROUNDS, changes_by_vertex};
use crate::{Batch, Edit, EditFault, EditKind, Memory};
use std::alloc::Global;

impl Graph {
    /// Makes all edits of a batch, in their order, or none. The first edit that has no result
    /// decides which fault is answered; a batch of more than 100,000 edits is refused first.
    ///
    /// With k edits of a graph of n vertices it takes O(n / 128 + k log(n + k)), and O(d log d) for
    /// each vertex that is edited, where d is how many edges it has or gets. Other edges stay as they are,
    /// but once twice as many rows have been changed as there are since `compact` last went over all: then it does
    /// so again, and may copy their edges.
    /// The edits are made of one vertex after another, unless those that add could meet a limit.
    pub fn apply(&mut self, alloc: Global, batch: &Batch) -> Result<(), EditFault>
        ensures ok { OnOk result (batch_edited self.old batch.now ≡ Ok self.new) }
        ensures refused { IfErr result (RefusesBatch self.old batch.now) }
        ensures too_long { batch_limit < length batch.now → result ≡ Err too_long_fault }
        ensures rows { OnOk result (
            HasRoom (vertex_count self.old) (edge_count self.old) (vertices_added batch.now) (edges_added batch.now)
            → AreRowsMade self.old batch.now self.new) }
        ensures first { IfErr result (λ fault.
            HasRoom (vertex_count self.old) (edge_count self.old) (vertices_added batch.now) (edges_added batch.now)
            → length batch.now ≤ batch_limit → (fault ≡ memory_fault) ⊎ IsEarliestFault self.old batch.now fault) }
        ensures position { IfErr result (λ fault. fault.position ≤ length batch.now) }
        ensures err { OnErr result (self.new ≡ self.old) }
    {
        let edits = batch.as_slice();
        if edits.len() > BATCH_LIMIT {
            return Err(EditFault::at(BATCH_LIMIT as u64 + 1, EditKind::BatchTooLong));
        }
        let changes = if self.has_room(edits) {
            changes_by_vertex(alloc, self, batch)?
        } else {
            changes_in_order(alloc, self, batch)?
        };
        self.change(alloc, changes)?;
        Ok(())
    }

    /// Whether edits can't meet a limit: those that add vertices, and those that add edges. Costs a look at each.
    fn has_room(&self, edits: &[Edit]) -> bool
        requires { length edits.now ≤ batch_limit }
        ensures room { IsTrue result
            → HasRoom (vertex_count self.now) (edge_count self.now) (vertices_added edits.now) (edges_added edits.now) }
        ensures full { HasRoom (vertex_count self.now) (edge_count self.now) (vertices_added edits.now)
            (edges_added edits.now)
            → IsTrue result }
        ensures rising { HasRisingIds self.now }
    {
        let (vertices, edges) = added_by(edits);
        vertices <= VERTEX_LIMIT - self.vertices() && edges <= EDGE_LIMIT - self.edges()
    }

    /// Makes all changes, or none where a growth is refused.
    fn change(&mut self, alloc: Global, changes: RowChanges) -> Result<(), Memory>
        requires { Makes self.old (with_changes changes.rows.items self.old) changes }
        ensures ok { OnOk result (self.new ≡ with_changes changes.rows.items self.old) }
        ensures err { OnErr result (self.new ≡ self.old) }
    {
        let RowChanges { rows, edges } = changes;
        let changed = rows.len() as u64;
        self.rows.change_own(alloc, rows)?;
        self.total_edges = edges;
        self.rows_since_compaction = self.rows_since_compaction.saturating_add(changed);
        if self.rows_since_compaction / ROUNDS >= self.vertices() {
            self.compact(alloc);
        }
        Ok(())
    }
}

/// How many edits add a vertex, and how many an edge.
fn added_by(edits: &[Edit]) -> (u64, u64)
    requires { length edits.now ≤ batch_limit }
    ensures { result ≡ (vertices_added edits.now, edges_added edits.now) }
{
    let mut vertices = 0;
    let mut edges = 0;
    for edit in edits {
        match edit {
            Edit::AddVertex(_, _) => vertices += 1,
            Edit::AddEdge(_, _, _) => edges += 1,
            _ => {}
        }
    }
    (vertices, edges)
}

/// What a batch changes, or the first of its edits that has no result, found edit by edit.
fn changes_in_order(alloc: Global, graph: &Graph, batch: &Batch) -> Result<RowChanges, EditFault>
    requires { length batch.now ≤ batch_limit }
    ensures ok { IfOk result (λ changes. Makes graph.now (with_changes changes.rows.items graph.now) changes) }
    ensures made { IfOk result
        (λ changes. batch_edited graph.now batch.now ≡ Ok (with_changes changes.rows.items graph.now)) }
    ensures err { IfErr result (RefusesBatch graph.now batch.now) }
{
    let draft = Draft::of(alloc, graph, batch)?;
    let changes = draft.into_changes(alloc)?;
    Ok(changes)
}
