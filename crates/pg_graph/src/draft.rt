//! Edits of a graph, gathered in rows of their own.
ghost use Rattle.std.specs.Prelude.{◌≡◌, ◌≤◌, ◌⊎◌, length, is_some, Some, None, Ok, IfOk, IfErr};
ghost use Rattle.std.specs.BTreeMap.{is_at};
ghost use Rattle.std.specs.Map.{remove_entry};
ghost use Rattle.std.specs.Ordering.{nat_cmp};
ghost use Rattle.pg_graph.specs.RowChanges.{changed_row_at};

use crate::entries::put;
use crate::{Batch, Edit, EditFault, EditKind, Graph, Memory, Row, VertexId};
use pg_graph_rows::DraftRow;
use std::alloc::Global;
use std::collections::BTreeMap;
use std::marker::Model;

/// No graph has more vertices.
pub(crate) const VERTEX_LIMIT: u64 = 1 << 20;

/// No graph has more edges.
pub(crate) const EDGE_LIMIT: u64 = 1 << 24;

/// No batch has more edits.
pub(crate) const BATCH_LIMIT: usize = 100_000;

/// What becomes of vertices, by rising id: a row, or none where a vertex is removed. It says how many
/// edges the graph has then.
#[derive(Drop)]
pub(crate) struct RowChanges {
    pub(crate) rows: Vec<(VertexId, Option<Row>)>,
    pub(crate) edges: u64,
}

/// A graph with edits that aren't made of it yet. Each costs O(log(n + k)) for n vertices and k changed
/// ones, and O(log d) where it edits one of d edges. In addition all edits of the edges of one vertex
/// cost O(d log d) together. A contract sees the graph, and what the edits have made of it.
#[derive(Drop)]
pub(crate) struct Draft<'a> {
    graph: &'a Graph,
    changes: BTreeMap<VertexId, Option<DraftRow>>,
    vertices: u64,
    edges: u64,
}

impl<'a> Model for Draft<'a> {
    ghost use Rattle.pg_graph.specs.Rows.{Rows};

    ghost Value = { Rows × Rows };

    ghost use Rattle.pg_graph.specs.Draft.{rows_in, IsSound};

    ghost view = { λ d. (d.graph.now, rows_in d) };

    ghost invariant = { IsSound };
}

impl<'a> Draft<'a> {
    ghost use Rattle.pg_graph.specs.Draft.{BecomesBy, Makes, RefusesEdit};
    ghost use Rattle.pg_graph.specs.Edit.{batch_edited, batch_limit, RefusesBatch};
    ghost use Rattle.pg_graph.specs.Rows.{row_at};

    /// A graph with no edits.
    pub(crate) fn new(alloc: Global, graph: &'a Graph) -> Draft<'a>
        ensures { result ≡ (graph.now, graph.now) }
    {
        Draft {
            graph,
            changes: BTreeMap::new(alloc),
            vertices: graph.vertices(),
            edges: graph.edges(),
        }
    }

    /// A graph with all edits of a batch.
    pub(crate) fn of(alloc: Global, graph: &'a Graph, batch: &Batch) -> Result<Draft<'a>, EditFault>
        requires { length batch.now ≤ batch_limit }
        ensures ok { IfOk result (λ draft. (draft.0 ≡ graph.now) × (batch_edited graph.now batch.now ≡ Ok draft.1)) }
        ensures err { IfErr result (RefusesBatch graph.now batch.now) }
    {
        let edits = batch.as_slice();
        let mut draft = Draft::new(alloc, graph);
        let mut position = 1;
        for edit in edits {
            draft = match draft.edited(alloc, *edit) {
                Ok(edited) => edited,
                Err(kind) => return Err(EditFault::at(position, kind)),
            };
            position += 1;
        }
        Ok(draft)
    }

    /// What becomes of the vertices that were changed, with edges as a graph holds them.
    pub(crate) fn into_changes(self, alloc: Global) -> Result<RowChanges, Memory>
        ensures { IfOk result (Makes self.entry.0 self.entry.1) }
    {
        let mut changes = Vec::with_capacity(alloc, self.changes.len())?;
        for (id, change) in self.changes {
            changes.push((id, finished(alloc, change)?))?;
        }
        Ok(RowChanges {
            rows: changes,
            edges: self.edges,
        })
    }

    /// The draft with one more edit.
    pub(crate) fn edited(self, alloc: Global, edit: Edit) -> Result<Draft<'a>, EditKind>
        ensures ok { IfOk result (BecomesBy edit self.entry) }
        ensures err { IfErr result (RefusesEdit edit self.entry) }
    {
        match edit {
            Edit::AddVertex(id, input) => self.add_vertex(id, input),
            Edit::RemoveVertex(id) => self.remove_vertex(id),
            Edit::SetInput(id, input) => self.set_input(id, input),
            Edit::AddEdge(source, target, weight) => self.add_edge(alloc, source, target, weight),
            Edit::SetEdge(source, target, weight) => self.set_edge(alloc, source, target, weight),
            Edit::RemoveEdge(source, target) => self.remove_edge(alloc, source, target),
        }
    }

    fn add_vertex(mut self, id: VertexId, input: i64) -> Result<Draft<'a>, EditKind>
        ensures ok { IfOk result (BecomesBy (Edit.AddVertex id input) self.entry) }
        ensures err { IfErr result (RefusesEdit (Edit.AddVertex id input) self.entry) }
    {
        if self.has_vertex(id) {
            return Err(EditKind::VertexExists);
        }
        if self.vertices >= VERTEX_LIMIT {
            return Err(EditKind::Full);
        }
        put(&mut self.changes, id, Some(DraftRow::new(input, 1)))?;
        self.vertices += 1;
        Ok(self)
    }

    fn remove_vertex(mut self, id: VertexId) -> Result<Draft<'a>, EditKind>
        ensures ok { IfOk result (BecomesBy (Edit.RemoveVertex id) self.entry) }
        ensures err { IfErr result (RefusesEdit (Edit.RemoveVertex id) self.entry) }
    {
        let row = take_row(self.graph, &mut self.changes, id)?;
        put(&mut self.changes, id, None)?;
        self.vertices -= 1;
        self.edges -= row.degree();
        Ok(self)
    }

    fn set_input(mut self, id: VertexId, input: i64) -> Result<Draft<'a>, EditKind>
        ensures ok { IfOk result (BecomesBy (Edit.SetInput id input) self.entry) }
        ensures err { IfErr result (RefusesEdit (Edit.SetInput id input) self.entry) }
    {
        let mut row = take_row(self.graph, &mut self.changes, id)?;
        row.set_input(input);
        put(&mut self.changes, id, Some(row))?;
        Ok(self)
    }

    fn add_edge(
        mut self,
        alloc: Global,
        source: VertexId,
        target: VertexId,
        weight: i64,
    ) -> Result<Draft<'a>, EditKind>
        ensures ok { IfOk result (BecomesBy (Edit.AddEdge source target weight) self.entry) }
        ensures err { IfErr result (RefusesEdit (Edit.AddEdge source target weight) self.entry) }
    {
        let mut row = take_row(self.graph, &mut self.changes, source)?;
        let there = row.put_edge(alloc, target, weight)?;
        if there {
            return Err(EditKind::EdgeExists);
        }
        if self.edges >= EDGE_LIMIT {
            return Err(EditKind::Full);
        }
        put(&mut self.changes, source, Some(row))?;
        self.edges += 1;
        Ok(self)
    }

    fn set_edge(
        mut self,
        alloc: Global,
        source: VertexId,
        target: VertexId,
        weight: i64,
    ) -> Result<Draft<'a>, EditKind>
        ensures ok { IfOk result (BecomesBy (Edit.SetEdge source target weight) self.entry) }
        ensures err { IfErr result (RefusesEdit (Edit.SetEdge source target weight) self.entry) }
    {
        let mut row = take_row(self.graph, &mut self.changes, source)?;
        let there = row.put_edge(alloc, target, weight)?;
        if !there {
            return Err(EditKind::NoEdge);
        }
        put(&mut self.changes, source, Some(row))?;
        Ok(self)
    }

    fn remove_edge(
        mut self,
        alloc: Global,
        source: VertexId,
        target: VertexId,
    ) -> Result<Draft<'a>, EditKind>
        ensures ok { IfOk result (BecomesBy (Edit.RemoveEdge source target) self.entry) }
        ensures err { IfErr result (RefusesEdit (Edit.RemoveEdge source target) self.entry) }
    {
        let mut row = take_row(self.graph, &mut self.changes, source)?;
        let there = row.remove_edge(alloc, target)?;
        if !there {
            return Err(EditKind::NoEdge);
        }
        put(&mut self.changes, source, Some(row))?;
        self.edges -= 1;
        Ok(self)
    }

    /// Whether there is a vertex.
    fn has_vertex(&self, id: VertexId) -> bool
        ensures { result ≡ is_some (row_at id self.now.1) }
    {
        match self.changes.get(&id) {
            Some(change) => change.is_some(),
            None => self.graph.row(id).is_some(),
        }
    }
}

/// Takes the row of a vertex out of the changes of a graph, or copies it from the graph where it
/// isn't changed.
fn take_row(
    graph: &Graph,
    changes: &mut BTreeMap<VertexId, Option<DraftRow>>,
    id: VertexId,
) -> Result<DraftRow, EditKind>
    ensures row { IfOk result (λ row. changed_row_at id changes.old.entries graph.now ≡ Some row) }
    ensures taken { changes.new.entries ≡ remove_entry (is_at (nat_cmp id)) changes.old.entries }
    ensures err { IfErr result
        (λ kind. (kind ≡ EditKind.Memory)
        ⊎ ((kind ≡ EditKind.NoVertex) × (changed_row_at id changes.old.entries graph.now ≡ None))) }
{
    match changes.remove(&id) {
        Some(Some(row)) => Ok(row),
        Some(None) => Err(EditKind::NoVertex),
        None => match graph.row(id) {
            Some(row) => Ok(DraftRow::of(row, 1)?),
            None => Err(EditKind::NoVertex),
        },
    }
}

/// What becomes of a vertex, with edges as a graph holds them.
fn finished(alloc: Global, change: Option<DraftRow>) -> Result<Option<Row>, Memory>
    ensures { IfOk result (λ finished. finished ≡ change) }
{
    match change {
        Some(row) => Ok(Some(row.into_row(alloc)?)),
        None => Ok(None),
    }
}
