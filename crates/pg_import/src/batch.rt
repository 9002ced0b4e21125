//! The batch of edits that brings the edges of a list into a graph.
ghost use Rattle.std.specs.Prelude.{◌≡◌, ◌∷◌, ◌++◌, [], true, not, IfOk, IsNone, OnOk};
ghost use Rattle.pg_graph.specs.Rows.{Rows};
ghost use Rattle.pg_import.specs.Batch.{Makes, batch_of, edge_edit, has_edge, has_vertex, vertex_edits, with_line_edge};
ghost use Rattle.pg_import.specs.Batch.{with_lines, with_vertex};
ghost use Rattle.pg_import.specs.Named.{Shows};

use crate::looked_up::{has_edge_to, is_there};
use crate::named_edges::NamedEdges;
use crate::order::Mentioned;
use crate::{Line, Memory};
use pg_graph::{Batch, Edit, Graph, VertexId};
use std::alloc::Global;

/// The batch of a list of edges on a graph: for each line in order its source and then its target are
/// added with input 0 where they aren't there yet, and then its edge is added, or set where it is
/// there by then.
///
/// Costs O(k log n) for k lines and a graph of n vertices and edges.
pub fn into_batch(alloc: Global, lines: &[Line], graph: &Graph) -> Result<Batch, Memory>
    ensures value { IfOk result (λ batch. batch ≡ batch_of lines.now graph.now) }
    ensures makes { IfOk result (λ batch. Makes graph.now batch (with_lines lines.now graph.now)) }
{
    let Mentioned {
        vertices,
        edges,
        ranks,
    } = Mentioned::of(alloc, lines, graph)?;
    // For each line its edge, and each vertex that the graph lacks at most once.
    let room = lines.len().saturating_add(vertices.len());
    let mut batch = Batch::with_capacity(alloc, room)?;
    let mut named = Named { vertices, edges };
    for (place, line) in lines.iter().enumerate() {
        let ranks = ranks.at(place);
        let source = named.name_vertex(graph, line.source, ranks.source.rank)?;
        push_vertex(&mut batch, line.source, source)?;
        let target = named.name_vertex(graph, line.target, ranks.target.rank)?;
        push_vertex(&mut batch, line.target, target)?;
        let edge = named.name_edge(graph, line, ranks.edge)?;
        push_edge(&mut batch, line, edge)?;
    }
    Ok(batch)
}

// Adds a vertex by an edit where it is new.
#[tactic(auto, unfolding(crate::specs::Batch::vertex_edits))]
fn push_vertex(batch: &mut Batch, id: VertexId, is_new: bool) -> Result<(), Memory>
    ensures { OnOk result ((rows : Rows) → is_new ≡ not (has_vertex id rows) → batch.new ≡ batch.old ++ vertex_edits id
        rows) }
{
    if is_new {
        batch.push(Edit::AddVertex(id, 0))?;
    }
    Ok(())
}

// Adds the edge of a line by an edit where it is new, or sets it.
#[tactic(auto, unfolding(crate::specs::Batch::edge_edit))]
fn push_edge(batch: &mut Batch, line: &Line, is_new: bool) -> Result<(), Memory>
    ensures { OnOk result ((rows : Rows) → is_new ≡ not (has_edge line.now.source line.now.target rows)
        → batch.new ≡ batch.old ++ edge_edit line.now rows ∷ []) }
{
    if is_new {
        batch.push(Edit::AddEdge(line.source, line.target, line.weight))
    } else {
        batch.push(Edit::SetEdge(line.source, line.target, line.weight))
    }
}

// The edges that all lines mention and the vertices of these that a graph lacks, each as the edge to itself, and which
// of them are there by now: the graph has them, or a line so far has named them.
#[derive(Drop)]
struct Named {
    vertices: NamedEdges,
    edges: NamedEdges,
}

impl Named {
    // Names an end of a line, and says whether it wasn't there yet. It is expected at this rank, if it has one; else
    // the graph has it.
    fn name_vertex(
        &mut self,
        graph: &Graph,
        id: VertexId,
        rank: Option<u32>,
    ) -> Result<bool, Memory>
        requires { IsNone rank → has_vertex id graph.now ≡ true }
        ensures { IfOk result (λ added. (rows : Rows) → Shows graph.now self.old rows
            → (added ≡ not (has_vertex id rows)) × Shows graph.now self.new (with_vertex id rows)) }
    {
        match rank {
            Some(rank) => self.name_missing(graph, id, rank),
            None => Ok(false),
        }
    }

    // A vertex that the graph may not have, likewise.
    fn name_missing(&mut self, graph: &Graph, id: VertexId, rank: u32) -> Result<bool, Memory>
        ensures { IfOk result (λ added. (rows : Rows) → Shows graph.now self.old rows
            → (added ≡ not (has_vertex id rows)) × Shows graph.now self.new (with_vertex id rows)) }
    {
        match self.vertices.name(id, id, rank as usize) {
            Some(added) => Ok(added),
            // No line is known to mention it, which costs time and changes no answer.
            None => {
                self.vertices.push_named(id, id)?;
                Ok(!is_there(graph.row(id)))
            }
        }
    }

    // Names the edge of a line, and says whether it wasn't there yet. It is expected at this rank.
    fn name_edge(&mut self, graph: &Graph, line: &Line, rank: u32) -> Result<bool, Memory>
        ensures { IfOk result (λ added. (rows : Rows) → Shows graph.now self.old rows → has_vertex line.now.source rows
            ≡ true
            → (added ≡ not (has_edge line.now.source line.now.target rows))
            × Shows graph.now self.new (with_line_edge line.now rows)) }
    {
        match self.edges.name(line.source, line.target, rank as usize) {
            Some(added) => Ok(added),
            // As for a vertex.
            None => {
                self.edges.push_named(line.source, line.target)?;
                Ok(!has_edge_to(graph.row(line.source), line.target))
            }
        }
    }
}
