//! What the lines of a list mention, looked up in a graph by rising id: look-ups that lie near one another
//! in memory come one after another.
ghost use Rattle.std.specs.Prelude.{◌≡◌, true, is_some, option_and_then, IfOk, IsNone};
ghost use Rattle.std.specs.Option.{option_copied};
ghost use Rattle.pg_graph.specs.Handed.{weight_at};
ghost use Rattle.pg_import.specs.Batch.{has_edge, has_vertex};
ghost use Rattle.pg_import.specs.NamedEdges.{AreThereAs};

mod last_row;
mod sources;

use crate::Memory;
use crate::named_edges::{EdgesOnce, NamedEdges};
use pg_graph::{Graph, Row, VertexId};
use sources::Sources;
use std::alloc::Global;
use std::marker::Model;

/// Vertices that lines mention and a graph doesn't have, and edges that lines mention with whether it has them: by
/// rising id, each once; a vertex as the edge to itself. A contract sees the graph.
#[derive(Drop)]
pub(crate) struct LookedUp<'a> {
    vertices: EdgesOnce,
    edges: EdgesOnce,
    sources: Sources<'a>,
}

impl<'a> Model for LookedUp<'a> {
    ghost use Rattle.pg_graph.specs.Rows.{Rows};
    ghost use Rattle.pg_import.specs.Batch.{has_edge, has_vertex};
    ghost use Rattle.pg_import.specs.NamedEdges.{AreThereAs};

    ghost Value = { Rows };

    ghost view = { λ l. l.sources };

    ghost invariant = { λ l. AreThereAs (λ id _. has_vertex id l.sources) l.vertices.2
        × AreThereAs (λ source target. has_edge source target l.sources) l.edges.2 };
}

impl<'a> LookedUp<'a> {
    /// None yet, with room for those of so many lines.
    pub(crate) fn new(alloc: Global, graph: &'a Graph, lines: usize) -> Result<LookedUp<'a>, Memory>
        ensures { IfOk result (λ looked_up. looked_up ≡ graph.now) }
    {
        Ok(LookedUp {
            vertices: EdgesOnce::new(alloc, lines.saturating_mul(2))?,
            edges: EdgesOnce::new(alloc, lines)?,
            sources: Sources::new(alloc, graph, lines)?,
        })
    }

    /// Looks up a vertex, which is the last one or comes after it. One that the graph has is omitted, and the
    /// answer is `None`; of another it is where it stands. One that comes before is omitted, and the answer is the
    /// last place.
    pub(crate) fn add_vertex(&mut self, id: VertexId) -> Result<Option<u32>, Memory>
        ensures there { IfOk result (λ place. IsNone place → has_vertex id self.old ≡ true) }
        ensures same { self.new ≡ self.old }
    {
        if is_there(self.sources.row_at(id)) {
            return Ok(None);
        }
        if !self.vertices.takes(id, id) {
            return Ok(Some(kept(self.vertices.last_place())));
        }
        self.vertices.add(id, id, false)?;
        Ok(Some(kept(self.vertices.last_place())))
    }

    /// Looks up the source of a line as `add_vertex` does, and notes its edges.
    pub(crate) fn add_source(&mut self, id: VertexId) -> Result<Option<u32>, Memory>
        ensures there { IfOk result (λ place. IsNone place → has_vertex id self.old ≡ true) }
        ensures same { self.new ≡ self.old }
    {
        self.sources.note(id)?;
        self.add_vertex(id)
    }

    /// Adds an edge, which is the last one or comes after it, and says where it stands. One that comes before is
    /// out, and the answer is the last place. It costs no look-up among the rows where sources come in the order in
    /// which they were added.
    pub(crate) fn add_edge(&mut self, source: VertexId, target: VertexId) -> Result<u32, Memory>
        ensures { self.new ≡ self.old }
    {
        if !self.edges.takes(source, target) {
            return Ok(kept(self.edges.last_place()));
        }
        let there = self.sources.has_edge(source, target);
        self.edges.add(source, target, there)?;
        Ok(kept(self.edges.last_place()))
    }

    /// All vertices, and all edges.
    pub(crate) fn finish(self) -> (NamedEdges, NamedEdges)
        ensures vertices { AreThereAs (λ id _. has_vertex id self.entry) result.0 }
        ensures edges { AreThereAs (λ source target. has_edge source target self.entry) result.1 }
    {
        (self.vertices.finish(), self.edges.finish())
    }
}

/// A place, as it is kept for each line. One that doesn't fit is kept as the greatest, which costs a search and changes
/// no answer.
fn kept(place: usize) -> u32 {
    u32::try_from(place).unwrap_or(u32::MAX)
}

/// Whether there is a row.
pub(crate) fn is_there(row: Option<&Row>) -> bool
    ensures { result ≡ is_some (option_copied row.entry) }
{
    row.is_some()
}

/// Whether a row, where there is one, has an edge to the target.
pub(crate) fn has_edge_to(row: Option<&Row>, target: VertexId) -> bool
    ensures { result ≡ is_some (option_and_then (λ r. weight_at target r.edges) (option_copied row.entry)) }
{
    match row {
        Some(row) => row.edges.weight(target).is_some(),
        None => false,
    }
}
