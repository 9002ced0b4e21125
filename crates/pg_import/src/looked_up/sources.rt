//! The edges that a graph has of the sources of lines.
ghost use Rattle.std.specs.Prelude.{◌≡◌, Some, is_some, map, slice_get, IfOk, IfSome};
ghost use Rattle.std.specs.Option.{option_copied};
ghost use Rattle.pg_graph.specs.Handed.{IsRising, weight_at};
ghost use Rattle.pg_graph.specs.Rows.{row_at};
ghost use Rattle.pg_import.specs.Batch.{has_edge};
ghost use Rattle.pg_import.specs.Sources.{LeadAsFrom, edges_of};

use crate::Memory;
use crate::looked_up::has_edge_to;
use crate::looked_up::last_row::LastRow;
use pg_graph::{Graph, Row, VertexId};
use std::alloc::Global;
use std::marker::Model;

/// So few edges are gone over one by one: they lie in a few lines of a cache, which are fetched together.
const FEW: usize = 16;

/// Looks up rows, and notes of sources where their edges lie, by rising id. So where the edges of one lie is known long
/// before they are read, and those of several can be waited for at the same time. A contract sees the graph.
#[derive(Drop)]
pub(crate) struct Sources<'a> {
    ids: Vec<VertexId>,
    edges: Vec<&'a [(VertexId, i64)]>,
    // Where the source stands that was asked for last.
    place: usize,
    last_row: LastRow<'a>,
}

impl<'a> Model for Sources<'a> {
    ghost use Rattle.std.specs.Prelude.{map};
    ghost use Rattle.pg_graph.specs.Rows.{Rows};
    ghost use Rattle.pg_import.specs.Sources.{AreNoted};

    ghost Value = { Rows };

    ghost view = { λ s. s.last_row };

    ghost invariant = { λ s. AreNoted s.last_row s.ids.items (map (λ edges. edges.now) s.edges.items) };
}

impl<'a> Sources<'a> {
    /// None yet, with room for so many.
    pub(crate) fn new(alloc: Global, graph: &'a Graph, room: usize) -> Result<Sources<'a>, Memory>
        ensures { IfOk result (λ sources. sources ≡ graph.now) }
    {
        Ok(Sources {
            ids: Vec::with_capacity(alloc, room)?,
            edges: Vec::with_capacity(alloc, room)?,
            place: 0,
            last_row: LastRow::of(graph),
        })
    }

    /// The row at an id, of a source or another vertex.
    pub(crate) fn row_at(&mut self, id: VertexId) -> Option<&'a Row>
        ensures row { option_copied result ≡ row_at id self.old }
        ensures same { self.new ≡ self.old }
    {
        self.last_row.row_at(id)
    }

    /// Notes where the edges of a source lie, unless it is the last one. Where there is no memory for that it may
    /// forget the others, which costs time and changes no answer.
    pub(crate) fn note(&mut self, id: VertexId) -> Result<(), Memory>
        ensures { self.new ≡ self.old }
    {
        if self.ids.last() == Some(&id) {
            return Ok(());
        }
        let edges = edges_of(self.last_row.row_at(id));
        self.ids.push(id)?;
        if let Err(refused) = self.edges.push(edges) {
            self.ids.clear();
            self.edges.clear();
            return Err(refused.into());
        }
        Ok(())
    }

    /// Whether the graph has an edge. It costs no look-up of a row where its source is the one that was asked for last,
    /// or the one that was noted after that.
    pub(crate) fn has_edge(&mut self, source: VertexId, target: VertexId) -> bool
        ensures value { result ≡ has_edge source target self.old }
        ensures same { self.new ≡ self.old }
    {
        match self.edges_noted(source) {
            Some(edges) => has_target(edges, target),
            None => has_edge_to(self.last_row.row_at(source), target),
        }
    }

    /// The edges of a source, where it stands at the place of the last one that was asked for, or at the next one.
    fn edges_noted(&mut self, id: VertexId) -> Option<&'a [(VertexId, i64)]>
        ensures edges { IfSome result (λ edges. LeadAsFrom self.old id edges.now) }
        ensures same { self.new ≡ self.old }
    {
        if let Some(edges) = edges_at(self.ids.as_slice(), self.edges.as_slice(), self.place, id) {
            return Some(edges);
        }
        self.place = self.place.saturating_add(1);
        edges_at(self.ids.as_slice(), self.edges.as_slice(), self.place, id)
    }
}

/// The edges of a source, where it stands at this place.
fn edges_at<'a>(
    ids: &[VertexId],
    edges: &[&'a [(VertexId, i64)]],
    place: usize,
    id: VertexId,
) -> Option<&'a [(VertexId, i64)]>
    ensures source { IfSome result (λ found. slice_get ids.now place ≡ Some id) }
    ensures edges { IfSome result (λ found. slice_get (map (λ e. e.now) edges.now) place ≡ Some found.now) }
{
    if ids.get(place) != Some(&id) {
        return None;
    }
    match edges.get(place) {
        Some(edges) => Some(*edges),
        None => None,
    }
}

/// The edges of a row, if there is one.
fn edges_of<'a>(row: Option<&'a Row>) -> &'a [(VertexId, i64)]
    ensures value { result.now ≡ edges_of (option_copied row.entry) }
    ensures rising { IsRising result.now }
{
    match row {
        Some(row) => row.edges.as_slice(),
        None => &[],
    }
}

/// Whether there is an edge to the target among these.
fn has_target(edges: &[(VertexId, i64)], target: VertexId) -> bool
    requires { IsRising edges.now }
    ensures { result ≡ is_some (weight_at target edges.now) }
{
    if edges.len() <= FEW {
        return has_target_of_few(edges, target);
    }
    match edges.binary_search_by_key(&target, |edge| edge.0) {
        Ok(_) => true,
        Err(_) => false,
    }
}

/// Whether there is an edge to the target among these, found by going over all.
fn has_target_of_few(edges: &[(VertexId, i64)], target: VertexId) -> bool
    ensures { result ≡ is_some (weight_at target edges.now) }
{
    for edge in edges {
        if target == edge.0 {
            return true;
        }
    }
    false
}
