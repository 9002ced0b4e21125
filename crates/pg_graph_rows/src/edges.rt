//! The out-edges of a vertex, shared between copies.
ghost use Rattle.std.specs.Prelude.{◌≡◌, ◌+◌, ◌≤◌, [], length, IfOk};
ghost use Rattle.std.specs.Arc.{arc_value};
ghost use Rattle.pg_graph_rows.specs.EdgeList.{IsRising, weight_at};
ghost use Rattle.pg_graph_rows.specs.Edges.{IsPart, part_of};

use crate::{Memory, VertexId};
use pg_map::checked_u32;
use std::alloc::Global;
use std::marker::Model;
use std::sync::Arc;

/// The out-edges of a vertex: at most one to each target, by rising target. A contract sees the
/// list of (target, weight).
///
/// Edges don't change: a copy shares its source's memory and costs O(1), and none take no memory.
/// Those of several vertices may lie in one list, of which each has a part.
pub struct Edges {
    shared: Option<Arc<Vec<(VertexId, i64)>>>,
    first: u32,
    degree: u32,
}

// By hand, so that it is let go by one call wherever that is, and not field by field.
impl Drop for Edges {
    fn drop(self) {
        let Edges {
            shared: _,
            first: _,
            degree: _,
        } = self;
    }
}

impl Model for Edges {
    ghost use Rattle.pg_graph_rows.specs.EdgeList.{EdgeList};

    ghost Value = { EdgeList };

    ghost use Rattle.pg_graph_rows.specs.Edges.{IsSound, edges_of};

    ghost view = { edges_of };

    ghost invariant = { IsSound };
}

impl Edges {
    /// No edges.
    pub fn new() -> Edges
        ensures { result ≡ [] }
    {
        Edges {
            shared: None,
            first: 0,
            degree: 0,
        }
    }

    /// These edges, which stand by rising target.
    ///
    /// # Errors
    ///
    /// Where memory is refused, and for 2^32 edges and more: a graph has at most 2^24, but a run may give a vertex
    /// more.
    pub fn from_rising(alloc: Global, edges: Vec<(VertexId, i64)>) -> Result<Edges, Memory>
        requires { IsRising edges.items }
        ensures { IfOk result (λ e. e ≡ edges.items) }
    {
        if edges.is_empty() {
            return Ok(Edges::new());
        }
        let degree = checked_u32(edges.len())?;
        Ok(Edges {
            shared: Some(Arc::new(alloc, edges)?),
            first: 0,
            degree,
        })
    }

    /// A part of a list, in the list's memory. One whose place or length doesn't fit in 32 bits is refused as want of
    /// memory.
    pub(crate) fn part(
        list: &Arc<Vec<(VertexId, i64)>>,
        first: usize,
        degree: usize,
    ) -> Result<Edges, Memory>
        requires { IsPart first degree (arc_value list.now).items }
        ensures { IfOk result (λ e. e ≡ part_of first degree (arc_value list.now).items) }
    {
        if degree == 0 {
            return Ok(Edges::new());
        }
        Ok(Edges {
            first: checked_u32(first)?,
            degree: checked_u32(degree)?,
            shared: Some(Arc::try_clone(list)?),
        })
    }

    /// The edges as a slice, by rising target.
    pub fn as_slice(&self) -> &[(VertexId, i64)]
        ensures value { result.now ≡ self.now }
        ensures rising { IsRising result.now }
    {
        match &self.shared {
            None => &[],
            Some(shared) => part_of(shared.as_slice(), self.first as usize, self.degree as usize),
        }
    }

    /// Where the edges begin in their list, and where they end.
    pub(crate) fn places(&self) -> (usize, usize) {
        let first = self.first as usize;
        (first, first.saturating_add(self.degree as usize))
    }

    /// The weight of the edge to `target`, found by binary search.
    pub fn weight(&self, target: VertexId) -> Option<i64>
        ensures { result ≡ weight_at target self.now }
    {
        let edges = self.as_slice();
        match edges.binary_search_by_key(&target, |edge| edge.0) {
            Ok(place) => Some(edges[place].1),
            Err(_) => None,
        }
    }

    /// A copy of the edges, which shares their memory.
    pub fn copy(&self) -> Result<Edges, Memory>
        ensures { IfOk result (λ e. e ≡ self.now) }
    {
        match &self.shared {
            None => Ok(Edges::new()),
            Some(shared) => Ok(Edges {
                shared: Some(Arc::try_clone(shared)?),
                first: self.first,
                degree: self.degree,
            }),
        }
    }
}

/// So many edges of a list, from this place on.
fn part_of(edges: &[(VertexId, i64)], first: usize, degree: usize) -> &[(VertexId, i64)]
    requires { first + degree ≤ length edges.now }
    ensures { result.now ≡ part_of first degree edges.now }
{
    let (_, rest) = edges.split_at(first);
    let (part, _) = rest.split_at(degree);
    part
}
