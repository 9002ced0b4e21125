//! Out-edges that are being edited in one list.
ghost use Rattle.std.specs.Prelude.{◌≡◌, ◌+◌, length, is_some, IfOk, IfErr, OnOk, if◌then◌else◌};
ghost use Rattle.pg_graph_rows.specs.EdgeList.{IsRising, weight_at, with_edge, without_edge};
ghost use Rattle.pg_graph_rows.specs.Places.{IsPlaceOf, IsGapFor};

use crate::{Edges, Memory, VertexId};
use std::alloc::Global;
use std::marker::Model;

/// A list takes so many edits. Each moves the edges behind its target.
const EDIT_LIMIT: u8 = 64;

/// The out-edges of a row that is being edited, in a list by rising target. A contract sees the list.
#[derive(Drop)]
pub(crate) struct ListedEdges {
    edges: Vec<(VertexId, i64)>,
    edits_left: u8,
}

impl Model for ListedEdges {
    ghost use Rattle.pg_graph_rows.specs.EdgeList.{EdgeList, IsRising};

    ghost Value = { EdgeList };

    ghost view = { λ e. e.edges.items };

    ghost invariant = { λ e. IsRising e.edges.items };
}

impl ListedEdges {
    /// A copy of these edges, which rise by target, for so many edits: with room for as many more as it takes of them.
    pub(crate) fn of(
        alloc: Global,
        edges: &[(VertexId, i64)],
        edits: usize,
    ) -> Result<ListedEdges, Memory>
        requires { IsRising edges.now }
        ensures { IfOk result (λ listed. listed ≡ edges.now) }
    {
        let room = edits.min(usize::from(EDIT_LIMIT));
        let mut listed = Vec::with_capacity(alloc, edges.len().saturating_add(room))?;
        listed.extend_from_slice(edges)?;
        Ok(ListedEdges {
            edges: listed,
            edits_left: EDIT_LIMIT,
        })
    }

    /// The edges as a slice, by rising target.
    pub(crate) fn as_slice(&self) -> &[(VertexId, i64)]
        ensures value { result.now ≡ self.now }
        ensures rising { IsRising result.now }
    {
        self.edges.as_slice()
    }

    /// Whether the list has had all edits that it takes.
    pub(crate) fn is_mostly_garbage(&self) -> bool {
        self.edits_left == 0
    }

    /// Puts the edge to `target` in the place of the one that was there, and says whether there was one.
    /// Costs O(d) for d edges.
    pub(crate) fn put(&mut self, target: VertexId, weight: i64) -> Result<bool, Memory>
        ensures value { OnOk result (self.new ≡ with_edge target weight self.old) }
        ensures was_there { IfOk result (λ there. there ≡ is_some (weight_at target self.old)) }
        ensures degree { IfOk result (λ there. length self.new + (if there then 1 else 0) ≡ length self.old + 1) }
    {
        self.edits_left = self.edits_left.saturating_sub(1);
        match self.place_of(target) {
            Ok(place) => {
                self.edges[place] = (target, weight);
                Ok(true)
            }
            Err(place) => {
                self.edges.insert(place, (target, weight))?;
                Ok(false)
            }
        }
    }

    /// Removes the edge to `target`, and says whether there was one. Costs O(d) for d edges.
    pub(crate) fn remove(&mut self, target: VertexId) -> bool
        ensures value { self.new ≡ without_edge target self.old }
        ensures was_there { result ≡ is_some (weight_at target self.old) }
        ensures degree { length self.new + (if result then 1 else 0) ≡ length self.old }
    {
        self.edits_left = self.edits_left.saturating_sub(1);
        match self.place_of(target) {
            Ok(place) => {
                self.edges.remove(place);
                true
            }
            Err(_) => false,
        }
    }

    /// The edges as a graph holds them.
    pub(crate) fn into_edges(self, alloc: Global) -> Result<Edges, Memory>
        ensures { IfOk result (λ edges. edges ≡ self) }
    {
        Edges::from_rising(alloc, self.edges)
    }

    /// Where the edge to `target` is, or where it would go.
    fn place_of(&self, target: VertexId) -> Result<usize, usize>
        ensures found { IfOk result (IsPlaceOf target self.now) }
        ensures absent { IfErr result (IsGapFor target self.now) }
    {
        self.edges.binary_search_by_key(&target, |edge| edge.0)
    }
}
