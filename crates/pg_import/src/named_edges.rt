//! The edges that the lines of a list mention, each once, and which of them are there by now.
ghost use Rattle.std.specs.Prelude.{◌≡◌, ◌<◌, ◌≤◌, ◌⊎◌, ◌&&◌, ℕ, Bool, [], true, cond, not, IfOk, IfSome, IsNone};
ghost use Rattle.std.specs.Prelude.{IsTrue, OnErr, OnOk};
ghost use Rattle.std.specs.BTreeMap.{is_at};
ghost use Rattle.std.specs.Ordering.{nat_cmp};
ghost use Rattle.pg_import.specs.NamedEdges.{AreThereAs, IsApart, StandsAt, is_edge, there_in};

use crate::Memory;
use pg_graph::VertexId;
use std::alloc::Global;
use std::marker::Model;

/// An edge, and whether it is there: a graph has it, or a line so far has named it.
#[derive(Clone, Copy)]
pub(crate) struct NamedEdge {
    pub(crate) source: VertexId,
    pub(crate) target: VertexId,
    pub(crate) there: bool,
}

impl NamedEdge {
    /// Whether this is the edge between two vertices.
    fn is_edge(&self, source: VertexId, target: VertexId) -> bool
        ensures { result ≡ is_edge source target self.now }
    {
        self.source == source && self.target == target
    }
}

/// Edges, each once. A contract sees the list of them.
#[derive(Drop)]
pub(crate) struct NamedEdges {
    edges: Vec<NamedEdge>,
}

impl Model for NamedEdges {
    ghost use Rattle.std.specs.Prelude.{List};
    ghost use Rattle.pg_import.specs.NamedEdges.{AreDistinct};
    ghost use Rattle.pg_import.specs.declared.named_edges.NamedEdge.{NamedEdge};

    ghost Value = { List NamedEdge };

    ghost view = { λ e. e.edges.items };

    ghost invariant = { λ e. AreDistinct e.edges.items };
}

impl NamedEdges {
    /// Names an edge, and says whether it wasn't there yet; none where it isn't one of these. Costs O(1)
    /// where the edge is at the place where it is expected, and a search through all edges elsewhere.
    pub(crate) fn name(
        &mut self,
        source: VertexId,
        target: VertexId,
        expected: usize,
    ) -> Option<bool>
        ensures added { IfSome result
            (λ added. (elsewhere : Bool) → added ≡ not (there_in source target elsewhere self.old)) }
        ensures named { IfSome result (λ _. (s t : ℕ) (elsewhere : Bool) → there_in s t elsewhere self.new
            ≡ cond (is_at (nat_cmp source) s && is_at (nat_cmp target) t) true (there_in s t elsewhere self.old)) }
        ensures apart { IsNone result → IsApart source target self.old }
        ensures same { IsNone result → self.new ≡ self.old }
    {
        let place = self.place_of(source, target, expected)?;
        let added = !self.edges[place].there;
        self.edges[place] = NamedEdge {
            source,
            target,
            there: true,
        };
        Some(added)
    }

    /// Adds an edge that is none of these, as one that is named.
    pub(crate) fn push_named(&mut self, source: VertexId, target: VertexId) -> Result<(), Memory>
        requires { IsApart source target self.old }
        ensures { OnOk result ((s t : ℕ) (elsewhere : Bool) → there_in s t elsewhere self.new
            ≡ cond (is_at (nat_cmp source) s && is_at (nat_cmp target) t) true (there_in s t elsewhere self.old)) }
    {
        let there = true;
        self.edges.push(NamedEdge {
            source,
            target,
            there,
        })?;
        Ok(())
    }

    /// How many there are.
    pub(crate) fn len(&self) -> usize {
        self.edges.len()
    }

    /// Where an edge is, if it is anywhere.
    fn place_of(&self, source: VertexId, target: VertexId, expected: usize) -> Option<usize>
        ensures some { IfSome result (StandsAt source target self.now) }
        ensures none { IsNone result → IsApart source target self.now }
    {
        if let Some(edge) = self.edges.get(expected) {
            if edge.is_edge(source, target) {
                return Some(expected);
            }
        }
        self.search(source, target)
    }

    /// Where an edge is, if it is anywhere, found by going over all.
    fn search(&self, source: VertexId, target: VertexId) -> Option<usize>
        ensures some { IfSome result (StandsAt source target self.now) }
        ensures none { IsNone result → IsApart source target self.now }
    {
        for (place, edge) in self.edges.iter().enumerate() {
            if edge.is_edge(source, target) {
                return Some(place);
            }
        }
        None
    }
}

/// Edges that are gathered by rising source and target, each once. A contract sees a source and a target
/// that they all come before, and the list of them.
#[derive(Drop)]
pub(crate) struct EdgesOnce {
    edges: Vec<NamedEdge>,
    from: u64,
    to: u64,
}

impl Model for EdgesOnce {
    ghost use Rattle.std.specs.Prelude.{ℕ, List};
    ghost use Rattle.pg_import.specs.NamedEdges.{AreBefore, AreDistinct};
    ghost use Rattle.pg_import.specs.declared.named_edges.NamedEdge.{NamedEdge};

    ghost Value = { ℕ × ℕ × List NamedEdge };

    ghost view = { λ e. (e.from, e.to, e.edges.items) };

    ghost invariant = { λ e. AreDistinct e.edges.items × AreBefore e.from e.to e.edges.items };
}

impl EdgesOnce {
    /// None, with room for so many.
    pub(crate) fn new(alloc: Global, edges: usize) -> Result<EdgesOnce, Memory>
        ensures { IfOk result (λ once. once.2 ≡ []) }
    {
        Ok(EdgesOnce {
            edges: Vec::with_capacity(alloc, edges)?,
            from: 0,
            to: 0,
        })
    }

    /// Where the last one stands.
    pub(crate) fn last_place(&self) -> usize {
        self.edges.len().saturating_sub(1)
    }

    /// Whether an edge comes after the last one.
    pub(crate) fn takes(&self, source: VertexId, target: VertexId) -> bool
        ensures { IsTrue result → (self.now.0 < source) ⊎ ((self.now.0 ≡ source) × (self.now.1 ≤ target)) }
    {
        let (source, target) = (source.number(), target.number());
        if self.from == source {
            self.to <= target
        } else {
            self.from < source
        }
    }

    /// Adds an edge that comes after the last one.
    pub(crate) fn add(
        &mut self,
        source: VertexId,
        target: VertexId,
        there: bool,
    ) -> Result<(), Memory>
        requires { (self.old.0 < source) ⊎ ((self.old.0 ≡ source) × (self.old.1 ≤ target)) }
        ensures ok { OnOk result
            ((has : ℕ → ℕ → Bool) → there ≡ has source target → AreThereAs has self.old.2 → AreThereAs has self.new.2) }
        ensures err { OnErr result (self.new ≡ self.old) }
    {
        self.edges.push(NamedEdge {
            source,
            target,
            there,
        })?;
        self.from = source.number();
        self.to = target.number() + 1;
        Ok(())
    }

    /// All of them.
    pub(crate) fn finish(self) -> NamedEdges
        ensures { result ≡ self.2 }
    {
        NamedEdges { edges: self.edges }
    }
}
