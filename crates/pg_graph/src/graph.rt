//! The graph: rows by rising id.
ghost use Rattle.std.specs.Prelude.{◌≡◌, [], ℕ, ◌^◌, ◌≤◌, IfOk, IfSome, IsSome, IsTrue};
ghost use Rattle.std.specs.Option.{option_copied};
ghost use Rattle.std.specs.Map.{keys_of};
ghost use Rattle.std.specs.Map.Iter.{ShowsInOrder, deref, deref_pair};

mod apply;

use crate::grouped::is_many;
use crate::{Memory, Row, VertexId};
use pg_map::{Cursor, Ids, Iter, Map};
use std::alloc::Global;
use std::marker::Model;

/// A graph: a finite map from ids to rows. A contract sees the list of (id, row) by rising id.
///
/// It counts how often a row was changed since `compact` last went over all.
pub struct Graph {
    rows: Map<Row>,
    total_edges: u64,
    rows_since_compaction: u64,
}

// By hand, so that it is let go by one call wherever that is, and not field by field.
impl Drop for Graph {
    fn drop(self) {
        let Graph {
            rows: _,
            total_edges: _,
            rows_since_compaction: _,
        } = self;
    }
}

impl Model for Graph {
    ghost use Rattle.std.specs.Prelude.{◌≡◌, ◌≤◌, ◌^◌};
    ghost use Rattle.pg_graph.specs.Rows.{Rows, edge_count, vertex_count};

    ghost Value = { Rows };

    ghost view = { λ g. g.rows };

    ghost invariant = { λ g. (g.total_edges ≡ edge_count g.rows) × (vertex_count g.rows ≤ 2 ^ 20)
        × (g.total_edges ≤ 2 ^ 24) };
}

impl Graph {
    ghost use Rattle.pg_graph.specs.Rows.{HasRisingIds, row_at, vertex_count, edge_count};

    /// The empty graph.
    pub fn new(_alloc: Global) -> Graph
        ensures { result ≡ [] }
    {
        Graph {
            rows: Map::new(),
            total_edges: 0,
            rows_since_compaction: 0,
        }
    }

    /// The row of a vertex.
    pub fn row(&self, id: VertexId) -> Option<&Row>
        ensures { option_copied result ≡ row_at id self.now }
    {
        self.rows.get(id)
    }

    /// Look-ups of rows, which cost less where ids come near one another.
    pub fn cursor(&self) -> Cursor<'_, Row>
        ensures { result ≡ self.now }
    {
        self.rows.cursor()
    }

    /// Whether each id from one to another is a vertex. It says no, too, wherever the graph leaves out an id between
    /// its first and its last. Costs a few binary searches.
    pub fn has_all(&self, first: VertexId, last: VertexId) -> bool
        ensures { IsTrue result → (id : ℕ) → first ≤ id → id ≤ last → IsSome (row_at id self.now) }
    {
        match self.contiguous_range() {
            Some((least, greatest)) => least <= first && last <= greatest,
            None => false,
        }
    }

    /// The first id and the last of the graph, if none between them is omitted.
    fn contiguous_range(&self) -> Option<(VertexId, VertexId)>
        ensures { IfSome result (λ s. (id : ℕ) → s.0 ≤ id → id ≤ s.1 → IsSome (row_at id self.now)) }
    {
        let (first, _) = self.rows.iter().next()?;
        let later = self.vertices().checked_sub(1)?;
        let last = VertexId::new(first.number().checked_add(later)?)?;
        let mut from = self.rows.iter_from(last);
        let (id, _) = from.next()?;
        if *id != last || from.next().is_some() {
            return None;
        }
        Some((*first, last))
    }

    /// How many vertices there are, at most 2^20.
    pub fn vertices(&self) -> u64
        ensures value { result ≡ vertex_count self.now }
        ensures limit { result ≤ 2 ^ 20 }
        ensures rising { HasRisingIds self.now }
    {
        self.rows.len() as u64
    }

    /// How many edges there are, at most 2^24. Edges to missing targets count.
    pub fn edges(&self) -> u64
        ensures value { result ≡ edge_count self.now }
        ensures limit { result ≤ 2 ^ 24 }
    {
        self.total_edges
    }

    /// The ids, rising.
    pub fn ids(&self) -> Ids<'_, Row>
        ensures rest { result ≡ keys_of self.now }
        ensures runs { ShowsInOrder (deref {X = ℕ}) }
        ensures rising { HasRisingIds self.now }
    {
        self.rows.ids()
    }

    /// A copy of the graph, which shares its memory. Costs O(1).
    pub fn copy(&self, _alloc: Global) -> Result<Graph, Memory>
        ensures { IfOk result (λ graph. graph ≡ self.now) }
    {
        let rows = self.rows.cheap_clone()?;
        Ok(Graph {
            rows,
            total_edges: self.total_edges,
            rows_since_compaction: self.rows_since_compaction,
        })
    }

    /// Lays rows anew in memory, so that the edges of rows that stand side by side lie side by side: as far as there is
    /// memory for it and no copy shares them, and where many rows were changed since the last time. What is made of
    /// rows afterwards waits less for memory. What it has to leave as it is, it doesn't try again before as many have
    /// changed.
    ///
    /// It costs a walk over all rows, and a copy of the edges of rows near changed ones.
    pub fn compact(&mut self, alloc: Global)
        ensures { self.new ≡ self.old }
    {
        if is_many(self.rows_since_compaction, self.vertices()) {
            self.rows.pack(alloc);
            self.rows_since_compaction = 0;
        }
    }

    /// The rows with their ids, by rising id.
    pub fn iter(&self) -> Iter<'_, Row>
        ensures rest { result ≡ self.now }
        ensures runs { ShowsInOrder (deref_pair {K = ℕ} {X = Row}) }
        ensures rising { HasRisingIds self.now }
    {
        self.rows.iter()
    }
}
