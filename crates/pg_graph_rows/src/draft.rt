//! A row that is being edited.
ghost use Rattle.std.specs.Prelude.{◌≡◌, ◌+◌, [], length, is_some, IfOk, OnOk, if◌then◌else◌};
ghost use Rattle.pg_graph_rows.specs.EdgeList.{IsRising, weight_at, with_edge, without_edge};

mod listed;

use crate::{Edges, Memory, Row, VertexId};
use listed::ListedEdges;
use std::alloc::Global;
use std::collections::BTreeMap;
use std::marker::Model;

/// The out-edges of a row that is being edited: those of a graph, from the first edit on a list of
/// their own, and a map where the list has had all edits that it takes.
#[derive(Drop)]
pub(crate) enum DraftEdges {
    Kept(Edges),
    Listed(ListedEdges),
    Mapped(BTreeMap<VertexId, i64>),
}

impl DraftEdges {
    ghost use Rattle.pg_graph_rows.specs.DraftRow.{edges_in};

    /// Puts the edge to `target` in the place of the one that was there, and says whether there was one. A list that is
    /// made is made for so many edits.
    fn put(
        &mut self,
        alloc: Global,
        edits: usize,
        target: VertexId,
        weight: i64,
    ) -> Result<bool, Memory>
        ensures value { OnOk result (edges_in self.new ≡ with_edge target weight (edges_in self.old)) }
        ensures was_there { IfOk result (λ there. there ≡ is_some (weight_at target (edges_in self.old))) }
        ensures degree { IfOk result
            (λ there. length (edges_in self.new) + (if there then 1 else 0) ≡ length (edges_in self.old) + 1) }
    {
        match self {
            DraftEdges::Kept(edges) => {
                let mut listed = ListedEdges::of(alloc, edges.as_slice(), edits)?;
                let there = listed.put(target, weight)?;
                *self = DraftEdges::Listed(listed);
                Ok(there)
            }
            DraftEdges::Listed(listed) => {
                if !listed.is_mostly_garbage() {
                    return listed.put(target, weight);
                }
                let mut map = map_of(alloc, listed.as_slice())?;
                let there = map.insert(target, weight)?.is_some();
                *self = DraftEdges::Mapped(map);
                Ok(there)
            }
            DraftEdges::Mapped(map) => Ok(map.insert(target, weight)?.is_some()),
        }
    }

    /// Removes the edge to `target`, and says whether there was one. A list that is made is made for so many edits.
    fn remove(&mut self, alloc: Global, edits: usize, target: VertexId) -> Result<bool, Memory>
        ensures value { OnOk result (edges_in self.new ≡ without_edge target (edges_in self.old)) }
        ensures was_there { IfOk result (λ there. there ≡ is_some (weight_at target (edges_in self.old))) }
        ensures degree { IfOk result
            (λ there. length (edges_in self.new) + (if there then 1 else 0) ≡ length (edges_in self.old)) }
    {
        match self {
            DraftEdges::Kept(edges) => {
                let mut listed = ListedEdges::of(alloc, edges.as_slice(), edits)?;
                let there = listed.remove(target);
                *self = DraftEdges::Listed(listed);
                Ok(there)
            }
            DraftEdges::Listed(listed) => {
                if !listed.is_mostly_garbage() {
                    return Ok(listed.remove(target));
                }
                let mut map = map_of(alloc, listed.as_slice())?;
                let there = map.remove(&target).is_some();
                *self = DraftEdges::Mapped(map);
                Ok(there)
            }
            DraftEdges::Mapped(map) => Ok(map.remove(&target).is_some()),
        }
    }
}

/// A row that is being edited. With d edges, all edits of it together cost O(d log d), and each of them O(log d) more.
/// A contract sees the row.
pub struct DraftRow {
    input: i64,
    edges: DraftEdges,
    // How many edits a list of its edges is made for.
    edits: usize,
}

// By hand, so that it is let go by one call wherever that is, and not field by field.
impl Drop for DraftRow {
    fn drop(self) {
        let DraftRow {
            input: _,
            edges: _,
            edits: _,
        } = self;
    }
}

impl Model for DraftRow {
    ghost use Rattle.pg_graph_rows.specs.declared.row.Row.{Row};

    ghost Value = { Row };

    ghost use Rattle.pg_graph_rows.specs.DraftRow.{row_in};

    ghost view = { row_in };
}

impl DraftRow {
    /// A row with this input and no edges, for so many edits: it has room for the edges of the first ones once it has
    /// one.
    pub fn new(input: i64, edits: usize) -> DraftRow
        ensures { result ≡ record { input = input; edges = [] } }
    {
        DraftRow {
            input,
            edges: DraftEdges::Kept(Edges::new()),
            edits,
        }
    }

    /// A row of a graph, for so many edits: it shares its edges until one is edited, and has room then for those of the
    /// first edits.
    pub fn of(row: &Row, edits: usize) -> Result<DraftRow, Memory>
        ensures { IfOk result (λ draft. draft ≡ row.now) }
    {
        let edges = row.edges.copy()?;
        Ok(DraftRow {
            input: row.input,
            edges: DraftEdges::Kept(edges),
            edits,
        })
    }

    /// How many edges there are.
    pub fn degree(&self) -> u64
        ensures { result ≡ length self.now.edges }
    {
        match &self.edges {
            DraftEdges::Kept(edges) => edges.as_slice().len() as u64,
            DraftEdges::Listed(listed) => listed.as_slice().len() as u64,
            DraftEdges::Mapped(map) => map.len() as u64,
        }
    }

    /// Sets the input.
    pub fn set_input(&mut self, input: i64)
        ensures { self.new ≡ record self.old { input = input } }
    {
        self.input = input;
    }

    /// Puts the edge to `target` in the place of the one that was there, and says whether there was one.
    ///
    /// # Errors
    ///
    /// Where a growth is refused; nothing is said of the row then.
    pub fn put_edge(&mut self, alloc: Global, target: VertexId, weight: i64) -> Result<bool, Memory>
        ensures value { OnOk result (self.new ≡ record self.old { edges = with_edge target weight self.old.edges }) }
        ensures was_there { IfOk result (λ there. there ≡ is_some (weight_at target self.old.edges)) }
        ensures degree { IfOk result
            (λ there. length self.new.edges + (if there then 1 else 0) ≡ length self.old.edges + 1) }
    {
        self.edges.put(alloc, self.edits, target, weight)
    }

    /// Removes the edge to `target`, and says whether there was one.
    ///
    /// # Errors
    ///
    /// Where a growth is refused; nothing is said of the row then.
    pub fn remove_edge(&mut self, alloc: Global, target: VertexId) -> Result<bool, Memory>
        ensures value { OnOk result (self.new ≡ record self.old { edges = without_edge target self.old.edges }) }
        ensures was_there { IfOk result (λ there. there ≡ is_some (weight_at target self.old.edges)) }
        ensures degree { IfOk result
            (λ there. length self.new.edges + (if there then 1 else 0) ≡ length self.old.edges) }
    {
        self.edges.remove(alloc, self.edits, target)
    }

    /// The row as a graph holds it.
    pub fn into_row(self, alloc: Global) -> Result<Row, Memory>
        ensures { IfOk result (λ row. row ≡ self) }
    {
        let DraftRow {
            input,
            edges,
            edits: _,
        } = self;
        let edges = match edges {
            DraftEdges::Kept(edges) => edges,
            DraftEdges::Listed(listed) => listed.into_edges(alloc)?,
            DraftEdges::Mapped(map) => edges_of(alloc, &map)?,
        };
        Ok(Row { input, edges })
    }
}

/// The map with these edges, which rise by target.
fn map_of(alloc: Global, edges: &[(VertexId, i64)]) -> Result<BTreeMap<VertexId, i64>, Memory>
    requires { IsRising edges.now }
    ensures { IfOk result (λ map. map.entries ≡ edges.now) }
{
    let mut map = BTreeMap::new(alloc);
    for (target, weight) in edges {
        map.insert(*target, *weight)?;
    }
    Ok(map)
}

/// The edges of a map.
fn edges_of(alloc: Global, map: &BTreeMap<VertexId, i64>) -> Result<Edges, Memory>
    ensures { IfOk result (λ edges. edges ≡ map.now.entries) }
{
    let mut edges = Vec::with_capacity(alloc, map.len())?;
    for (target, weight) in map {
        edges.push((*target, *weight))?;
    }
    Edges::from_rising(alloc, edges)
}
