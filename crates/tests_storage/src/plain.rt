// A graph over the standard library's maps, of which edits are made one at a time, and what these tests share.
ghost use Rattle.std.specs.Prelude.{◌≡◌, ◌<◌};

use pg_graph::{Edit, Graph, Memory, Row, VertexId};
use std::alloc::Global;
use std::collections::BTreeMap;

pub(crate) fn id(number: u32) -> VertexId
    ensures { result ≡ number }
{
    VertexId::new(u64::from(number)).unwrap()
}

// Numbers that look random, the same for the same beginning.
#[derive(Drop)]
pub(crate) struct Random {
    state: u64,
}

impl Random {
    pub(crate) fn new(beginning: u32) -> Random {
        Random {
            state: u64::from(beginning),
        }
    }

    pub(crate) fn below(&mut self, bound: u32) -> u32
        requires { 0 < bound }
        ensures { result < bound }
    {
        self.state = self
            .state
            .wrapping_mul(6_364_136_223_846_793_005)
            .wrapping_add(1_442_695_040_888_963_407);
        (self.state >> 33) as u32 % bound
    }
}

// The input of a vertex, and the weights of its edges by their targets.
#[derive(Drop)]
struct PlainRow {
    input: i64,
    edges: BTreeMap<VertexId, i64>,
}

#[derive(Drop)]
pub(crate) struct PlainGraph {
    rows: BTreeMap<VertexId, PlainRow>,
}

impl PlainGraph {
    pub(crate) fn new(alloc: Global) -> PlainGraph {
        PlainGraph {
            rows: BTreeMap::new(alloc),
        }
    }

    // Makes an edit that a graph wouldn't refuse.
    pub(crate) fn edit(&mut self, alloc: Global, edit: &Edit) -> Result<(), Memory> {
        match *edit {
            Edit::AddVertex(id, input) => self.add_vertex(alloc, id, input)?,
            Edit::RemoveVertex(id) => drop(self.rows.remove(&id)),
            Edit::SetInput(id, input) => {
                if let Some(row) = self.rows.get_mut(&id) {
                    row.input = input;
                }
            }
            Edit::AddEdge(source, target, weight) => self.put_edge(source, target, weight)?,
            Edit::SetEdge(source, target, weight) => self.put_edge(source, target, weight)?,
            Edit::RemoveEdge(source, target) => {
                if let Some(row) = self.rows.get_mut(&source) {
                    row.edges.remove(&target);
                }
            }
        }
        Ok(())
    }

    fn add_vertex(&mut self, alloc: Global, id: VertexId, input: i64) -> Result<(), Memory> {
        let edges = BTreeMap::new(alloc);
        self.rows.insert(id, PlainRow { input, edges })?;
        Ok(())
    }

    // Puts the edge of a vertex in the place of the one to the same target, if there is one.
    pub(crate) fn put_edge(
        &mut self,
        source: VertexId,
        target: VertexId,
        weight: i64,
    ) -> Result<(), Memory> {
        if let Some(row) = self.rows.get_mut(&source) {
            row.edges.insert(target, weight)?;
        }
        Ok(())
    }

    pub(crate) fn has_vertex(&self, id: VertexId) -> bool {
        self.rows.contains_key(&id)
    }

    pub(crate) fn has_edge(&self, source: VertexId, target: VertexId) -> bool {
        match self.rows.get(&source) {
            Some(row) => row.edges.contains_key(&target),
            None => false,
        }
    }

    // A graph has the same rows in order, and counts them and their edges.
    pub(crate) fn is_shown_by(&self, graph: &Graph) -> bool {
        let mut edges: u64 = 0;
        let mut remaining = self.rows.iter();
        for (id, row) in graph.iter() {
            let Some((expected, plain)) = remaining.next() else {
                return false;
            };
            if id != expected || !is_row(row, plain) {
                return false;
            }
            edges = edges.saturating_add(plain.edges.len() as u64);
        }
        remaining.next().is_none()
            && graph.vertices() == self.rows.len() as u64
            && graph.edges() == edges
    }
}

// A row has the same input, and the same edges in order.
fn is_row(row: &Row, plain: &PlainRow) -> bool {
    let edges = row.edges.as_slice();
    row.input == plain.input
        && edges.len() == plain.edges.len()
        && edges
            .iter()
            .zip(&plain.edges)
            .all(|(edge, (target, weight))| *edge == (*target, *weight))
}
