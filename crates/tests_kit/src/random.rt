//! Numbers, graphs and edits at random.
use crate::graphs::id;
use pg_graph::{Batch, Edit, Graph, VertexId};
use std::alloc::Global;
use std::test::Fail;

/// Numbers at random, the same ones from the same seed.
#[derive(Drop)]
pub struct Random {
    seed: u64,
}

impl Random {
    /// The numbers from this seed.
    pub fn new(seed: u64) -> Random {
        Random { seed }
    }

    /// A number below this one.
    pub fn below(&mut self, count: u32) -> u32 {
        self.seed = self
            .seed
            .wrapping_mul(6_364_136_223_846_793_005)
            .wrapping_add(1_442_695_040_888_963_407);
        let drawn = u32::try_from(self.seed >> 33).unwrap_or(0);
        drawn.checked_rem(count).unwrap_or(0)
    }

    /// One of so many ids, from 1 on.
    pub fn id(&mut self, count: u32) -> Result<VertexId, Fail> {
        id(u64::from(self.below(count)).saturating_add(1))
    }
}

/// How large a graph at random is: how many vertices and edges are added to it, and how many ids, from 1 on, there are
/// for the targets of edges and for the sources of edits.
#[derive(Clone, Copy)]
pub struct GraphSize {
    pub vertices: u32,
    pub edges: u32,
    pub targets: u32,
    pub sources: u32,
}

/// A graph at random. Edges that are drawn twice are there once.
pub fn random_graph(alloc: Global, size: GraphSize, random: &mut Random) -> Result<Graph, Fail> {
    let mut graph = Graph::new(alloc);
    let mut batch = Batch::new(alloc);
    for number in 0..size.vertices {
        let vertex = id(u64::from(number).saturating_add(1))?;
        batch.push(Edit::AddVertex(vertex, i64::from(random.below(50))))?;
    }
    graph.apply(alloc, &batch)?;
    for _ in 0..size.edges {
        let (source, target) = (random.id(size.vertices)?, random.id(size.targets)?);
        let edit = Edit::AddEdge(source, target, i64::from(random.below(5)));
        edit_if_lawful(alloc, &mut graph, edit)?;
    }
    Ok(graph)
}

/// Makes an edit, if the graph allows it, and tells whether it does.
pub fn edit_if_lawful(alloc: Global, graph: &mut Graph, edit: Edit) -> Result<bool, Fail> {
    let mut batch = Batch::new(alloc);
    batch.push(edit)?;
    Ok(graph.apply(alloc, &batch).is_ok())
}

/// An edit at random of a vertex or of one of its edges.
pub fn random_edit(size: GraphSize, source: VertexId, random: &mut Random) -> Result<Edit, Fail> {
    let (target, number) = (random.id(size.targets)?, i64::from(random.below(50)));
    Ok(match random.below(6) {
        0 => Edit::RemoveVertex(source),
        1 => Edit::AddVertex(source, number),
        2 => Edit::SetInput(source, number),
        3 => Edit::AddEdge(source, target, number),
        4 => Edit::SetEdge(source, target, number),
        _ => Edit::RemoveEdge(source, target),
    })
}

/// The graph after three edits at random, and the ids that they name.
pub fn edited(
    alloc: Global,
    graph: &Graph,
    size: GraphSize,
    random: &mut Random,
) -> Result<(Graph, Vec<VertexId>), Fail> {
    let mut after = graph.copy(alloc)?;
    let mut touched = Vec::new(alloc);
    for _ in 0..3 {
        let source = random.id(size.sources)?;
        let edit = random_edit(size, source, random)?;
        edit_if_lawful(alloc, &mut after, edit)?;
        touched.push(source)?;
    }
    Ok((after, touched))
}
