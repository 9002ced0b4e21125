//! Graphs by hand.
use pg_graph::{Batch, Edit, Graph, Memory, VertexId};
use std::alloc::Global;
use std::fmt::Write;
use std::test::Fail;

/// The id with this number.
pub fn id(number: u64) -> Result<VertexId, Fail> {
    Ok(VertexId::new(number).ok_or("a number above 2^63 - 1")?)
}

/// The graph of these vertices with their inputs, and of these edges with their weights.
pub fn graph_of(
    alloc: Global,
    vertices: &[(u64, i64)],
    edges: &[(u64, u64, i64)],
) -> Result<Graph, Fail> {
    let mut batch = Batch::new(alloc);
    for (number, input) in vertices {
        batch.push(Edit::AddVertex(id(*number)?, *input))?;
    }
    for (source, target, weight) in edges {
        batch.push(Edit::AddEdge(id(*source)?, id(*target)?, *weight))?;
    }
    let mut graph = Graph::new(alloc);
    graph.apply(alloc, &batch)?;
    Ok(graph)
}

/// Each edge as `target=weight,`.
pub fn write_edges(text: &mut String, edges: &[(VertexId, i64)]) -> Result<(), Memory> {
    for (target, weight) in edges {
        write!(text, "{target}={weight},")?;
    }
    Ok(())
}

/// Each row of a graph as `id:input[target=weight,]`.
pub fn text_of(alloc: Global, graph: &Graph) -> Result<String, Memory> {
    let mut text = String::new(alloc);
    for (id, row) in graph.iter() {
        write!(&mut text, "{id}:{}[", row.input)?;
        write_edges(&mut text, row.edges.as_slice())?;
        text.push_str("]")?;
    }
    Ok(text)
}
