use pg_graph::Graph;
use std::alloc::Global;
use std::test::Fail;

// The graph of these vertices with their inputs, and of these edges.
pub(crate) fn graph_of(
    alloc: Global,
    vertices: &[(u64, i64)],
    edges: &[(u64, u64)],
) -> Result<Graph, Fail> {
    let mut weighted = Vec::new(alloc);
    for (source, target) in edges {
        weighted.push((*source, *target, 1))?;
    }
    tests_kit::graph_of(alloc, vertices, weighted.as_slice())
}
