use pg_checkpoint::{MemShelf, Shelf, save};
use pg_global::Registry;
use pg_graph::{Batch, Edges, Edit, Graph, Memory, Missing, PartitionId, VertexId};
use pg_model::{Place, Record, Sequence};
use pg_part::{Part, Partitioner};
use pregeld_programs::Sssp;
use std::alloc::Global;
use std::test::*;

// Partition 1 of three of the vertices 1, 2 and 3 with the edges 1 to 2 and 2 to 3, past superstep 0 of run 1: vertex 1
// halted with value 0, sent 5 along its edge of weight 5, and contributed 1 at place 0.
pub(crate) const SAVED: [u8; 126] = [
    0x50, 0x47, 0x43, 0x32, 0x7e, 0, 0, 0, 0, 0, 0, 0, 1, 0, 0, 0, 0, 0, 0, 0, 1, 0, 0, 0, 1, 0, 0,
    0, 1, 0, 0, 0, 0, 0, 0, 0, 1, 0, 0, 0, 0, 0, 0, 0, 1, 0, 0, 0, 0, 0, 0, 0, 1, 0, 0, 0, 0, 0, 0,
    0, 0, 1, 0, 0, 0, 0, 0, 0, 0, 2, 0, 0, 0, 0, 0, 0, 0, 5, 0, 0, 0, 0, 0, 0, 0, 1, 0, 0, 0, 0, 0,
    0, 0, 2, 0, 0, 0, 0, 0, 0, 0, 5, 0, 0, 0, 0, 0, 0, 0, 1, 0, 0, 0, 0, 0, 0, 0, 0, 1, 0, 0, 0, 0,
    0, 0, 0,
];

pub(crate) fn id(number: u64) -> Result<VertexId, Fail> {
    Ok(VertexId::new(number).ok_or("a number above 2^63 - 1")?)
}

pub(crate) fn graph(alloc: Global) -> Result<Graph, Fail> {
    let mut batch = Batch::new(alloc);
    batch.push(Edit::AddVertex(id(1)?, 0))?;
    batch.push(Edit::AddVertex(id(2)?, 0))?;
    batch.push(Edit::AddVertex(id(3)?, 0))?;
    batch.push(Edit::AddEdge(id(1)?, id(2)?, 5))?;
    batch.push(Edit::AddEdge(id(2)?, id(3)?, 2))?;
    let mut graph = Graph::new(alloc);
    graph.apply(alloc, &batch)?;
    Ok(graph)
}

// What vertex 1 gave, with these out-edges.
fn given(alloc: Global, edges: Edges, target: VertexId) -> Result<Record<i64, i64>, Memory> {
    let mut sent = Sequence::new(alloc);
    sent.push((target, 5))?;
    let mut contributed = Sequence::new(alloc);
    contributed.push((Place::new(0), 1))?;
    Ok(Record {
        value: 0,
        edges,
        halted: true,
        sent,
        contributed,
    })
}

// The part past superstep 0.
fn stepped(alloc: Global, graph: &Graph) -> Result<Part<i64, i64>, Fail> {
    let partitioner = Partitioner::new(3).ok_or("three partitions")?;
    let rows = partitioner.rows(graph, PartitionId::new(1));
    let registry = Registry::new(alloc);
    let part = Part::begin(
        alloc,
        rows,
        Missing::Drop,
        &registry,
        &Sssp { source: id(1)? },
    )?;
    let mut records = Vec::new(alloc);
    let row = graph.row(id(1)?).ok_or("vertex 1 is there")?;
    records.push((id(1)?, given(alloc, row.edges.copy()?, id(2)?)?))?;
    let mut supersteps = Vec::new(alloc);
    supersteps.push(records)?;
    Ok(part.resume(alloc, supersteps, &registry)?)
}

#[test]
fn saves_the_bytes_of_the_format(rt: HostRuntime) -> Result<(), Fail> {
    let alloc = rt.alloc();
    let graph = graph(alloc)?;
    let part = stepped(alloc, &graph)?;
    let mut shelf = MemShelf::new(alloc);
    assert!(rt; save(alloc, &mut shelf, &part, 1).is_ok());
    let found = shelf.get(alloc, b"p1").ok().ok_or("the shelf is at hand")?;
    let bytes = found.ok_or("something stands there")?;
    assert_eq!(rt; bytes.as_slice(), SAVED.as_slice());
    Ok(())
}
