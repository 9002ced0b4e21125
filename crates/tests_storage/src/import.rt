// Batches of lists in no order, against the same lines put into a plain graph one at a time.
use crate::plain::{PlainGraph, Random};
use pg_graph::{Batch, Edit, EditFault, Graph, Memory, VertexId};
use pg_import::{Line, into_batch};
use std::alloc::Global;

const VERTICES: u32 = 64;

const GREATEST_ID: u64 = (1 << 63) - 1;

// So far apart that the last vertex comes to the greatest id.
const APART: u64 = GREATEST_ID / (VERTICES as u64 - 1) + 1;

// Ids from 0 to the greatest, which the last vertex has, and what would come after it.
fn far_id(place: u32) -> VertexId {
    let number = u64::from(place).saturating_mul(APART);
    VertexId::new(number.min(GREATEST_ID)).unwrap()
}

// Every second vertex, with an edge to itself and one to the next vertex.
fn batch_before(alloc: Global, plain: &mut PlainGraph) -> Result<Batch, Memory> {
    let mut batch = Batch::new(alloc);
    for place in (0..VERTICES).step_by(2) {
        let (vertex, next) = (far_id(place), far_id(place + 1));
        for edit in [
            Edit::AddVertex(vertex, -1),
            Edit::AddEdge(vertex, vertex, -2),
            Edit::AddEdge(vertex, next, -3),
        ] {
            plain.edit(alloc, &edit)?;
            batch.push(edit)?;
        }
    }
    Ok(batch)
}

// So many lines from random vertices: of four one leads to the vertex itself, one to the next, two to random ones.
fn lines_of(alloc: Global, count: u32) -> Result<Vec<Line>, Memory> {
    let mut random = Random::new(count);
    let mut lines = Vec::new(alloc);
    for number in 0..count {
        let source = random.below(VERTICES);
        let target = match number % 4 {
            0 => source,
            1 => source + 1,
            _ => random.below(VERTICES),
        };
        lines.push(Line {
            source: far_id(source),
            target: far_id(target),
            weight: i64::from(number),
        })?;
    }
    Ok(lines)
}

// Puts the edges of lines into a plain graph, with those of their ends that aren't there yet.
fn put_lines(alloc: Global, plain: &mut PlainGraph, lines: &[Line]) -> Result<(), Memory> {
    for line in lines {
        for end in [line.source, line.target] {
            if !plain.has_vertex(end) {
                plain.edit(alloc, &Edit::AddVertex(end, 0))?;
            }
        }
        plain.put_edge(line.source, line.target, line.weight)?;
    }
    Ok(())
}

// Brings lines into a graph, and into a plain one.
fn bring(
    alloc: Global,
    graph: &mut Graph,
    plain: &mut PlainGraph,
    lines: &[Line],
) -> Result<(), EditFault> {
    let batch = into_batch(alloc, lines, graph)?;
    graph.apply(alloc, &batch)?;
    put_lines(alloc, plain, lines)?;
    Ok(())
}

// So many lines, and then as many others, are brought into a graph that has some of their vertices and edges.
fn are_imported(alloc: Global, counts: &[u32]) -> Result<bool, EditFault> {
    let mut graph = Graph::new(alloc);
    let mut plain = PlainGraph::new(alloc);
    let before = batch_before(alloc, &mut plain)?;
    graph.apply(alloc, &before)?;
    for count in counts {
        let lines = lines_of(alloc, *count)?;
        bring(alloc, &mut graph, &mut plain, lines.as_slice())?;
    }
    Ok(plain.is_shown_by(&graph))
}

// Vertices with so many edges each, to the first ones.
fn batch_of_degrees(alloc: Global, plain: &mut PlainGraph) -> Result<Batch, Memory> {
    let mut batch = Batch::new(alloc);
    for (place, degree) in [(0, 15), (2, 16), (4, 17), (6, 0), (8, 40)] {
        let vertex = Edit::AddVertex(far_id(place), -1);
        plain.edit(alloc, &vertex)?;
        batch.push(vertex)?;
        for target in 0..degree {
            let edge = Edit::AddEdge(far_id(place), far_id(target), -2);
            plain.edit(alloc, &edge)?;
            batch.push(edge)?;
        }
    }
    Ok(batch)
}

// From each of some vertices, of which a graph has every second one, to the first one, to the last ones of 15, 16 and
// 17, to one that isn't there, and to the first one again.
fn lines_at_ends(alloc: Global) -> Result<Vec<Line>, Memory> {
    let mut lines = Vec::new(alloc);
    for target in [0, 14, 1, 16, 15, 63, 0] {
        for source in [9, 4, 1, 8, 3, 0, 6, 2, 5, 7, 10] {
            lines.push(Line {
                source: far_id(source),
                target: far_id(target),
                weight: i64::from(source) - i64::from(target),
            })?;
        }
    }
    Ok(lines)
}

// Fewer than 256 lines are put in order by comparing, more by some bits at a time, the more the more lines there are.
// The second list finds more edges at each source than the first one.
#[test]
fn lists_in_no_order(rt: HostRuntime) -> Result<(), EditFault> {
    for counts in [[100, 101], [256, 257], [1_800, 1_801], [5_000, 5_001]] {
        let [first, second] = counts;
        assert!(rt;
            are_imported(rt.alloc(), &counts)?,
            "{first} lines and {second}"
        );
    }
    Ok(())
}

// Few edges are gone over one by one, and more are searched.
#[test]
fn few_edges_and_more(rt: HostRuntime) -> Result<(), EditFault> {
    let alloc = rt.alloc();
    let mut graph = Graph::new(alloc);
    let mut plain = PlainGraph::new(alloc);
    let before = batch_of_degrees(alloc, &mut plain)?;
    graph.apply(alloc, &before)?;
    let lines = lines_at_ends(alloc)?;
    bring(alloc, &mut graph, &mut plain, lines.as_slice())?;
    assert!(rt; plain.is_shown_by(&graph));
    Ok(())
}
