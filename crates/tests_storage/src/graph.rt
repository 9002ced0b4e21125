ghost use Rattle.std.specs.Prelude.{◌≡◌, ◌<◌};

use pg_graph::{Batch, Edges, Edit, EditFault, Graph, Memory, Row, VertexId};
use std::alloc::Global;
use tests_kit::{text_of, write_edges};

fn id(number: u32) -> VertexId
    ensures { result ≡ number }
{
    VertexId::new(u64::from(number)).unwrap()
}

fn two_edges(alloc: Global, low: VertexId, high: VertexId) -> Result<Edges, Memory>
    requires { low < high }
{
    let edges = vec![in alloc; (low, 3), (high, -4)]?;
    Edges::from_rising(alloc, edges)
}

fn batch_of(alloc: Global, edits: &[Edit]) -> Result<Batch, Memory> {
    let mut batch = Batch::new(alloc);
    for edit in edits {
        batch.push(*edit)?;
    }
    Ok(batch)
}

fn apply_all(alloc: Global, graph: &mut Graph, edits: &[Edit]) -> Result<(), EditFault> {
    let batch = batch_of(alloc, edits)?;
    graph.apply(alloc, &batch)
}

// The place and the number of a fault, or 0 and 0 where there was none.
fn fault_in(answer: Result<(), EditFault>) -> (u64, u8) {
    match answer {
        Ok(()) => (0, 0),
        Err(fault) => (fault.position, fault.kind.number()),
    }
}

// The graph of 1 with edges to 2 and to itself, and of 2 with an edge to a missing 9.
fn sample(alloc: Global) -> Result<Graph, EditFault> {
    let (one, two) = (id(1), id(2));
    let edits = [
        Edit::AddVertex(two, -20),
        Edit::AddVertex(one, 10),
        Edit::AddEdge(one, two, 5),
        Edit::AddEdge(two, id(9), i64::MIN),
        Edit::AddEdge(one, one, 7),
    ];
    let mut graph = Graph::new(alloc);
    apply_all(alloc, &mut graph, &edits)?;
    Ok(graph)
}

// The graph still shows what it was made of.
fn is_sample(alloc: Global, graph: &Graph) -> Result<bool, Memory> {
    let text = text_of(alloc, graph)?;
    Ok(text.as_str() == "1:10[1=7,2=5,]2:-20[9=-9223372036854775808,]")
}

// The graph has so many vertices and edges.
fn counts(graph: &Graph, vertices: u64, edges: u64) -> bool {
    graph.vertices() == vertices && graph.edges() == edges
}

// One edit of each kind, and two that add vertices.
fn edit_each_way(alloc: Global, graph: &mut Graph) -> Result<(), EditFault> {
    let (one, two, three) = (id(1), id(2), id(3));
    let edits = [
        Edit::AddVertex(three, 30),
        Edit::AddEdge(three, two, 1),
        Edit::SetInput(one, 11),
        Edit::RemoveVertex(two),
        Edit::SetEdge(one, two, 6),
        Edit::RemoveEdge(one, one),
        Edit::AddEdge(one, three, 8),
        Edit::AddVertex(two, 22),
    ];
    apply_all(alloc, graph, &edits)
}

fn edited_sample(alloc: Global) -> Result<Graph, EditFault> {
    let mut graph = sample(alloc)?;
    edit_each_way(alloc, &mut graph)?;
    Ok(graph)
}

#[test]
fn makes_each_edit(rt: HostRuntime) -> Result<(), EditFault> {
    let graph = edited_sample(rt.alloc())?;
    assert!(rt; counts(&graph, 3, 3));
    let text = text_of(rt.alloc(), &graph)?;
    assert_eq!(rt; text.as_str(), "1:11[2=6,3=8,]2:22[]3:30[2=1,]");
    Ok(())
}

// A batch whose third edit is this one, and whose others can be made in the sample.
fn batch_with(alloc: Global, third: Edit) -> Result<Batch, Memory> {
    let mut batch = Batch::new(alloc);
    batch.push(Edit::SetInput(id(1), 99))?;
    batch.push(Edit::AddVertex(id(8), 0))?;
    batch.push(third)?;
    batch.push(Edit::SetInput(id(1), 99))?;
    Ok(batch)
}

// Edits that the sample refuses, each with the number of its fault.
fn refused_edits() -> [(Edit, u8); 9] {
    let (one, two, nine) = (id(1), id(2), id(9));
    [
        (Edit::AddVertex(id(8), 0), 2),
        (Edit::SetInput(nine, 0), 3),
        (Edit::RemoveVertex(nine), 3),
        (Edit::AddEdge(nine, one, 0), 3),
        (Edit::SetEdge(nine, one, 0), 3),
        (Edit::RemoveEdge(nine, one), 3),
        (Edit::AddEdge(one, two, 0), 4),
        (Edit::SetEdge(two, one, 0), 5),
        (Edit::RemoveEdge(two, one), 5),
    ]
}

// A batch is refused at its third edit, by the fault of this number, and leaves the sample.
fn is_refused(alloc: Global, graph: &mut Graph, edit: Edit, number: u8) -> Result<bool, Memory> {
    let batch = batch_with(alloc, edit)?;
    let (position, kind) = fault_in(graph.apply(alloc, &batch));
    let is_left = counts(graph, 2, 3) && is_sample(alloc, graph)?;
    Ok(is_left && position == 3 && kind == number)
}

#[test]
fn refused_batches_leave_the_graph(rt: HostRuntime) -> Result<(), EditFault> {
    let mut graph = sample(rt.alloc())?;
    for (edit, number) in refused_edits() {
        assert!(rt; is_refused(rt.alloc(), &mut graph, edit, number)?);
    }
    Ok(())
}

// A batch of 100,000 edits, of which the first can't be made in the sample.
fn longest(alloc: Global) -> Result<Batch, Memory> {
    let one = id(1);
    let mut batch = Batch::new(alloc);
    batch.push(Edit::AddVertex(one, 1))?;
    for _ in 0..99_999 {
        batch.push(Edit::SetInput(one, 1))?;
    }
    Ok(batch)
}

// The place and the number of the fault of the longest batch, and of one with another edit.
fn faults_of_long(alloc: Global) -> Result<((u64, u8), (u64, u8)), EditFault> {
    let mut graph = sample(alloc)?;
    let mut batch = longest(alloc)?;
    let first = fault_in(graph.apply(alloc, &batch));
    batch.push(Edit::SetInput(id(1), 2))?;
    let second = fault_in(graph.apply(alloc, &batch));
    Ok((first, second))
}

#[test]
fn limits_a_batch(rt: HostRuntime) -> Result<(), EditFault> {
    let (first, second) = faults_of_long(rt.alloc())?;
    assert_eq!(rt; first, (1, 2));
    assert_eq!(rt; second, (100_001, 6));
    Ok(())
}

// The copy keeps what the graph loses.
fn copy_stays(alloc: Global) -> Result<bool, EditFault> {
    let mut graph = sample(alloc)?;
    let copy = graph.copy(alloc)?;
    apply_all(alloc, &mut graph, &[Edit::RemoveVertex(id(1))])?;
    Ok(graph.row(id(1)).is_none() && counts(&copy, 2, 3) && is_sample(alloc, &copy)?)
}

#[test]
fn copies(rt: HostRuntime) -> Result<(), EditFault> {
    assert!(rt; copy_stays(rt.alloc())?);
    Ok(())
}

// The weight of an edge, or 0 where there is none.
fn weight_to(edges: &Edges, target: u32) -> i64 {
    edges.weight(id(target)).unwrap_or(0)
}

fn is_row_of_one(row: &Row) -> bool {
    row.input == 10 && weight_to(&row.edges, 2) == 5 && row.edges.weight(id(9)).is_none()
}

// The sample has a row of 1, whose copy is right.
fn has_row_of_one(graph: &Graph) -> Result<bool, Memory> {
    match graph.row(id(1)) {
        Some(row) => Ok(is_row_of_one(&row.copy()?)),
        None => Ok(false),
    }
}

#[test]
fn looks_up_rows(rt: HostRuntime) -> Result<(), EditFault> {
    let graph = sample(rt.alloc())?;
    assert!(rt; has_row_of_one(&graph)?);
    Ok(())
}

// A graph of vertices with these ids.
fn graph_of(alloc: Global, numbers: &[u32]) -> Result<Graph, EditFault> {
    let mut batch = Batch::new(alloc);
    for number in numbers {
        batch.push(Edit::AddVertex(id(*number), 0))?;
    }
    let mut graph = Graph::new(alloc);
    graph.apply(alloc, &batch)?;
    Ok(graph)
}

#[test]
fn has_all_where_no_id_is_left_out(rt: HostRuntime) -> Result<(), EditFault> {
    let graph = graph_of(rt.alloc(), &[5, 3, 4, 6])?;
    assert!(rt; graph.has_all(id(3), id(6)) && graph.has_all(id(4), id(4)));
    assert!(rt; !graph.has_all(id(2), id(4)) && !graph.has_all(id(4), id(7)));
    let graph = graph_of(rt.alloc(), &[3, 5])?;
    assert!(rt; !graph.has_all(id(3), id(5)) && !graph.has_all(id(4), id(4)));
    assert!(rt; !Graph::new(rt.alloc()).has_all(id(0), id(0)));
    Ok(())
}

#[test]
fn copies_edges(rt: HostRuntime) -> Result<(), Memory> {
    let edges = two_edges(rt.alloc(), id(1), id(9))?.copy()?;
    let mut text = String::new(rt.alloc());
    write_edges(&mut text, edges.as_slice())?;
    assert_eq!(rt; text.as_str(), "1=3,9=-4,");
    assert_eq!(rt; weight_to(&edges, 9), -4);
    Ok(())
}

// Adds 60 even vertices, each with an edge to the next number.
fn evens(alloc: Global) -> Result<Batch, Memory> {
    let mut batch = Batch::new(alloc);
    for number in 0..60u32 {
        let (even, odd) = (id(2 * number), id(2 * number + 1));
        batch.push(Edit::AddVertex(even, 0))?;
        batch.push(Edit::AddEdge(even, odd, 1))?;
    }
    Ok(batch)
}

fn push_move(batch: &mut Batch, even: VertexId, odd: VertexId) -> Result<(), Memory> {
    batch.push(Edit::AddVertex(odd, 0))?;
    batch.push(Edit::AddEdge(odd, even, 1))?;
    batch.push(Edit::RemoveEdge(even, odd))?;
    batch.push(Edit::RemoveVertex(even))
}

// Puts odd vertices, each with an edge back, in the places of the even ones.
fn moves(alloc: Global) -> Result<Batch, Memory> {
    let mut batch = Batch::new(alloc);
    for number in 0..60u32 {
        push_move(&mut batch, id(2 * number), id(2 * number + 1))?;
    }
    Ok(batch)
}

// A vertex has an edge to the other, which is no vertex.
fn points_to(graph: &Graph, source: u32, target: u32) -> bool {
    match graph.row(id(source)) {
        Some(row) => weight_to(&row.edges, target) == 1 && graph.row(id(target)).is_none(),
        None => false,
    }
}

// The graph has 60 vertices with an edge each: the even ones up to the next number, or the odd ones down.
fn points(graph: &Graph, up: bool) -> bool {
    for number in 0..60u32 {
        let (even, odd) = (2 * number, 2 * number + 1);
        let (source, target) = if up { (even, odd) } else { (odd, even) };
        if !points_to(graph, source, target) {
            return false;
        }
    }
    counts(graph, 60, 60)
}

fn evens_made(alloc: Global) -> Result<Graph, EditFault> {
    let mut graph = Graph::new(alloc);
    let batch = evens(alloc)?;
    graph.apply(alloc, &batch)?;
    Ok(graph)
}

// A refusal is for want of memory, and leaves the even vertices.
fn is_left(graph: &Graph, fault: EditFault) -> bool {
    fault.position == 0 && fault.kind.number() == 1 && points(graph, true)
}

// Makes a batch, once more where it was refused. The answer is whether a refusal kept the graph.
fn make(alloc: Global, graph: &mut Graph, batch: &Batch) -> Result<bool, EditFault> {
    match graph.apply(alloc, batch) {
        Ok(()) => Ok(true),
        Err(fault) => {
            let remaining = is_left(graph, fault);
            graph.apply(alloc, batch)?;
            Ok(remaining)
        }
    }
}

// A batch that adds many vertices, moves edges, and removes vertices with theirs is made in the end.
// The answer is whether the graph was right after it, and after a refusal.
fn moves_all(alloc: Global) -> Result<bool, EditFault> {
    let mut graph = evens_made(alloc)?;
    let batch = moves(alloc)?;
    Ok(make(alloc, &mut graph, &batch)? && points(&graph, false))
}

// Where an allocation is refused (bench/refuse.sh), the graph is as it was, and the batch can be made again.
#[test]
fn a_batch_moves_all(rt: HostRuntime) -> Result<(), EditFault> {
    assert!(rt; moves_all(rt.alloc())?);
    Ok(())
}
