use pg_graph::{Batch, Edit, Graph, VertexId};
use pg_import::{
    ImportFault, Line, Words, bare_line, into_batch, read_csv, read_id, read_list, read_weight,
};
use std::alloc::Global;
use std::process::Abort;
use std::test::Fail;
use tests_kit::text_of;

type Edge = (u64, u64, i64);

// An answer is a list of these edges.
fn has_edges(rt: &impl Abort, answer: Result<Vec<Line>, ImportFault>, edges: &[Edge]) {
    let lines = answer.expect(rt, "a list of edges");
    assert_eq!(rt; lines.len(), edges.len());
    for (line, edge) in lines.iter().zip(edges) {
        assert_eq!(rt;
            (line.source.number(), line.target.number(), line.weight),
            *edge
        );
    }
}

// An answer is a fault, by its line and the number of its kind.
fn has_fault(rt: &impl Abort, answer: Result<Vec<Line>, ImportFault>, fault: (u64, u8)) {
    match answer {
        Ok(lines) => assert_eq!(rt; lines.len(), usize::MAX, "no fault"),
        Err(found) => assert_eq!(rt; (found.line, found.kind.number()), fault),
    }
}

#[test]
fn lists(rt: HostRuntime) {
    let alloc = rt.alloc();
    let text = b"# edges\n1\t2\r\n1 2 7\n\n3 1 -4\n";
    has_edges(
        &rt,
        read_list(alloc, text),
        &[(1, 2, 1), (1, 2, 7), (3, 1, -4)],
    );
    has_edges(&rt, read_list(alloc, b""), &[]);
    has_edges(&rt, read_list(alloc, b"\n \t\n\r\n\r"), &[]);
    has_edges(&rt, read_list(alloc, b"1 2"), &[(1, 2, 1)]);
    has_edges(&rt, read_list(alloc, b"1 2\r"), &[(1, 2, 1)]);
    has_edges(&rt, read_list(alloc, b" \t# 1 \xFF\n#1 2\n# \xFF"), &[]);
    has_edges(&rt, read_list(alloc, b"  007\t0 \t-0 \n"), &[(7, 0, 0)]);
    let ends = b"1 2 -9223372036854775808\n9223372036854775807 2 9223372036854775807";
    has_edges(
        &rt,
        read_list(alloc, ends),
        &[(1, 2, i64::MIN), (i64::MAX as u64, 2, i64::MAX)],
    );
}

#[test]
fn long_line(rt: HostRuntime) -> Result<(), Fail> {
    let mut text = vec![in rt.alloc(); b'9'; 1_048_576]?;
    text.extend_from_slice(b" 1")?;
    has_fault(&rt, read_list(rt.alloc(), text.as_slice()), (1, 3));
    has_fault(&rt, read_csv(rt.alloc(), text.as_slice()), (1, 4));
    Ok(())
}

#[test]
fn commas(rt: HostRuntime) {
    let alloc = rt.alloc();
    let text = b"source,target,weight\n1,2,5\n\"2\", 3\n";
    has_edges(&rt, read_csv(alloc, text), &[(1, 2, 5), (2, 3, 1)]);
    has_edges(&rt, read_csv(alloc, b""), &[]);
    has_edges(&rt, read_csv(alloc, b"a,b"), &[]);
    has_edges(&rt, read_csv(alloc, b",\n1,2"), &[(1, 2, 1)]);
    has_edges(
        &rt,
        read_csv(alloc, b" source\t, -1 ,5,6,7\n 1\t, 2 , -3 "),
        &[(1, 2, -3)],
    );
    // A byte order mark is passed over.
    has_edges(&rt, read_csv(alloc, b"\xEF\xBB\xBF1,2"), &[(1, 2, 1)]);
    // Records end at a line feed, at a carriage return and at both.
    let ends = b"1,2\r3,4\r\n5,6\n7,8";
    has_edges(
        &rt,
        read_csv(alloc, ends),
        &[(1, 2, 1), (3, 4, 1), (5, 6, 1), (7, 8, 1)],
    );
    // Empty lines are no records.
    has_edges(
        &rt,
        read_csv(alloc, b"\n\r\n1,2\n\n\n3,4\n\n"),
        &[(1, 2, 1), (3, 4, 1)],
    );
    // Quotes may stand round any field, and a quote that isn't closed ends with the text.
    has_edges(&rt, read_csv(alloc, b"\"1\",\" 2 \",\"-3"), &[(1, 2, -3)]);
}

fn id(rt: &impl Abort, word: &[u8]) -> VertexId {
    read_id(word).expect(rt, "an id")
}

// The batch of a list, for a graph.
fn batch_of(alloc: Global, text: &[u8], graph: &Graph) -> Result<Batch, Fail> {
    let lines = read_list(alloc, text)?;
    Ok(into_batch(alloc, lines.as_slice(), graph)?)
}

// What a list of edges between 1, 2, 3 and 5 makes where nothing is there.
fn edits_of_all(rt: &impl Abort) -> [Edit; 9] {
    let (one, two, three) = (id(rt, b"1"), id(rt, b"2"), id(rt, b"3"));
    let five = id(rt, b"5");
    [
        Edit::AddVertex(one, 0),
        Edit::AddVertex(two, 0),
        Edit::AddEdge(one, two, 1),
        Edit::SetEdge(one, two, 7),
        Edit::AddVertex(three, 0),
        Edit::AddEdge(three, one, -4),
        Edit::AddVertex(five, 0),
        Edit::AddEdge(five, five, 1),
        Edit::SetEdge(five, five, 2),
    ]
}

#[test]
fn batches(rt: HostRuntime) -> Result<(), Fail> {
    let alloc = rt.alloc();
    let text = b"1 2\n1 2 7\n3 1 -4\n5 5\n5 5 2";
    let batch = batch_of(alloc, text, &Graph::new(alloc))?;
    assert_eq!(rt; batch.as_slice(), edits_of_all(&rt).as_slice());
    Ok(())
}

// 1 and 3 are there, and so is the edge from 1 to 2, whose target isn't.
fn edits_before(rt: &impl Abort) -> [Edit; 4] {
    let (one, three) = (id(rt, b"1"), id(rt, b"3"));
    [
        Edit::AddVertex(one, 10),
        Edit::AddEdge(one, id(rt, b"2"), 5),
        Edit::AddVertex(three, 30),
        Edit::AddEdge(three, id(rt, b"9"), 2),
    ]
}

fn graph_before(rt: &impl Abort, alloc: Global) -> Result<Graph, Fail> {
    let mut batch = Batch::new(alloc);
    for edit in edits_before(rt) {
        batch.push(edit)?;
    }
    let mut graph = Graph::new(alloc);
    graph.apply(alloc, &batch)?;
    Ok(graph)
}

// What a list adds to what is there.
fn edits_of_both(rt: &impl Abort) -> [Edit; 5] {
    let (one, two, three) = (id(rt, b"1"), id(rt, b"2"), id(rt, b"3"));
    [
        Edit::AddVertex(two, 0),
        Edit::SetEdge(one, two, 7),
        Edit::AddEdge(three, one, -4),
        Edit::SetEdge(three, one, 6),
        Edit::AddEdge(two, three, 1),
    ]
}

// The graph has these rows.
fn has_rows(rt: &impl Abort, alloc: Global, graph: &Graph, rows: &str) -> Result<(), Fail> {
    assert_eq!(rt; text_of(alloc, graph)?.as_str(), rows);
    Ok(())
}

#[test]
fn adds_only_what_the_graph_lacks(rt: HostRuntime) -> Result<(), Fail> {
    let alloc = rt.alloc();
    let mut graph = graph_before(&rt, alloc)?;
    let batch = batch_of(alloc, b"1 2 7\n3 1 -4\n3 1 6\n2 3", &graph)?;
    assert_eq!(rt; batch.as_slice(), edits_of_both(&rt).as_slice());
    graph.apply(alloc, &batch)?;
    has_rows(&rt, alloc, &graph, "1:10[2=7,]2:0[3=1,]3:30[1=6,9=2,]")?;
    assert_eq!(rt; (graph.vertices(), graph.edges()), (3, 4));
    Ok(())
}

// A list of so many edges, none of which shares a vertex with another.
fn edges_apart(alloc: Global, count: u64) -> Result<String, Fail> {
    let mut text = String::new(alloc);
    for line in 0..count {
        let source = line.saturating_mul(2).saturating_add(1);
        let target = source.saturating_add(1);
        writeln!(text, "{source} {target}")?;
    }
    Ok(text)
}

#[test]
fn long_batches(rt: HostRuntime) -> Result<(), Fail> {
    let alloc = rt.alloc();
    for (count, edits) in [(33_333u64, 99_999), (33_334, 100_002)] {
        let text = edges_apart(alloc, count)?;
        let batch = batch_of(alloc, text.as_bytes(), &Graph::new(alloc))?;
        assert_eq!(rt; batch.as_slice().len(), edits);
    }
    Ok(())
}

fn is_next(rt: &impl Abort, words: &mut Words<'_>, word: &[u8]) {
    assert_eq!(rt; words.next(), Some(word));
}

#[test]
fn words(rt: HostRuntime) {
    let mut words = Words::new(bare_line(b"\t edge 1\t 2  \r\n"));
    is_next(&rt, &mut words, b"edge");
    is_next(&rt, &mut words, b"1");
    is_next(&rt, &mut words, b"2");
    assert!(rt; words.next().is_none());
    assert!(rt; words.next().is_none());
}

#[test]
fn weights(rt: HostRuntime) {
    assert_eq!(rt; read_weight(b"-12"), Ok(-12));
    assert_eq!(rt; read_weight(b"").map_err(|kind| kind.number()), Err(2));
}
