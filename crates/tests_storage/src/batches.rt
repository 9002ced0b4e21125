// Batches that edit a large row, or few rows of many, against the same edits made one at a time of a plain graph.
use crate::plain::{PlainGraph, Random, id};
use pg_graph::{Batch, Edit, EditFault, Graph, Memory};
use std::alloc::Global;

// A vertex that may have many edges, and the even ones.
const BEFORE: u32 = 300;

const HUB: u32 = 301;

const AFTER: u32 = 302;

// The edges of the hub lead to vertices below this.
const TARGETS: u32 = 600;

// Adds an edit to a batch, and makes it of a plain graph.
fn push(
    alloc: Global,
    batch: &mut Batch,
    plain: &mut PlainGraph,
    edit: Edit,
) -> Result<(), Memory> {
    plain.edit(alloc, &edit)?;
    batch.push(edit)
}

// So many vertices with even numbers, each with an edge to the number before it and to the one after it.
fn evens(alloc: Global, plain: &mut PlainGraph, vertices: u16) -> Result<Batch, Memory> {
    let mut batch = Batch::new(alloc);
    for number in 1..=vertices {
        let even = 2 * u32::from(number);
        push(alloc, &mut batch, plain, Edit::AddVertex(id(even), -1))?;
        for target in [even - 1, even + 1] {
            let edit = Edit::AddEdge(id(even), id(target), -2);
            push(alloc, &mut batch, plain, edit)?;
        }
    }
    Ok(batch)
}

// Adds the hub, with edges to so many even numbers from 0 on.
fn add_hub(
    alloc: Global,
    batch: &mut Batch,
    plain: &mut PlainGraph,
    degree: u16,
) -> Result<(), Memory> {
    push(alloc, batch, plain, Edit::AddVertex(id(HUB), -3))?;
    for number in 0..degree {
        let even = 2 * u32::from(number);
        push(alloc, batch, plain, Edit::AddEdge(id(HUB), id(even), -4))?;
    }
    Ok(())
}

// An edit of the edge from the hub to a random target: it is added where it isn't there, and else set or removed.
fn hub_edit(plain: &PlainGraph, random: &mut Random, weight: i64) -> Edit {
    let (hub, target) = (id(HUB), id(random.below(TARGETS)));
    if !plain.has_edge(hub, target) {
        return Edit::AddEdge(hub, target, weight);
    }
    match random.below(2) {
        0 => Edit::SetEdge(hub, target, weight),
        _ => Edit::RemoveEdge(hub, target),
    }
}

// So many edits of the hub, and one of each other vertex.
fn edits_of_hub(alloc: Global, plain: &mut PlainGraph, edits: u16) -> Result<Batch, Memory> {
    let (before, hub, after) = (id(BEFORE), id(HUB), id(AFTER));
    let mut random = Random::new(u32::from(edits));
    let mut batch = Batch::new(alloc);
    push(alloc, &mut batch, plain, Edit::SetEdge(after, hub, -5))?;
    for number in 0..edits {
        let edit = hub_edit(plain, &mut random, i64::from(number));
        push(alloc, &mut batch, plain, edit)?;
    }
    push(alloc, &mut batch, plain, Edit::RemoveEdge(before, hub))?;
    Ok(batch)
}

// Two rows that get other edges, a vertex that is removed and one that is added, in no order.
fn edits_of_four(alloc: Global, plain: &mut PlainGraph) -> Result<Batch, Memory> {
    let (low, gone, new, high) = (id(100), id(102), id(103), id(200));
    let mut batch = Batch::new(alloc);
    for edit in [
        Edit::AddEdge(high, gone, 1),
        Edit::AddVertex(new, 2),
        Edit::SetEdge(low, id(101), 3),
        Edit::RemoveEdge(high, id(201)),
        Edit::RemoveVertex(gone),
        Edit::AddEdge(new, low, 4),
        Edit::SetInput(high, 5),
        Edit::AddEdge(low, new, 6),
    ] {
        push(alloc, &mut batch, plain, edit)?;
    }
    Ok(batch)
}

// A batch makes of a graph what a plain graph is.
fn makes(
    alloc: Global,
    graph: &mut Graph,
    batch: &Batch,
    plain: &PlainGraph,
) -> Result<bool, EditFault> {
    graph.apply(alloc, batch)?;
    Ok(plain.is_shown_by(graph))
}

// Of so many vertices and a hub with so many edges, the hub is edited so often.
fn hub_is_edited(alloc: Global, vertices: u16, degree: u16, edits: u16) -> Result<bool, EditFault> {
    let mut graph = Graph::new(alloc);
    let mut plain = PlainGraph::new(alloc);
    let mut made = evens(alloc, &mut plain, vertices)?;
    add_hub(alloc, &mut made, &mut plain, degree)?;
    let is_made = makes(alloc, &mut graph, &made, &plain)?;
    let edited = edits_of_hub(alloc, &mut plain, edits)?;
    Ok(is_made && makes(alloc, &mut graph, &edited, &plain)?)
}

// Of so many vertices four are edited.
fn four_are_edited(alloc: Global, vertices: u16) -> Result<bool, EditFault> {
    let mut graph = Graph::new(alloc);
    let mut plain = PlainGraph::new(alloc);
    let made = evens(alloc, &mut plain, vertices)?;
    let is_made = makes(alloc, &mut graph, &made, &plain)?;
    let edited = edits_of_four(alloc, &mut plain)?;
    Ok(is_made && makes(alloc, &mut graph, &edited, &plain)?)
}

// What the first edit of a map does is random, so there are several numbers of edits above 64.
const EDITS: [u16; 10] = [40, 64, 65, 66, 67, 68, 69, 70, 71, 200];

// A row with more than 256 edges and edits is edited by itself: in a list up to 64 edits, and in a map from then on.
// Three rows are a 64th of 192, and are gathered there; of 193 they are less.
#[test]
fn a_hub_is_edited(rt: HostRuntime) -> Result<(), EditFault> {
    for (vertices, degree) in [(191, 192), (191, 257), (192, 192), (192, 257)] {
        for edits in EDITS {
            let is_edited = hub_is_edited(rt.alloc(), vertices, degree, edits)?;
            assert!(rt; is_edited, "{edits} edits of {degree} among {vertices}");
        }
    }
    Ok(())
}

// Four rows are a 64th of 256, and are gathered there; of 257 they are less.
#[test]
fn few_rows_are_edited(rt: HostRuntime) -> Result<(), EditFault> {
    for vertices in [256, 257] {
        assert!(rt; four_are_edited(rt.alloc(), vertices)?, "of {vertices}");
    }
    Ok(())
}
