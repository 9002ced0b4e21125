// A session by calls: a graph, a search, an edit, and the search against the first one.
use crate::{Search, Searching, searching, widest_paths};
use pg_graph::{Batch, Edit, VertexId};
use pg_model::Ending;
use pg_service::{Answers, Limits};
use std::alloc::Global;
use std::process::Abort;
use std::sync::Wait;
use std::test::Fail;
use std::thread::Threads;

fn id(rt: &impl Abort, number: u64) -> VertexId {
    VertexId::new(number).expect(rt, "an id")
}

// Looks for the widest paths from 1, until one to 3 is as wide as this.
fn service<R: Wait + Abort>(rt: &R, alloc: Global, enough: i64) -> Result<Searching, Fail> {
    let search = Search {
        source: id(rt, 1),
        target: id(rt, 3),
        enough,
    };
    let limits = Limits::new(2, 1, 1000, 0, 0).ok_or("limits")?;
    Ok(searching(rt, alloc, &search, limits)?)
}

// The roads: 1 leads to 2 and 3, 2 leads to 3, and 3 leads to 4.
fn roads(rt: &impl Abort, alloc: Global) -> Result<Batch, Fail> {
    let [one, two, three, four] = [id(rt, 1), id(rt, 2), id(rt, 3), id(rt, 4)];
    let edits = [
        Edit::AddVertex(one, 0),
        Edit::AddVertex(two, 0),
        Edit::AddVertex(three, 0),
        Edit::AddVertex(four, 0),
        Edit::AddEdge(one, two, 8),
        Edit::AddEdge(one, three, 3),
        Edit::AddEdge(two, three, 5),
        Edit::AddEdge(three, four, 9),
    ];
    let mut batch = Batch::new(alloc);
    for edit in edits {
        batch.push(edit)?;
    }
    Ok(batch)
}

// What a search has to find: values, the width at 3, ending and supersteps, and its calls.
#[derive(Drop)]
struct Wanted<'a> {
    values: &'a [(u64, i64)],
    found: i64,
    ending: Ending,
    supersteps: u32,
    calls: u64,
}

// The service searches its graph: the ending, the supersteps and the calls.
fn searched<R: Threads + Wait + Sync>(
    rt: &R,
    alloc: Global,
    service: &mut Searching,
) -> Result<(Ending, u32, u64), Fail> {
    let report = widest_paths(rt, alloc, service)?;
    Ok((report.ending, report.supersteps, report.calls))
}

// These values are published, and this width at 3.
fn are_published(answers: &Answers<i64>, wanted: &Wanted<'_>) -> bool {
    if answers.values().len() != wanted.values.len() {
        return false;
    }
    for ((id, width), (number, other)) in answers.values().iter().zip(wanted.values) {
        if id.number() != *number || *width != *other {
            return false;
        }
    }
    answers.aggregate("found") == Some(wanted.found)
}

// The service searches its graph, and finds this.
fn finds<R: Threads + Wait + Sync + Abort>(
    rt: &R,
    alloc: Global,
    service: &mut Searching,
    wanted: &Wanted<'_>,
) -> Result<(), Fail> {
    let found = searched(rt, alloc, service)?;
    assert_eq!(rt; found, (wanted.ending, wanted.supersteps, wanted.calls));
    let answers = service.answers().ok_or("answers")?;
    assert!(rt; are_published(answers, wanted));
    Ok(())
}

// All paths; then the road from 1 to 3 is made wider. Of the second search's eight executions four have other inputs:
// vertex 1 in superstep 0, 3 in supersteps 1 and 2, and 4 in superstep 2.
fn finds_wider<R: Threads + Wait + Sync + Abort>(
    rt: &R,
    alloc: Global,
    service: &mut Searching,
) -> Result<(), Fail> {
    let first = Wanted {
        values: &[(1, i64::MAX), (2, 8), (3, 5), (4, 5)],
        found: 5,
        ending: Ending::Finished,
        supersteps: 4,
        calls: 9,
    };
    service.edit(alloc, &roads(rt, alloc)?)?;
    finds(rt, alloc, service, &first)?;
    let mut wider = Batch::new(alloc);
    wider.push(Edit::SetEdge(id(rt, 1), id(rt, 3), 7))?;
    let second = Wanted {
        values: &[(1, i64::MAX), (2, 8), (3, 7), (4, 7)],
        found: 7,
        ending: Ending::Finished,
        supersteps: 3,
        calls: 4,
    };
    service.edit(alloc, &wider)?;
    finds(rt, alloc, service, &second)
}

#[test]
fn after_an_edit(rt: HostRuntime) -> Result<(), Fail> {
    let mut service = service(&rt, rt.alloc(), 100)?;
    let found = finds_wider(&rt, rt.alloc(), &mut service);
    service.close(&rt);
    found
}

// The narrow road from 1 to 3 is enough: 4 hears of no better one.
fn finds_enough<R: Threads + Wait + Sync + Abort>(
    rt: &R,
    alloc: Global,
    service: &mut Searching,
) -> Result<(), Fail> {
    let wanted = Wanted {
        values: &[(1, i64::MAX), (2, 8), (3, 5), (4, 3)],
        found: 5,
        ending: Ending::MasterHalted,
        supersteps: 3,
        calls: 8,
    };
    service.edit(alloc, &roads(rt, alloc)?)?;
    finds(rt, alloc, service, &wanted)
}

#[test]
fn halted_at_enough(rt: HostRuntime) -> Result<(), Fail> {
    let mut service = service(&rt, rt.alloc(), 3)?;
    let found = finds_enough(&rt, rt.alloc(), &mut service);
    service.close(&rt);
    found
}
