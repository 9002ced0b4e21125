// What a service has published, against runs from scratch. All was found by hand.
use crate::hops::{
    Line, Paths, TWO_HOPS, accepted, commit, is_run_of, limits_of, refreshed, told, told_on,
    two_hops,
};
use pg_graph::{EditKind, Missing};
use pg_service::{MemShelf, NoFate, NoGate};
use std::alloc::Global;
use std::process::Abort;
use std::sync::Wait;
use std::test::Fail;
use std::thread::Threads;

const SHORTCUT: [Line; 6] = [
    Line::Vertex(1),
    Line::Vertex(2),
    Line::Vertex(3),
    Line::Edge(1, 2, 5),
    Line::Edge(2, 3, 1),
    Line::Edge(1, 3, 2),
];

// Whether a refresh of the two hops finds what a run of them finds, and what one finds with a shortcut.
fn warm_runs<R: Threads + Wait + Sync>(
    rt: &R,
    alloc: Global,
    service: &mut Paths,
) -> Result<(bool, bool), Fail> {
    let _told = refreshed(rt, alloc, service)?;
    let same = is_run_of(alloc, service, TWO_HOPS.as_slice())?;
    let other = is_run_of(alloc, service, SHORTCUT.as_slice())?;
    Ok((same, other))
}

#[test]
fn the_same_as_a_run_from_scratch(rt: HostRuntime) -> Result<(), Fail> {
    let alloc = rt.alloc();
    let mut service = two_hops(&rt, alloc, limits_of(2, 1, 0, 0)?)?;
    let found = warm_runs(&rt, alloc, &mut service);
    service.close(&rt);
    assert_eq!(rt; found?, (true, false));
    Ok(())
}

// The two hops, a shortcut, the first hop retracted, an edge that is added and taken away again.
#[test]
fn each_refresh_calls_what_differs(rt: HostRuntime) -> Result<(), Fail> {
    let alloc = rt.alloc();
    let batches: [&[Line]; 4] = [
        &TWO_HOPS,
        &[Line::Edge(1, 3, 2)],
        &[Line::Unedge(1, 2)],
        &[Line::Edge(3, 1, 1), Line::Unedge(3, 1)],
    ];
    for (partitions, workers) in [(1, 1), (3, 1), (3, 2), (64, 16)] {
        let told = told(&rt, alloc, limits_of(partitions, workers, 1, 0)?, &batches)?;
        assert_eq!(rt;
            told.as_str(),
            "calls 5 supersteps 3 losses; of 1: 1=0 2=5 3=6\n\
calls 3 supersteps 3 losses; of 2: 1=0 2=5 3=2\n\
calls 1 supersteps 2 losses; of 3: 1=0 2=9223372036854775807 3=2\n\
calls 0 supersteps 2 losses; of 4: 1=0 2=9223372036854775807 3=2\n"
        );
    }
    Ok(())
}

// A vertex that is removed, under both policies for messages to no vertex.
#[test]
fn a_removed_vertex_is_made_again_or_not(rt: HostRuntime) -> Result<(), Fail> {
    let alloc = rt.alloc();
    let batches: [&[Line]; 2] = [&TWO_HOPS, &[Line::Unvertex(2)]];
    let dropped = told(&rt, alloc, limits_of(64, 3, 0, 0)?, &batches)?;
    assert_eq!(rt;
        dropped.as_str(),
        "calls 5 supersteps 3 losses; of 1: 1=0 2=5 3=6\n\
calls 0 supersteps 1 losses; of 2: 1=0 3=9223372036854775807\n"
    );
    let creating = limits_of(2, 2, 0, 0)?.with_missing(Missing::Create);
    let made = told(&rt, alloc, creating, &batches)?;
    assert_eq!(rt;
        made.as_str(),
        "calls 5 supersteps 3 losses; of 1: 1=0 2=5 3=6\n\
calls 1 supersteps 2 losses; of 2: 1=0 2=5 3=9223372036854775807\n"
    );
    Ok(())
}

// What refreshes tell before a batch whose third edit is refused, and after an empty one; and the batch's answer.
fn after_a_refused_batch<R: Threads + Wait + Sync>(
    rt: &R,
    alloc: Global,
    service: &mut Paths,
) -> Result<(Result<u64, (u64, EditKind)>, u64, String), Fail> {
    let _told = refreshed(rt, alloc, service)?;
    let batch = [Line::Vertex(9), Line::Input(9, 7), Line::Edge(1, 2, 1)];
    let refused = commit(alloc, service, &batch)?;
    let edition = accepted(alloc, service, &[])?;
    let mut shelf = MemShelf::new(alloc);
    Ok((
        refused,
        edition,
        told_on(rt, alloc, service, &mut shelf, &NoFate, &NoGate)?,
    ))
}

// An edge that is there: nothing of the batch is applied, and the next refresh calls nothing.
#[test]
fn a_refused_batch_changes_nothing(rt: HostRuntime) -> Result<(), Fail> {
    let alloc = rt.alloc();
    for (partitions, workers) in [(1, 1), (3, 2)] {
        let mut service = two_hops(&rt, alloc, limits_of(partitions, workers, 1, 0)?)?;
        let found = after_a_refused_batch(&rt, alloc, &mut service);
        service.close(&rt);
        let (refused, edition, told) = found?;
        assert_eq!(rt; refused, Err((3, EditKind::EdgeExists)));
        assert_eq!(rt; edition, 2);
        assert_eq!(rt;
            told.as_str(),
            "calls 0 supersteps 3 losses; of 2: 1=0 2=5 3=6\n"
        );
    }
    Ok(())
}
