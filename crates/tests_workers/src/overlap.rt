// Workers work at the same time: each of two waits for the other, at a gate and within compute.
use crate::jobs::{first, heard};
use pg_global::AnyCombiner;
use pg_graph::Graph;
use pg_workers::{MemShelf, NoFate, NoGate};
use pregeld_programs::{ReadyMaster, ReadyProgram, Sssp};
use std::alloc::Global;
use std::process::Abort;
use std::sync::Arc;
use std::test::Fail;
use tests_kit::{Heard, graph_of, id, limits_of};
use tests_rounds::{Meeting, Waiting};

// The vertices 1 and 2 without an edge.
fn two_vertices(alloc: Global) -> Result<Graph, Fail> {
    graph_of(alloc, &[(1, 0), (2, 0)], &[])
}

const ANSWER: &str = "calls 2 steps 1 1 losses; in 1: 1=0 2=9223372036854775807";

#[test]
fn workers_meet_at_the_gate(rt: HostRuntime) -> Result<(), Fail> {
    let alloc = rt.alloc();
    let (graph, limits) = (two_vertices(alloc)?, limits_of(2, 2, 0, 0)?);
    let program = ReadyProgram::Sssp(Sssp { source: id(1)? });
    let (master, none) = (ReadyMaster { program }, AnyCombiner::NoCombiner);
    let gate = Meeting::new();
    let mut shelf = MemShelf::new(alloc);
    let (reported, _) = first(
        &rt, alloc, &graph, &program, &none, &master, limits, &mut shelf, &NoFate, &gate,
    )?;
    assert_eq!(rt; reported.as_str(), ANSWER);
    assert!(rt; gate.was_held());
    Ok(())
}

// Vertex 1 is of partition 1, which worker 1 hosts, and vertex 2 of partition 0.
#[test]
fn vertices_meet_in_compute(rt: HostRuntime) -> Result<(), Fail> {
    let alloc = rt.alloc();
    let (graph, limits) = (two_vertices(alloc)?, limits_of(2, 2, 0, 0)?);
    let inner = ReadyProgram::Sssp(Sssp { source: id(1)? });
    let (master, none) = (ReadyMaster { program: inner }, AnyCombiner::NoCombiner);
    let meeting = Arc::new(alloc, Meeting::new())?;
    let listener = Waiting {
        meeting: Arc::try_clone(&meeting)?,
    };
    let program = Heard { inner, listener };
    let reported = heard(
        &rt, alloc, &graph, &program, &none, &master, limits, &NoFate, &NoGate,
    )?;
    assert_eq!(rt; reported.as_str(), ANSWER);
    assert!(rt; meeting.was_held());
    Ok(())
}
