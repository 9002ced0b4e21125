// Which vertices are called in a run against an old one, by a program that notes its calls.
ghost use Rattle.std.specs.Prelude.{◌≡◌, true};
ghost use Rattle.pg_global.specs.Master.{has_places};

use crate::graphs::graph_of;
use crate::noting::{Noting, noting};
use crate::part_run::{SIZES, cold_run, mixed_run, reported, warm_run};
use pg_global::{AnyCombiner, MessageCombiner};
use pg_graph::{Graph, PartitionId, VertexId};
use pg_part::Partitioner;
use pg_program::{Computation, Tally};
use std::alloc::Global;
use std::fmt::Write;
use std::process::Abort;
use std::test::Fail;
use tests_kit::id;

static INPUTS: [(u64, i64); 5] = [(1, 10), (2, 20), (3, 30), (4, 40), (5, 50)];

static EDGES: [(u64, u64); 5] = [(5, 3), (4, 3), (3, 1), (2, 3), (1, 3)];

// What a program noted, and what the meter counted.
fn noted(alloc: Global, program: &Noting<Tally>, count: u64) -> Result<String, Fail> {
    let mut text = program.listener.reported(alloc)?;
    write!(text, " calls {count}")?;
    Ok(text)
}

// How many calls a run from scratch makes in two supersteps.
fn calls_cold<P: Computation, C: MessageCombiner<P::Message>>(
    alloc: Global,
    graph: &Graph,
    partitioner: Partitioner,
    program: &P,
    combiner: &C,
) -> Result<u64, Fail>
    requires { has_places (P.program program.now).declared 0 ≡ true }
{
    let made = cold_run(alloc, graph, partitioner, &[0, 0], program, combiner)?;
    Ok(made.meter.count())
}

// Which vertices it calls.
fn called(alloc: Global, graph: &Graph, partitions: u32) -> Result<String, Fail> {
    let partitioner = Partitioner::new(partitions).ok_or("no such number of partitions")?;
    let program = noting(alloc, Tally)?;
    let combiner = AnyCombiner::NoCombiner;
    let calls = calls_cold(alloc, graph, partitioner, &program, &combiner)?;
    noted(alloc, &program, calls)
}

// How many calls a run makes against one on another graph, where edits named these ids.
fn calls_warm<P: Computation, C: MessageCombiner<P::Message>>(
    alloc: Global,
    before: &Graph,
    after: &Graph,
    touched: &[VertexId],
    partitioner: Partitioner,
    first: &P,
    program: &P,
    combiner: &C,
) -> Result<u64, Fail>
    requires first { has_places (P.program first.now).declared 0 ≡ true }
    requires second { has_places (P.program program.now).declared 0 ≡ true }
{
    let old = cold_run(alloc, before, partitioner, &[0, 0], first, combiner)?;
    let made = warm_run(
        alloc,
        after,
        partitioner,
        old,
        touched,
        &[0, 0],
        program,
        combiner,
    )?;
    Ok(made.meter.count())
}

// Which vertices it calls.
fn called_warm(
    alloc: Global,
    before: &Graph,
    after: &Graph,
    touched: &[VertexId],
    partitions: u32,
) -> Result<String, Fail> {
    let partitioner = Partitioner::new(partitions).ok_or("no such number of partitions")?;
    let (first, program) = (noting(alloc, Tally)?, noting(alloc, Tally)?);
    let combiner = AnyCombiner::NoCombiner;
    let calls = calls_warm(
        alloc,
        before,
        after,
        touched,
        partitioner,
        &first,
        &program,
        &combiner,
    )?;
    noted(alloc, &program, calls)
}

// The ids with these numbers.
fn ids_of(alloc: Global, numbers: &[u64]) -> Result<Vec<VertexId>, Fail> {
    let mut ids = Vec::new(alloc);
    for number in numbers {
        ids.push(id(*number)?)?;
    }
    Ok(ids)
}

// The calls where the edges were those of the first graph, by the numbers of the ids.
fn called_after(
    alloc: Global,
    edges: &[(u64, u64)],
    touched: &[u64],
    partitions: u32,
) -> Result<String, Fail> {
    let before = graph_of(alloc, &INPUTS, &EDGES)?;
    let after = graph_of(alloc, &INPUTS, edges)?;
    let ids = ids_of(alloc, touched)?;
    called_warm(alloc, &before, &after, ids.as_slice(), partitions)
}

// From scratch each vertex is called in superstep 0, and in superstep 1 each that receives something.
#[test]
fn from_scratch_all_that_are_active_are_called(rt: HostRuntime) -> Result<(), Fail> {
    let alloc = rt.alloc();
    let graph = graph_of(alloc, &INPUTS, &EDGES)?;
    for partitions in SIZES {
        let reported = called(alloc, &graph, partitions)?;
        assert_eq!(rt;
            reported.as_str(),
            "0:1 0:2 0:3 0:4 0:5 1:1 1:3 others 0 calls 7"
        );
    }
    Ok(())
}

// Vertex 4 has one edge more, so it is called; vertex 2 hears of it, and vertex 3 hears what it heard before.
#[test]
fn an_edge_more_calls_its_source_and_its_target(rt: HostRuntime) -> Result<(), Fail> {
    let alloc = rt.alloc();
    let edges = [(5, 3), (4, 2), (4, 3), (3, 1), (2, 3), (1, 3)];
    for partitions in SIZES {
        let reported = called_after(alloc, &edges, &[4, 2], partitions)?;
        assert_eq!(rt; reported.as_str(), "0:4 1:2 others 0 calls 2");
    }
    Ok(())
}

// Vertex 4 sends nothing any more: vertex 3 hears from three in place of four.
#[test]
fn an_edge_less_calls_its_source_and_its_target(rt: HostRuntime) -> Result<(), Fail> {
    let alloc = rt.alloc();
    let edges = [(5, 3), (3, 1), (2, 3), (1, 3)];
    for partitions in SIZES {
        let reported = called_after(alloc, &edges, &[4, 3], partitions)?;
        assert_eq!(rt; reported.as_str(), "0:4 1:3 others 0 calls 2");
    }
    Ok(())
}

// Vertex 3 has an edge less in both supersteps. Vertex 1 hears nothing any more, so it isn't active in superstep 1.
#[test]
fn a_vertex_that_hears_nothing_now_is_not_called(rt: HostRuntime) -> Result<(), Fail> {
    let alloc = rt.alloc();
    let edges = [(5, 3), (4, 3), (2, 3), (1, 3)];
    for partitions in SIZES {
        let reported = called_after(alloc, &edges, &[3, 1], partitions)?;
        assert_eq!(rt; reported.as_str(), "0:3 1:3 others 0 calls 2");
    }
    Ok(())
}

// Edits named all vertices, and let each be as it was.
#[test]
fn vertices_that_are_restored_are_not_called(rt: HostRuntime) -> Result<(), Fail> {
    let alloc = rt.alloc();
    for partitions in SIZES {
        let reported = called_after(alloc, &EDGES, &[1, 2, 3, 4, 5], partitions)?;
        assert_eq!(rt; reported.as_str(), "others 0 calls 0");
    }
    Ok(())
}

// Which vertices are called on two partitions where one of them has lost its trace of the old run, and the values.
fn called_mixed(
    alloc: Global,
    edges: &[(u64, u64)],
    touched: &[u64],
    lost: u32,
    combiner: AnyCombiner,
) -> Result<String, Fail> {
    let before = graph_of(alloc, &INPUTS, &EDGES)?;
    let after = graph_of(alloc, &INPUTS, edges)?;
    let ids = ids_of(alloc, touched)?;
    let partitioner = Partitioner::new(2).ok_or("no such number of partitions")?;
    let (first, program) = (noting(alloc, Tally)?, noting(alloc, Tally)?);
    let old = cold_run(alloc, &before, partitioner, &[0, 0], &first, &combiner)?;
    let made = mixed_run(
        alloc,
        &after,
        partitioner,
        old,
        ids.as_slice(),
        PartitionId::new(lost),
        &[0, 0],
        &program,
        &combiner,
    )?;
    let mut text = noted(alloc, &program, made.meter.count())?;
    let values = reported(alloc, partitioner, &made)?;
    write!(text, " {values}")?;
    Ok(text)
}

#[test]
fn a_cold_partition_and_a_warm_one(rt: HostRuntime) -> Result<(), Fail> {
    let alloc = rt.alloc();
    let none = AnyCombiner::NoCombiner;
    let more = [(5, 3), (4, 2), (4, 3), (3, 1), (2, 3), (1, 3)];
    let less = [(5, 3), (3, 1), (2, 3), (1, 3)];
    assert_eq!(rt;
        called_mixed(alloc, &EDGES, &[], 0, none)?.as_str(),
        "0:2 0:4 others 0 calls 2 1=(1 [30]) 2=(20 []) 3=(4 [10 20 40 50]) 4=(40 []) 5=(50 []) calls 2"
    );
    assert_eq!(rt;
        called_mixed(alloc, &more, &[4, 2], 0, none)?.as_str(),
        "0:2 0:4 1:2 others 0 calls 3 1=(1 [30]) 2=(1 [40]) 3=(4 [10 20 40 50]) 4=(40 []) 5=(50 []) calls 3"
    );
    assert_eq!(rt;
        called_mixed(alloc, &less, &[4, 3], 0, none)?.as_str(),
        "0:2 0:4 1:3 others 0 calls 3 1=(1 [30]) 2=(20 []) 3=(3 [10 20 50]) 4=(40 []) 5=(50 []) calls 3"
    );
    assert_eq!(rt;
        called_mixed(alloc, &more, &[4, 2], 1, none)?.as_str(),
        "0:1 0:3 0:4 0:5 1:1 1:2 1:3 others 0 calls 7 \
        1=(1 [30]) 2=(1 [40]) 3=(4 [10 20 40 50]) 4=(40 []) 5=(50 []) calls 7"
    );
    assert_eq!(rt;
        called_mixed(alloc, &less, &[4, 3], 0, AnyCombiner::Sum)?.as_str(),
        "0:2 0:4 1:3 others 0 calls 3 1=(1 [30]) 2=(20 []) 3=(1 [80]) 4=(40 []) 5=(50 []) calls 3"
    );
    Ok(())
}
