use pg_global::{AnyCombiner, NoMaster};
use pg_graph::{Batch, Edges, Edit, Graph, Missing, Superstep, VertexId};
use pg_model::{Ending, Sequence};
use pg_program::{Computation, Cx, EdgeRoom, Meter, Plain, Tally, Vertex, View};
use pg_scratch::run;
use pregeld_programs::{Cc, Indegree, MaxValue, Pagerank, Peel, ReadyMaster, ReadyProgram, Sssp};
use std::alloc::Global;
use std::process::Abort;
use std::test::Fail;

// A graph: ids with inputs, and edges with weights.
#[derive(Clone, Copy)]
struct Small<'a> {
    vertices: &'a [(u64, i64)],
    edges: &'a [(u64, u64, i64)],
}

// What a run on it has to answer, and how many calls it has to make.
#[derive(Clone, Copy)]
struct Wanted<'a> {
    values: &'a [i64],
    aggregates: &'a [i64],
    ending: Ending,
    supersteps: u32,
    sent: u64,
    calls: u64,
}

const TWO_HOPS: Small<'static> = Small {
    vertices: &[(1, 0), (2, 0), (3, 0)],
    edges: &[(1, 2, 5), (2, 3, 1)],
};

const PAIR: Small<'static> = Small {
    vertices: &[(1, 0), (2, 0)],
    edges: &[(1, 2, 1), (2, 1, 1)],
};

const TRIANGLE: Small<'static> = Small {
    vertices: &[(1, 0), (2, 0), (3, 0), (4, 0)],
    edges: &[
        (1, 2, 1),
        (1, 3, 1),
        (2, 1, 1),
        (2, 3, 1),
        (3, 1, 1),
        (3, 2, 1),
        (3, 4, 1),
        (4, 3, 1),
    ],
};

// What a run that ends by itself has to answer.
fn finished<'a>(
    values: &'a [i64],
    aggregates: &'a [i64],
    supersteps: u32,
    sent: u64,
    calls: u64,
) -> Wanted<'a> {
    Wanted {
        values,
        aggregates,
        ending: Ending::Finished,
        supersteps,
        sent,
        calls,
    }
}

fn id(rt: &impl Abort, number: u64) -> VertexId {
    VertexId::new(number).expect(rt, "an id")
}

fn graph_of(rt: &impl Abort, alloc: Global, small: &Small<'_>) -> Result<Graph, Fail> {
    let mut batch = Batch::new(alloc);
    for (number, input) in small.vertices {
        batch.push(Edit::AddVertex(id(rt, *number), *input))?;
    }
    for (source, target, weight) in small.edges {
        batch.push(Edit::AddEdge(id(rt, *source), id(rt, *target), *weight))?;
    }
    let mut graph = Graph::new(alloc);
    assert!(rt; graph.apply(alloc, &batch).is_ok());
    Ok(graph)
}

// The vertices have these values, by rising id.
fn values_are(rt: &impl Abort, values: &[(VertexId, i64)], wanted: &[i64]) {
    assert_eq!(rt; values.len(), wanted.len());
    for ((id, value), wanted) in values.iter().zip(wanted) {
        assert_eq!(rt; *value, *wanted, "at {id}");
    }
}

// A run of a ready program on a graph answers this.
fn answers(
    rt: &impl Abort,
    alloc: Global,
    program: &ReadyProgram,
    combiner: AnyCombiner,
    small: &Small<'_>,
    wanted: &Wanted<'_>,
) -> Result<(), Fail> {
    let graph = graph_of(rt, alloc, small)?;
    let master = ReadyMaster { program: *program };
    let mut meter = Meter::new();
    let missing = Missing::Drop;
    let answer = run(
        alloc, &graph, program, &combiner, &master, missing, 1000, &mut meter,
    );
    let answer = answer.expect(rt, "an answer");
    values_are(rt, answer.values.as_slice(), wanted.values);
    assert_eq!(rt; answer.aggregates.as_slice(), wanted.aggregates);
    assert_eq!(rt; answer.ending, wanted.ending);
    assert_eq!(rt;
        (answer.supersteps, answer.sent, meter.count()),
        (wanted.supersteps, wanted.sent, wanted.calls)
    );
    assert_eq!(rt; answer.dropped, 0);
    Ok(())
}

fn pagerank(rounds: u32, eps: i64) -> ReadyProgram {
    ReadyProgram::Pagerank(Pagerank { rounds, eps })
}

fn peel(k: u32) -> ReadyProgram {
    ReadyProgram::Peel(Peel { k })
}

#[test]
fn pagerank_halts(rt: HostRuntime) -> Result<(), Fail> {
    let pair = Wanted {
        values: &[500_000_000_000, 500_000_000_000],
        aggregates: &[0],
        ending: Ending::MasterHalted,
        supersteps: 3,
        sent: 6,
        calls: 6,
    };
    answers(
        &rt,
        rt.alloc(),
        &pagerank(30, 1),
        AnyCombiner::NoCombiner,
        &PAIR,
        &pair,
    )?;
    let small = Small {
        vertices: &[(1, 0), (2, 0), (3, 0)],
        edges: PAIR.edges,
    };
    let three = Wanted {
        values: &[333_333_333_333, 333_333_333_333, 50_000_000_000],
        aggregates: &[0],
        ending: Ending::MasterHalted,
        supersteps: 4,
        sent: 8,
        calls: 12,
    };
    answers(
        &rt,
        rt.alloc(),
        &pagerank(30, 1),
        AnyCombiner::NoCombiner,
        &small,
        &three,
    )
}

#[test]
fn pagerank_rounds(rt: HostRuntime) -> Result<(), Fail> {
    let none = finished(&[500_000_000_000, 500_000_000_000], &[0], 1, 0, 2);
    answers(
        &rt,
        rt.alloc(),
        &pagerank(0, 0),
        AnyCombiner::NoCombiner,
        &PAIR,
        &none,
    )?;
    let small = Small {
        vertices: PAIR.vertices,
        edges: &[(1, 2, 1)],
    };
    let dangling = finished(
        &[75_000_000_000, 138_750_000_000],
        &[361_250_000_000],
        3,
        2,
        6,
    );
    answers(
        &rt,
        rt.alloc(),
        &pagerank(2, 0),
        AnyCombiner::NoCombiner,
        &small,
        &dangling,
    )
}

// The rank of the one vertex of a graph, where this message came.
fn rank_after(rt: &impl Abort, alloc: Global, message: i64) -> Result<i64, Fail> {
    let program = Pagerank { rounds: 1, eps: 0 };
    let mut vertex = Vertex::new(id(rt, 1), 0, Edges::new(), EdgeRoom::new(alloc))?;
    let view = View {
        superstep: Superstep::new(1),
        aggregates: Sequence::new(alloc),
        total_vertices: Some(1),
        total_edges: None,
    };
    let mut cx = Cx::new(alloc, view, program.declared(), Meter::new());
    program.compute(alloc, &mut vertex, &[message], &mut cx)?;
    Ok(*vertex.value())
}

#[test]
fn pagerank_near_both_ends(rt: HostRuntime) -> Result<(), Fail> {
    assert_eq!(rt;
        rank_after(&rt, rt.alloc(), i64::MAX)?,
        7_839_866_381_326_559_435
    );
    assert_eq!(rt;
        rank_after(&rt, rt.alloc(), i64::MIN)?,
        -7_839_866_081_326_559_436
    );
    assert_eq!(rt; rank_after(&rt, rt.alloc(), -1)?, 150_000_000_000);
    Ok(())
}

#[test]
fn components(rt: HostRuntime) -> Result<(), Fail> {
    let path = Small {
        vertices: TWO_HOPS.vertices,
        edges: &[(1, 2, 1), (2, 1, 1), (2, 3, 1), (3, 2, 1)],
    };
    let wanted = finished(&[1, 1, 1], &[], 4, 8, 10);
    answers(
        &rt,
        rt.alloc(),
        &ReadyProgram::Cc(Cc),
        AnyCombiner::NoCombiner,
        &path,
        &wanted,
    )
}

#[test]
fn peeling(rt: HostRuntime) -> Result<(), Fail> {
    let core = finished(&[1, 1, 1, 0], &[1], 2, 1, 5);
    answers(
        &rt,
        rt.alloc(),
        &peel(2),
        AnyCombiner::NoCombiner,
        &TRIANGLE,
        &core,
    )?;
    let all = finished(&[1, 1, 1, 1], &[0], 1, 0, 4);
    answers(
        &rt,
        rt.alloc(),
        &peel(0),
        AnyCombiner::NoCombiner,
        &TRIANGLE,
        &all,
    )?;
    let none = finished(&[0, 0, 0, 0], &[4], 2, 8, 8);
    answers(
        &rt,
        rt.alloc(),
        &peel(1_000_000),
        AnyCombiner::NoCombiner,
        &TRIANGLE,
        &none,
    )
}

#[test]
fn combined_inbox(rt: HostRuntime) -> Result<(), Fail> {
    let small = Small {
        vertices: TRIANGLE.vertices,
        edges: &[(1, 2, 1), (1, 3, 1), (2, 4, 1)],
    };
    let wanted = finished(&[0, 1, 1, 2], &[4], 3, 3, 7);
    let program = ReadyProgram::Sssp(Sssp { source: id(&rt, 1) });
    answers(&rt, rt.alloc(), &program, AnyCombiner::Min, &small, &wanted)?;
    answers(
        &rt,
        rt.alloc(),
        &program,
        AnyCombiner::NoCombiner,
        &small,
        &wanted,
    )
}

#[test]
fn greatest(rt: HostRuntime) -> Result<(), Fail> {
    let round = Small {
        vertices: &[(1, 5), (2, 9), (3, 1)],
        edges: &[(1, 2, 1), (2, 3, 1), (3, 1, 1)],
    };
    let wanted = finished(&[9, 9, 9], &[9], 4, 5, 8);
    let program = ReadyProgram::MaxValue(MaxValue);
    answers(
        &rt,
        rt.alloc(),
        &program,
        AnyCombiner::NoCombiner,
        &round,
        &wanted,
    )?;
    let two = Small {
        vertices: &[(1, 5), (2, 9), (3, 1)],
        edges: &[(1, 3, 1), (2, 3, 1)],
    };
    let wanted = finished(&[5, 9, 9], &[9], 2, 2, 4);
    answers(&rt, rt.alloc(), &program, AnyCombiner::Max, &two, &wanted)
}

#[test]
fn indegrees(rt: HostRuntime) -> Result<(), Fail> {
    let small = Small {
        vertices: TWO_HOPS.vertices,
        edges: &[(1, 3, 1), (2, 3, 1), (3, 3, 1)],
    };
    let each = finished(&[0, 0, 3], &[3], 2, 3, 6);
    let program = ReadyProgram::Indegree(Indegree);
    answers(
        &rt,
        rt.alloc(),
        &program,
        AnyCombiner::NoCombiner,
        &small,
        &each,
    )?;
    let together = finished(&[0, 0, 1], &[1], 2, 3, 6);
    answers(
        &rt,
        rt.alloc(),
        &program,
        AnyCombiner::Sum,
        &small,
        &together,
    )
}

// No vertex of the two hops gets two messages at once, so no combiner changes what a program answers.
fn whatever_the_combiner(
    rt: &impl Abort,
    alloc: Global,
    program: &ReadyProgram,
    wanted: &Wanted<'_>,
) -> Result<(), Fail> {
    answers(
        rt,
        alloc,
        program,
        AnyCombiner::NoCombiner,
        &TWO_HOPS,
        wanted,
    )?;
    answers(rt, alloc, program, AnyCombiner::Min, &TWO_HOPS, wanted)?;
    answers(rt, alloc, program, AnyCombiner::Max, &TWO_HOPS, wanted)?;
    answers(rt, alloc, program, AnyCombiner::Sum, &TWO_HOPS, wanted)
}

#[test]
fn two_hops_by_each_combiner(rt: HostRuntime) -> Result<(), Fail> {
    let distances = finished(&[0, 5, 6], &[3], 3, 2, 5);
    let sssp = ReadyProgram::Sssp(Sssp { source: id(&rt, 1) });
    whatever_the_combiner(&rt, rt.alloc(), &sssp, &distances)?;
    let labels = finished(&[1, 1, 1], &[], 3, 3, 6);
    whatever_the_combiner(&rt, rt.alloc(), &ReadyProgram::Cc(Cc), &labels)?;
    let zeros = finished(&[0, 0, 0], &[0], 2, 2, 5);
    whatever_the_combiner(&rt, rt.alloc(), &ReadyProgram::MaxValue(MaxValue), &zeros)?;
    let degrees = finished(&[0, 1, 1], &[2], 2, 2, 6);
    whatever_the_combiner(&rt, rt.alloc(), &ReadyProgram::Indegree(Indegree), &degrees)?;
    let ranks = finished(
        &[50_000_000_000, 333_333_333_333, 333_333_333_333],
        &[283_333_333_333],
        2,
        2,
        6,
    );
    whatever_the_combiner(&rt, rt.alloc(), &pagerank(1, 0), &ranks)?;
    let removed = finished(&[0, 0, 0], &[3], 2, 2, 5);
    whatever_the_combiner(&rt, rt.alloc(), &peel(2), &removed)
}

#[test]
fn sender_order(rt: HostRuntime) -> Result<(), Fail> {
    let alloc = rt.alloc();
    let small = Small {
        vertices: &[(1, 10), (2, 20), (3, 0)],
        edges: &[(1, 3, 1), (2, 3, 1)],
    };
    let graph = graph_of(&rt, alloc, &small)?;
    let (combiner, missing) = (AnyCombiner::NoCombiner, Missing::Drop);
    let mut meter = Meter::new();
    let answer = run(
        alloc, &graph, &Tally, &combiner, &NoMaster, missing, 1000, &mut meter,
    );
    let answer = answer.expect(&rt, "an answer");
    assert_eq!(rt; (answer.supersteps, meter.count()), (2, 4));
    let mut text = String::new(alloc);
    for (_, value) in answer.values.as_slice() {
        value.show(&mut text)?;
    }
    assert_eq!(rt; text.as_str(), "(10 [])(20 [])(2 [10 20])");
    Ok(())
}
