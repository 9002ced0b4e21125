// Refreshes of a program that takes edges away, and of shortest paths whose messages are combined, vertices
// made, checkpoints counted. All was found by hand.
use crate::hops::{
    Line, TWO_HOPS, batch_of, limits_of, master, program, refreshed, refreshed_on, service_of,
    told_on, two_hops,
};
use crate::shelves::NthShelf;
use pg_global::{AnyCombiner, MasterCompute, MessageCombiner, NoMaster};
use pg_graph::Missing;
use pg_model::Ending;
use pg_program::{Computation, Shed};
use pg_service::{Fate, Limits, MemShelf, NoFate, NoGate, Service};
use std::alloc::Global;
use std::process::Abort;
use std::sync::Wait;
use std::test::Fail;
use std::thread::Threads;
use tests_rounds::{Strike, Strikes};

// Two are taken away, one of vertex 1 and one of vertex 2, and one remains.
const THREE_EDGES: [Line; 6] = [
    Line::Vertex(1),
    Line::Vertex(2),
    Line::Vertex(3),
    Line::Edge(1, 2, 1),
    Line::Edge(1, 3, 1),
    Line::Edge(2, 3, 1),
];

// What a refresh after a batch tells, with checkpoints in memory.
fn told_after<
    R: Threads + Wait + Sync,
    P: Computation,
    C: MessageCombiner<P::Message>,
    M: MasterCompute,
    F: Fate,
>(
    rt: &R,
    alloc: Global,
    service: &mut Service<P, C, M>,
    lines: &[Line],
    fate: &F,
) -> Result<String, Fail> {
    service
        .edit(alloc, &batch_of(alloc, lines)?)
        .map_err(|_| "a batch that is refused")?;
    let mut shelf = MemShelf::new(alloc);
    told_on(rt, alloc, service, &mut shelf, fate, &NoGate)
}

// What a first refresh tells where workers fall by this fate, and one after a further edge.
fn told_twice<
    R: Threads + Wait + Sync,
    P: Computation,
    C: MessageCombiner<P::Message>,
    M: MasterCompute,
    F: Fate,
>(
    rt: &R,
    alloc: Global,
    service: &mut Service<P, C, M>,
    lines: &[Line],
    fate: &F,
    edge: Line,
) -> Result<(String, String), Fail> {
    let first = told_after(rt, alloc, service, lines, fate)?;
    let second = told_after(rt, alloc, service, &[edge], &NoFate)?;
    Ok((first, second))
}

// What comes of the three edges, by the program that takes edges away.
fn shed<R: Threads + Wait + Sync, F: Fate>(
    rt: &R,
    alloc: Global,
    limits: Limits,
    fate: &F,
    edge: Line,
) -> Result<(String, String), Fail> {
    let none = AnyCombiner::NoCombiner;
    let mut service = service_of(rt, alloc, limits, Shed, none, NoMaster)?;
    let reported = told_twice(rt, alloc, &mut service, &THREE_EDGES, fate, edge);
    service.close(rt);
    reported
}

// Superstep 0 has another total of edges, so all are called there; superstep 1 has the same, so none is.
#[test]
fn an_edge_is_added_and_taken_away(rt: HostRuntime) -> Result<(), Fail> {
    let alloc = rt.alloc();
    for (partitions, workers) in [(1, 1), (3, 2)] {
        let limits = limits_of(partitions, workers, 0, 16)?;
        let (first, second) = shed(&rt, alloc, limits, &NoFate, Line::Edge(3, 1, 1))?;
        assert_eq!(rt;
            first.as_str(),
            "calls 6 supersteps 2 losses; of 1: 1=1 2=1 3=1\n"
        );
        assert_eq!(rt;
            second.as_str(),
            "calls 3 supersteps 2 losses; of 2: 1=1 2=1 3=1\n"
        );
    }
    Ok(())
}

// Worker 1 of two falls once it has stepped partition 1 from superstep 1, and the edges are taken away again. An edge
// to a vertex that there isn't is counted too: two remain then.
#[test]
fn edges_are_taken_away_after_a_loss(rt: HostRuntime) -> Result<(), Fail> {
    let alloc = rt.alloc();
    let fate = Strikes::once(Strike::at(1, 0, 1, 1));
    let limits = limits_of(3, 2, 0, 16)?;
    let (first, second) = shed(&rt, alloc, limits, &fate, Line::Edge(1, 4, 1))?;
    assert_eq!(rt;
        first.as_str(),
        "calls 7 supersteps 2 steps of 1 3 losses (1 1 fate); of 1: 1=1 2=1 3=1\n"
    );
    assert_eq!(rt;
        second.as_str(),
        "calls 6 supersteps 2 losses; of 2: 1=2 2=2 3=2\n"
    );
    Ok(())
}

// From 1 to 2 and 3, and from 2 to 4.
const BRANCHES: [Line; 7] = [
    Line::Vertex(1),
    Line::Vertex(2),
    Line::Vertex(3),
    Line::Vertex(4),
    Line::Edge(1, 2, 1),
    Line::Edge(1, 3, 1),
    Line::Edge(2, 4, 1),
];

// What a first refresh of the branches tells by this combiner, and one after an edge from 3 to 4.
fn combined<R: Threads + Wait + Sync>(
    rt: &R,
    alloc: Global,
    limits: Limits,
    combiner: AnyCombiner,
) -> Result<(String, String), Fail> {
    let mut service = service_of(rt, alloc, limits, program()?, combiner, master()?)?;
    let edge = Line::Edge(3, 4, 5);
    let reported = told_twice(rt, alloc, &mut service, &BRANCHES, &NoFate, edge);
    service.close(rt);
    reported
}

// Vertex 3 is called twice. Vertex 4 gets 6 besides 2: it is called for that only where the two aren't combined into 2.
#[test]
fn what_is_combined_is_compared(rt: HostRuntime) -> Result<(), Fail> {
    let alloc = rt.alloc();
    let rows = [
        (
            AnyCombiner::Min,
            "calls 2 supersteps 3 losses; of 2: 1=0 2=1 3=1 4=2\n",
        ),
        (
            AnyCombiner::NoCombiner,
            "calls 3 supersteps 3 losses; of 2: 1=0 2=1 3=1 4=2\n",
        ),
    ];
    for (combiner, wanted) in rows {
        let (first, second) = combined(&rt, alloc, limits_of(3, 2, 0, 0)?, combiner)?;
        assert_eq!(rt;
            first.as_str(),
            "calls 7 supersteps 3 losses; of 1: 1=0 2=1 3=1 4=2\n"
        );
        assert_eq!(rt; second.as_str(), wanted);
    }
    Ok(())
}

// What a first refresh of shortest paths tells where workers fall by this fate.
fn paths<R: Threads + Wait + Sync, F: Fate>(
    rt: &R,
    alloc: Global,
    limits: Limits,
    lines: &[Line],
    fate: &F,
) -> Result<String, Fail> {
    let none = AnyCombiner::NoCombiner;
    let mut service = service_of(rt, alloc, limits, program()?, none, master()?)?;
    let reported = told_after(rt, alloc, &mut service, lines, fate);
    service.close(rt);
    reported
}

// Worker 1 of three falls with partition 1, and worker 2 with that again, before it has caught up, and with its own.
#[test]
fn a_partition_is_lost_twice(rt: HostRuntime) -> Result<(), Fail> {
    let alloc = rt.alloc();
    let fate = Strikes::twice(Strike::at(1, 0, 1, 1), Strike::at(1, 1, 2, 1));
    let reported = paths(&rt, alloc, limits_of(3, 3, 1, 16)?, &TWO_HOPS, &fate)?;
    assert_eq!(rt;
        reported.as_str(),
        "calls 6 supersteps 3 steps of 2 4 losses (1 1 fate) (2 1 fate); of 1: 1=0 2=5 3=6\n"
    );
    Ok(())
}

// Vertex 2 is made by a message in superstep 1, in which its worker falls with the partitions 0 and 2.
#[test]
fn a_vertex_is_made_again_after_a_loss(rt: HostRuntime) -> Result<(), Fail> {
    let alloc = rt.alloc();
    let fate = Strikes::once(Strike::at(1, 0, 0, 2));
    let lines = [Line::Vertex(1), Line::Vertex(3), Line::Edge(1, 2, 5)];
    let limits = limits_of(3, 2, 0, 16)?.with_missing(Missing::Create);
    let reported = paths(&rt, alloc, limits, &lines, &fate)?;
    assert_eq!(rt;
        reported.as_str(),
        "calls 4 supersteps 2 steps of 0 3 steps of 2 3 losses (0 1 fate); \
of 1: 1=0 2=5 3=9223372036854775807\n"
    );
    Ok(())
}

// Why the run ended that is published, and how many vertices it reached.
fn ending_of<P: Computation, C: MessageCombiner<P::Message>, M: MasterCompute>(
    service: &Service<P, C, M>,
) -> Result<(Ending, Option<i64>), Fail> {
    let answers = service.answers().ok_or("nothing is published")?;
    Ok((answers.ending(), answers.aggregate("reached")))
}

// What a first refresh of two hops tells, and why its run ended.
fn told_and_ended<
    R: Threads + Wait + Sync,
    P: Computation,
    C: MessageCombiner<P::Message>,
    M: MasterCompute,
>(
    rt: &R,
    alloc: Global,
    service: &mut Service<P, C, M>,
) -> Result<(String, (Ending, Option<i64>)), Fail> {
    let reported = told_after(rt, alloc, service, &TWO_HOPS, &NoFate)?;
    Ok((reported, ending_of(service)?))
}

// What comes of a run of at most so many supersteps.
fn limited<R: Threads + Wait + Sync>(
    rt: &R,
    alloc: Global,
    limit: u32,
) -> Result<(String, (Ending, Option<i64>)), Fail> {
    let limits = Limits::new(3, 2, limit, 0, 0).ok_or("limits")?;
    let none = AnyCombiner::NoCombiner;
    let mut service = service_of(rt, alloc, limits, program()?, none, master()?)?;
    let found = told_and_ended(rt, alloc, &mut service);
    service.close(rt);
    found
}

// A run that has finished in its last superstep isn't ended by the limit.
#[test]
fn the_limit_is_reached(rt: HostRuntime) -> Result<(), Fail> {
    let alloc = rt.alloc();
    let (reported, ended) = limited(&rt, alloc, 1)?;
    assert_eq!(rt;
        reported.as_str(),
        "calls 3 supersteps 1 losses; of 1: 1=0 2=9223372036854775807 3=9223372036854775807\n"
    );
    assert_eq!(rt; ended, (Ending::LimitReached, Some(1)));
    let (reported, ended) = limited(&rt, alloc, 3)?;
    assert_eq!(rt;
        reported.as_str(),
        "calls 5 supersteps 3 losses; of 1: 1=0 2=5 3=6\n"
    );
    assert_eq!(rt; ended, (Ending::Finished, Some(3)));
    Ok(())
}

// What a refresh tells with no worker made to fall, and how many checkpoints were put and looked for.
fn counted<
    R: Threads + Wait + Sync,
    P: Computation,
    C: MessageCombiner<P::Message>,
    M: MasterCompute,
>(rt: &R, alloc: Global, service: &mut Service<P, C, M>) -> Result<(String, u64), Fail> {
    let mut shelf = NthShelf::new(alloc, 0);
    let reported = refreshed_on(rt, alloc, service, &mut shelf, &NoFate, &NoGate)?;
    Ok((reported, shelf.calls()))
}

// What comes of a first refresh of two hops, where three partitions are saved after so many supersteps.
fn saved<R: Threads + Wait + Sync>(
    rt: &R,
    alloc: Global,
    every: u32,
) -> Result<(String, u64), Fail> {
    let mut service = two_hops(rt, alloc, limits_of(3, 2, every, 0)?)?;
    let found = counted(rt, alloc, &mut service);
    service.close(rt);
    found
}

// All partitions are saved before superstep 1 and before superstep 2, or only before superstep 2, or never.
#[test]
fn checkpoints_are_put_as_often_as_they_are_to_be(rt: HostRuntime) -> Result<(), Fail> {
    let alloc = rt.alloc();
    for (every, wanted) in [(1, 6), (2, 3), (3, 0), (0, 0)] {
        let (reported, puts) = saved(&rt, alloc, every)?;
        assert_eq!(rt; reported.as_str(), "calls 5 supersteps 3 losses");
        assert_eq!(rt; puts, wanted);
    }
    Ok(())
}

// What a refresh tells where worker 1 falls once it has stepped partition 1 from superstep 1, and the next one.
fn fallen_once<
    R: Threads + Wait + Sync,
    P: Computation,
    C: MessageCombiner<P::Message>,
    M: MasterCompute,
>(rt: &R, alloc: Global, service: &mut Service<P, C, M>) -> Result<(String, String), Fail> {
    let fate = Strikes::once(Strike::at(1, 0, 1, 1));
    let mut shelf = MemShelf::new(alloc);
    let reported = refreshed_on(rt, alloc, service, &mut shelf, &fate, &NoGate)?;
    Ok((reported, refreshed(rt, alloc, service)?))
}

// One of two workers falls, and none may.
#[test]
fn no_loss_is_borne(rt: HostRuntime) -> Result<(), Fail> {
    let alloc = rt.alloc();
    let mut service = two_hops(&rt, alloc, limits_of(3, 2, 0, 0)?)?;
    let found = fallen_once(&rt, alloc, &mut service);
    service.close(&rt);
    let (reported, next) = found?;
    assert_eq!(rt; reported.as_str(), "refused 2 losses (1 1 fate)");
    assert_eq!(rt; next.as_str(), "calls 5 supersteps 3 losses");
    Ok(())
}
