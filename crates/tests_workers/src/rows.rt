// Runs on workers, on graphs by hand: their values, calls of compute, steps by partition and losses were found by hand.
ghost use Rattle.std.specs.Prelude.{◌≡◌, length, IfOk, IfSome};

use crate::jobs::{after_first, first};
use crate::shelves::{Keeping, TestShelf};
use pg_global::{AnyCombiner, NoMaster};
use pg_graph::{Graph, Missing, VertexId};
use pg_program::{Shed, Tally};
use pg_workers::{Fate, Limits, MemShelf, NoFate, NoGate, Shelf, Traces};
use pregeld_programs::{ReadyMaster, ReadyProgram, Sssp};
use std::alloc::Global;
use std::process::Abort;
use std::sync::Wait;
use std::test::Fail;
use std::thread::Threads;
use tests_kit::{graph_of, id, limits_of};
use tests_rounds::{AllFall, Strike, Strikes};

// Vertices 1 to 3, an edge from 1 to 2 of weight 5 and one from 2 to 3. Vertex 3 is of partition 0 of three.
pub(crate) fn two_hops(alloc: Global) -> Result<Graph, Fail> {
    graph_of(alloc, &[(1, 0), (2, 0), (3, 0)], &[(1, 2, 5), (2, 3, 1)])
}

// The shortest paths from vertex 1 in a run from scratch.
fn paths<R: Threads + Wait + Sync, S: Shelf, F: Fate>(
    rt: &R,
    alloc: Global,
    graph: &Graph,
    limits: Limits,
    shelf: &mut S,
    fate: &F,
) -> Result<(String, Option<Traces<i64, i64>>), Fail>
    ensures { IfOk result (λ reported. IfSome reported.1
        (λ retained. length retained.retained_parts ≡ limits.partitions)) }
{
    let program = ReadyProgram::Sssp(Sssp { source: id(1)? });
    let (master, none) = (ReadyMaster { program }, AnyCombiner::NoCombiner);
    first(
        rt, alloc, graph, &program, &none, &master, limits, shelf, fate, &NoGate,
    )
}

// The shortest paths from vertex 1 in a run against what another retained.
fn paths_warm<R: Threads + Wait + Sync, F: Fate>(
    rt: &R,
    alloc: Global,
    graph: &Graph,
    retained: Traces<i64, i64>,
    touched: &[VertexId],
    limits: Limits,
    fate: &F,
) -> Result<(String, Option<Traces<i64, i64>>), Fail>
    requires { length retained.retained_parts ≡ limits.partitions }
    ensures { IfOk result (λ reported. IfSome reported.1
        (λ retained. length retained.retained_parts ≡ limits.partitions)) }
{
    let program = ReadyProgram::Sssp(Sssp { source: id(1)? });
    let (master, none) = (ReadyMaster { program }, AnyCombiner::NoCombiner);
    let mut shelf = MemShelf::new(alloc);
    after_first(
        rt, alloc, graph, retained, touched, &program, &none, &master, limits, &mut shelf, fate,
        &NoGate,
    )
}

// What the shortest paths on two hops tell.
fn hops<R: Threads + Wait + Sync, S: Shelf, F: Fate>(
    rt: &R,
    alloc: Global,
    limits: Limits,
    shelf: &mut S,
    fate: &F,
) -> Result<String, Fail> {
    let graph = two_hops(alloc)?;
    let (text, _) = paths(rt, alloc, &graph, limits, shelf, fate)?;
    Ok(text)
}

#[test]
fn a_lost_partition_begins_anew(rt: HostRuntime) -> Result<(), Fail> {
    let alloc = rt.alloc();
    let fate = Strikes::once(Strike::at(1, 0, 1, 1));
    let mut shelf = MemShelf::new(alloc);
    let reported = hops(&rt, alloc, limits_of(3, 2, 0, 16)?, &mut shelf, &fate)?;
    assert_eq!(rt;
        reported.as_str(),
        "calls 6 steps 3 4 3 losses (1 1 fate); in 3: 1=0 2=5 3=6"
    );
    Ok(())
}

// Partition 1 goes to worker 2, and is lost again while it is behind, together with partition 2.
#[test]
fn a_partition_is_lost_twice(rt: HostRuntime) -> Result<(), Fail> {
    let alloc = rt.alloc();
    let fate = Strikes::twice(Strike::at(1, 0, 1, 1), Strike::at(1, 1, 2, 1));
    let mut shelf = MemShelf::new(alloc);
    let reported = hops(&rt, alloc, limits_of(3, 3, 1, 16)?, &mut shelf, &fate)?;
    assert_eq!(rt;
        reported.as_str(),
        "calls 6 steps 3 3 4 losses (1 1 fate) (2 1 fate); in 3: 1=0 2=5 3=6"
    );
    Ok(())
}

// What two hops tell where worker 1 of two falls in a superstep, on a shelf that keeps so much.
fn hops_kept<R: Threads + Wait + Sync>(
    rt: &R,
    alloc: Global,
    superstep: u32,
    every: u32,
    keeping: Keeping,
) -> Result<String, Fail> {
    let fate = Strikes::once(Strike::at(superstep, 0, 1, 1));
    let mut shelf = TestShelf::new(alloc, keeping);
    hops(rt, alloc, limits_of(3, 2, every, 16)?, &mut shelf, &fate)
}

// The superstep in which worker 1 falls, after how many supersteps partitions are saved, what the shelf keeps; and how
// many calls there are, and steps of partition 1. Whole checkpoints are gone on from; where they are short, missing or
// older than what was saved last the partition begins anew.
const KEPT: [(u32, u32, Keeping, u64, u64); 9] = [
    (1, 1, Keeping::All, 5, 3),
    (1, 1, Keeping::Beginnings, 6, 4),
    (1, 1, Keeping::Nothing, 6, 4),
    (1, 1, Keeping::Firsts, 5, 3),
    (1, 2, Keeping::All, 6, 4),
    (2, 1, Keeping::All, 5, 3),
    (2, 2, Keeping::All, 5, 3),
    (2, 1, Keeping::Firsts, 6, 5),
    (2, 0, Keeping::All, 6, 5),
];

#[test]
fn a_lost_partition_goes_on_from_its_checkpoint(rt: HostRuntime) -> Result<(), Fail> {
    let alloc = rt.alloc();
    for (superstep, every, keeping, calls, steps) in KEPT {
        let reported = hops_kept(&rt, alloc, superstep, every, keeping)?;
        let wanted = format!(in alloc;
            "calls {calls} steps 3 {steps} 3 losses (1 {superstep} fate); in 3: 1=0 2=5 3=6"
        )?;
        assert_eq!(rt; reported.as_str(), wanted.as_str());
    }
    Ok(())
}

#[test]
fn a_shelf_in_memory_keeps_checkpoints(rt: HostRuntime) -> Result<(), Fail> {
    let alloc = rt.alloc();
    let fate = Strikes::once(Strike::at(1, 0, 1, 1));
    let mut shelf = MemShelf::new(alloc);
    let reported = hops(&rt, alloc, limits_of(3, 2, 1, 16)?, &mut shelf, &fate)?;
    assert_eq!(rt;
        reported.as_str(),
        "calls 5 steps 3 3 3 losses (1 1 fate); in 3: 1=0 2=5 3=6"
    );
    Ok(())
}

// How many checkpoints two hops put.
fn puts_of<R: Threads + Wait + Sync>(rt: &R, alloc: Global, every: u32) -> Result<u64, Fail> {
    let mut shelf = TestShelf::new(alloc, Keeping::All);
    let reported = hops(rt, alloc, limits_of(3, 2, every, 0)?, &mut shelf, &NoFate)?;
    if reported.as_str() != "calls 5 steps 3 3 3 losses; in 3: 1=0 2=5 3=6" {
        return Err(Fail::from("another answer"));
    }
    Ok(shelf.puts())
}

#[test]
fn partitions_are_saved_after_so_many_supersteps(rt: HostRuntime) -> Result<(), Fail> {
    let alloc = rt.alloc();
    for (every, puts) in [(0, 0), (1, 6), (2, 3), (3, 0)] {
        assert_eq!(rt; puts_of(&rt, alloc, every)?, puts);
    }
    Ok(())
}

// A vertex that the run creates: 2, of partition 2, which worker 0 has.
#[test]
fn a_vertex_is_created_after_a_loss(rt: HostRuntime) -> Result<(), Fail> {
    let alloc = rt.alloc();
    let graph = graph_of(alloc, &[(1, 0), (3, 0)], &[(1, 2, 5)])?;
    let limits = limits_of(3, 2, 0, 16)?.with_missing(Missing::Create);
    let fate = Strikes::once(Strike::at(1, 0, 0, 2));
    let mut shelf = MemShelf::new(alloc);
    let (reported, _) = paths(&rt, alloc, &graph, limits, &mut shelf, &fate)?;
    assert_eq!(rt;
        reported.as_str(),
        "calls 4 steps 3 2 3 losses (0 1 fate); in 2: 1=0 2=5 3=9223372036854775807"
    );
    Ok(())
}

// Each vertex takes away an edge, and sees how many remain; one of them does both again.
#[test]
fn edges_are_taken_away_after_a_loss(rt: HostRuntime) -> Result<(), Fail> {
    let alloc = rt.alloc();
    let graph = graph_of(
        alloc,
        &[(1, 0), (2, 0), (3, 0)],
        &[(1, 2, 1), (1, 3, 1), (2, 3, 1)],
    )?;
    let (none, limits) = (AnyCombiner::NoCombiner, limits_of(3, 2, 0, 16)?);
    let fate = Strikes::once(Strike::at(1, 0, 1, 1));
    let mut shelf = MemShelf::new(alloc);
    let (reported, _) = first(
        &rt, alloc, &graph, &Shed, &none, &NoMaster, limits, &mut shelf, &fate, &NoGate,
    )?;
    assert_eq!(rt;
        reported.as_str(),
        "calls 7 steps 2 3 2 losses (1 1 fate); in 2: 1=1 2=1 3=1"
    );
    Ok(())
}

// Two hops, then against that a shortcut from 1 to 3 of weight 2, where worker 0 of two falls as it has stepped
// partition 2 from superstep 0; and then the same graph again without a loss.
fn shortcut<R: Threads + Wait + Sync>(rt: &R, alloc: Global) -> Result<(String, String), Fail> {
    let after = graph_of(
        alloc,
        &[(1, 0), (2, 0), (3, 0)],
        &[(1, 2, 5), (2, 3, 1), (1, 3, 2)],
    )?;
    let (before, touched) = (two_hops(alloc)?, [id(1)?]);
    let limits = limits_of(3, 2, 0, 16)?;
    let mut shelf = MemShelf::new(alloc);
    let (_, retained) = paths(rt, alloc, &before, limits, &mut shelf, &NoFate)?;
    let retained = retained.ok_or("a refusal")?;
    let fate = Strikes::once(Strike::at(0, 0, 0, 2));
    let (reported, retained) = paths_warm(rt, alloc, &after, retained, &touched, limits, &fate)?;
    let retained = retained.ok_or("a refusal")?;
    let (again, _) = paths_warm(rt, alloc, &after, retained, &[], limits, &NoFate)?;
    Ok((reported, again))
}

#[test]
fn a_partition_is_lost_in_a_warm_run(rt: HostRuntime) -> Result<(), Fail> {
    let (reported, again) = shortcut(&rt, rt.alloc())?;
    assert_eq!(rt;
        reported.as_str(),
        "calls 6 steps 3 3 3 losses (0 0 fate); in 3: 1=0 2=5 3=2"
    );
    assert_eq!(rt;
        again.as_str(),
        "calls 0 steps 3 3 3 losses; in 3: 1=0 2=5 3=2"
    );
    Ok(())
}

// Two hops, then against that a run in which all workers fall, and then one from scratch.
fn refused<R: Threads + Wait + Sync>(
    rt: &R,
    alloc: Global,
    max_losses: u32,
) -> Result<(String, String), Fail> {
    let (graph, limits) = (two_hops(alloc)?, limits_of(3, 2, 0, max_losses)?);
    let mut shelf = MemShelf::new(alloc);
    let (_, retained) = paths(rt, alloc, &graph, limits, &mut shelf, &NoFate)?;
    let retained = retained.ok_or("a refusal")?;
    let (reported, _) = paths_warm(rt, alloc, &graph, retained, &[], limits, &AllFall)?;
    let (next, _) = paths(rt, alloc, &graph, limits, &mut shelf, &NoFate)?;
    Ok((reported, next))
}

#[test]
fn a_warm_run_is_refused(rt: HostRuntime) -> Result<(), Fail> {
    let alloc = rt.alloc();
    let rows = [
        (2, "refused 3 losses (0 0 fate) (1 0 fate);"),
        (1, "refused 2 losses (0 0 fate) (1 0 fate);"),
    ];
    for (max_losses, wanted) in rows {
        let (reported, next) = refused(&rt, alloc, max_losses)?;
        assert_eq!(rt; reported.as_str(), wanted);
        assert_eq!(rt;
            next.as_str(),
            "calls 5 steps 3 3 3 losses; in 3: 1=0 2=5 3=6"
        );
    }
    Ok(())
}

#[test]
fn more_workers_fell_than_may(rt: HostRuntime) -> Result<(), Fail> {
    let alloc = rt.alloc();
    let fate = Strikes::once(Strike::at(1, 0, 1, 1));
    let mut shelf = MemShelf::new(alloc);
    let reported = hops(&rt, alloc, limits_of(3, 2, 0, 0)?, &mut shelf, &fate)?;
    assert_eq!(rt; reported.as_str(), "refused 2 losses (1 1 fate);");
    Ok(())
}

// What two hops tell on a shelf whose device fails at this put or at this get, with how often it failed and how many
// puts and gets were asked. Worker 0 of two falls in superstep 1 with two partitions.
fn failing<R: Threads + Wait + Sync>(
    rt: &R,
    alloc: Global,
    put: u64,
    get: u64,
) -> Result<(String, (u64, u64, u64)), Fail> {
    let fate = Strikes::once(Strike::at(1, 0, 0, 2));
    let mut shelf = TestShelf::failing(alloc, Keeping::All, put, get);
    let reported = hops(rt, alloc, limits_of(3, 2, 1, 16)?, &mut shelf, &fate)?;
    Ok((reported, (shelf.failures(), shelf.puts(), shelf.gets())))
}

#[test]
fn the_device_fails(rt: HostRuntime) -> Result<(), Fail> {
    let alloc = rt.alloc();
    for put in 1..7 {
        let (reported, counted) = failing(&rt, alloc, put, 0)?;
        assert_eq!(rt; reported.as_str(), "refused 4;");
        assert_eq!(rt; counted, (1, put, if put < 4 { 0 } else { 2 }));
    }
    for get in 1..3 {
        let (reported, counted) = failing(&rt, alloc, 0, get)?;
        assert_eq!(rt; reported.as_str(), "refused 4;");
        assert_eq!(rt; counted, (1, 3, get));
    }
    let (reported, counted) = failing(&rt, alloc, 7, 3)?;
    assert_eq!(rt;
        reported.as_str(),
        "calls 5 steps 3 3 3 losses (0 1 fate); in 3: 1=0 2=5 3=6"
    );
    assert_eq!(rt; counted, (0, 6, 2));
    Ok(())
}

// How many messages came to vertex 3 of three, and which, on so many partitions and workers.
fn senders<R: Threads + Wait + Sync>(
    rt: &R,
    alloc: Global,
    partitions: u32,
    workers: u32,
) -> Result<String, Fail> {
    let graph = graph_of(alloc, &[(1, 10), (2, 20), (3, 0)], &[(1, 3, 1), (2, 3, 1)])?;
    let (none, limits) = (
        AnyCombiner::NoCombiner,
        limits_of(partitions, workers, 1, 0)?,
    );
    let mut shelf = MemShelf::new(alloc);
    let (reported, _) = first(
        rt, alloc, &graph, &Tally, &none, &NoMaster, limits, &mut shelf, &NoFate, &NoGate,
    )?;
    Ok(reported)
}

#[test]
fn however_many_partitions_and_workers_answer_the_same(rt: HostRuntime) -> Result<(), Fail> {
    let alloc = rt.alloc();
    for (partitions, workers) in [(1, 1), (1, 16), (2, 2), (3, 2), (5, 3), (64, 1), (64, 16)] {
        let reported = senders(&rt, alloc, partitions, workers)?;
        assert!(rt; reported.as_str().starts_with("calls 4 steps 2"));
        assert!(rt;
            reported
                .as_str()
                .ends_with(" 2 losses; in 2: 1=(10 []) 2=(20 []) 3=(2 [10 20])")
        );
    }
    Ok(())
}
