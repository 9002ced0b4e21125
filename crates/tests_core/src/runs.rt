ghost use Rattle.std.specs.Prelude.{◌≡◌, [], true, None};
ghost use Rattle.pg_global.specs.Master.{is_registered};
ghost use Rattle.pg_global.specs.Registry.{first_refusal};

use crate::graphs::graph_of;
use crate::happenings::drive;
use crate::recovery::finished;
use crate::stepping::step_once;
use pg_core::{Core, Event, Limits};
use pg_global::{AnyCombiner, MasterCompute, MessageCombiner, NoMaster};
use pg_graph::{Graph, Memory, Missing, PartitionId, Superstep};
use pg_model::Run;
use pg_program::{Computation, Meter, Tally};
use std::alloc::Global;
use std::process::Abort;
use std::test::Fail;

// A core with so many partitions on two workers, to which nothing has happened.
fn opened<'a>(
    alloc: Global,
    graph: &'a Graph,
    partitions: u32,
) -> Result<Core<'a, Tally, AnyCombiner, NoMaster>, Fail> {
    let limits = Limits::new(partitions, 2, 10, 0, 0).ok_or("no such limits")?;
    let core = Core::open(
        alloc,
        graph,
        &Tally,
        &AnyCombiner::NoCombiner,
        &NoMaster,
        limits,
        7,
    )?;
    Ok(core)
}

// The graph of vertices 1 to 3, in which 1 and 2 lead to 3.
fn three_vertices(alloc: Global) -> Result<Graph, Fail> {
    graph_of(alloc, &[(1, 10), (2, 20), (3, 0)], &[(1, 3), (2, 3)])
}

// Which worker has which partition that is ready, as numbers.
fn ready_in(
    alloc: Global,
    core: &Core<'_, Tally, AnyCombiner, NoMaster>,
) -> Result<Vec<(u32, u32)>, Fail> {
    let mut numbers = Vec::new(alloc);
    for (worker, partition) in core.ready(alloc)?.as_slice() {
        numbers.push((worker.number(), partition.number()))?;
    }
    Ok(numbers)
}

// Of a core with three partitions as it opens: which worker has which partition that is ready, and how many edges are
// visible.
fn opened_with_three(alloc: Global, graph: &Graph) -> Result<(Vec<(u32, u32)>, u64), Fail> {
    let core = opened(alloc, graph, 3)?;
    let edges = core.visible(Superstep::new(0)).total_edges;
    Ok((ready_in(alloc, &core)?, edges))
}

#[test]
fn a_core_opens_with_all_partitions_ready(rt: HostRuntime) -> Result<(), Fail> {
    let alloc = rt.alloc();
    let graph = three_vertices(alloc)?;
    let (ready, edges) = opened_with_three(alloc, &graph)?;
    assert_eq!(rt; ready.as_slice(), [(0, 0), (1, 1), (0, 2)].as_slice());
    assert_eq!(rt; edges, 2);
    Ok(())
}

// A run whose second partition steps first: whether this is ready afterwards, how many calls both steps take, and
// whether they stand in the history in this order.
fn second_first(
    alloc: Global,
    core: &mut Core<'_, Tally, AnyCombiner, NoMaster>,
) -> Result<(bool, u64, bool), Memory> {
    let mut meter = Meter::new();
    let (first, second) = (PartitionId::new(0), PartitionId::new(1));
    step_once(alloc, core, second, &mut meter)?;
    let ready = core.is_ready(second);
    step_once(alloc, core, first, &mut meter)?;
    let steps = [Event::Step(second), Event::Step(first)];
    Ok((ready, meter.count(), core.history() == steps.as_slice()))
}

// What `second_first` tells of a core as it opens.
fn opened_second_first(alloc: Global, graph: &Graph) -> Result<(bool, u64, bool), Fail> {
    let mut core = opened(alloc, graph, 2)?;
    Ok(second_first(alloc, &mut core)?)
}

#[test]
fn partitions_step_in_any_order(rt: HostRuntime) -> Result<(), Fail> {
    let alloc = rt.alloc();
    let graph = three_vertices(alloc)?;
    let stepped = opened_second_first(alloc, &graph)?;
    assert_eq!(rt; stepped, (false, 3, true));
    Ok(())
}

// What a whole run gives: by rising id each vertex with how many messages came to it, or else its input; and how many
// calls of compute it took.
fn whole(alloc: Global, graph: &Graph, partitions: u32) -> Result<(Vec<(u64, i64)>, u64), Fail> {
    let mut core = opened(alloc, graph, partitions)?;
    let mut meter = Meter::new();
    drive(alloc, &mut core, &[], &mut meter)?;
    let limits = core.limits();
    let (run, _) = finished(alloc, core, limits)?;
    let mut values = Vec::new(alloc);
    for (id, value) in run.values.as_slice() {
        values.push((id.number(), value.0))?;
    }
    Ok((values, meter.count()))
}

#[test]
fn however_many_partitions_run_to_the_same_end(rt: HostRuntime) -> Result<(), Fail> {
    let alloc = rt.alloc();
    let graph = three_vertices(alloc)?;
    for partitions in 1..4 {
        let (values, calls) = whole(alloc, &graph, partitions)?;
        assert_eq!(rt; values.as_slice(), [(1, 10), (2, 20), (3, 2)].as_slice());
        assert_eq!(rt; calls, 4);
    }
    Ok(())
}

// How many calls of compute a run takes against a whole one on the same graph, and its answer.
fn again<'a, P: Computation, C: MessageCombiner<P::Message>, M: MasterCompute>(
    alloc: Global,
    graph: &'a Graph,
    program: &'a P,
    combiner: &'a C,
    master: &'a M,
    limits: Limits,
) -> Result<(Run<P::Value>, u64), Fail>
    requires lawful { first_refusal [] (M.master master.now).registrations ≡ None }
    requires registered { is_registered (P.program program.now) (M.master master.now) ≡ true }
{
    let mut first = Core::open(alloc, graph, program, combiner, master, limits, 7)?;
    drive(alloc, &mut first, &[], &mut Meter::new())?;
    let (_, retained) = finished(alloc, first, limits)?;
    let mut second = Core::open_warm(
        alloc,
        graph,
        retained,
        &[],
        program,
        combiner,
        master,
        limits,
        8,
    )?;
    let mut meter = Meter::new();
    drive(alloc, &mut second, &[], &mut meter)?;
    let (run, _) = finished(alloc, second, limits)?;
    Ok((run, meter.count()))
}

// The same of the sample program: by rising id each vertex with how many messages came to it, or else its input.
fn tally_again(
    alloc: Global,
    graph: &Graph,
    partitions: u32,
) -> Result<(Vec<(u64, i64)>, u64), Fail> {
    let limits = Limits::new(partitions, 2, 10, 0, 0).ok_or("no such limits")?;
    let (run, calls) = again(
        alloc,
        graph,
        &Tally,
        &AnyCombiner::NoCombiner,
        &NoMaster,
        limits,
    )?;
    let mut values = Vec::new(alloc);
    for (id, value) in run.values.as_slice() {
        values.push((id.number(), value.0))?;
    }
    Ok((values, calls))
}

#[test]
fn on_the_same_graph_a_warm_run_calls_nothing(rt: HostRuntime) -> Result<(), Fail> {
    let alloc = rt.alloc();
    let graph = three_vertices(alloc)?;
    let (values, calls) = tally_again(alloc, &graph, 2)?;
    assert_eq!(rt; values.as_slice(), [(1, 10), (2, 20), (3, 2)].as_slice());
    assert_eq!(rt; calls, 0);
    Ok(())
}

#[test]
fn limits_hand_out_what_they_were_made_of(rt: HostRuntime) -> Result<(), Fail> {
    let most = Limits::new(64, 16, 10_000, 1_000, 16).ok_or("the most")?;
    assert_eq!(rt; (most.partitions(), most.workers()), (64, 16));
    assert_eq!(rt;
        (most.limit(), most.every(), most.max_losses()),
        (10_000, 1_000, 16)
    );
    assert!(rt; most.missing() == Missing::Drop);
    assert!(rt; most.with_missing(Missing::Create).missing() == Missing::Create);
    Ok(())
}

#[test]
fn limits_are_within_their_ranges(rt: HostRuntime) -> Result<(), Fail> {
    assert!(rt; Limits::new(1, 1, 1, 0, 0).is_some());
    let outside = [
        (0, 1, 1, 0, 0),
        (65, 1, 1, 0, 0),
        (1, 0, 1, 0, 0),
        (1, 17, 1, 0, 0),
        (1, 1, 0, 0, 0),
        (1, 1, 10_001, 0, 0),
        (1, 1, 1, 1_001, 0),
        (1, 1, 1, 0, 17),
    ];
    for (partitions, workers, limit, every, max_losses) in outside {
        assert!(rt; Limits::new(partitions, workers, limit, every, max_losses).is_none());
    }
    Ok(())
}
