// Runs in which workers fall at random, partitions are hosted anew and restored from what was saved or from superstep
// 0, against runs from scratch.
ghost use Rattle.std.specs.Prelude.{◌≡◌, length, IfOk, IfSome};

use crate::happenings::{Happening, Shelf, drive, empty_shelf, happen};
use crate::recovery::finished;
use pg_core::{Core, Limits, Traces};
use pg_global::{AnyCombiner, MasterCompute, MessageCombiner};
use pg_graph::{Graph, Memory, Missing, PartitionId, VertexId, WorkerId};
use pg_model::Run;
use pg_program::{Computation, Meter};
use pregeld_programs::{Cc, Indegree, MaxValue, Pagerank, Peel, ReadyMaster, ReadyProgram, Sssp};
use std::alloc::{AllocError, Global};
use std::process::Abort;
use std::test::Fail;
use tests_kit::{GraphSize, Random, edited, id, is_same, random_graph, scratch};

// Numbers at random, and what came of them: how many workers fell, and how many partitions were found, some of them
// past the superstep that was open.
#[derive(Drop)]
struct Trials {
    random: Random,
    losses: u32,
    found: u32,
    found_ahead: u32,
}

// Twelve vertices, with edges to them and to three ids that aren't there.
const SIZE: GraphSize = GraphSize {
    vertices: 12,
    edges: 30,
    targets: 15,
    sources: 14,
};

// A worker that is alive, if there is more than one.
fn worker_of<P: Computation, C: MessageCombiner<P::Message>, M: MasterCompute>(
    core: &Core<'_, P, C, M>,
    trials: &mut Trials,
) -> Option<WorkerId> {
    let alive = core.state().alive();
    let count = alive.iter().filter(|alive| **alive).count();
    let worker = WorkerId::new(trials.random.below(core.limits().workers()));
    if count > 1 && core.state().is_alive(worker) {
        return Some(worker);
    }
    None
}

// A worker that is alive.
fn host_of<P: Computation, C: MessageCombiner<P::Message>, M: MasterCompute>(
    core: &Core<'_, P, C, M>,
    trials: &mut Trials,
) -> WorkerId {
    let workers = core.limits().workers();
    let first = trials.random.below(workers);
    for number in 0..workers {
        let worker = WorkerId::new(first.wrapping_add(number).checked_rem(workers).unwrap_or(0));
        if core.state().is_alive(worker) {
            return worker;
        }
    }
    WorkerId::new(0)
}

// What happens next, if anything may: a worker falls, a partition is saved, hosted or restored, steps, or the superstep
// is closed.
fn next_of<P: Computation, C: MessageCombiner<P::Message>, M: MasterCompute>(
    core: &Core<'_, P, C, M>,
    trials: &mut Trials,
) -> Option<Happening> {
    let number = trials.random.below(core.limits().partitions());
    let partition = PartitionId::new(number);
    let lost = core.state().place(partition).is_none();
    match trials.random.below(12) {
        0 => {
            let worker = worker_of(core, trials)?;
            trials.losses = trials.losses.saturating_add(1);
            Some(Happening::Lose(worker.number()))
        }
        1 | 2 => core.is_here(partition).then_some(Happening::Save(number)),
        3 => lost.then_some(Happening::Host(number, host_of(core, trials).number())),
        4 => {
            let alive = core.state().is_alive(core.state().host(partition));
            (lost && alive).then_some(Happening::Restore(number))
        }
        _ => {
            if core.is_ready(partition) {
                return Some(Happening::Step(number));
            }
            core.may_close().then_some(Happening::Close)
        }
    }
}

// It happens; a restored partition is counted where it was found.
fn happen_next<P: Computation, C: MessageCombiner<P::Message>, M: MasterCompute>(
    alloc: Global,
    core: &mut Core<'_, P, C, M>,
    shelf: &mut Shelf<P::Value, P::Message>,
    happening: Happening,
    trials: &mut Trials,
) -> Result<(), Memory> {
    happen(alloc, core, shelf, happening, &mut Meter::new())?;
    if let Happening::Restore(number) = happening {
        if let Some(place) = core.state().place(PartitionId::new(number)) {
            if place.number() > 0 {
                trials.found = trials.found.saturating_add(1);
            }
            if place > core.state().current() {
                trials.found_ahead = trials.found_ahead.saturating_add(1);
            }
        }
    }
    Ok(())
}

// Goes on with a run at random, to its end.
fn go_on<P: Computation, C: MessageCombiner<P::Message>, M: MasterCompute>(
    alloc: Global,
    core: &mut Core<'_, P, C, M>,
    trials: &mut Trials,
) -> Result<(), Memory> {
    let mut shelf = empty_shelf(alloc, core.limits().partitions())?;
    for _ in 0..20_000 {
        if core.state().ended() {
            return Ok(());
        }
        if let Some(happening) = next_of(core, trials) {
            happen_next(alloc, core, &mut shelf, happening, trials)?;
        }
    }
    Err(AllocError)
}

// What a run leaves that goes on at random, to its end; nothing where its answer isn't this one.
fn left_by<P: Computation, C: MessageCombiner<P::Message>, M: MasterCompute>(
    alloc: Global,
    core: Core<'_, P, C, M>,
    limits: Limits,
    wanted: &Run<P::Value>,
    trials: &mut Trials,
) -> Result<Option<Traces<P::Value, P::Message>>, Fail>
    ensures { IfOk result (λ found. IfSome found (λ retained. length retained.retained_parts ≡ limits.partitions)) }
{
    let mut core = core;
    go_on(alloc, &mut core, trials)?;
    let (run, retained) = finished(alloc, core, limits)?;
    if !is_same(&run, wanted) {
        return Ok(None);
    }
    Ok(Some(retained))
}

// What a run from scratch leaves, with losses at random; nothing where its answer is another than that of the plain
// runner.
fn first<P: Computation, C: MessageCombiner<P::Message>, M: MasterCompute>(
    alloc: Global,
    graph: &Graph,
    program: &P,
    combiner: &C,
    master: &M,
    limits: Limits,
    trials: &mut Trials,
) -> Result<Option<Traces<P::Value, P::Message>>, Fail>
    ensures { IfOk result (λ found. IfSome found (λ retained. length retained.retained_parts ≡ limits.partitions)) }
{
    let wanted = scratch(alloc, graph, program, combiner, master, limits)?;
    let core = Core::open(alloc, graph, program, combiner, master, limits, 1)?;
    left_by(alloc, core, limits, &wanted, trials)
}

// The same against what is retained of a run on another graph.
fn warm<P: Computation, C: MessageCombiner<P::Message>, M: MasterCompute>(
    alloc: Global,
    graph: &Graph,
    retained: Traces<P::Value, P::Message>,
    touched: &[VertexId],
    program: &P,
    combiner: &C,
    master: &M,
    limits: Limits,
    trials: &mut Trials,
) -> Result<Option<Traces<P::Value, P::Message>>, Fail>
    requires { length retained.retained_parts ≡ limits.partitions }
    ensures { IfOk result (λ found. IfSome found (λ retained. length retained.retained_parts ≡ limits.partitions)) }
{
    let wanted = scratch(alloc, graph, program, combiner, master, limits)?;
    let core = Core::open_warm(
        alloc, graph, retained, touched, program, combiner, master, limits, 2,
    )?;
    left_by(alloc, core, limits, &wanted, trials)
}

// How many calls of compute a run takes against one on the same graph, where no worker falls; nothing where its answer
// is another.
fn again<P: Computation, C: MessageCombiner<P::Message>, M: MasterCompute>(
    alloc: Global,
    graph: &Graph,
    retained: Traces<P::Value, P::Message>,
    program: &P,
    combiner: &C,
    master: &M,
    limits: Limits,
) -> Result<Option<u64>, Fail>
    requires { length retained.retained_parts ≡ limits.partitions }
{
    let wanted = scratch(alloc, graph, program, combiner, master, limits)?;
    let mut core = Core::open_warm(
        alloc,
        graph,
        retained,
        &[],
        program,
        combiner,
        master,
        limits,
        3,
    )?;
    let mut meter = Meter::new();
    drive(alloc, &mut core, &[], &mut meter)?;
    let (run, _) = finished(alloc, core, limits)?;
    if !is_same(&run, &wanted) {
        return Ok(None);
    }
    Ok(Some(meter.count()))
}

// A run with losses, one against it on an edited graph with losses, and one against that without: how many calls the
// last one takes. Nothing where an answer is another than from scratch.
fn tried<P: Computation, C: MessageCombiner<P::Message>, M: MasterCompute>(
    alloc: Global,
    program: &P,
    combiner: &C,
    master: &M,
    limits: Limits,
    trials: &mut Trials,
) -> Result<Option<u64>, Fail> {
    let graph = random_graph(alloc, SIZE, &mut trials.random)?;
    let Some(retained) = first(alloc, &graph, program, combiner, master, limits, trials)? else {
        return Ok(None);
    };
    let (after, touched) = edited(alloc, &graph, SIZE, &mut trials.random)?;
    let touched = touched.as_slice();
    let warm = warm(
        alloc, &after, retained, touched, program, combiner, master, limits, trials,
    )?;
    let Some(retained) = warm else {
        return Ok(None);
    };
    again(alloc, &after, retained, program, combiner, master, limits)
}

// The same of a ready program on so many partitions, for each policy, on two to five workers. Whether all answers were
// right and the last runs called nothing.
fn all_tried(
    alloc: Global,
    program: ReadyProgram,
    combiner: AnyCombiner,
    partitions: u32,
    trials: &mut Trials,
) -> Result<bool, Fail> {
    let master = ReadyMaster { program };
    for missing in [Missing::Drop, Missing::Create] {
        for workers in 2..6 {
            let limits = Limits::new(partitions, workers, 12, 0, 16).ok_or("limits")?;
            let limits = limits.with_missing(missing);
            let calls = tried(alloc, &program, &combiner, &master, limits, trials)?;
            if calls != Some(0) {
                return Ok(false);
            }
        }
    }
    Ok(true)
}

#[test]
fn losses_change_no_answer(rt: HostRuntime) -> Result<(), Fail> {
    let alloc = rt.alloc();
    let programs = [
        ReadyProgram::Sssp(Sssp { source: id(1)? }),
        ReadyProgram::Cc(Cc),
        ReadyProgram::MaxValue(MaxValue),
        ReadyProgram::Indegree(Indegree),
        ReadyProgram::Pagerank(Pagerank { rounds: 5, eps: 0 }),
        ReadyProgram::Peel(Peel { k: 2 }),
    ];
    let mut trials = Trials {
        random: Random::new(1),
        losses: 0,
        found: 0,
        found_ahead: 0,
    };
    for program in programs {
        for combiner in [AnyCombiner::NoCombiner, AnyCombiner::Min, AnyCombiner::Sum] {
            for partitions in [1, 2, 3, 5] {
                assert!(rt; all_tried(alloc, program, combiner, partitions, &mut trials)?);
            }
        }
    }
    assert!(rt; trials.losses > 500);
    assert!(rt; trials.found > 200);
    assert!(rt; trials.found_ahead > 20);
    Ok(())
}
