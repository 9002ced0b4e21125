// Rounds of two workers with a partition each, in threads and in turn.
ghost use Rattle.std.specs.Prelude.{◌≡◌, true, length, All, IfOk};
ghost use Rattle.pg_global.specs.Master.{has_places};
ghost use Rattle.pg_workers_rounds.specs.Work.{AreAt};

use pg_global::{AnyCombiner, Registry, Visible};
use pg_graph::{Graph, Missing, PartitionId, Superstep, WorkerId};
use pg_inbox::Logs;
use pg_model::Sequence;
use pg_program::{Computation, Plain, Tally};
use pg_workers_rounds::{
    Assignment, Cause, Fate, Gate, NoFate, NoGate, Outcome, Part, Partitioner, Round, in_threads,
    in_turn,
};
use std::alloc::Global;
use std::process::Abort;
use std::test::Fail;
use std::thread::Threads;
use tests_kit::graph_of;
use tests_rounds::Meeting;

// How the workers of a round work.
#[derive(Clone, Copy)]
enum Way {
    Threads,
    Turn,
}

// The fate by which the second worker falls in its first round, and no other.
#[derive(Drop)]
struct SecondFalls;

impl Fate for SecondFalls {
    ghost use Rattle.std.specs.Prelude.{◌==◌, ◌&&◌};

    ghost fated = { λ _ _ attempt worker _. attempt == 0 && worker == 1 };

    fn falls(
        &self,
        _superstep: Superstep,
        attempt: u32,
        worker: WorkerId,
        _partition: PartitionId,
    ) -> bool {
        attempt == 0 && worker.number() == 1
    }
}

// The graph of vertices 1 to 3, in which 1 and 2 lead to 3.
fn three_vertices(alloc: Global) -> Result<Graph, Fail> {
    graph_of(alloc, &[(1, 10), (2, 20), (3, 0)], &[(1, 3, 1), (2, 3, 1)])
}

// A worker with the partition of its number, of two, as a run begins.
fn assigned<P: Computation>(
    alloc: Global,
    graph: &Graph,
    registry: &Registry,
    program: &P,
    number: u32,
) -> Result<Assignment<P::Value, P::Message>, Fail>
    ensures { IfOk result (λ assignment. AreAt 0 assignment.parts.items) }
{
    let partitioner = Partitioner::new(2).ok_or("no such partitions")?;
    let rows = partitioner.rows(graph, PartitionId::new(number));
    let part = Part::begin(alloc, rows, Missing::Drop, registry, program)?;
    let mut parts = Vec::new(alloc);
    parts.push(part)?;
    Ok(Assignment {
        worker: WorkerId::new(number),
        parts,
    })
}

// Both workers with a partition each, as a run begins.
fn both_assigned<P: Computation>(
    alloc: Global,
    graph: &Graph,
    registry: &Registry,
    program: &P,
) -> Result<Vec<Assignment<P::Value, P::Message>>, Fail>
    ensures { IfOk result (λ assignments. All (λ assignment. AreAt 0 assignment.parts.items) assignments.items) }
{
    let mut assignments = Vec::new(alloc);
    assignments.push(assigned(alloc, graph, registry, program, 0)?)?;
    assignments.push(assigned(alloc, graph, registry, program, 1)?)?;
    Ok(assignments)
}

// What is visible where nothing is.
fn nothing_shown(alloc: Global) -> Visible
    ensures { length result.values ≡ 0 }
{
    Visible {
        values: Sequence::new(alloc),
        halt: false,
        total_vertices: 0,
        total_edges: 0,
    }
}

// The first round of a run of a program on the three vertices.
fn simulated<R: Threads + Sync, P: Computation<Message = i64>, F: Fate, G: Gate>(
    rt: &R,
    alloc: Global,
    way: Way,
    program: &P,
    fate: &F,
    gate: &G,
) -> Result<Vec<Outcome<P::Value, P::Message>>, Fail>
    requires declared { has_places (P.program program.now).declared 0 ≡ true }
{
    let graph = three_vertices(alloc)?;
    let (logs, visible, registry) = (Logs::new(alloc), nothing_shown(alloc), Registry::new(alloc));
    let assignments = both_assigned(alloc, &graph, &registry, program)?;
    let (start, no_worker) = (Superstep::new(0), WorkerId::new(64));
    let round = Round::new(&logs, &visible, None, None, &registry, start, 0, no_worker);
    let combiner = AnyCombiner::NoCombiner;
    let outcomes = match way {
        Way::Threads => in_threads(
            rt,
            alloc,
            assignments,
            &round,
            program,
            &combiner,
            fate,
            gate,
        ),
        Way::Turn => in_turn(alloc, assignments, &round, program, &combiner, fate, gate),
    };
    Ok(outcomes?)
}

// What a worker tells: which it is, and its partition, where that stands and how many calls its step took; or why it
// fell.
type Stated = (u32, Result<(u32, u32, u64), Cause>);

fn reported<V: Plain, M: Plain>(outcome: &Outcome<V, M>) -> Stated {
    let stepped = match &outcome.done {
        Ok(dones) => match dones.first() {
            Some(done) => Ok((
                done.part.partition().number(),
                done.part.place().number(),
                done.calls,
            )),
            None => Ok((64, 0, 0)),
        },
        Err(cause) => Err(*cause),
    };
    (outcome.worker.number(), stepped)
}

// What the workers of the first round of a run tell, in their order.
fn stated_of<R: Threads + Sync, F: Fate, G: Gate>(
    rt: &R,
    alloc: Global,
    way: Way,
    fate: &F,
    gate: &G,
) -> Result<Vec<Stated>, Fail> {
    let outcomes = simulated(rt, alloc, way, &Tally, fate, gate)?;
    let mut all = Vec::new(alloc);
    for outcome in outcomes.as_slice() {
        all.push(reported(outcome))?;
    }
    Ok(all)
}

#[test]
fn a_round_gives_the_same_in_threads_and_in_turn(rt: HostRuntime) -> Result<(), Fail> {
    let alloc = rt.alloc();
    let in_threads = stated_of(&rt, alloc, Way::Threads, &NoFate, &NoGate)?;
    let in_turn = stated_of(&rt, alloc, Way::Turn, &NoFate, &NoGate)?;
    let expected = [(0, Ok((0, 1, 1))), (1, Ok((1, 1, 2)))];
    assert_eq!(rt; in_threads.as_slice(), expected.as_slice());
    assert_eq!(rt; in_turn.as_slice(), expected.as_slice());
    Ok(())
}

#[test]
fn a_single_worker_falls(rt: HostRuntime) -> Result<(), Fail> {
    let alloc = rt.alloc();
    let in_threads = stated_of(&rt, alloc, Way::Threads, &SecondFalls, &NoGate)?;
    let in_turn = stated_of(&rt, alloc, Way::Turn, &SecondFalls, &NoGate)?;
    let expected = [(0, Ok((0, 1, 1))), (1, Err(Cause::Fate))];
    assert_eq!(rt; in_threads.as_slice(), expected.as_slice());
    assert_eq!(rt; in_turn.as_slice(), expected.as_slice());
    Ok(())
}

#[test]
fn workers_in_threads_meet(rt: HostRuntime) -> Result<(), Fail> {
    let alloc = rt.alloc();
    let gate = Meeting::new();
    stated_of(&rt, alloc, Way::Threads, &NoFate, &gate)?;
    assert!(rt; gate.was_held());
    Ok(())
}
