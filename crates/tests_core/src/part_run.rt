ghost use Rattle.std.specs.Prelude.{◌≡◌, length, true, IfSome};
ghost use Rattle.std.specs.Option.{option_copied};
ghost use Rattle.pg_global.specs.Master.{has_places};

use crate::graphs::graph_of;
use pg_global::{AnyCombiner, MessageCombiner, Visible};
use pg_graph::{Graph, Missing, PartitionId, Superstep, VertexId};
use pg_inbox::Logs;
use pg_model::Sequence;
use pg_part::{PartRun, Partitioner, Sent};
use pg_program::{Computation, Meter, Plain, Tally};
use std::alloc::Global;
use std::fmt::Write;
use std::process::Abort;
use std::test::Fail;
use tests_kit::id;

// What is visible where nothing but the number of edges is.
fn showing(alloc: Global, total_edges: u64) -> Visible
    ensures { length result.values ≡ 0 }
{
    Visible {
        values: Sequence::new(alloc),
        halt: false,
        total_vertices: 0,
        total_edges,
    }
}

// This, or nothing.
fn borrowed_if<X>(there: bool, value: &X) -> Option<&X>
    ensures { IfSome (option_copied result) (λ x. x ≡ value.now) }
{
    if there { Some(value) } else { None }
}

// A part run one superstep further, and what it sends; against an old run with these logs, or not.
fn stepped<P: Computation, C: MessageCombiner<P::Message>>(
    alloc: Global,
    part_run: PartRun<P::Value, P::Message>,
    logs: &Logs<P::Message>,
    visible: &Visible,
    old_logs: &Logs<P::Message>,
    warm: bool,
    program: &P,
    combiner: &C,
    meter: &mut Meter,
) -> Result<(PartRun<P::Value, P::Message>, Sent<P::Message>), Fail>
    requires declared { has_places (P.program program.now).declared 0 ≡ true }
    requires shown { length visible.now.values ≡ 0 }
{
    if part_run.place().number() > 100 {
        return Err(Fail::from("a run without an end"));
    }
    let stepped = part_run.step(
        alloc,
        logs,
        visible,
        borrowed_if(warm, old_logs),
        borrowed_if(warm, visible),
        program,
        combiner,
        meter,
    );
    Ok(stepped.ok().ok_or("a step was lost")?)
}

// Puts into the logs what a partition sent in a superstep.
fn log<M: Plain>(
    alloc: Global,
    logs: &mut Logs<M>,
    place: Superstep,
    partition: PartitionId,
    sent: Sent<M>,
) -> Result<(), Fail> {
    let mut to = 0u32;
    for logged in sent.into_bundles() {
        logs.put(alloc, place, partition, PartitionId::new(to), logged)?;
        to = to.saturating_add(1);
    }
    Ok(())
}

// Adds a part run one superstep further. What it sends is put into the logs.
fn add_advanced<P: Computation, C: MessageCombiner<P::Message>>(
    alloc: Global,
    all: &mut Vec<PartRun<P::Value, P::Message>>,
    part_run: PartRun<P::Value, P::Message>,
    logs: &mut Logs<P::Message>,
    visible: &Visible,
    old_logs: &Logs<P::Message>,
    warm: bool,
    program: &P,
    combiner: &C,
    meter: &mut Meter,
) -> Result<(), Fail>
    requires declared { has_places (P.program program.now).declared 0 ≡ true }
    requires shown { length visible.now.values ≡ 0 }
{
    let (partition, place) = (part_run.partition(), part_run.place());
    let (part_run, sent) = stepped(
        alloc, part_run, logs, visible, old_logs, warm, program, combiner, meter,
    )?;
    all.push(part_run)?;
    log(alloc, logs, place, partition, sent)
}

// Each part run one superstep further, with as many edges as are given. What it sends is put into the logs.
fn advanced<P: Computation, C: MessageCombiner<P::Message>>(
    alloc: Global,
    part_runs: Vec<PartRun<P::Value, P::Message>>,
    logs: &mut Logs<P::Message>,
    old_logs: &Logs<P::Message>,
    warm: bool,
    total_edges: u64,
    program: &P,
    combiner: &C,
    meter: &mut Meter,
) -> Result<Vec<PartRun<P::Value, P::Message>>, Fail>
    requires { has_places (P.program program.now).declared 0 ≡ true }
{
    let visible = showing(alloc, total_edges);
    let mut all = Vec::new(alloc);
    for part_run in part_runs {
        add_advanced(
            alloc, &mut all, part_run, logs, &visible, old_logs, warm, program, combiner, meter,
        )?;
    }
    Ok(all)
}

// A run that was made on part runs, with what was sent and how many supersteps it has.
#[derive(Drop)]
pub(crate) struct Made<V: Plain, M: Plain> {
    part_runs: Vec<PartRun<V, M>>,
    logs: Logs<M>,
    supersteps: u32,
    pub(crate) meter: Meter,
}

// A partition as a run from scratch begins.
fn begun<P: Computation>(
    alloc: Global,
    graph: &Graph,
    partitioner: Partitioner,
    partition: PartitionId,
    program: &P,
) -> Result<PartRun<P::Value, P::Message>, Fail> {
    let rows = partitioner.rows(graph, partition);
    let states = rows.first_states(alloc, program)?;
    Ok(PartRun::begin(alloc, rows, Missing::Drop, states)?)
}

// A run on these part runs of as many supersteps as there are totals of edges; against an old run with these logs, or
// not.
fn run_on<P: Computation, C: MessageCombiner<P::Message>>(
    alloc: Global,
    part_runs: Vec<PartRun<P::Value, P::Message>>,
    old_logs: &Logs<P::Message>,
    warm: bool,
    totals: &[u64],
    program: &P,
    combiner: &C,
) -> Result<Made<P::Value, P::Message>, Fail>
    requires { has_places (P.program program.now).declared 0 ≡ true }
{
    let mut part_runs = part_runs;
    let (mut logs, mut meter) = (Logs::new(alloc), Meter::new());
    let mut supersteps = 0u32;
    for total in totals {
        part_runs = advanced(
            alloc, part_runs, &mut logs, old_logs, warm, *total, program, combiner, &mut meter,
        )?;
        supersteps = supersteps.saturating_add(1);
    }
    Ok(Made {
        part_runs,
        logs,
        supersteps,
        meter,
    })
}

// A run from scratch of as many supersteps as there are totals of edges, on so many partitions.
pub(crate) fn cold_run<P: Computation, C: MessageCombiner<P::Message>>(
    alloc: Global,
    graph: &Graph,
    partitioner: Partitioner,
    totals: &[u64],
    program: &P,
    combiner: &C,
) -> Result<Made<P::Value, P::Message>, Fail>
    requires { has_places (P.program program.now).declared 0 ≡ true }
{
    let mut part_runs = Vec::new(alloc);
    for partition in 0..partitioner.partitions() {
        let partition = PartitionId::new(partition);
        part_runs.push(begun(alloc, graph, partitioner, partition, program)?)?;
    }
    let none = Logs::new(alloc);
    run_on(alloc, part_runs, &none, false, totals, program, combiner)
}

// The partitions of an old run as one against it begins, where edits named these ids.
fn begun_warm<P: Computation>(
    alloc: Global,
    graph: &Graph,
    partitioner: Partitioner,
    old: Vec<PartRun<P::Value, P::Message>>,
    touched: &[VertexId],
    program: &P,
) -> Result<Vec<PartRun<P::Value, P::Message>>, Fail> {
    let mut part_runs = Vec::new(alloc);
    for part_run in old {
        let rows = partitioner.rows(graph, part_run.partition());
        let (trace, _) = part_run.into_traces();
        part_runs.push(PartRun::begin_warm(alloc, rows, Missing::Drop, trace, touched, program)?)?;
    }
    Ok(part_runs)
}

// A run against an old one that has as many supersteps, where edits named these ids.
pub(crate) fn warm_run<P: Computation, C: MessageCombiner<P::Message>>(
    alloc: Global,
    graph: &Graph,
    partitioner: Partitioner,
    old: Made<P::Value, P::Message>,
    touched: &[VertexId],
    totals: &[u64],
    program: &P,
    combiner: &C,
) -> Result<Made<P::Value, P::Message>, Fail>
    requires { has_places (P.program program.now).declared 0 ≡ true }
{
    let Made {
        part_runs,
        logs,
        ..
    } = old;
    let part_runs = begun_warm(alloc, graph, partitioner, part_runs, touched, program)?;
    run_on(alloc, part_runs, &logs, true, totals, program, combiner)
}

// A run against an old one where one partition has lost its trace of the old run, and begins from scratch.
pub(crate) fn mixed_run<P: Computation, C: MessageCombiner<P::Message>>(
    alloc: Global,
    graph: &Graph,
    partitioner: Partitioner,
    old: Made<P::Value, P::Message>,
    touched: &[VertexId],
    lost: PartitionId,
    totals: &[u64],
    program: &P,
    combiner: &C,
) -> Result<Made<P::Value, P::Message>, Fail>
    requires { has_places (P.program program.now).declared 0 ≡ true }
{
    let Made {
        part_runs,
        logs,
        ..
    } = old;
    let all = begun_warm(alloc, graph, partitioner, part_runs, touched, program)?;
    let mut part_runs = Vec::new(alloc);
    for part_run in all {
        if part_run.partition() == lost {
            part_runs.push(begun(alloc, graph, partitioner, lost, program)?)?;
        } else {
            part_runs.push(part_run)?;
        }
    }
    run_on(alloc, part_runs, &logs, true, totals, program, combiner)
}

// The value of a vertex as a superstep begins, if it is there.
fn show_value<V: Plain, M: Plain>(
    text: &mut String,
    part_run: &PartRun<V, M>,
    vertex: VertexId,
    superstep: Superstep,
) -> Result<(), Fail> {
    if let Some(state) = part_run.trace().state_at(vertex, superstep) {
        write!(text, "{vertex}=")?;
        state.value().show(text)?;
        text.push_str(" ")?;
    }
    Ok(())
}

// The values of the ids up to nine as a run ends, and how many executions there were.
pub(crate) fn reported<V: Plain, M: Plain>(
    alloc: Global,
    partitioner: Partitioner,
    made: &Made<V, M>,
) -> Result<String, Fail> {
    let mut text = String::new(alloc);
    for number in 1..10 {
        let vertex = id(number)?;
        let place = partitioner.partition(vertex).number() as usize;
        let part_run = made.part_runs.get(place).ok_or("a partition is missing")?;
        show_value(&mut text, part_run, vertex, Superstep::new(made.supersteps))?;
    }
    let calls = made.meter.count();
    write!(text, "calls {calls}")?;
    Ok(text)
}

// The values of a run from scratch, and how many executions there were.
fn run_parts<P: Computation, C: MessageCombiner<P::Message>>(
    alloc: Global,
    graph: &Graph,
    partitions: u32,
    totals: &[u64],
    program: &P,
    combiner: &C,
) -> Result<String, Fail>
    requires { has_places (P.program program.now).declared 0 ≡ true }
{
    let partitioner = Partitioner::new(partitions).ok_or("no such number of partitions")?;
    let made = cold_run(alloc, graph, partitioner, totals, program, combiner)?;
    reported(alloc, partitioner, &made)
}

pub(crate) static SIZES: [u32; 5] = [1, 2, 3, 5, 64];

// What the sample program finds in two supersteps on a graph with five edges.
fn tallied(
    alloc: Global,
    graph: &Graph,
    partitions: u32,
    combiner: AnyCombiner,
) -> Result<String, Fail> {
    run_parts(alloc, graph, partitions, &[5, 5], &Tally, &combiner)
}

#[test]
fn messages_come_by_sender_on_however_many_partitions(rt: HostRuntime) -> Result<(), Fail> {
    let alloc = rt.alloc();
    let vertices = [(1, 10), (2, 20), (3, 30), (4, 40), (5, 50)];
    let graph = graph_of(alloc, &vertices, &[(5, 3), (4, 3), (3, 1), (2, 3), (1, 3)])?;
    for partitions in SIZES {
        let each = tallied(alloc, &graph, partitions, AnyCombiner::NoCombiner)?;
        assert_eq!(rt;
            each.as_str(),
            "1=(1 [30]) 2=(20 []) 3=(4 [10 20 40 50]) 4=(40 []) 5=(50 []) calls 7"
        );
        let sum = tallied(alloc, &graph, partitions, AnyCombiner::Sum)?;
        assert_eq!(rt;
            sum.as_str(),
            "1=(1 [30]) 2=(20 []) 3=(1 [120]) 4=(40 []) 5=(50 []) calls 7"
        );
    }
    Ok(())
}

#[test]
fn there_are_one_to_64_partitions(rt: HostRuntime) -> Result<(), Fail> {
    assert!(rt; Partitioner::new(0).is_none());
    assert!(rt; Partitioner::new(65).is_none());
    let partitioner = Partitioner::new(64).ok_or("no 64 partitions")?;
    assert_eq!(rt; partitioner.partitions(), 64);
    assert_eq!(rt; partitioner.partition(id(130)?).number(), 2);
    Ok(())
}
