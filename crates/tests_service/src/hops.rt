// A service of shortest paths from 1, and the calls of any service, with what they tell as plain values.
ghost use Rattle.std.specs.Prelude.{◌≡◌, true};

use pg_global::{AnyCombiner, MasterCompute, MessageCombiner};
use pg_graph::{Batch, Edit, EditKind, Graph, Memory};
use pg_program::{Computation, Plain};
use pg_service::{
    Cause, Fate, Gate, Limits, Loss, MemShelf, NoFate, NoGate, RefreshFault, Report, Service,
    Shelf, same,
};
use pregeld_programs::{ReadyMaster, ReadyProgram, Sssp};
use std::alloc::Global;
use std::fmt::Write;
use std::sync::Wait;
use std::test::Fail;
use std::thread::Threads;
use tests_kit::{id, scratch};

pub(crate) type Paths = Service<ReadyProgram, AnyCombiner, ReadyMaster>;

pub(crate) fn program() -> Result<ReadyProgram, Fail> {
    Ok(ReadyProgram::Sssp(Sssp { source: id(1)? }))
}

pub(crate) fn master() -> Result<ReadyMaster, Fail> {
    let program = program()?;
    Ok(ReadyMaster { program })
}

// So many partitions and workers; each partition is saved after so many supersteps, and so many losses are borne.
pub(crate) fn limits_of(
    partitions: u32,
    workers: u32,
    every: u32,
    max_losses: u32,
) -> Result<Limits, Fail> {
    Ok(Limits::new(partitions, workers, 1_000, every, max_losses).ok_or("limits")?)
}

// A service of any program. It is ended by `close`.
pub(crate) fn service_of<
    R: Wait,
    P: Computation + Drop,
    C: MessageCombiner<P::Message> + Drop,
    M: MasterCompute + Drop,
>(
    rt: &R,
    alloc: Global,
    limits: Limits,
    program: P,
    combiner: C,
    master: M,
) -> Result<Service<P, C, M>, Fail> {
    Ok(Service::new(rt, alloc, limits, program, combiner, master)?)
}

// A service with these limits, with nothing in its graph.
pub(crate) fn empty<R: Wait>(rt: &R, alloc: Global, limits: Limits) -> Result<Paths, Fail> {
    service_of(
        rt,
        alloc,
        limits,
        program()?,
        AnyCombiner::NoCombiner,
        master()?,
    )
}

// An edit, in the words of the command line.
#[derive(Clone, Copy)]
pub(crate) enum Line {
    Vertex(u64),
    Unvertex(u64),
    Input(u64, i64),
    Edge(u64, u64, i64),
    Unedge(u64, u64),
}

fn edit_of(line: Line) -> Result<Edit, Fail> {
    match line {
        Line::Vertex(vertex) => Ok(Edit::AddVertex(id(vertex)?, 0)),
        Line::Unvertex(vertex) => Ok(Edit::RemoveVertex(id(vertex)?)),
        Line::Input(vertex, input) => Ok(Edit::SetInput(id(vertex)?, input)),
        Line::Edge(source, target, weight) => {
            Ok(Edit::AddEdge(id(source)?, id(target)?, weight))
        }
        Line::Unedge(source, target) => Ok(Edit::RemoveEdge(id(source)?, id(target)?)),
    }
}

pub(crate) fn batch_of(alloc: Global, lines: &[Line]) -> Result<Batch, Fail> {
    let mut batch = Batch::new(alloc);
    for line in lines {
        batch.push(edit_of(*line)?)?;
    }
    Ok(batch)
}

fn edit<P: Computation, C: MessageCombiner<P::Message>, M: MasterCompute>(
    alloc: Global,
    service: &mut Service<P, C, M>,
    batch: &Batch,
) -> Result<u64, (u64, EditKind)>
    ensures { service.new.told ≡ service.old.told }
{
    match service.edit(alloc, batch) {
        Ok(edition) => Ok(edition.number()),
        Err(fault) => Err((fault.position, fault.kind)),
    }
}

// The edition that a batch makes, or the place and the kind of its fault.
pub(crate) fn commit(
    alloc: Global,
    service: &mut Paths,
    lines: &[Line],
) -> Result<Result<u64, (u64, EditKind)>, Fail>
    ensures { service.new.told ≡ service.old.told }
{
    let batch = batch_of(alloc, lines)?;
    Ok(edit(alloc, service, &batch))
}

// The edition that a batch makes which isn't to be refused.
pub(crate) fn accepted(alloc: Global, service: &mut Paths, lines: &[Line]) -> Result<u64, Fail>
    ensures { service.new.told ≡ service.old.told }
{
    match commit(alloc, service, lines)? {
        Ok(edition) => Ok(edition),
        Err(_) => Err(Fail::from("a batch that is refused")),
    }
}

pub(crate) const TWO_HOPS: [Line; 5] = [
    Line::Vertex(1),
    Line::Vertex(2),
    Line::Vertex(3),
    Line::Edge(1, 2, 5),
    Line::Edge(2, 3, 1),
];

// A service with the edges from 1 to 2, of weight 5, and from 2 to 3, of weight 1.
pub(crate) fn two_hops<R: Wait>(rt: &R, alloc: Global, limits: Limits) -> Result<Paths, Fail> {
    let mut service = empty(rt, alloc, limits)?;
    match accepted(alloc, &mut service, &TWO_HOPS) {
        Ok(_) => Ok(service),
        Err(fail) => {
            service.close(rt);
            Err(fail)
        }
    }
}

// A worker that fell, the superstep in which it did, and why.
fn tell_losses(text: &mut String, losses: &[Loss]) -> Result<(), Memory> {
    write!(text, " losses")?;
    for loss in losses {
        let cause = match loss.cause {
            Cause::Fate => "fate",
            Cause::Memory => "memory",
        };
        write!(
            text,
            " ({} {} {cause})",
            loss.worker.number(),
            loss.superstep.number()
        )?;
    }
    Ok(())
}

// What a report tells: calls of compute, supersteps, the steps of each partition where they aren't as many, and the
// workers that fell.
fn tell_report(text: &mut String, report: &Report) -> Result<(), Memory> {
    write!(
        text,
        "calls {} supersteps {}",
        report.calls, report.supersteps
    )?;
    let supersteps = u64::from(report.supersteps);
    for (partition, made) in report.steps.as_slice().iter().enumerate() {
        if *made != supersteps {
            write!(text, " steps of {partition} {made}")?;
        }
    }
    tell_losses(text, report.losses.as_slice())
}

// The number of a refusal, and the workers that fell where it tells them.
fn tell_refusal(text: &mut String, fault: &RefreshFault) -> Result<(), Memory> {
    write!(text, "refused {}", fault.number())?;
    match fault {
        RefreshFault::TooManyLosses(losses) => tell_losses(text, losses.as_slice()),
        RefreshFault::NoWorkers(losses) => tell_losses(text, losses.as_slice()),
        RefreshFault::Memory => Ok(()),
        RefreshFault::Device => Ok(()),
    }
}

// The report or the refusal of a refresh on workers that fall by this fate and pass this gate, with checkpoints on this
// shelf, whose device hasn't failed before.
pub(crate) fn refresh_on<
    R: Threads + Wait + Sync,
    P: Computation,
    C: MessageCombiner<P::Message>,
    M: MasterCompute,
    S: Shelf,
    F: Fate,
    G: Gate,
>(
    rt: &R,
    alloc: Global,
    service: &mut Service<P, C, M>,
    shelf: &mut S,
    fate: &F,
    gate: &G,
) -> Result<Result<Report, RefreshFault>, Fail>
    requires { (S.state shelf.old).is_honest ≡ true }
{
    if shelf.failures() > 0 {
        return Err(Fail::from("the device has failed before"));
    }
    Ok(service.refresh(rt, alloc, shelf, fate, gate))
}

// What such a refresh tells.
pub(crate) fn refreshed_on<
    R: Threads + Wait + Sync,
    P: Computation,
    C: MessageCombiner<P::Message>,
    M: MasterCompute,
    S: Shelf,
    F: Fate,
    G: Gate,
>(
    rt: &R,
    alloc: Global,
    service: &mut Service<P, C, M>,
    shelf: &mut S,
    fate: &F,
    gate: &G,
) -> Result<String, Fail>
    requires { (S.state shelf.old).is_honest ≡ true }
{
    let mut text = String::new(alloc);
    match refresh_on(rt, alloc, service, shelf, fate, gate)? {
        Ok(report) => tell_report(&mut text, &report)?,
        Err(fault) => tell_refusal(&mut text, &fault)?,
    }
    Ok(text)
}

// What a refresh tells in which no worker is made to fall, with checkpoints in memory.
pub(crate) fn refreshed<
    R: Threads + Wait + Sync,
    P: Computation,
    C: MessageCombiner<P::Message>,
    M: MasterCompute,
>(rt: &R, alloc: Global, service: &mut Service<P, C, M>) -> Result<String, Fail> {
    let mut shelf = MemShelf::new(alloc);
    refreshed_on(rt, alloc, service, &mut shelf, &NoFate, &NoGate)
}

// What is published: the values by rising id.
fn tell_values<P: Computation, C: MessageCombiner<P::Message>, M: MasterCompute>(
    service: &Service<P, C, M>,
    text: &mut String,
) -> Result<(), Fail> {
    let Some(answers) = service.answers() else {
        text.push_str("; of nothing\n")?;
        return Ok(());
    };
    write!(text, "; of {}:", answers.edition().number())?;
    for (vertex, value) in answers.values() {
        write!(text, " {vertex}=")?;
        value.show(text)?;
    }
    text.push_str("\n")?;
    Ok(())
}

// What a refresh tells on workers that fall by this fate and pass this gate, with checkpoints on this shelf, and what
// is published after it, with its edition.
pub(crate) fn told_on<
    R: Threads + Wait + Sync,
    P: Computation,
    C: MessageCombiner<P::Message>,
    M: MasterCompute,
    S: Shelf,
    F: Fate,
    G: Gate,
>(
    rt: &R,
    alloc: Global,
    service: &mut Service<P, C, M>,
    shelf: &mut S,
    fate: &F,
    gate: &G,
) -> Result<String, Fail>
    requires { (S.state shelf.old).is_honest ≡ true }
{
    let mut text = refreshed_on(rt, alloc, service, shelf, fate, gate)?;
    tell_values(service, &mut text)?;
    Ok(text)
}

// What a refresh tells so after each of these batches, with no worker made to fall.
fn told_after_each<R: Threads + Wait + Sync>(
    rt: &R,
    alloc: Global,
    service: &mut Paths,
    batches: &[&[Line]],
) -> Result<String, Fail> {
    let mut text = String::new(alloc);
    for lines in batches {
        accepted(alloc, service, lines)?;
        let mut shelf = MemShelf::new(alloc);
        let told = told_on(rt, alloc, service, &mut shelf, &NoFate, &NoGate)?;
        text.push_str(told.as_str())?;
    }
    Ok(text)
}

// What a service with these limits tells so.
pub(crate) fn told<R: Threads + Wait + Sync>(
    rt: &R,
    alloc: Global,
    limits: Limits,
    batches: &[&[Line]],
) -> Result<String, Fail> {
    let mut service = empty(rt, alloc, limits)?;
    let told = told_after_each(rt, alloc, &mut service, batches);
    service.close(rt);
    told
}

// Whether what a service has published is what a run from scratch of its job finds on a graph.
pub(crate) fn is_run_on<P: Computation, C: MessageCombiner<P::Message>, M: MasterCompute>(
    alloc: Global,
    service: &Service<P, C, M>,
    graph: &Graph,
    program: &P,
    combiner: &C,
    master: &M,
    limits: Limits,
) -> Result<bool, Fail> {
    let answers = service.answers().ok_or("nothing is published")?;
    let run = scratch(alloc, graph, program, combiner, master, limits)?;
    Ok(same(answers, &run))
}

// Whether what a service has published is what a run from scratch finds on a graph of these lines.
pub(crate) fn is_run_of(alloc: Global, service: &Paths, lines: &[Line]) -> Result<bool, Fail> {
    let (program, combiner, master) = (program()?, AnyCombiner::NoCombiner, master()?);
    let (graph, limits) = (graph_of(alloc, lines)?, limits_of(1, 1, 0, 0)?);
    is_run_on(alloc, service, &graph, &program, &combiner, &master, limits)
}

// The graph of these lines.
fn graph_of(alloc: Global, lines: &[Line]) -> Result<Graph, Fail> {
    let batch = batch_of(alloc, lines)?;
    let mut graph = Graph::new(alloc);
    graph.apply(alloc, &batch)?;
    Ok(graph)
}
