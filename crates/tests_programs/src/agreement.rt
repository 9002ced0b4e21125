// Runs on random small graphs, each computed a second time over plain lists.
ghost use Rattle.std.specs.Prelude.{◌<◌};

use pg_global::AnyCombiner;
use pg_graph::{Batch, Edit, Graph, Missing, VertexId};
use pg_model::Ending;
use pg_program::Meter;
use pg_scratch::run;
use pregeld_programs::{Cc, Indegree, MaxValue, Pagerank, Peel, ReadyMaster, ReadyProgram, Sssp};
use std::alloc::Global;
use std::process::Abort;
use std::test::Fail;

// Vertices have ids below this, and so have the targets of edges.
const IDS: u64 = 10;

// An id with what a run keeps of it. One that is no vertex may have messages that wait.
#[derive(Drop)]
struct Cell {
    id: u64,
    is_vertex: bool,
    halted: bool,
    value: i64,
    edges: Vec<(u64, i64)>,
    inbox: Vec<i64>,
}

// What the executions of a superstep send, one after another, and contribute.
#[derive(Drop)]
struct Sent {
    messages: Vec<(u64, i64)>,
    contributed: Vec<i64>,
}

// What is said of a run besides the values.
#[derive(Clone, Copy, Debug, PartialEq, Eq)]
struct Outcome {
    aggregate: i64,
    ending: Ending,
    supersteps: u32,
    calls: u64,
    sent: u64,
    dropped: u64,
}

// ---- random graphs

// Numbers that look random, the same for the same beginning.
#[derive(Drop)]
struct Random {
    state: u64,
}

impl Random {
    fn below(&mut self, bound: u64) -> u64
        requires { 0 < bound }
        ensures { result < bound }
    {
        self.state = self
            .state
            .wrapping_mul(6_364_136_223_846_793_005)
            .wrapping_add(1_442_695_040_888_963_407);
        (self.state >> 33) % bound
    }

    // A number that is mostly small, sometimes negative, and now and then at an end of its range.
    fn number(&mut self) -> i64 {
        match self.below(24) {
            0 => i64::MAX,
            1 => i64::MIN,
            2 => -1 - self.below(5) as i64,
            _ => self.below(9) as i64,
        }
    }
}

// A graph of 1 to 8 vertices whose values are their inputs. Some edges lead to ids that aren't vertices.
fn cells_of(alloc: Global, seed: u64) -> Result<Vec<Cell>, Fail> {
    let mut random = Random { state: seed };
    let _first = random.below(2);
    let most = 1 + random.below(8);
    let mut made = 0_u64;
    let mut cells = Vec::new(alloc);
    for id in 0..IDS {
        let is_vertex = made < most && (made == 0 || random.below(4) != 0);
        let mut cell = Cell {
            id,
            is_vertex,
            halted: false,
            value: 0,
            edges: Vec::new(alloc),
            inbox: Vec::new(alloc),
        };
        if is_vertex {
            made = made.saturating_add(1);
            cell.value = random.number();
            add_edges(&mut random, &mut cell)?;
        }
        cells.push(cell)?;
    }
    Ok(cells)
}

fn add_edges(random: &mut Random, cell: &mut Cell) -> Result<(), Fail> {
    for target in 0..IDS {
        if random.below(4) == 0 {
            cell.edges.push((target, random.number()))?;
        }
    }
    Ok(())
}

fn id(rt: &impl Abort, number: u64) -> VertexId {
    VertexId::new(number).expect(rt, "an id")
}

fn graph_of(rt: &impl Abort, alloc: Global, cells: &[Cell]) -> Result<Graph, Fail> {
    let mut batch = Batch::new(alloc);
    for cell in cells {
        if cell.is_vertex {
            batch.push(Edit::AddVertex(id(rt, cell.id), cell.value))?;
        }
        for (target, weight) in &cell.edges {
            batch.push(Edit::AddEdge(id(rt, cell.id), id(rt, *target), *weight))?;
        }
    }
    let mut graph = Graph::new(alloc);
    assert!(rt; graph.apply(alloc, &batch).is_ok());
    Ok(graph)
}

// ---- the programs once more, over plain lists

fn send_to_all(cell: &Cell, message: i64, sent: &mut Sent) -> Result<(), Fail> {
    for (target, _) in &cell.edges {
        sent.messages.push((*target, message))?;
    }
    Ok(())
}

fn within(number: i128) -> i64 {
    if number > i128::from(i64::MAX) {
        return i64::MAX;
    }
    if number < i128::from(i64::MIN) {
        return i64::MIN;
    }
    number as i64
}

fn paths(source: u64, cell: &mut Cell, sent: &mut Sent) -> Result<(), Fail> {
    let mut near = if cell.id == source { 0 } else { i64::MAX };
    for message in &cell.inbox {
        near = near.min(*message);
    }
    cell.halted = true;
    if near >= cell.value {
        return Ok(());
    }
    if cell.value == i64::MAX {
        sent.contributed.push(1)?;
    }
    cell.value = near;
    for (target, weight) in &cell.edges {
        let far = i128::from(near) + i128::from(*weight);
        sent.messages.push((*target, within(far)))?;
    }
    Ok(())
}

fn labels(superstep: u32, cell: &mut Cell, sent: &mut Sent) -> Result<(), Fail> {
    let before = cell.value;
    for message in &cell.inbox {
        if *message < cell.value {
            cell.value = *message;
        }
    }
    cell.halted = true;
    if superstep == 0 || cell.value != before {
        send_to_all(cell, cell.value, sent)?;
    }
    Ok(())
}

fn greatest(superstep: u32, cell: &mut Cell, sent: &mut Sent) -> Result<(), Fail> {
    let before = cell.value;
    for message in &cell.inbox {
        if *message > cell.value {
            cell.value = *message;
        }
    }
    cell.halted = true;
    if superstep == 0 || cell.value != before {
        sent.contributed.push(cell.value)?;
        send_to_all(cell, cell.value, sent)?;
    }
    Ok(())
}

fn degrees(superstep: u32, cell: &mut Cell, sent: &mut Sent) -> Result<(), Fail> {
    if superstep == 0 {
        cell.halted = false;
        return send_to_all(cell, 1, sent);
    }
    cell.halted = true;
    cell.value = within(cell.inbox.len() as i128);
    sent.contributed.push(cell.value)?;
    Ok(())
}

fn ranks(
    rounds: u32,
    superstep: u32,
    total: u64,
    cell: &mut Cell,
    sent: &mut Sent,
) -> Result<(), Fail> {
    let vertices = if total == 0 { 1 } else { total };
    if superstep == 0 {
        cell.value = within(i128::from(1_000_000_000_000_u64 / vertices));
    } else {
        let mut sum = 0_i64;
        for message in &cell.inbox {
            sum = sum.wrapping_add(*message);
        }
        let shared = within(i128::from(150_000_000_000_u64 / vertices));
        let damped = within(i128::from(sum) * 85 / 100);
        let before = cell.value;
        cell.value = within(i128::from(shared) + i128::from(damped));
        let distance = cell.value.abs_diff(before);
        sent.contributed.push(within(i128::from(distance)))?;
    }
    cell.halted = superstep >= rounds;
    let edges = cell.edges.len();
    if !cell.halted && edges > 0 {
        let share = cell.value / edges as i64;
        send_to_all(cell, share, sent)?;
    }
    Ok(())
}

fn is_named(id: u64, messages: &[i64]) -> bool {
    for message in messages {
        if i128::from(*message) == i128::from(id) {
            return true;
        }
    }
    false
}

fn peels(alloc: Global, k: u32, cell: &mut Cell, sent: &mut Sent) -> Result<(), Fail> {
    let mut remaining = Vec::new(alloc);
    for edge in &cell.edges {
        if !is_named(edge.0, cell.inbox.as_slice()) {
            remaining.push(*edge)?;
        }
    }
    cell.edges = remaining;
    cell.halted = true;
    if cell.value == 1 && (cell.edges.len() as u64) < u64::from(k) {
        cell.value = 0;
        sent.contributed.push(1)?;
        send_to_all(cell, within(i128::from(cell.id)), sent)?;
    }
    Ok(())
}

fn initial(program: &ReadyProgram, id: u64, input: i64) -> i64 {
    match program {
        ReadyProgram::Sssp(_) => i64::MAX,
        ReadyProgram::Cc(_) => within(i128::from(id)),
        ReadyProgram::MaxValue(_) => input,
        ReadyProgram::Indegree(_) | ReadyProgram::Pagerank(_) => 0,
        ReadyProgram::Peel(_) => 1,
    }
}

fn execute(
    alloc: Global,
    program: &ReadyProgram,
    superstep: u32,
    total: u64,
    cell: &mut Cell,
    sent: &mut Sent,
) -> Result<(), Fail> {
    match program {
        ReadyProgram::Sssp(sssp) => paths(sssp.source.number(), cell, sent),
        ReadyProgram::Cc(_) => labels(superstep, cell, sent),
        ReadyProgram::MaxValue(_) => greatest(superstep, cell, sent),
        ReadyProgram::Indegree(_) => degrees(superstep, cell, sent),
        ReadyProgram::Pagerank(pagerank) => ranks(pagerank.rounds, superstep, total, cell, sent),
        ReadyProgram::Peel(peel) => peels(alloc, peel.k, cell, sent),
    }
}

// ---- a run once more

// What the aggregator comes to: a change is of one superstep, all else of the whole run.
fn gathered(program: &ReadyProgram, before: i64, contributed: &[i64]) -> i64 {
    let mut value = match program {
        ReadyProgram::Pagerank(_) => 0,
        _ => before,
    };
    for number in contributed {
        value = match program {
            ReadyProgram::MaxValue(_) => value.max(*number),
            _ => value.wrapping_add(*number),
        };
    }
    value
}

fn master_halts(program: &ReadyProgram, superstep: u32, change: i64) -> bool {
    match program {
        ReadyProgram::Pagerank(p) => superstep >= 2 && p.eps > 0 && 0 <= change && change <= p.eps,
        _ => false,
    }
}

// An id for which messages wait is a vertex from now on.
fn make_vertices(program: &ReadyProgram, cells: &mut [Cell]) {
    for cell in cells.iter_mut() {
        if !cell.is_vertex && !cell.inbox.is_empty() {
            cell.is_vertex = true;
            cell.value = initial(program, cell.id, 0);
        }
    }
}

fn vertices_of(cells: &[Cell]) -> u64 {
    let mut count = 0_u64;
    for cell in cells {
        if cell.is_vertex {
            count = count.saturating_add(1);
        }
    }
    count
}

// Puts the messages into the inboxes, and gives how many were dropped.
fn deliver(missing: Missing, messages: &[(u64, i64)], cells: &mut [Cell]) -> Result<u64, Fail> {
    let mut dropped = 0_u64;
    for (target, message) in messages {
        for cell in cells.iter_mut() {
            if cell.id != *target {
                continue;
            }
            if cell.is_vertex || missing == Missing::Create {
                cell.inbox.push(*message)?;
            } else {
                dropped = dropped.saturating_add(1);
            }
        }
    }
    Ok(dropped)
}

// One message in place of all that came, where messages are combined.
fn combine(combiner: AnyCombiner, inbox: &mut Vec<i64>) -> Result<(), Fail> {
    let Some(first) = inbox.first() else {
        return Ok(());
    };
    let (mut least, mut greatest, mut sum) = (*first, *first, 0_i64);
    for message in inbox.as_slice() {
        least = least.min(*message);
        greatest = greatest.max(*message);
        sum = sum.wrapping_add(*message);
    }
    let one = match combiner {
        AnyCombiner::NoCombiner => return Ok(()),
        AnyCombiner::Min => least,
        AnyCombiner::Max => greatest,
        AnyCombiner::Sum => sum,
    };
    inbox.clear();
    inbox.push(one)?;
    Ok(())
}

// Executes who is active, gives the number of calls, and empties the inboxes.
fn execute_all(
    alloc: Global,
    program: &ReadyProgram,
    superstep: u32,
    total: u64,
    cells: &mut [Cell],
    sent: &mut Sent,
) -> Result<u64, Fail> {
    let mut calls = 0_u64;
    for cell in cells.iter_mut() {
        if cell.is_vertex && (!cell.halted || !cell.inbox.is_empty()) {
            calls = calls.saturating_add(1);
            execute(alloc, program, superstep, total, cell, sent)?;
        }
        cell.inbox.clear();
    }
    Ok(calls)
}

// Delivers what was sent, and tells whether no vertex is active any more.
fn settle(
    combiner: AnyCombiner,
    missing: Missing,
    sent: &Sent,
    cells: &mut [Cell],
    outcome: &mut Outcome,
) -> Result<bool, Fail> {
    let dropped = deliver(missing, sent.messages.as_slice(), cells)?;
    outcome.dropped = outcome.dropped.saturating_add(dropped);
    outcome.sent = outcome.sent.saturating_add(sent.messages.len() as u64);
    let mut is_quiet = true;
    for cell in cells.iter_mut() {
        combine(combiner, &mut cell.inbox)?;
        is_quiet = is_quiet && cell.inbox.is_empty() && (cell.halted || !cell.is_vertex);
    }
    Ok(is_quiet)
}

// A job, without the master, which is that of the program.
#[derive(Clone, Copy)]
struct Job {
    program: ReadyProgram,
    combiner: AnyCombiner,
    missing: Missing,
    limit: u32,
}

// Runs a job on cells that hold their inputs.
fn plain_run(alloc: Global, job: &Job, cells: &mut [Cell]) -> Result<Outcome, Fail> {
    for cell in cells.iter_mut() {
        cell.value = initial(&job.program, cell.id, cell.value);
    }
    let mut outcome = Outcome {
        aggregate: match job.program {
            ReadyProgram::MaxValue(_) => i64::MIN,
            _ => 0,
        },
        ending: Ending::LimitReached,
        supersteps: 0,
        calls: 0,
        sent: 0,
        dropped: 0,
    };
    for superstep in 0..job.limit {
        let halts = master_halts(&job.program, superstep, outcome.aggregate);
        let total = vertices_of(cells);
        make_vertices(&job.program, cells);
        let mut sent = Sent {
            messages: Vec::new(alloc),
            contributed: Vec::new(alloc),
        };
        let calls = execute_all(alloc, &job.program, superstep, total, cells, &mut sent)?;
        outcome.calls = outcome.calls.saturating_add(calls);
        outcome.supersteps = superstep.saturating_add(1);
        let contributed = sent.contributed.as_slice();
        outcome.aggregate = gathered(&job.program, outcome.aggregate, contributed);
        let is_quiet = settle(job.combiner, job.missing, &sent, cells, &mut outcome)?;
        if halts {
            outcome.ending = Ending::MasterHalted;
            return Ok(outcome);
        }
        if is_quiet {
            outcome.ending = Ending::Finished;
            return Ok(outcome);
        }
    }
    Ok(outcome)
}

// ---- both agree

// The values of the vertices are these, by rising id.
fn values_agree(rt: &impl Abort, seed: u64, values: &[(VertexId, i64)], cells: &[Cell]) {
    let mut values = values.iter();
    for cell in cells {
        if cell.is_vertex {
            let value = values.next().expect(rt, "a value");
            assert_eq!(rt;
                (value.0.number(), value.1),
                (cell.id, cell.value),
                "seed {seed}"
            );
        }
    }
    assert!(rt; values.next().is_none(), "seed {seed}");
}

fn agrees(rt: &impl Abort, alloc: Global, job: &Job, seed: u64) -> Result<Outcome, Fail>
    requires { 0 < job.now.limit }
{
    let mut cells = cells_of(alloc, seed)?;
    let graph = graph_of(rt, alloc, cells.as_slice())?;
    let wanted = plain_run(alloc, job, cells.as_mut_slice())?;
    let master = ReadyMaster {
        program: job.program,
    };
    let mut meter = Meter::new();
    let answer = run(
        alloc,
        &graph,
        &job.program,
        &job.combiner,
        &master,
        job.missing,
        job.limit,
        &mut meter,
    );
    let answer = answer.expect(rt, "an answer");
    values_agree(rt, seed, answer.values.as_slice(), cells.as_slice());
    let aggregates = answer.aggregates.as_slice();
    let is_stated = !matches!(job.program, ReadyProgram::Cc(_));
    assert_eq!(rt; aggregates.len(), usize::from(is_stated));
    let found = Outcome {
        aggregate: aggregates.first().copied().unwrap_or(0),
        ending: answer.ending,
        supersteps: answer.supersteps,
        calls: meter.count(),
        sent: answer.sent,
        dropped: answer.dropped,
    };
    assert_eq!(rt; found, wanted, "seed {seed}");
    Ok(found)
}

// How many runs ended in each way, and in how many of them a message went to no vertex.
#[derive(Clone, Copy)]
struct Seen {
    finished: u32,
    limited: u32,
    halted: u32,
    dropped: u32,
}

const NONE_SEEN: Seen = Seen {
    finished: 0,
    limited: 0,
    halted: 0,
    dropped: 0,
};

impl Seen {
    fn add(&mut self, outcome: &Outcome) {
        let place = match outcome.ending {
            Ending::Finished => &mut self.finished,
            Ending::LimitReached => &mut self.limited,
            Ending::MasterHalted => &mut self.halted,
        };
        *place = place.saturating_add(1);
        if outcome.dropped > 0 {
            self.dropped = self.dropped.saturating_add(1);
        }
    }
}

// A program agrees on a random graph under both policies.
fn agrees_under_both(
    rt: &impl Abort,
    alloc: Global,
    job: &Job,
    seed: u64,
    seen: &mut Seen,
) -> Result<(), Fail>
    requires { 0 < job.now.limit }
{
    let dropping = Job {
        missing: Missing::Drop,
        ..*job
    };
    let outcome = agrees(rt, alloc, &dropping, seed)?;
    seen.add(&outcome);
    let creating = Job {
        missing: Missing::Create,
        ..*job
    };
    let outcome = agrees(rt, alloc, &creating, seed)?;
    seen.add(&outcome);
    Ok(())
}

// The job of a program with a combiner, and a limit that hangs on the seed.
fn job_of(program: &ReadyProgram, combiner: AnyCombiner, seed: u64) -> Job
    ensures { 0 < result.limit }
{
    Job {
        program: *program,
        combiner,
        missing: Missing::Drop,
        limit: 1 + (seed % 7) as u32,
    }
}

// A program agrees on a random graph by each combiner and under both policies.
fn agrees_by_all(
    rt: &impl Abort,
    alloc: Global,
    program: &ReadyProgram,
    seed: u64,
    seen: &mut Seen,
) -> Result<(), Fail> {
    let each = job_of(program, AnyCombiner::NoCombiner, seed);
    agrees_under_both(rt, alloc, &each, seed, seen)?;
    let least = job_of(program, AnyCombiner::Min, seed);
    agrees_under_both(rt, alloc, &least, seed, seen)?;
    let greatest = job_of(program, AnyCombiner::Max, seed);
    agrees_under_both(rt, alloc, &greatest, seed, seen)?;
    let together = job_of(program, AnyCombiner::Sum, seed);
    agrees_under_both(rt, alloc, &together, seed, seen)
}

// The runs weren't all of one kind.
fn is_mixed(rt: &impl Abort, seen: &Seen) {
    assert!(rt; seen.finished >= 50);
    assert!(rt; seen.limited >= 50);
    assert!(rt; seen.dropped >= 50);
}

#[test]
fn paths_agree(rt: HostRuntime) -> Result<(), Fail> {
    let mut seen = NONE_SEEN;
    for seed in 0..300_u64 {
        let source = id(&rt, seed % IDS);
        let program = ReadyProgram::Sssp(Sssp { source });
        agrees_by_all(&rt, rt.alloc(), &program, seed, &mut seen)?;
    }
    is_mixed(&rt, &seen);
    Ok(())
}

#[test]
fn labels_agree(rt: HostRuntime) -> Result<(), Fail> {
    let mut seen = NONE_SEEN;
    for seed in 300..600_u64 {
        agrees_by_all(&rt, rt.alloc(), &ReadyProgram::Cc(Cc), seed, &mut seen)?;
    }
    is_mixed(&rt, &seen);
    Ok(())
}

#[test]
fn greatest_agree(rt: HostRuntime) -> Result<(), Fail> {
    let mut seen = NONE_SEEN;
    for seed in 600..900_u64 {
        agrees_by_all(
            &rt,
            rt.alloc(),
            &ReadyProgram::MaxValue(MaxValue),
            seed,
            &mut seen,
        )?;
    }
    is_mixed(&rt, &seen);
    Ok(())
}

#[test]
fn degrees_agree(rt: HostRuntime) -> Result<(), Fail> {
    let mut seen = NONE_SEEN;
    for seed in 900..1200_u64 {
        agrees_by_all(
            &rt,
            rt.alloc(),
            &ReadyProgram::Indegree(Indegree),
            seed,
            &mut seen,
        )?;
    }
    is_mixed(&rt, &seen);
    Ok(())
}

#[test]
fn ranks_agree(rt: HostRuntime) -> Result<(), Fail> {
    let mut seen = NONE_SEEN;
    for seed in 1200..1500_u64 {
        let program = ReadyProgram::Pagerank(Pagerank {
            rounds: (seed % 9) as u32,
            eps: [0, 1, 100_000_000_000, 1_000_000_000_000][(seed % 4) as usize],
        });
        agrees_by_all(&rt, rt.alloc(), &program, seed, &mut seen)?;
    }
    is_mixed(&rt, &seen);
    assert!(rt; seen.halted >= 50);
    Ok(())
}

#[test]
fn cores_agree(rt: HostRuntime) -> Result<(), Fail> {
    let mut seen = NONE_SEEN;
    for seed in 1500..1800_u64 {
        let program = ReadyProgram::Peel(Peel {
            k: (seed % 5) as u32,
        });
        agrees_by_all(&rt, rt.alloc(), &program, seed, &mut seen)?;
    }
    is_mixed(&rt, &seen);
    Ok(())
}
