// Sessions of edits and refreshes at random: what is published is the answer from scratch, and a report or a refusal is
// what the rounds come to as they are simulated with plain numbers.
ghost use Rattle.std.specs.Prelude.{◌≡◌, true, length, IfOk, IfSome};

use crate::hops::{Paths, is_run_on, refresh_on, service_of};
use crate::shelves::{EmptyShelf, NthShelf, ShortShelf};
use crate::trials::{Keeping, Trials};
use pg_global::{AnyCombiner, MasterCompute, MessageCombiner};
use pg_graph::{Batch, Edit, Graph, Memory, Missing, VertexId};
use pg_program::Computation;
use pg_service::{Fate, Limits, Loss, NoGate, RefreshFault, Report, Service, Shelf};
use pregeld_programs::{Cc, Indegree, MaxValue, Pagerank, Peel, ReadyMaster, ReadyProgram, Sssp};
use std::alloc::{AllocError, Global};
use std::process::Abort;
use std::sync::Wait;
use std::test::Fail;
use std::thread::Threads;
use tests_kit::{GraphSize, edit_if_lawful, id, random_edit, scratch};
use tests_rounds::{Calls, Findable, Simulated, Simulation, Table, Traces, unlost, unlost_warm};

// What is the same for all refreshes of a session.
#[derive(Clone, Copy)]
struct Setting {
    program: ReadyProgram,
    combiner: AnyCombiner,
    limits: Limits,
    one_in: u32,
}

type RetainedPart = Traces<i64, i64>;

// Workers that fell, each in a superstep.
fn plain_losses(alloc: Global, losses: &[Loss]) -> Result<Vec<(u32, u32)>, Memory> {
    let mut plain = Vec::new(alloc);
    for loss in losses {
        plain.push((loss.worker.number(), loss.superstep.number()))?;
    }
    Ok(plain)
}

fn reported(alloc: Global, report: &Report) -> Result<Simulated, Memory> {
    let mut steps = Vec::new(alloc);
    for made in report.steps.as_slice() {
        steps.push(*made)?;
    }
    let losses = plain_losses(alloc, report.losses.as_slice())?;
    Ok(Simulated::Ended(report.calls, steps, losses))
}

fn refused(alloc: Global, fault: &RefreshFault) -> Result<Simulated, Memory> {
    let losses = match fault {
        RefreshFault::TooManyLosses(losses) => plain_losses(alloc, losses.as_slice())?,
        RefreshFault::NoWorkers(losses) => plain_losses(alloc, losses.as_slice())?,
        RefreshFault::Memory => return Err(AllocError),
        RefreshFault::Device => Vec::new(alloc),
    };
    Ok(Simulated::Refused(fault.number(), losses))
}

// What a refresh reports on workers that fall by this fate, with checkpoints on this shelf.
fn refreshed<
    R: Threads + Wait + Sync,
    P: Computation,
    C: MessageCombiner<P::Message>,
    M: MasterCompute,
    S: Shelf,
    F: Fate,
>(
    rt: &R,
    alloc: Global,
    service: &mut Service<P, C, M>,
    shelf: &mut S,
    fate: &F,
) -> Result<Simulated, Fail>
    requires { (S.state shelf.old).is_honest ≡ true }
{
    match refresh_on(rt, alloc, service, shelf, fate, &NoGate)? {
        Ok(report) => Ok(reported(alloc, &report)?),
        Err(fault) => Ok(refused(alloc, &fault)?),
    }
}

// That with a shelf that keeps so much, and how often the shelf was asked.
fn refreshed_by<
    R: Threads + Wait + Sync,
    P: Computation,
    C: MessageCombiner<P::Message>,
    M: MasterCompute,
    F: Fate,
>(
    rt: &R,
    alloc: Global,
    service: &mut Service<P, C, M>,
    keeping: Keeping,
    fate: &F,
) -> Result<(Simulated, u64), Fail> {
    match keeping {
        Keeping::All(failing) => {
            let mut shelf = NthShelf::new(alloc, failing);
            let told = refreshed(rt, alloc, service, &mut shelf, fate)?;
            Ok((told, shelf.calls()))
        }
        Keeping::Beginnings => {
            let mut shelf = ShortShelf::new(alloc);
            let told = refreshed(rt, alloc, service, &mut shelf, fate)?;
            Ok((told, shelf.calls()))
        }
        Keeping::Nothing => {
            let mut shelf = EmptyShelf::new();
            let told = refreshed(rt, alloc, service, &mut shelf, fate)?;
            Ok((told, shelf.calls()))
        }
    }
}

// The edition that is published.
fn published<P: Computation, C: MessageCombiner<P::Message>, M: MasterCompute>(
    service: &Service<P, C, M>,
) -> Option<u64> {
    service.answers().map(|answers| answers.edition().number())
}

// The edition of the graph.
fn edition_of<P: Computation, C: MessageCombiner<P::Message>, M: MasterCompute>(
    service: &Service<P, C, M>,
) -> u64 {
    service.edition().number()
}

// Makes an edit, if the service allows it, and tells whether it does.
fn edited<P: Computation, C: MessageCombiner<P::Message>, M: MasterCompute>(
    alloc: Global,
    service: &mut Service<P, C, M>,
    edit: Edit,
) -> Result<bool, Fail> {
    let mut batch = Batch::new(alloc);
    batch.push(edit)?;
    Ok(service.edit(alloc, &batch).is_ok())
}

// What a test knows of a service: its graph, and which ids were edited since the last refresh.
#[derive(Drop)]
struct Previous {
    graph: Graph,
    touched: Vec<VertexId>,
}

// The calls of the steps in which no worker falls, and what such a run leaves: from scratch.
fn unlost_first(
    alloc: Global,
    graph: &Graph,
    setting: &Setting,
) -> Result<(Vec<Vec<u64>>, RetainedPart), Fail>
    ensures { IfOk result (λ done. length done.1.retained_parts ≡ setting.now.limits.partitions) }
{
    let (program, combiner, limits) = (setting.program, setting.combiner, setting.limits);
    let master = ReadyMaster { program };
    scratch(alloc, graph, &program, &combiner, &master, limits)?;
    unlost(alloc, graph, &program, &combiner, &master, limits)
}

// The calls of the steps in which no worker falls, and what such a run leaves: against what one retained before.
fn unlost_next(
    alloc: Global,
    previous: &Previous,
    retained: RetainedPart,
    setting: &Setting,
) -> Result<(Vec<Vec<u64>>, RetainedPart), Fail>
    requires { length retained.retained_parts ≡ setting.now.limits.partitions }
    ensures { IfOk result (λ done. length done.1.retained_parts ≡ setting.now.limits.partitions) }
{
    let (program, combiner, limits) = (setting.program, setting.combiner, setting.limits);
    let master = ReadyMaster { program };
    let (graph, touched) = (&previous.graph, previous.touched.as_slice());
    scratch(alloc, graph, &program, &combiner, &master, limits)?;
    unlost_warm(
        alloc, graph, retained, touched, &program, &combiner, &master, limits,
    )
}

// The calls of the steps against what was retained, if anything is kept, and from scratch; and what is retained then.
fn calls_of(
    alloc: Global,
    previous: &Previous,
    kept: Option<RetainedPart>,
    setting: &Setting,
) -> Result<(Calls, RetainedPart), Fail>
    requires { IfSome kept (λ retained. length retained.retained_parts ≡ setting.now.limits.partitions) }
    ensures { IfOk result (λ done. length done.1.retained_parts ≡ setting.now.limits.partitions) }
{
    let (cold, first) = unlost_first(alloc, &previous.graph, setting)?;
    match kept {
        None => {
            let warm = Vec::new(alloc);
            Ok((Calls { warm, cold }, first))
        }
        Some(retained) => {
            let (warm, next) = unlost_next(alloc, previous, retained, setting)?;
            Ok((Calls { warm, cold }, next))
        }
    }
}

// Whether the answer from scratch is published, with the edition of the graph.
fn is_answered(
    alloc: Global,
    service: &Paths,
    graph: &Graph,
    setting: &Setting,
) -> Result<bool, Fail> {
    let (program, combiner) = (setting.program, setting.combiner);
    let (master, limits) = (ReadyMaster { program }, setting.limits);
    let is_run = is_run_on(alloc, service, graph, &program, &combiner, &master, limits)?;
    Ok(is_run && published(service) == Some(edition_of(service)))
}

// Refreshes, and gives what is kept then: what a run leaves in which no worker falls, or nothing after a refusal.
fn tried<R: Threads + Wait + Sync>(
    rt: &R,
    alloc: Global,
    service: &mut Paths,
    previous: &Previous,
    kept: Option<RetainedPart>,
    setting: &Setting,
    trials: &mut Trials,
) -> Result<Option<RetainedPart>, Fail>
    requires { IfSome kept (λ retained. length retained.retained_parts ≡ setting.now.limits.partitions) }
    ensures { IfOk result (λ kept. IfSome kept
        (λ retained. length retained.retained_parts ≡ setting.now.limits.partitions)) }
{
    let (keeping, is_warm, before) = (trials.keeping(), kept.is_some(), published(service));
    let fate = Table::random(alloc, setting.one_in, &mut trials.random)?;
    let (told, asked) = refreshed_by(rt, alloc, service, keeping, &fate)?;
    let (calls, retained) = calls_of(alloc, previous, kept, setting)?;
    let (findable, failing) = match keeping {
        Keeping::All(failing) => (Findable::Last, failing),
        Keeping::Beginnings | Keeping::Nothing => (Findable::None, 0),
    };
    let mut simulation = Simulation::new(alloc, setting.limits, findable, is_warm)?.failing(
        failing,
    );
    let wanted = simulation.simulated(alloc, &calls, &fate)?;
    let is_refused = matches!(&told, Simulated::Refused(_, _));
    let is_published = if is_refused {
        published(service) == before
    } else {
        is_answered(alloc, service, &previous.graph, setting)?
    };
    if told != wanted {
        return Err(Fail::from("a refresh went otherwise than it is simulated"));
    }
    if asked != simulation.puts().saturating_add(simulation.gets()) {
        return Err(Fail::from("the shelf was asked otherwise than it is simulated"));
    }
    if !is_published {
        return Err(Fail::from("what is published isn't what should be"));
    }
    trials.count(&wanted);
    Ok(if is_refused { None } else { Some(retained) })
}

// Makes an edit of the service and of the test's own graph, if they allow it, which they do alike.
fn edit_both(
    alloc: Global,
    service: &mut Paths,
    previous: &mut Previous,
    source: VertexId,
    edit: Edit,
) -> Result<(), Fail> {
    let is_lawful = edit_if_lawful(alloc, &mut previous.graph, edit)?;
    if edited(alloc, service, edit)? != is_lawful {
        return Err(Fail::from("an edit is allowed by one of two graphs"));
    }
    previous.touched.push(source)?;
    Ok(())
}

// Adds vertices, and edges at random.
fn begin(
    alloc: Global,
    service: &mut Paths,
    previous: &mut Previous,
    trials: &mut Trials,
) -> Result<(), Fail> {
    for number in 1..9 {
        let vertex = id(number)?;
        let input = i64::from(trials.below(50));
        edit_both(
            alloc,
            service,
            previous,
            vertex,
            Edit::AddVertex(vertex, input),
        )?;
    }
    for _ in 0..18 {
        let (source, target) = (trials.random.id(8)?, trials.random.id(SIZE.targets)?);
        let edit = Edit::AddEdge(source, target, i64::from(trials.below(5)));
        edit_both(alloc, service, previous, source, edit)?;
    }
    Ok(())
}

// Makes three edits at random.
fn go_on(
    alloc: Global,
    service: &mut Paths,
    previous: &mut Previous,
    trials: &mut Trials,
) -> Result<(), Fail> {
    for _ in 0..3 {
        let source = trials.random.id(SIZE.sources)?;
        let edit = random_edit(SIZE, source, &mut trials.random)?;
        edit_both(alloc, service, previous, source, edit)?;
    }
    Ok(())
}

// A refresh, and three edits after it.
fn tried_and_edited<R: Threads + Wait + Sync>(
    rt: &R,
    alloc: Global,
    service: &mut Paths,
    previous: &mut Previous,
    kept: Option<RetainedPart>,
    setting: &Setting,
    trials: &mut Trials,
) -> Result<Option<RetainedPart>, Fail>
    requires { IfSome kept (λ retained. length retained.retained_parts ≡ setting.now.limits.partitions) }
    ensures { IfOk result (λ kept. IfSome kept
        (λ retained. length retained.retained_parts ≡ setting.now.limits.partitions)) }
{
    let kept = tried(rt, alloc, service, previous, kept, setting, trials)?;
    previous.touched = Vec::new(alloc);
    go_on(alloc, service, previous, trials)?;
    Ok(kept)
}

// Three refreshes, each after edits.
fn all_refreshed<R: Threads + Wait + Sync>(
    rt: &R,
    alloc: Global,
    service: &mut Paths,
    setting: &Setting,
    trials: &mut Trials,
) -> Result<(), Fail> {
    let (graph, touched) = (Graph::new(alloc), Vec::new(alloc));
    let mut previous = Previous { graph, touched };
    begin(alloc, service, &mut previous, trials)?;
    let first = tried_and_edited(rt, alloc, service, &mut previous, None, setting, trials)?;
    let second = tried_and_edited(rt, alloc, service, &mut previous, first, setting, trials)?;
    tried_and_edited(rt, alloc, service, &mut previous, second, setting, trials)?;
    Ok(())
}

fn master_of(setting: &Setting) -> ReadyMaster {
    ReadyMaster {
        program: setting.program,
    }
}

// A session of a service of its own.
fn session<R: Threads + Wait + Sync>(
    rt: &R,
    alloc: Global,
    setting: &Setting,
    trials: &mut Trials,
) -> Result<(), Fail> {
    let (master, combiner) = (master_of(setting), setting.combiner);
    let mut service = service_of(rt, alloc, setting.limits, setting.program, combiner, master)?;
    let done = all_refreshed(rt, alloc, &mut service, setting, trials);
    service.close(rt);
    done
}

// Eight vertices, with edges to them and to two ids that aren't there.
const SIZE: GraphSize = GraphSize {
    vertices: 8,
    edges: 18,
    targets: 10,
    sources: 9,
};

// Six sessions of a program with a combiner, for each policy.
fn all_sessions<R: Threads + Wait + Sync>(
    rt: &R,
    alloc: Global,
    program: &ReadyProgram,
    combiner: AnyCombiner,
    trials: &mut Trials,
) -> Result<(), Fail> {
    for missing in [Missing::Drop, Missing::Create] {
        for _ in 0..6 {
            let setting = Setting {
                program: *program,
                combiner,
                limits: trials.limits()?.with_missing(missing),
                one_in: trials.below(30).saturating_add(6),
            };
            session(rt, alloc, &setting, trials)?;
        }
    }
    Ok(())
}

// Such sessions of two programs with each combiner, and what came of them.
fn two_tried<R: Threads + Wait + Sync>(
    rt: &R,
    alloc: Global,
    programs: &[ReadyProgram],
) -> Result<Trials, Fail> {
    let mut trials = Trials::new(7);
    for program in programs {
        for combiner in [AnyCombiner::NoCombiner, AnyCombiner::Min, AnyCombiner::Sum] {
            all_sessions(rt, alloc, program, combiner, &mut trials)?;
        }
    }
    Ok(trials)
}

#[test]
fn sessions_of_paths_and_components_go_as_simulated(rt: HostRuntime) -> Result<(), Fail> {
    let paths = ReadyProgram::Sssp(Sssp { source: id(1)? });
    let trials = two_tried(&rt, rt.alloc(), &[paths, ReadyProgram::Cc(Cc)])?;
    assert!(rt; trials.is_enough());
    Ok(())
}

#[test]
fn sessions_of_inputs_and_degrees_go_as_simulated(rt: HostRuntime) -> Result<(), Fail> {
    let most = ReadyProgram::MaxValue(MaxValue);
    let trials = two_tried(&rt, rt.alloc(), &[most, ReadyProgram::Indegree(Indegree)])?;
    assert!(rt; trials.is_enough());
    Ok(())
}

#[test]
fn sessions_of_ranks_and_cores_go_as_simulated(rt: HostRuntime) -> Result<(), Fail> {
    let ranks = ReadyProgram::Pagerank(Pagerank { rounds: 5, eps: 0 });
    let trials = two_tried(&rt, rt.alloc(), &[ranks, ReadyProgram::Peel(Peel { k: 2 })])?;
    assert!(rt; trials.is_enough());
    Ok(())
}
