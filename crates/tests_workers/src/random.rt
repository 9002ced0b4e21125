// Runs on workers at random, one after another: their answers are those from scratch, and their calls, steps, losses,
// refusals and puts those of rounds that are simulated with plain numbers.
ghost use Rattle.std.specs.Prelude.{◌≡◌, length, IfOk, IfSome};

use crate::jobs::{OTHERWISE, after_first, first, tell_steps};
use crate::shelves::{Keeping, TestShelf};
use pg_global::AnyCombiner;
use pg_graph::{Graph, Memory, Missing, VertexId};
use pg_workers::{Limits, NoGate, Traces};
use pregeld_programs::{Cc, Indegree, MaxValue, Pagerank, Peel, ReadyMaster, ReadyProgram, Sssp};
use std::alloc::Global;
use std::fmt::Write;
use std::process::Abort;
use std::sync::Wait;
use std::test::Fail;
use std::thread::Threads;
use tests_kit::{GraphSize, Random, edited, id, random_graph};
use tests_rounds::{
    Calls, RunCounts, Simulated, Simulation, Table, random_limits, tell_loss, unlost, unlost_warm,
};

// Numbers at random, and what came of the runs.
#[derive(Drop)]
struct Trials {
    random: Random,
    counts: RunCounts,
}

impl Trials {
    fn below(&mut self, count: u32) -> u32 {
        self.random.below(count)
    }

    // A fate by which about one step in so many strikes.
    fn fate(&mut self, alloc: Global, one_in: u32) -> Result<Table, Memory> {
        Table::random(alloc, one_in, &mut self.random)
    }

    fn keeping(&mut self) -> Keeping {
        match self.below(6) {
            0 => Keeping::Beginnings,
            1 => Keeping::Nothing,
            2 => Keeping::Firsts,
            _ => Keeping::All,
        }
    }

    fn limits(&mut self) -> Result<Limits, Fail> {
        random_limits(7, &mut self.random)
    }

    // Whether enough runs ended, enough workers fell, and enough runs were refused for each reason.
    fn is_enough(&self) -> bool {
        let counts = self.counts;
        counts.runs == 180
            && counts.ended > 100
            && counts.losses > 100
            && counts.too_many > 5
            && counts.no_workers > 10
    }
}

// What is the same for all runs of a triple.
#[derive(Clone, Copy)]
struct Setting {
    program: ReadyProgram,
    combiner: AnyCombiner,
    limits: Limits,
    keeping: Keeping,
    one_in: u32,
}

type RetainedPart = Traces<i64, i64>;

// What its rounds come to as they are simulated.
fn tell_simulated(text: &mut String, simulated: &Simulated) -> Result<(), Memory> {
    let losses = match simulated {
        Simulated::Ended(calls, steps, losses) => {
            tell_steps(text, *calls, steps.as_slice())?;
            losses
        }
        Simulated::Refused(number, losses) => {
            write!(text, "refused {number}")?;
            losses
        }
    };
    write!(text, " losses")?;
    for (worker, superstep) in losses {
        tell_loss(text, *worker, *superstep, "fate")?;
    }
    write!(text, ";")
}

// What the rounds of a run come to as they are simulated, where that is what it tells, with the answer from scratch,
// and with as many puts.
fn as_simulated(
    alloc: Global,
    setting: &Setting,
    is_warm: bool,
    calls: &Calls,
    fate: &Table,
    reported: &str,
    puts: u64,
) -> Result<Simulated, Fail> {
    let findable = setting.keeping.findable();
    let mut simulation = Simulation::new(alloc, setting.limits, findable, is_warm)?;
    let simulated = simulation.simulated(alloc, calls, fate)?;
    let mut wanted = String::new(alloc);
    tell_simulated(&mut wanted, &simulated)?;
    if reported.starts_with(wanted.as_str())
        && !reported.ends_with(OTHERWISE)
        && puts == simulation.puts()
    {
        return Ok(simulated);
    }
    Err(Fail::from("a run went otherwise than it is simulated"))
}

// A run from scratch at random, and one without losses: what both leave where the first one ended.
fn tried_first<R: Threads + Wait + Sync>(
    rt: &R,
    alloc: Global,
    graph: &Graph,
    setting: &Setting,
    trials: &mut Trials,
) -> Result<Option<(RetainedPart, RetainedPart)>, Fail>
    ensures { IfOk result (λ kept. IfSome kept (λ both.
        (length both.0.retained_parts ≡ setting.now.limits.partitions)
        × (length both.1.retained_parts ≡ setting.now.limits.partitions))) }
{
    let (program, combiner, limits) = (setting.program, setting.combiner, setting.limits);
    let master = ReadyMaster { program };
    let fate = trials.fate(alloc, setting.one_in)?;
    let mut shelf = TestShelf::new(alloc, setting.keeping);
    let (reported, retained) = first(
        rt, alloc, graph, &program, &combiner, &master, limits, &mut shelf, &fate, &NoGate,
    )?;
    let (cold, unlost) = unlost(alloc, graph, &program, &combiner, &master, limits)?;
    let warm = Vec::new(alloc);
    let calls = Calls { warm, cold };
    let (reported, puts) = (reported.as_str(), shelf.puts());
    trials.counts.count(&as_simulated(alloc, setting, false, &calls, &fate, reported, puts)?);
    Ok(match retained {
        Some(retained) => Some((retained, unlost)),
        None => None,
    })
}

// Whether both agree against what both retained before.
fn tried_warm<R: Threads + Wait + Sync>(
    rt: &R,
    alloc: Global,
    graph: &Graph,
    kept: (RetainedPart, RetainedPart),
    touched: &[VertexId],
    setting: &Setting,
    trials: &mut Trials,
) -> Result<Option<(RetainedPart, RetainedPart)>, Fail>
    requires first { length kept.0.retained_parts ≡ setting.now.limits.partitions }
    requires second { length kept.1.retained_parts ≡ setting.now.limits.partitions }
    ensures { IfOk result (λ kept. IfSome kept (λ both.
        (length both.0.retained_parts ≡ setting.now.limits.partitions)
        × (length both.1.retained_parts ≡ setting.now.limits.partitions))) }
{
    let (program, combiner, limits) = (setting.program, setting.combiner, setting.limits);
    let master = ReadyMaster { program };
    let fate = trials.fate(alloc, setting.one_in)?;
    let mut shelf = TestShelf::new(alloc, setting.keeping);
    let (retained, plain) = kept;
    let (reported, retained) = after_first(
        rt, alloc, graph, retained, touched, &program, &combiner, &master, limits, &mut shelf,
        &fate, &NoGate,
    )?;
    let (cold, _) = unlost(alloc, graph, &program, &combiner, &master, limits)?;
    let (warm, plain) = unlost_warm(
        alloc, graph, plain, touched, &program, &combiner, &master, limits,
    )?;
    let calls = Calls { warm, cold };
    let (reported, puts) = (reported.as_str(), shelf.puts());
    trials.counts.count(&as_simulated(alloc, setting, true, &calls, &fate, reported, puts)?);
    Ok(match retained {
        Some(retained) => Some((retained, plain)),
        None => None,
    })
}

// Whether both agree against what both retained before, or from scratch where the run before was refused.
fn tried_next<R: Threads + Wait + Sync>(
    rt: &R,
    alloc: Global,
    graph: &Graph,
    kept: Option<(RetainedPart, RetainedPart)>,
    touched: &[VertexId],
    setting: &Setting,
    trials: &mut Trials,
) -> Result<Option<(RetainedPart, RetainedPart)>, Fail>
    requires { IfSome kept (λ both.
        (length both.0.retained_parts ≡ setting.now.limits.partitions)
        × (length both.1.retained_parts ≡ setting.now.limits.partitions)) }
    ensures { IfOk result (λ kept. IfSome kept (λ both.
        (length both.0.retained_parts ≡ setting.now.limits.partitions)
        × (length both.1.retained_parts ≡ setting.now.limits.partitions))) }
{
    match kept {
        Some(kept) => tried_warm(rt, alloc, graph, kept, touched, setting, trials),
        None => tried_first(rt, alloc, graph, setting, trials),
    }
}

// Eight vertices, with edges to them and to two ids that aren't there.
const SIZE: GraphSize = GraphSize {
    vertices: 8,
    edges: 18,
    targets: 10,
    sources: 9,
};

// A run from scratch, one against what it retained on an edited graph, and one more against that.
fn tried<R: Threads + Wait + Sync>(
    rt: &R,
    alloc: Global,
    setting: &Setting,
    trials: &mut Trials,
) -> Result<(), Fail> {
    let graph = random_graph(alloc, SIZE, &mut trials.random)?;
    let (second, touched) = edited(alloc, &graph, SIZE, &mut trials.random)?;
    let (third, touched_again) = edited(alloc, &second, SIZE, &mut trials.random)?;
    let (touched, touched_again) = (touched.as_slice(), touched_again.as_slice());
    let kept = tried_first(rt, alloc, &graph, setting, trials)?;
    let kept = tried_next(rt, alloc, &second, kept, touched, setting, trials)?;
    tried_next(rt, alloc, &third, kept, touched_again, setting, trials)?;
    Ok(())
}

// So many such triples of a program with a combiner, for each policy.
fn all_tried<R: Threads + Wait + Sync>(
    rt: &R,
    alloc: Global,
    program: &ReadyProgram,
    combiner: AnyCombiner,
    trials: &mut Trials,
) -> Result<(), Fail> {
    for missing in [Missing::Drop, Missing::Create] {
        for _ in 0..TRIPLES {
            let setting = Setting {
                program: *program,
                combiner,
                limits: trials.limits()?.with_missing(missing),
                keeping: trials.keeping(),
                one_in: trials.below(30).saturating_add(6),
            };
            tried(rt, alloc, &setting, trials)?;
        }
    }
    Ok(())
}

// How many triples there are of each program, combiner and policy. In all three tests there were 540 runs, in which 436
// workers fell: 409 ended, 39 were refused as too many workers fell, and 92 as none remained.
const TRIPLES: u32 = 5;

// Such triples of a program with each combiner.
fn each_tried<R: Threads + Wait + Sync>(
    rt: &R,
    alloc: Global,
    program: &ReadyProgram,
    trials: &mut Trials,
) -> Result<(), Fail> {
    for combiner in [AnyCombiner::NoCombiner, AnyCombiner::Min, AnyCombiner::Sum] {
        all_tried(rt, alloc, program, combiner, trials)?;
    }
    Ok(())
}

// Such triples of two programs with each combiner, and what came of them.
fn two_tried<R: Threads + Wait + Sync>(
    rt: &R,
    alloc: Global,
    one: ReadyProgram,
    other: ReadyProgram,
) -> Result<Trials, Fail> {
    let mut trials = Trials {
        random: Random::new(1),
        counts: RunCounts::new(),
    };
    each_tried(rt, alloc, &one, &mut trials)?;
    each_tried(rt, alloc, &other, &mut trials)?;
    Ok(trials)
}

#[test]
fn paths_and_components_go_as_they_are_simulated(rt: HostRuntime) -> Result<(), Fail> {
    let alloc = rt.alloc();
    let paths = ReadyProgram::Sssp(Sssp { source: id(1)? });
    let trials = two_tried(&rt, alloc, paths, ReadyProgram::Cc(Cc))?;
    assert!(rt; trials.is_enough());
    Ok(())
}

#[test]
fn inputs_and_degrees_go_as_they_are_simulated(rt: HostRuntime) -> Result<(), Fail> {
    let alloc = rt.alloc();
    let most = ReadyProgram::MaxValue(MaxValue);
    let trials = two_tried(&rt, alloc, most, ReadyProgram::Indegree(Indegree))?;
    assert!(rt; trials.is_enough());
    Ok(())
}

#[test]
fn ranks_and_cores_go_as_they_are_simulated(rt: HostRuntime) -> Result<(), Fail> {
    let alloc = rt.alloc();
    let ranks = ReadyProgram::Pagerank(Pagerank { rounds: 5, eps: 0 });
    let trials = two_tried(&rt, alloc, ranks, ReadyProgram::Peel(Peel { k: 2 }))?;
    assert!(rt; trials.is_enough());
    Ok(())
}
