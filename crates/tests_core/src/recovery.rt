// Runs whose workers fall, event by event. What they answer stands against runs from scratch; which vertices are
// called, in which superstep, and how often each partition steps was found by hand.
ghost use Rattle.std.specs.Prelude.{◌≡◌, [], true, None, length, IfOk};
ghost use Rattle.pg_global.specs.Master.{is_registered};
ghost use Rattle.pg_global.specs.Registry.{first_refusal};

use crate::graphs::graph_of;
use crate::happenings::Happening::{self, Close, Host, Lose, Restore, Save, Step};
use crate::happenings::drive;
use crate::noting::{Noting, noting};
use pg_core::{Core, Event, Limits, Traces};
use pg_global::{AnyCombiner, MasterCompute, MessageCombiner, NoMaster};
use pg_graph::{Graph, PartitionId, VertexId};
use pg_model::Run;
use pg_program::{Computation, Meter, Plain, Shed, Tally};
use pregeld_programs::{ReadyMaster, ReadyProgram, Sssp};
use std::alloc::Global;
use std::fmt::Write;
use std::process::Abort;
use std::test::Fail;
use tests_kit::{id, is_same, scratch};

// How many steps each partition made.
fn tell_steps(text: &mut String, history: &[Event], partitions: u32) -> Result<(), Fail> {
    write!(text, " steps")?;
    for number in 0..partitions {
        let step = Event::Step(PartitionId::new(number));
        let count = history.iter().filter(|event| **event == step).count();
        write!(text, " {count}")?;
    }
    Ok(())
}

fn tell_values<V: Plain>(text: &mut String, run: &Run<V>) -> Result<(), Fail> {
    for (id, value) in run.values.as_slice() {
        write!(text, " {id}=")?;
        value.show(text)?;
    }
    Ok(())
}

// The answer of a run that has ended, and what it leaves.
pub(crate) fn finished<P: Computation, C: MessageCombiner<P::Message>, M: MasterCompute>(
    alloc: Global,
    core: Core<'_, P, C, M>,
    limits: Limits,
) -> Result<(Run<P::Value>, Traces<P::Value, P::Message>), Fail>
    ensures { IfOk result (λ done. length done.1.retained_parts ≡ limits.partitions) }
{
    if core.limits().partitions() != limits.partitions() {
        return Err(Fail::from("another number of partitions"));
    }
    if !core.state().ended() {
        return Err(Fail::from("it hasn't ended"));
    }
    let (run, retained, _) = core.finish(alloc)?;
    Ok((run, retained))
}

// What a run that ended tells: the calls of compute, the steps of each partition, the values; and whether all of its
// answer is that of the run from scratch. And what it leaves.
fn ended<P: Computation, C: MessageCombiner<P::Message>, M: MasterCompute>(
    alloc: Global,
    core: Core<'_, Noting<P>, C, M>,
    limits: Limits,
    calls: u64,
    wanted: &Run<P::Value>,
) -> Result<(String, Traces<P::Value, P::Message>), Fail>
    ensures { IfOk result (λ reported. length reported.1.retained_parts ≡ limits.partitions) }
{
    let mut text = core.program().listener.reported(alloc)?;
    write!(text, " calls {calls}")?;
    tell_steps(&mut text, core.history(), limits.partitions())?;
    let (run, retained) = finished(alloc, core, limits)?;
    tell_values(&mut text, &run)?;
    if !is_same(&run, wanted) {
        text.push_str(" otherwise than from scratch")?;
    }
    Ok((text, retained))
}

// What a run from scratch tells in which this happens.
fn driven<P: Computation + Drop, C: MessageCombiner<P::Message>, M: MasterCompute>(
    alloc: Global,
    graph: &Graph,
    program: P,
    combiner: &C,
    master: &M,
    limits: Limits,
    happenings: &[Happening],
) -> Result<String, Fail> {
    let wanted = scratch(alloc, graph, &program, combiner, master, limits)?;
    let program = noting(alloc, program)?;
    let mut core = Core::open(alloc, graph, &program, combiner, master, limits, 1)?;
    let mut meter = Meter::new();
    drive(alloc, &mut core, happenings, &mut meter)?;
    let (text, _) = ended(alloc, core, limits, meter.count(), &wanted)?;
    Ok(text)
}

// What a run leaves in which nothing happens but steps and closes.
fn left_by<P: Computation, C: MessageCombiner<P::Message>, M: MasterCompute>(
    alloc: Global,
    graph: &Graph,
    program: &P,
    combiner: &C,
    master: &M,
    limits: Limits,
) -> Result<Traces<P::Value, P::Message>, Fail>
    ensures { IfOk result (λ retained. length retained.retained_parts ≡ limits.partitions) }
{
    scratch(alloc, graph, program, combiner, master, limits)?;
    let mut core = Core::open(alloc, graph, program, combiner, master, limits, 1)?;
    drive(alloc, &mut core, &[], &mut Meter::new())?;
    let (_, retained) = finished(alloc, core, limits)?;
    Ok(retained)
}

// What a run tells against what is retained of another one, in which this happens, and what it leaves.
fn driven_warm<P: Computation + Drop + Copy, C: MessageCombiner<P::Message>, M: MasterCompute>(
    alloc: Global,
    graph: &Graph,
    retained: Traces<P::Value, P::Message>,
    touched: &[VertexId],
    program: P,
    combiner: &C,
    master: &M,
    limits: Limits,
    happenings: &[Happening],
) -> Result<(String, Traces<P::Value, P::Message>), Fail>
    requires { length retained.retained_parts ≡ limits.partitions }
    ensures { IfOk result (λ reported. length reported.1.retained_parts ≡ limits.partitions) }
{
    let wanted = scratch(alloc, graph, &program, combiner, master, limits)?;
    let program = noting(alloc, program)?;
    let mut core = Core::open_warm(
        alloc, graph, retained, touched, &program, combiner, master, limits, 2,
    )?;
    let mut meter = Meter::new();
    drive(alloc, &mut core, happenings, &mut meter)?;
    ended(alloc, core, limits, meter.count(), &wanted)
}

fn limits_of(partitions: u32, workers: u32) -> Result<Limits, Fail> {
    Ok(Limits::new(partitions, workers, 100, 0, 16).ok_or("limits")?)
}

// The shortest paths from 1 on an edge from 1 to 2 and one from 2 to 3. Vertex 3 is of partition 0 of three.
fn hops(alloc: Global, workers: u32, acts: &[Happening]) -> Result<String, Fail> {
    let graph = graph_of(alloc, &[(1, 0), (2, 0), (3, 0)], &[(1, 2), (2, 3)])?;
    let limits = limits_of(3, workers)?;
    let program = ReadyProgram::Sssp(Sssp { source: id(1)? });
    let none = AnyCombiner::NoCombiner;
    driven(
        alloc,
        &graph,
        program,
        &none,
        &ReadyMaster { program },
        limits,
        acts,
    )
}

#[test]
fn a_lost_partition_begins_anew(rt: HostRuntime) -> Result<(), Fail> {
    let acts = [
        Step(0),
        Step(1),
        Step(2),
        Close,
        Step(0),
        Step(2),
        Lose(1),
        Host(1, 0),
        Restore(1),
    ];
    let reported = hops(rt.alloc(), 2, &acts)?;
    assert_eq!(rt;
        reported.as_str(),
        "0:1*2 0:2 0:3 1:2 2:3 others 0 calls 6 steps 3 4 3 1=0 2=1 3=2"
    );
    Ok(())
}

// Partition 1 is lost again while it is behind, together with partition 2.
#[test]
fn a_partition_is_lost_twice(rt: HostRuntime) -> Result<(), Fail> {
    let acts = [
        Step(0),
        Step(1),
        Step(2),
        Close,
        Save(0),
        Save(1),
        Save(2),
        Step(0),
        Step(2),
        Lose(1),
        Host(1, 2),
        Restore(1),
        Lose(2),
        Host(1, 0),
        Host(2, 0),
        Restore(1),
        Restore(2),
    ];
    let reported = hops(rt.alloc(), 3, &acts)?;
    assert_eq!(rt;
        reported.as_str(),
        "0:1 0:2 0:3 1:2*2 2:3 others 0 calls 6 steps 3 3 4 1=0 2=1 3=2"
    );
    Ok(())
}

// It is found past the superstep that is open, which is closed without another step.
#[test]
fn a_partition_is_found_past_the_open_superstep(rt: HostRuntime) -> Result<(), Fail> {
    let acts = [
        Step(1),
        Save(1),
        Step(0),
        Step(2),
        Lose(1),
        Host(1, 0),
        Restore(1),
        Close,
    ];
    let reported = hops(rt.alloc(), 2, &acts)?;
    assert_eq!(rt;
        reported.as_str(),
        "0:1 0:2 0:3 1:2 2:3 others 0 calls 5 steps 3 3 3 1=0 2=1 3=2"
    );
    Ok(())
}

// Each vertex has sent as superstep 0 is lost with its worker, on however many partitions.
fn senders(alloc: Global, partitions: u32) -> Result<String, Fail> {
    let graph = graph_of(alloc, &[(1, 10), (2, 20), (3, 0)], &[(1, 3), (2, 3)])?;
    let mut acts = Vec::new(alloc);
    for number in 0..partitions {
        acts.push(Step(number))?;
    }
    acts.push(Lose(1))?;
    for number in 0..partitions {
        if number & 1 == 1 {
            acts.push(Host(number, 0))?;
            acts.push(Restore(number))?;
        }
    }
    let limits = limits_of(partitions, 2)?;
    let none = AnyCombiner::NoCombiner;
    driven(
        alloc,
        &graph,
        Tally,
        &none,
        &NoMaster,
        limits,
        acts.as_slice(),
    )
}

#[test]
fn messages_come_by_sender_after_a_loss(rt: HostRuntime) -> Result<(), Fail> {
    let alloc = rt.alloc();
    assert_eq!(rt;
        senders(alloc, 2)?.as_str(),
        "0:1*2 0:2 0:3*2 1:3 others 0 calls 6 steps 2 3 1=(10 []) 2=(20 []) 3=(2 [10 20])"
    );
    assert_eq!(rt;
        senders(alloc, 3)?.as_str(),
        "0:1*2 0:2 0:3 1:3 others 0 calls 5 steps 2 3 2 1=(10 []) 2=(20 []) 3=(2 [10 20])"
    );
    let most = senders(alloc, 64)?;
    assert!(rt;
        most.as_str()
            .starts_with("0:1*2 0:2 0:3*2 1:3 others 0 calls 6 steps 2 3 2 3 ")
    );
    assert!(rt;
        most.as_str()
            .ends_with(" 2 3 1=(10 []) 2=(20 []) 3=(2 [10 20])")
    );
    Ok(())
}

// What a restored partition is shown in the supersteps that it goes through again is what was shown then.
#[test]
fn totals_are_shown_as_they_were(rt: HostRuntime) -> Result<(), Fail> {
    let alloc = rt.alloc();
    let graph = graph_of(alloc, &[(1, 0), (2, 0), (3, 0)], &[(1, 2), (1, 3), (2, 3)])?;
    let acts = [
        Step(0),
        Step(1),
        Step(2),
        Close,
        Step(0),
        Step(2),
        Lose(1),
        Host(1, 0),
        Restore(1),
    ];
    let none = AnyCombiner::NoCombiner;
    let reported = driven(
        alloc,
        &graph,
        Shed,
        &none,
        &NoMaster,
        limits_of(3, 2)?,
        &acts,
    )?;
    assert_eq!(rt;
        reported.as_str(),
        "0:1*2 0:2 0:3 1:1 1:2 1:3 others 0 calls 7 steps 2 3 2 1=1 2=1 3=1"
    );
    Ok(())
}

const INPUTS: [(u64, i64); 5] = [(1, 10), (2, 20), (3, 30), (4, 40), (5, 50)];

const EDGES: [(u64, u64); 5] = [(5, 3), (4, 3), (3, 1), (2, 3), (1, 3)];

// What a run on edited edges tells in which this happens, against one on those above; and what one does against that,
// on the same graph, in which nothing else happens. Vertices 2 and 4 are of partition 0 of two, which worker 0 has.
fn warm_tally(
    alloc: Global,
    edges: &[(u64, u64)],
    touched: &[u64],
    happenings: &[Happening],
) -> Result<(String, String), Fail> {
    let before = graph_of(alloc, &INPUTS, &EDGES)?;
    let after = graph_of(alloc, &INPUTS, edges)?;
    let mut ids = Vec::new(alloc);
    for number in touched {
        ids.push(id(*number)?)?;
    }
    let (none, limits) = (AnyCombiner::NoCombiner, limits_of(2, 2)?);
    let retained = left_by(alloc, &before, &Tally, &none, &NoMaster, limits)?;
    let (reported, retained) = driven_warm(
        alloc,
        &after,
        retained,
        ids.as_slice(),
        Tally,
        &none,
        &NoMaster,
        limits,
        happenings,
    )?;
    let (again, _) = driven_warm(
        alloc,
        &after,
        retained,
        &[],
        Tally,
        &none,
        &NoMaster,
        limits,
        &[],
    )?;
    Ok((reported, again))
}

#[test]
fn a_cold_sender_and_a_warm_receiver(rt: HostRuntime) -> Result<(), Fail> {
    let alloc = rt.alloc();
    let lost = [Lose(0), Host(0, 1), Restore(0)];
    let less = [(5, 3), (3, 1), (2, 3), (1, 3)];
    let (same, after) = warm_tally(alloc, &EDGES, &[], &lost)?;
    assert_eq!(rt;
        (same.as_str(), after.as_str()),
        (
            "0:2 0:4 others 0 calls 2 steps 2 2 1=(1 [30]) 2=(20 []) 3=(4 [10 20 40 50]) 4=(40 []) 5=(50 [])",
            "others 0 calls 0 steps 2 2 1=(1 [30]) 2=(20 []) 3=(4 [10 20 40 50]) 4=(40 []) 5=(50 [])"
        )
    );
    let (changed, after) = warm_tally(alloc, &less, &[4, 3], &lost)?;
    assert_eq!(rt;
        (changed.as_str(), after.as_str()),
        (
            "0:2 0:4 1:3 others 0 calls 3 steps 2 2 1=(1 [30]) 2=(20 []) 3=(3 [10 20 50]) 4=(40 []) 5=(50 [])",
            "others 0 calls 0 steps 2 2 1=(1 [30]) 2=(20 []) 3=(3 [10 20 50]) 4=(40 []) 5=(50 [])"
        )
    );
    Ok(())
}

// The partition that goes on warm is called only where something differs; the other one, lost as it had made a step
// against the old run, is called from superstep 0 on.
#[test]
fn a_partition_is_lost_in_a_warm_run(rt: HostRuntime) -> Result<(), Fail> {
    let alloc = rt.alloc();
    let more = [(5, 3), (4, 2), (4, 3), (3, 1), (2, 3), (1, 3)];
    let lost = [
        Step(0),
        Step(1),
        Close,
        Step(1),
        Lose(0),
        Host(0, 1),
        Restore(0),
    ];
    let (reported, after) = warm_tally(alloc, &more, &[4, 2], &lost)?;
    assert_eq!(rt;
        reported.as_str(),
        "0:2 0:4*2 1:2 others 0 calls 4 steps 3 2 1=(1 [30]) 2=(1 [40]) 3=(4 [10 20 40 50]) 4=(40 []) 5=(50 [])"
    );
    assert_eq!(rt;
        after.as_str(),
        "others 0 calls 0 steps 2 2 1=(1 [30]) 2=(1 [40]) 3=(4 [10 20 40 50]) 4=(40 []) 5=(50 [])"
    );
    Ok(())
}
